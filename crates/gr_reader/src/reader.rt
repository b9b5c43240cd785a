//! The reader of a file, stage by stage.
ghost use Rattle.std.specs.Prelude.{◌≡◌, IfOk, IfErr, IfSome, OnErr};

use crate::fault::GrFault;
use crate::head::{Head, take_head};
use crate::stage::Stage;
use io_edge::Source;
use std::alloc::{AllocError, Global};
use std::marker::Model;

/// The most bytes that one read asks for.
pub(crate) const BUFFER_BYTES: usize = 65_536;

/// Reads a file from a source, a piece of at most 65,536 bytes at a time, and never past the last field.
#[derive(Drop)]
pub struct GrReader {
    pub(crate) buffer: Vec<u8>,
    pub(crate) stage: Stage,
    pub(crate) head: Head,
}

impl Model for GrReader {
    ghost use Rattle.std.specs.Prelude.{◌≡◌, vec_len};
    ghost use Rattle.gr_reader.specs.declared.reader.TheConstants.{BUFFER_BYTES};
    ghost use Rattle.gr_reader.specs.Reading.{Reading, IsHead};

    ghost Value = { Reading };

    ghost view = { λ reader. record { stage = reader.stage; head = reader.head } };

    ghost invariant = { λ reader. (vec_len reader.buffer ≡ BUFFER_BYTES) × IsHead reader.head };
}

impl GrReader {
    ghost use Rattle.gr_reader.specs.File.{head_at};
    ghost use Rattle.gr_reader.specs.Cause.{IsOfHead};
    ghost use Rattle.gr_reader.specs.Reading.{IsHead, Means, Counts};
    ghost use Rattle.gr_reader.specs.Reach.{TakesAtMost};

    /// A reader at the start of a file. It takes the one buffer that it reads into.
    pub fn new(alloc: Global) -> Result<GrReader, AllocError>
        ensures { IfOk result (λ reader. reader.stage ≡ Stage.Head) }
    {
        let buffer = vec![in alloc; 0u8; BUFFER_BYTES]?;
        Ok(GrReader {
            buffer,
            stage: Stage::Head,
            head: Head {
                version: 1,
                edge_size: 0,
                nodes: 0,
                edges: 0,
            },
        })
    }

    /// What the reader reads next. After a fault it is `Failed`, and nothing more may be read.
    pub fn stage(&self) -> Stage
        ensures { result ≡ self.now.stage }
    {
        self.stage
    }

    /// Reads the head.
    pub fn read_head<S: Source>(&mut self, source: &mut S) -> Result<Head, GrFault>
        requires { self.old.stage ≡ Stage.Head }
        // The head is the one that the bytes have, or the fault is their first, unless a read failed.
        ensures means { IfSome (S.left source.old) (λ bytes.
            Means (λ head. head) result (S.left source.new) (head_at bytes)) }
        ensures accepted { IfOk result IsHead }
        ensures faults { IfErr result IsOfHead }
        ensures ok { IfOk result (λ head. self.new ≡ record { stage = Stage.Index; head = head }) }
        ensures failed { OnErr result (self.new.stage ≡ Stage.Failed) }
        // A fault too leaves what follows the 32 bytes of the head.
        ensures taken { TakesAtMost 32 (S.left source.old) (S.left source.new) }
        ensures counts { Counts result (S.faults source.old) (S.faults source.new) }
    {
        self.stage = Stage::Failed;
        let head = take_head(source, &mut self.buffer)?;
        self.head = head;
        self.stage = Stage::Index;
        Ok(head)
    }
}
