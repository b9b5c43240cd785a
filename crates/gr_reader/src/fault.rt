//! Why a file is refused.
ghost use Rattle.std.specs.Prelude.{◌≡◌};
ghost use Rattle.gr_reader.specs.declared.fault.GrFault.TheVariants.{Read, Memory};

use crate::section::Section;
use io_edge::SourceFault;
use std::alloc::{AllocError, AllocFailed};
use thiserror::Error;

/// What is wrong with a file, or what kept it from being read. The first that is met is told.
#[derive(Clone, Copy, Debug, PartialEq, Eq, Drop, Error)]
pub enum GrFault {
    /// The input ends in this section, after `got` of its bytes.
    #[error("the input ends in the section {section:?}, after {got} bytes of it")]
    Ends { section: Section, got: u64 },
    /// The version is not 1.
    #[error("the version {0} is not known")]
    Version(u64),
    /// The bytes of data of an edge are neither 0 nor 4.
    #[error("edges of {0} bytes of data are not known")]
    EdgeSize(u64),
    /// There are too many nodes.
    #[error("{0} nodes are too many")]
    Nodes(u64),
    /// There are too many edges.
    #[error("{0} edges are too many")]
    Edges(u64),
    /// The index entry of this node is below the one before it.
    #[error("the index falls at node {0}")]
    IndexFalls(u32),
    /// The last index entry is not the number of edges.
    #[error("the index ends with {got} for {want} edges")]
    IndexEnds { got: u64, want: u64 },
    /// This edge, counted from 0, leads to a number that is no node.
    #[error("edge {edge} leads to {dst}, which is no node")]
    Destination { edge: u32, dst: u32 },
    /// A read failed.
    #[error("a read failed")]
    Read,
    /// Memory ran out.
    #[error("out of memory")]
    Memory,
}

impl From<SourceFault> for GrFault {
    ghost from_gives = { λ _ fault. fault ≡ Read };

    fn from(_fault: SourceFault) -> GrFault {
        GrFault::Read
    }
}

impl From<AllocError> for GrFault {
    ghost from_gives = { λ _ fault. fault ≡ Memory };

    fn from(_error: AllocError) -> GrFault {
        GrFault::Memory
    }
}

impl<T: Drop> From<AllocFailed<T>> for GrFault {
    ghost from_gives = { λ _ fault. fault ≡ Memory };

    fn from(_error: AllocFailed<T>) -> GrFault {
        GrFault::Memory
    }
}
