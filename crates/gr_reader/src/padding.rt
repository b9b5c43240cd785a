//! The padding before the weights.
ghost use Rattle.std.specs.Prelude.{◌≡◌, ◌≤◌, [], length, refl, IfErr, OnOk};
ghost use Rattle.gr_reader.specs.declared.section.Section.TheVariants as part;
ghost use Rattle.gr_reader.specs.Cause.{cause_of, IsOfSection};
ghost use Rattle.gr_reader.specs.File.{no_fault, padding, padding_at};
ghost use Rattle.gr_reader.specs.Reading.{Counts};
ghost use Rattle.gr_reader.specs.Reach.{TakesAtMost};
ghost use Rattle.gr_reader.specs.Sections.{Came, Broke};

use crate::fault::GrFault;
use crate::head::Head;
use crate::intake::{Intake, read_section};
use crate::reader::BUFFER_BYTES;
use crate::section::Section;
use io_edge::Source;

/// Takes padding in, and keeps nothing of it.
#[derive(Drop)]
struct PaddingIntake;

impl Intake for PaddingIntake {
    ghost fixed = { λ intake. record { nodes = 0; ends = []; edges = [] } };

    ghost section = { part.Padding };

    ghost size = { 4 };

    ghost ready = { λ intake. Unit {0} };

    ghost room = { λ intake. 4 };

    ghost took = { λ intake numbers. Unit {0} };

    ghost fault = { λ fixed numbers. no_fault numbers };

    ghost clear = { λ intake numbers took. refl };

    fn take(&mut self, _piece: &[u8]) -> Result<(), GrFault> {
        Ok(())
    }
}

/// The bytes of padding before the weights: 4 where the edges have weights and are odd in number.
fn padding_length(head: Head) -> usize
    ensures bytes { result ≡ padding head }
    ensures few { result ≤ 4 }
{
    if head.edge_size == 4 && head.edges % 2 == 1 {
        4
    } else {
        0
    }
}

/// Reads the padding, which may be any bytes.
pub(crate) fn read_padding<S: Source>(
    source: &mut S,
    buffer: &mut [u8],
    head: Head,
) -> Result<(), GrFault>
    requires { length buffer.old ≡ BUFFER_BYTES }
    ensures came { OnOk result
        (Came (S.left source.old) (S.left source.new) (padding_at head) (λ numbers. Unit {0})) }
    ensures broke { IfErr result (Broke (S.left source.old) (padding_at head)) }
    ensures kind { IfErr result (λ fault. IsOfSection part.Padding (cause_of fault)) }
    ensures taken { TakesAtMost (padding head) (S.left source.old) (S.left source.new) }
    ensures counts { Counts result (S.faults source.old) (S.faults source.new) }
{
    let want = padding_length(head);
    read_section(source, buffer, Section::Padding, want, &mut PaddingIntake)?;
    Ok(())
}
