//! How a section is read: by pieces, each taken in before the next is read.
ghost use Rattle.std.specs.Prelude.{◌≡◌, ℕ, ◌+◌, ◌<◌, ◌≤◌, ◌/◌, ◌^◌, List, [], ◌++◌, length, min, Option, None, IfOk, IfErr, OnOk};
ghost use Rattle.list_laws.specs.LittleEndian.{whole_numbers};
ghost use Rattle.io_edge.specs.Bytes.{Gives};
ghost use Rattle.gr_reader.specs.declared.section.Section.{Section};
ghost use Rattle.gr_reader.specs.declared.fault.GrFault.{GrFault};
ghost use Rattle.gr_reader.specs.Cause.{cause_of, IsOfSection, IsOfContent};
ghost use Rattle.gr_reader.specs.File.{section_at};
ghost use Rattle.gr_reader.specs.Reading.{Counts};
ghost use Rattle.gr_reader.specs.Reach.{TakesAtMost};
ghost use Rattle.gr_reader.specs.Sections.{Fixed, IsSize, IsAtEnd, Came, Broke, IsFound, FindsFirst};

use crate::fault::GrFault;
use crate::fill::fill;
use crate::reader::BUFFER_BYTES;
use crate::section::Section;
use io_edge::Source;

/// Takes in the numbers of a section, piece by piece. All pieces but the last have 65,536 bytes.
pub(crate) trait Intake {
    /// What stays as it is.
    ghost fixed: { Self → Fixed };

    /// The section that it takes in.
    ghost section: { Section };

    /// How many bytes each number has.
    ghost size: { ℕ };

    /// What holds of it before each piece.
    ghost ready: { Self → Type 0 };

    /// How many more bytes it can take.
    ghost room: { Self → ℕ };

    /// It has taken these numbers from the front of the section, and they have no fault.
    ghost took: { Self → List ℕ → Type 0 };

    /// The first fault of these numbers.
    ghost fault: { Fixed → List ℕ → Option GrFault };

    /// What was taken has no fault.
    ghost clear: { (intake : Self) (numbers : List ℕ) → took intake numbers → fault (fixed intake) numbers ≡ None };

    /// Takes the next piece.
    fn take(&mut self, piece: &[u8]) -> Result<(), GrFault>
        requires ready { ready self.old }
        requires room { length piece.now ≤ room self.old }
        ensures ready { OnOk result (ready self.new) }
        ensures took { OnOk result ((numbers : List ℕ) →
            took self.old numbers → took self.new (numbers ++ whole_numbers size piece.now)) }
        ensures found { IfErr result (λ found. (numbers : List ℕ) → took self.old numbers →
            IsFound (fault (fixed self.old) (numbers ++ whole_numbers size piece.now)) found) }
        ensures kind { IfErr result (λ found. IsOfContent section (cause_of found)) }
        ensures fixed { fixed self.new ≡ fixed self.old }
        ensures room { OnOk result (room self.old ≤ room self.new + length piece.now) };
}

/// Reads the next piece of a section that has `rest` bytes more: `BUFFER_BYTES` of them or all.
pub(crate) fn next_piece<'a, S: Source>(
    source: &mut S,
    buffer: &'a mut [u8],
    rest: usize,
) -> Result<&'a [u8], GrFault>
    requires { length buffer.old ≡ BUFFER_BYTES }
    ensures count { IfOk result (λ piece. length piece.now ≤ min rest BUFFER_BYTES) }
    ensures bytes { IfOk result (λ piece. Gives (S.left source.old) (S.left source.new) piece.now) }
    ensures end { IfOk result (λ piece. length piece.now < min rest BUFFER_BYTES → IsAtEnd (S.left source.new)) }
    ensures taken { TakesAtMost rest (S.left source.old) (S.left source.new) }
    ensures counts { Counts result (S.faults source.old) (S.faults source.new) }
    ensures read { IfErr result (λ fault. fault ≡ GrFault.Read) }
{
    let wanted = rest.min(BUFFER_BYTES);
    let came = fill(source, &mut buffer[..wanted])?;
    Ok(&buffer[..came])
}

/// Reads the `want` bytes of a section, and gives them to the intake.
pub(crate) fn read_section<S: Source, T: Intake>(
    source: &mut S,
    buffer: &mut [u8],
    section: Section,
    want: usize,
    intake: &mut T,
) -> Result<(), GrFault>
    requires buffer { length buffer.old ≡ BUFFER_BYTES }
    requires section { section ≡ T.section }
    requires size { IsSize T.size }
    requires want { want < 2 ^ 32 }
    requires start { T.took intake.old [] }
    requires ready { T.ready intake.old }
    requires room { want ≤ T.room intake.old }
    requires first { FindsFirst (T.fault (T.fixed intake.old)) }
    ensures came { OnOk result (Came (S.left source.old) (S.left source.new)
        (section_at T.section T.size want (T.fault (T.fixed intake.old)))
        (λ numbers. (length numbers ≡ want / T.size) × T.took intake.new numbers)) }
    ensures broke { IfErr result
        (Broke (S.left source.old) (section_at T.section T.size want (T.fault (T.fixed intake.old)))) }
    ensures fixed { T.fixed intake.new ≡ T.fixed intake.old }
    ensures kind { IfErr result (λ fault. IsOfSection T.section (cause_of fault)) }
    ensures taken { TakesAtMost want (S.left source.old) (S.left source.new) }
    ensures counts { Counts result (S.faults source.old) (S.faults source.new) }
{
    let mut got = 0;
    while got < want {
        let piece = next_piece(source, buffer, want - got)?;
        intake.take(piece)?;
        got += piece.len();
        if piece.len() < BUFFER_BYTES && got < want {
            return Err(GrFault::Ends {
                section,
                got: got as u64,
            });
        }
    }
    Ok(())
}
