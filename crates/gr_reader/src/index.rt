//! The index: where the edges of each node end.
ghost use Rattle.std.specs.Prelude.{◌≡◌, ◌-◌, ◌*◌, ◌≤◌, [], ◌++◌, length, vec_len, None, IfOk, IfErr, OnOk};
ghost use Rattle.list_laws.specs.LittleEndian.{whole_numbers};
ghost use Rattle.list_laws.specs.Rising.{NeverFalls};
ghost use Rattle.graph_model.specs.Graph.{most_nodes};
ghost use Rattle.gr_reader.specs.declared.section.Section.TheVariants as part;
ghost use Rattle.gr_reader.specs.Cause.{cause_of, IsOfSection, IsOfContent};
ghost use Rattle.edge_columns.specs.Columns.{last_entry};
ghost use Rattle.gr_reader.specs.File.{entry_fault, index_at};
ghost use Rattle.gr_reader.specs.Reading.{IsHead, Counts};
ghost use Rattle.gr_reader.specs.Reach.{TakesAtMost};
ghost use Rattle.gr_reader.specs.Sections.{Came, Broke, IsFound, TookIndex};

use crate::fault::GrFault;
use crate::head::Head;
use crate::intake::{Intake, read_section};
use crate::reader::BUFFER_BYTES;
use crate::section::Section;
use io_edge::Source;
use std::alloc::Global;

/// The entries so far, and the last of them, or 0.
#[derive(Drop)]
struct IndexIntake {
    entries: Vec<u64>,
    before: u64,
}

impl Intake for IndexIntake {
    ghost fixed = { λ index. record { nodes = 0; ends = []; edges = [] } };

    ghost section = { part.Index };

    ghost size = { 8 };

    ghost ready = { λ index. Unit {0} };

    ghost room = { λ index. 8 * (most_nodes - vec_len index.entries) };

    ghost took = { λ index numbers. TookIndex index.entries.items index.before numbers };

    ghost fault = { λ fixed numbers. entry_fault 0 0 numbers };

    ghost clear = { λ index numbers took. took.clear };

    fn take(&mut self, piece: &[u8]) -> Result<(), GrFault> {
        self.before = push_entries(&mut self.entries, self.before, piece)?;
        Ok(())
    }
}

/// Pushes the entries of a piece behind those so far, the last of which is `before`, and answers the
/// last now.
fn push_entries(entries: &mut Vec<u64>, before: u64, piece: &[u8]) -> Result<u64, GrFault>
    requires { length piece.now ≤ 8 * (most_nodes - vec_len entries.old) }
    ensures pushed { OnOk result (entries.new.items ≡ entries.old.items ++ whole_numbers 8 piece.now) }
    ensures last { IfOk result (λ last. last ≡ last_entry before (whole_numbers 8 piece.now)) }
    ensures clear { OnOk result (entry_fault (vec_len entries.old) before (whole_numbers 8 piece.now) ≡ None) }
    ensures found { IfErr result
        (IsFound (entry_fault (vec_len entries.old) before (whole_numbers 8 piece.now))) }
    ensures kind { IfErr result (λ fault. IsOfContent part.Index (cause_of fault)) }
{
    let mut last = before;
    let mut rest = piece;
    while let Some((front, after)) = rest.split_first_chunk::<8>() {
        let entry = u64::from_le_bytes(*front);
        if entry < last {
            return Err(GrFault::IndexFalls(entries.len() as u32));
        }
        entries.push(entry)?;
        last = entry;
        rest = after;
    }
    Ok(last)
}

/// Reads the index: for each node, the number of the edge after its last.
pub(crate) fn read_index<S: Source>(
    alloc: Global,
    source: &mut S,
    buffer: &mut [u8],
    head: Head,
) -> Result<Vec<u64>, GrFault>
    requires buffer { length buffer.old ≡ BUFFER_BYTES }
    requires head { IsHead head }
    ensures came { IfOk result (λ index.
        Came (S.left source.old) (S.left source.new) (index_at head) (λ numbers. index.items ≡ numbers)) }
    ensures broke { IfErr result (Broke (S.left source.old) (index_at head)) }
    ensures nodes { IfOk result (λ index. length index.items ≡ head.nodes) }
    ensures rising { IfOk result (λ index. NeverFalls 0 index.items) }
    ensures edges { IfOk result (λ index. last_entry 0 index.items ≡ head.edges) }
    ensures kind { IfErr result (λ fault. IsOfSection part.Index (cause_of fault)) }
    ensures taken { TakesAtMost (8 * head.nodes) (S.left source.old) (S.left source.new) }
    ensures counts { Counts result (S.faults source.old) (S.faults source.new) }
{
    let mut index = IndexIntake {
        entries: Vec::new(alloc),
        before: 0,
    };
    let want = 8 * head.nodes as usize;
    read_section(source, buffer, Section::Index, want, &mut index)?;
    if index.before != head.edges as u64 {
        return Err(GrFault::IndexEnds {
            got: index.before,
            want: head.edges as u64,
        });
    }
    Ok(index.entries)
}
