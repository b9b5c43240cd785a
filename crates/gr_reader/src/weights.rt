//! The weights of the edges.
ghost use Rattle.std.specs.Prelude.{◌≡◌, ◌-◌, ◌*◌, ◌/◌, ◌^◌, ◌<◌, ◌≤◌, [], length, All, vec_len, refl, IfOk, IfErr, OnOk};
ghost use Rattle.list_laws.specs.LittleEndian.{whole_numbers};
ghost use Rattle.gr_reader.specs.declared.section.Section.TheVariants as part;
ghost use Rattle.gr_reader.specs.Cause.{cause_of, IsOfSection};
ghost use Rattle.edge_columns.specs.Columns.{weighed};
ghost use Rattle.gr_reader.specs.File.{no_fault, weight_bytes, weights_at};
ghost use Rattle.gr_reader.specs.Reading.{IsHead, Counts};
ghost use Rattle.gr_reader.specs.Reach.{TakesAtMost};
ghost use Rattle.gr_reader.specs.Sections.{Came, Broke};
ghost use Rattle.gr_reader.specs.EdgeLists.{unweighed, TookWeights};

use crate::fault::GrFault;
use crate::head::Head;
use crate::intake::{Intake, read_section};
use crate::reader::BUFFER_BYTES;
use crate::section::Section;
use graph_model::Edge;
use io_edge::Source;

/// The edges, the first of which have their weights, and how many have.
#[derive(Drop)]
struct WeightIntake {
    edges: Vec<Edge>,
    place: usize,
}

impl Intake for WeightIntake {
    ghost fixed = { λ intake. record { nodes = 0; ends = []; edges = unweighed intake.edges.items } };

    ghost section = { part.Weights };

    ghost size = { 4 };

    ghost ready = { λ intake. intake.place ≤ vec_len intake.edges };

    ghost room = { λ intake. 4 * (vec_len intake.edges - intake.place) };

    ghost took = { λ intake numbers. TookWeights intake.edges.items intake.place numbers };

    ghost fault = { λ fixed numbers. no_fault numbers };

    ghost clear = { λ intake numbers took. refl };

    fn take(&mut self, piece: &[u8]) -> Result<(), GrFault> {
        set_weights(&mut self.edges[self.place..], piece);
        self.place += piece.len() / 4;
        Ok(())
    }
}

/// Gives the first edges the weights of a piece.
fn set_weights(edges: &mut [Edge], piece: &[u8])
    requires { length piece.now / 4 ≤ length edges.old }
    ensures { edges.new ≡ weighed edges.old (whole_numbers 4 piece.now) }
{
    let mut place = 0;
    let mut rest = piece;
    while let Some((front, after)) = rest.split_first_chunk::<4>() {
        edges[place].weight = u32::from_le_bytes(*front);
        place += 1;
        rest = after;
    }
}

/// The bytes of the weights: 4 for each edge, where edges have weights.
pub(crate) fn weight_length(head: Head) -> usize
    ensures bytes { result ≡ weight_bytes head }
    ensures most { result ≤ 4 * head.edges }
{
    if head.edge_size == 0 {
        0
    } else {
        4 * head.edges as usize
    }
}

/// Reads the weights of the edges, each of which has weight 1 so far.
pub(crate) fn read_weights<S: Source>(
    source: &mut S,
    buffer: &mut [u8],
    head: Head,
    edges: Vec<Edge>,
) -> Result<Vec<Edge>, GrFault>
    requires buffer { length buffer.old ≡ BUFFER_BYTES }
    requires head { IsHead head }
    requires count { length edges.items ≡ head.edges }
    requires ones { unweighed edges.items ≡ edges.items }
    ensures came { IfOk result (λ found.
        Came (S.left source.old) (S.left source.new) (weights_at head)
        (λ numbers. (found.items ≡ weighed edges.items numbers) × All (λ weight. weight < 2 ^ 32) numbers)) }
    ensures broke { IfErr result (Broke (S.left source.old) (weights_at head)) }
    ensures kind { IfErr result (λ fault. IsOfSection part.Weights (cause_of fault)) }
    ensures taken { TakesAtMost (weight_bytes head) (S.left source.old) (S.left source.new) }
    ensures counts { Counts result (S.faults source.old) (S.faults source.new) }
{
    let want = weight_length(head);
    let mut intake = WeightIntake { edges, place: 0 };
    read_section(source, buffer, Section::Weights, want, &mut intake)?;
    Ok(intake.edges)
}
