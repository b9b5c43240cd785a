//! The destinations, from which the edges are made.
ghost use Rattle.std.specs.Prelude.{◌≡◌, ◌+◌, ◌-◌, ◌*◌, ◌/◌, ◌<◌, ◌≤◌, [], ◌∷◌, ◌++◌, length, drop, vec_len, None, IfOk, IfErr, OnOk};
ghost use Rattle.list_laws.specs.LittleEndian.{whole_numbers};
ghost use Rattle.list_laws.specs.Rising.{NeverFalls};
ghost use Rattle.gr_reader.specs.declared.section.Section.TheVariants as part;
ghost use Rattle.gr_reader.specs.Cause.{cause_of, IsOfSection, IsOfContent};
ghost use Rattle.edge_columns.specs.Columns.{last_entry, sources, plain_edges};
ghost use Rattle.gr_reader.specs.File.{destination_fault, destinations_at};
ghost use Rattle.gr_reader.specs.Reading.{IsHead, Counts};
ghost use Rattle.gr_reader.specs.Reach.{TakesAtMost};
ghost use Rattle.gr_reader.specs.Sections.{Came, Broke, IsFound};
ghost use Rattle.gr_reader.specs.EdgeLists.{unweighed, IsCursor, TookDestinations};

use crate::fault::GrFault;
use crate::head::Head;
use crate::intake::{Intake, read_section};
use crate::reader::BUFFER_BYTES;
use crate::section::Section;
use graph_model::Edge;
use io_edge::Source;
use std::alloc::Global;

/// The edges so far, and the node from which on the source of the next is found.
#[derive(Drop)]
struct DestinationIntake<'a> {
    nodes: u32,
    ends: &'a [u64],
    node: usize,
    edges: Vec<Edge>,
}

impl Intake for DestinationIntake<'_> {
    ghost fixed = { λ intake. record { nodes = intake.nodes; ends = intake.ends.now; edges = [] } };

    ghost section = { part.Destinations };

    ghost size = { 4 };

    ghost ready = { λ intake. IsCursor intake.ends.now intake.node (vec_len intake.edges) };

    ghost room = { λ intake. 4 * (last_entry 0 intake.ends.now - vec_len intake.edges) };

    ghost took = { λ intake numbers. TookDestinations intake.nodes intake.ends.now intake.edges.items numbers };

    ghost fault = { λ fixed numbers. destination_fault fixed.nodes 0 numbers };

    ghost clear = { λ intake numbers took. took.clear };

    fn take(&mut self, piece: &[u8]) -> Result<(), GrFault> {
        self.node = push_edges(&mut self.edges, self.nodes, self.ends, self.node, piece)?;
        Ok(())
    }
}

/// The source of the edge with this number: the first node from `node` on whose edges end after it.
fn next_source(ends: &[u64], node: usize, edge: u64) -> usize
    requires cursor { IsCursor ends.now node edge }
    requires more { edge < last_entry 0 ends.now }
    ensures within { result < length ends.now }
    ensures source { drop edge (sources 0 0 ends.now) ≡ result ∷ drop (edge + 1) (sources 0 0 ends.now) }
    ensures cursor { IsCursor ends.now result (edge + 1) }
{
    let mut source = node;
    while ends[source] <= edge {
        source += 1;
    }
    source
}

/// Pushes the edges to the destinations of a piece, and answers the node from which on the next source
/// is found.
fn push_edges(
    edges: &mut Vec<Edge>,
    nodes: u32,
    ends: &[u64],
    node: usize,
    piece: &[u8],
) -> Result<usize, GrFault>
    requires cursor { IsCursor ends.now node (vec_len edges.old) }
    requires room { length piece.now ≤ 4 * (last_entry 0 ends.now - vec_len edges.old) }
    ensures pushed { OnOk result (edges.new.items ≡ edges.old.items
        ++ plain_edges (drop (vec_len edges.old) (sources 0 0 ends.now)) (whole_numbers 4 piece.now)) }
    ensures count { OnOk result (vec_len edges.new ≡ vec_len edges.old + length piece.now / 4) }
    ensures cursor { IfOk result (λ source. IsCursor ends.now source (vec_len edges.new)) }
    ensures clear { OnOk result
        (destination_fault nodes (vec_len edges.old) (whole_numbers 4 piece.now) ≡ None) }
    ensures found { IfErr result
        (IsFound (destination_fault nodes (vec_len edges.old) (whole_numbers 4 piece.now))) }
    ensures kind { IfErr result (λ fault. IsOfContent part.Destinations (cause_of fault)) }
{
    let mut source = node;
    let mut rest = piece;
    while let Some((front, after)) = rest.split_first_chunk::<4>() {
        let dst = u32::from_le_bytes(*front);
        if dst >= nodes {
            return Err(GrFault::Destination {
                edge: edges.len() as u32,
                dst,
            });
        }
        source = next_source(ends, source, edges.len() as u64);
        edges.push(Edge {
            src: source as u32,
            dst,
            weight: 1,
        })?;
        rest = after;
    }
    Ok(source)
}

/// Reads the destinations, and makes the edges, each with weight 1.
pub(crate) fn read_destinations<S: Source>(
    alloc: Global,
    source: &mut S,
    buffer: &mut [u8],
    head: Head,
    ends: &[u64],
) -> Result<Vec<Edge>, GrFault>
    requires buffer { length buffer.old ≡ BUFFER_BYTES }
    requires head { IsHead head }
    requires nodes { length ends.now ≡ head.nodes }
    requires rising { NeverFalls 0 ends.now }
    requires edges { last_entry 0 ends.now ≡ head.edges }
    ensures came { IfOk result (λ edges.
        Came (S.left source.old) (S.left source.new) (destinations_at head)
        (λ numbers. TookDestinations head.nodes ends.now edges.items numbers)) }
    ensures broke { IfErr result (Broke (S.left source.old) (destinations_at head)) }
    ensures count { IfOk result (λ edges. length edges.items ≡ head.edges) }
    ensures ones { IfOk result (λ edges. unweighed edges.items ≡ edges.items) }
    ensures kind { IfErr result (λ fault. IsOfSection part.Destinations (cause_of fault)) }
    ensures taken { TakesAtMost (4 * head.edges) (S.left source.old) (S.left source.new) }
    ensures counts { Counts result (S.faults source.old) (S.faults source.new) }
{
    let mut intake = DestinationIntake {
        nodes: head.nodes,
        ends,
        node: 0,
        edges: Vec::new(alloc),
    };
    let want = 4 * head.edges as usize;
    read_section(source, buffer, Section::Destinations, want, &mut intake)?;
    Ok(intake.edges)
}
