//! A whole graph from a file, by column.
ghost use Rattle.std.specs.Prelude.{◌≡◌, ◌-◌, ◌*◌, ◌≤◌, [], ◌∷◌, ◌++◌, length, All, vec_len, refl, None, IfOk, IfErr, IfSome, OnOk, OnErr};
ghost use Rattle.list_laws.specs.LittleEndian.{whole_numbers};
ghost use Rattle.graph_model.specs.Graph.{most_edges};
ghost use Rattle.gr_reader.specs.declared.section.Section.TheVariants as part;
ghost use Rattle.gr_reader.specs.declared.stage.Stage.TheVariants as stages;
ghost use Rattle.gr_reader.specs.Cause.{cause_of, IsOfSection, IsOfContent, IsOfRest};
ghost use Rattle.gr_reader.specs.File.{no_fault, destination_fault, index_at, destinations_at, weight_bytes, weights_at, rest_at};
ghost use Rattle.gr_reader.specs.Reading.{IsHead, Means, Counts};
ghost use Rattle.gr_reader.specs.Reach.{TakesAtMost, reach};
ghost use Rattle.gr_reader.specs.Sections.{Came, Broke, IsFound};
ghost use Rattle.gr_reader.specs.ColumnLists.{AreStarts, TookDestinationColumn, TookWeightColumn, AreWeights};

use crate::fault::GrFault;
use crate::head::Head;
use crate::index::read_index;
use crate::intake::{Intake, read_section};
use crate::padding::read_padding;
use crate::reader::{BUFFER_BYTES, GrReader};
use crate::section::Section;
use crate::stage::Stage;
use crate::weights::weight_length;
use edge_columns::EdgeColumns;
use io_edge::Source;
use std::alloc::{AllocError, Global};

/// The destinations so far.
#[derive(Drop)]
struct DestinationColumn {
    nodes: u32,
    destinations: Vec<u32>,
}

impl Intake for DestinationColumn {
    ghost fixed = { λ column. record { nodes = column.nodes; ends = []; edges = [] } };

    ghost section = { part.Destinations };

    ghost size = { 4 };

    ghost ready = { λ column. Unit {0} };

    ghost room = { λ column. 4 * (most_edges - vec_len column.destinations) };

    ghost took = { λ column numbers. TookDestinationColumn column.nodes column.destinations.items numbers };

    ghost fault = { λ fixed numbers. destination_fault fixed.nodes 0 numbers };

    ghost clear = { λ column numbers took. took.clear };

    fn take(&mut self, piece: &[u8]) -> Result<(), GrFault> {
        push_destinations(&mut self.destinations, self.nodes, piece)?;
        Ok(())
    }
}

/// The weights so far.
#[derive(Drop)]
struct WeightColumn {
    weights: Vec<u32>,
}

impl Intake for WeightColumn {
    ghost fixed = { λ column. record { nodes = 0; ends = []; edges = [] } };

    ghost section = { part.Weights };

    ghost size = { 4 };

    ghost ready = { λ column. Unit {0} };

    ghost room = { λ column. 4 * (most_edges - vec_len column.weights) };

    ghost took = { λ column numbers. TookWeightColumn column.weights.items numbers };

    ghost fault = { λ fixed numbers. no_fault numbers };

    ghost clear = { λ column numbers took. refl };

    fn take(&mut self, piece: &[u8]) -> Result<(), GrFault> {
        push_weights(&mut self.weights, piece)?;
        Ok(())
    }
}

/// Pushes the destinations of a piece behind those so far.
fn push_destinations(destinations: &mut Vec<u32>, nodes: u32, piece: &[u8]) -> Result<(), GrFault>
    requires { length piece.now ≤ 4 * (most_edges - vec_len destinations.old) }
    ensures pushed { OnOk result (destinations.new.items ≡ destinations.old.items ++ whole_numbers 4 piece.now) }
    ensures clear { OnOk result
        (destination_fault nodes (vec_len destinations.old) (whole_numbers 4 piece.now) ≡ None) }
    ensures found { IfErr result
        (IsFound (destination_fault nodes (vec_len destinations.old) (whole_numbers 4 piece.now))) }
    ensures kind { IfErr result (λ fault. IsOfContent part.Destinations (cause_of fault)) }
{
    let mut rest = piece;
    while let Some((front, after)) = rest.split_first_chunk::<4>() {
        let dst = u32::from_le_bytes(*front);
        if dst >= nodes {
            return Err(GrFault::Destination {
                edge: destinations.len() as u32,
                dst,
            });
        }
        destinations.push(dst)?;
        rest = after;
    }
    Ok(())
}

/// Pushes the weights of a piece behind those so far.
fn push_weights(weights: &mut Vec<u32>, piece: &[u8]) -> Result<(), AllocError>
    ensures { OnOk result (weights.new.items ≡ weights.old.items ++ whole_numbers 4 piece.now) }
{
    let mut rest = piece;
    while let Some((front, after)) = rest.split_first_chunk::<4>() {
        weights.push(u32::from_le_bytes(*front))?;
        rest = after;
    }
    Ok(())
}

/// Where the edges of each node start, and behind the last where they end: 0, and then the entries of the index.
fn starts_from(alloc: Global, ends: &[u64]) -> Result<Vec<u32>, AllocError>
    requires { All (λ end. end ≤ most_edges) ends.now }
    ensures { IfOk result (λ starts. starts.items ≡ 0 ∷ ends.now) }
{
    let mut starts = Vec::with_capacity(alloc, ends.len() + 1)?;
    starts.push(0)?;
    for end in ends {
        starts.push(*end as u32)?;
    }
    Ok(starts)
}

/// Reads the index, and makes the starts of it.
fn read_starts<S: Source>(
    alloc: Global,
    source: &mut S,
    buffer: &mut [u8],
    head: Head,
) -> Result<Vec<u32>, GrFault>
    requires buffer { length buffer.old ≡ BUFFER_BYTES }
    requires head { IsHead head }
    ensures came { IfOk result (λ starts.
        Came (S.left source.old) (S.left source.new) (index_at head)
        (λ numbers. AreStarts head starts.items numbers)) }
    ensures broke { IfErr result (Broke (S.left source.old) (index_at head)) }
    ensures kind { IfErr result (λ fault. IsOfSection part.Index (cause_of fault)) }
    ensures taken { TakesAtMost (8 * head.nodes) (S.left source.old) (S.left source.new) }
    ensures counts { Counts result (S.faults source.old) (S.faults source.new) }
{
    let ends = read_index(alloc, source, buffer, head)?;
    let starts = starts_from(alloc, &ends)?;
    Ok(starts)
}

/// Reads the destinations.
fn read_destination_column<S: Source>(
    alloc: Global,
    source: &mut S,
    buffer: &mut [u8],
    head: Head,
) -> Result<Vec<u32>, GrFault>
    requires buffer { length buffer.old ≡ BUFFER_BYTES }
    requires head { IsHead head }
    ensures came { IfOk result (λ destinations.
        Came (S.left source.old) (S.left source.new) (destinations_at head)
        (λ numbers. TookDestinationColumn head.nodes destinations.items numbers)) }
    ensures broke { IfErr result (Broke (S.left source.old) (destinations_at head)) }
    ensures count { IfOk result (λ destinations. length destinations.items ≡ head.edges) }
    ensures kind { IfErr result (λ fault. IsOfSection part.Destinations (cause_of fault)) }
    ensures taken { TakesAtMost (4 * head.edges) (S.left source.old) (S.left source.new) }
    ensures counts { Counts result (S.faults source.old) (S.faults source.new) }
{
    let mut column = DestinationColumn {
        nodes: head.nodes,
        destinations: Vec::new(alloc),
    };
    let want = 4 * head.edges as usize;
    read_section(source, buffer, Section::Destinations, want, &mut column)?;
    Ok(column.destinations)
}

/// Reads the weights, each of which is 1 where the file has none.
fn read_weight_column<S: Source>(
    alloc: Global,
    source: &mut S,
    buffer: &mut [u8],
    head: Head,
) -> Result<Vec<u32>, GrFault>
    requires buffer { length buffer.old ≡ BUFFER_BYTES }
    requires head { IsHead head }
    ensures came { IfOk result (λ weights.
        Came (S.left source.old) (S.left source.new) (weights_at head)
        (λ numbers. AreWeights head.edges weights.items numbers)) }
    ensures broke { IfErr result (Broke (S.left source.old) (weights_at head)) }
    ensures kind { IfErr result (λ fault. IsOfSection part.Weights (cause_of fault)) }
    ensures taken { TakesAtMost (weight_bytes head) (S.left source.old) (S.left source.new) }
    ensures counts { Counts result (S.faults source.old) (S.faults source.new) }
{
    let mut column = WeightColumn {
        weights: Vec::new(alloc),
    };
    let want = weight_length(head);
    read_section(source, buffer, Section::Weights, want, &mut column)?;
    let mut weights = column.weights;
    weights.resize(head.edges as usize, 1)?;
    Ok(weights)
}

/// Reads all sections behind the head, and makes the graph of them.
fn read_column_sections<S: Source>(
    alloc: Global,
    source: &mut S,
    buffer: &mut [u8],
    head: Head,
) -> Result<EdgeColumns, GrFault>
    requires buffer { length buffer.old ≡ BUFFER_BYTES }
    requires head { IsHead head }
    ensures means { IfSome (S.left source.old) (λ bytes.
        Means (λ graph. graph) result (S.left source.new) (rest_at head bytes)) }
    ensures nodes { IfOk result (λ graph. graph.nodes ≡ head.nodes) }
    ensures faults { IfErr result IsOfRest }
    ensures taken { TakesAtMost (reach head result) (S.left source.old) (S.left source.new) }
    ensures counts { Counts result (S.faults source.old) (S.faults source.new) }
{
    let starts = read_starts(alloc, source, buffer, head)?;
    let destinations = read_destination_column(alloc, source, buffer, head)?;
    read_padding(source, buffer, head)?;
    let weights = read_weight_column(alloc, source, buffer, head)?;
    Ok(EdgeColumns::from_parts(starts, destinations, weights))
}

/// Reads all that follows the head: the graph, by column.
pub fn read_columns<S: Source>(
    alloc: Global,
    reader: &mut GrReader,
    source: &mut S,
) -> Result<EdgeColumns, GrFault>
    requires { reader.old.stage ≡ stages.Index }
    // The graph is the one that the bytes have, or the fault is their first, unless a read failed or
    // memory ran out.
    ensures means { IfSome (S.left source.old) (λ bytes.
        Means (λ graph. graph) result (S.left source.new) (rest_at reader.old.head bytes)) }
    ensures nodes { IfOk result (λ graph. graph.nodes ≡ reader.old.head.nodes) }
    ensures faults { IfErr result IsOfRest }
    ensures head { reader.new.head ≡ reader.old.head }
    ensures ok { OnOk result (reader.new.stage ≡ stages.Done) }
    ensures failed { OnErr result (reader.new.stage ≡ stages.Failed) }
    // A fault of a section leaves what follows the section.
    ensures taken { TakesAtMost (reach reader.old.head result) (S.left source.old) (S.left source.new) }
    ensures counts { Counts result (S.faults source.old) (S.faults source.new) }
{
    reader.stage = Stage::Failed;
    let graph = read_column_sections(alloc, source, &mut reader.buffer, reader.head)?;
    reader.stage = Stage::Done;
    Ok(graph)
}
