//! A whole graph from a file.
ghost use Rattle.std.specs.Prelude.{◌≡◌, length, IfOk, IfSome, IfErr, OnOk, OnErr};
ghost use Rattle.gr_reader.specs.declared.stage.Stage.TheVariants as stages;
ghost use Rattle.gr_reader.specs.Cause.{IsOfRest};
ghost use Rattle.gr_reader.specs.File.{rest_at, file_at};
ghost use Rattle.gr_reader.specs.Reading.{IsHead, Means, Counts};
ghost use Rattle.gr_reader.specs.Reach.{TakesAtMost, reach, file_reach};

use crate::destinations::read_destinations;
use crate::fault::GrFault;
use crate::head::Head;
use crate::index::read_index;
use crate::padding::read_padding;
use crate::reader::{BUFFER_BYTES, GrReader};
use crate::stage::Stage;
use crate::weights::read_weights;
use graph_model::EdgeList;
use io_edge::Source;
use std::alloc::Global;

/// Reads all sections behind the head, and makes the graph of them.
fn read_sections<S: Source>(
    alloc: Global,
    source: &mut S,
    buffer: &mut [u8],
    head: Head,
) -> Result<EdgeList, GrFault>
    requires buffer { length buffer.old ≡ BUFFER_BYTES }
    requires head { IsHead head }
    ensures means { IfSome (S.left source.old) (λ bytes.
        Means (λ graph. graph) result (S.left source.new) (rest_at head bytes)) }
    ensures nodes { IfOk result (λ graph. graph.nodes ≡ head.nodes) }
    ensures faults { IfErr result IsOfRest }
    ensures taken { TakesAtMost (reach head result) (S.left source.old) (S.left source.new) }
    ensures counts { Counts result (S.faults source.old) (S.faults source.new) }
{
    let edges = {
        let ends = read_index(alloc, source, buffer, head)?;
        read_destinations(alloc, source, buffer, head, &ends)?
    };
    read_padding(source, buffer, head)?;
    let edges = read_weights(source, buffer, head, edges)?;
    Ok(EdgeList::from_parts(head.nodes, edges))
}

/// Reads all that follows the head: the graph.
pub fn read_rest<S: Source>(
    alloc: Global,
    reader: &mut GrReader,
    source: &mut S,
) -> Result<EdgeList, GrFault>
    requires { reader.old.stage ≡ stages.Index }
    // The graph is the one that the bytes have, or the fault is their first, unless a read failed or
    // memory ran out.
    ensures means { IfSome (S.left source.old) (λ bytes.
        Means (λ graph. graph) result (S.left source.new) (rest_at reader.old.head bytes)) }
    ensures nodes { IfOk result (λ graph. graph.nodes ≡ reader.old.head.nodes) }
    ensures faults { IfErr result IsOfRest }
    ensures head { reader.new.head ≡ reader.old.head }
    ensures ok { OnOk result (reader.new.stage ≡ stages.Done) }
    ensures failed { OnErr result (reader.new.stage ≡ stages.Failed) }
    // A fault of a section leaves what follows the section.
    ensures taken { TakesAtMost (reach reader.old.head result) (S.left source.old) (S.left source.new) }
    ensures counts { Counts result (S.faults source.old) (S.faults source.new) }
{
    reader.stage = Stage::Failed;
    let graph = read_sections(alloc, source, &mut reader.buffer, reader.head)?;
    reader.stage = Stage::Done;
    Ok(graph)
}

/// Reads a file: the graph.
pub fn read_graph<S: Source>(alloc: Global, source: &mut S) -> Result<EdgeList, GrFault>
    // The graph is the one that the bytes have, or the fault is their first, unless a read failed or
    // memory ran out.
    ensures means { IfSome (S.left source.old) (λ bytes.
        Means (λ graph. graph) result (S.left source.new) (file_at bytes)) }
    // A fault of a section leaves what follows the section.
    ensures taken { TakesAtMost (file_reach (S.left source.old) result) (S.left source.old) (S.left source.new) }
    ensures counts { Counts result (S.faults source.old) (S.faults source.new) }
{
    let mut reader = GrReader::new(alloc)?;
    reader.read_head(source)?;
    read_rest(alloc, &mut reader, source)
}
