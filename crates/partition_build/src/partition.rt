//! The local graphs of a graph in memory, and of a file.
ghost use Rattle.std.specs.Prelude.{◌≡◌, ◌⊎◌, length, IfOk, IfSome, IfErr, OnOk};
ghost use Rattle.cusp_rules.specs.Hosts.{IsHostCount};
ghost use Rattle.gr_reader.specs.declared.stage.Stage.TheVariants as stages;
ghost use Rattle.gr_reader.specs.Cause.{IsOfRest};
ghost use Rattle.gr_reader.specs.File.{rest_at};
ghost use Rattle.gr_reader.specs.Reading.{Means, Counts};
ghost use Rattle.gr_reader.specs.Reach.{TakesAtMost, reach};
ghost use Rattle.graph_division.specs.Partition.{IsPartition};
ghost use Rattle.share_plan.specs.Owners.{shares_of};
ghost use Rattle.partition_build.specs.Meant.{shared, AreShared, FindsShares};
ghost use Rattle.partition_build.specs.Rooms.{AreRooms};

use crate::alone::build_alone;
use crate::assembly::{assemble_and_give_up, assemble_by_source, assemble_each};
use crate::handing::filled_rooms;
use edge_owner::Rules;
use gr_reader::{GrFault, GrReader, read_columns, read_rest};
use graph_model::{Edge, EdgeList, Way};
use io_edge::Source;
use proxy_graph::LocalGraph;
use share_plan::SharePlan;
use std::alloc::{AllocError, Global};

/// The local graph of each host, by rising number, for 1 to 64 hosts: each edge stands on its owner alone,
/// in file order. Arcs are laid for each way.
pub fn build_list(
    alloc: Global,
    list: &EdgeList,
    rules: Rules,
    hosts: u16,
) -> Result<Vec<LocalGraph>, AllocError>
    requires { IsHostCount hosts }
    ensures shares { IfOk result (λ graphs. graphs.items ≡ shares_of rules hosts list.now) }
    ensures partition { IfOk result (λ graphs. IsPartition graphs.items) }
{
    let nodes = list.nodes();
    let plan = SharePlan::new(alloc, rules, hosts, list)?;
    if plan.sources_own() {
        assemble_by_source(alloc, Way::Both, list, &plan)
    } else {
        let rooms = filled_rooms(alloc, list.edges(), &plan)?;
        assemble_each(alloc, Way::Both, nodes, &plan, rooms)
    }
}

/// The same of a list that is given up as soon as its edges are in rooms or, where they lie side by side,
/// host by host as graphs are made. Arcs are laid for this way.
fn build_whole(
    alloc: Global,
    way: Way,
    list: EdgeList,
    rules: Rules,
    hosts: u16,
) -> Result<Vec<LocalGraph>, AllocError>
    requires { IsHostCount hosts }
    ensures shares { IfOk result (λ graphs. graphs.items ≡ shares_of rules hosts list) }
    ensures partition { IfOk result (λ graphs. IsPartition graphs.items) }
{
    let nodes = list.nodes();
    let plan = SharePlan::new(alloc, rules, hosts, &list)?;
    if plan.sources_own() {
        assemble_and_give_up(alloc, way, list, &plan)
    } else {
        let rooms = emptied_into_rooms(alloc, list, &plan)?;
        assemble_each(alloc, way, nodes, &plan, rooms)
    }
}

/// A room a host, with the edges of a list that it owns. The list is given up.
fn emptied_into_rooms(
    alloc: Global,
    list: EdgeList,
    plan: &SharePlan,
) -> Result<Vec<Vec<Edge>>, AllocError>
    requires { list.nodes ≡ length plan.now.masters }
    ensures { IfOk result (λ rooms. AreRooms plan.now list.edges rooms.items) }
{
    filled_rooms(alloc, list.edges(), plan)
}

/// Reads all that follows the head, and makes the local graph of each host, by rising number, for 1 to 64
/// hosts. The reader has read the head. Arcs are laid for each way.
pub fn build<S: Source>(
    alloc: Global,
    reader: &mut GrReader,
    source: &mut S,
    rules: Rules,
    hosts: u16,
) -> Result<Vec<LocalGraph>, GrFault>
    requires stage { reader.old.stage ≡ stages.Index }
    requires hosts { IsHostCount hosts }
    // The graphs are those of the graph that the bytes have, or the fault is their first, unless a read
    // failed or memory ran out.
    ensures means { IfSome (S.left source.old) (λ bytes.
        Means (λ graphs. graphs.items) result (S.left source.new)
        (shared rules hosts (rest_at reader.old.head bytes))) }
    // The same, told by that graph.
    ensures finds { IfSome (S.left source.old) (λ bytes.
        FindsShares rules hosts (λ graphs. graphs.items) result (S.left source.new)
        (rest_at reader.old.head bytes)) }
    // Also where the source does not tell its bytes the graphs are those of one graph, of as many nodes as
    // the head says.
    ensures shared { IfOk result (λ graphs. AreShared rules hosts reader.old.head.nodes graphs.items) }
    ensures partition { IfOk result (λ graphs. IsPartition graphs.items) }
    ensures faults { IfErr result IsOfRest }
    ensures head { reader.new.head ≡ reader.old.head }
    ensures ok { OnOk result (reader.new.stage ≡ stages.Done) }
    // Where memory runs out after the last field, the reader has read all.
    ensures failed { IfErr result (λ fault. (reader.new.stage ≡ stages.Failed)
        ⊎ ((fault ≡ GrFault.Memory) × (reader.new.stage ≡ stages.Done))) }
    // A fault of a section leaves what follows the section.
    ensures taken { TakesAtMost (reach reader.old.head result) (S.left source.old) (S.left source.new) }
    ensures counts { Counts result (S.faults source.old) (S.faults source.new) }
{
    build_for(alloc, reader, source, rules, hosts, Way::Both)
}

/// The same, where arcs are laid for one way: a run that follows edges in this way finds the arcs of a proxy
/// side by side, and memory is taken for no others. Where there is one host, the graph is read by column, and
/// its columns are kept.
pub fn build_for<S: Source>(
    alloc: Global,
    reader: &mut GrReader,
    source: &mut S,
    rules: Rules,
    hosts: u16,
    way: Way,
) -> Result<Vec<LocalGraph>, GrFault>
    requires stage { reader.old.stage ≡ stages.Index }
    requires hosts { IsHostCount hosts }
    // The graphs are those of the graph that the bytes have, or the fault is their first, unless a read
    // failed or memory ran out.
    ensures means { IfSome (S.left source.old) (λ bytes.
        Means (λ graphs. graphs.items) result (S.left source.new)
        (shared rules hosts (rest_at reader.old.head bytes))) }
    // The same, told by that graph.
    ensures finds { IfSome (S.left source.old) (λ bytes.
        FindsShares rules hosts (λ graphs. graphs.items) result (S.left source.new)
        (rest_at reader.old.head bytes)) }
    // Also where the source does not tell its bytes the graphs are those of one graph, of as many nodes as
    // the head says.
    ensures shared { IfOk result (λ graphs. AreShared rules hosts reader.old.head.nodes graphs.items) }
    ensures partition { IfOk result (λ graphs. IsPartition graphs.items) }
    ensures faults { IfErr result IsOfRest }
    ensures head { reader.new.head ≡ reader.old.head }
    ensures ok { OnOk result (reader.new.stage ≡ stages.Done) }
    // Where memory runs out after the last field, the reader has read all.
    ensures failed { IfErr result (λ fault. (reader.new.stage ≡ stages.Failed)
        ⊎ ((fault ≡ GrFault.Memory) × (reader.new.stage ≡ stages.Done))) }
    // A fault of a section leaves what follows the section.
    ensures taken { TakesAtMost (reach reader.old.head result) (S.left source.old) (S.left source.new) }
    ensures counts { Counts result (S.faults source.old) (S.faults source.new) }
{
    if hosts == 1 {
        let columns = read_columns(alloc, reader, source)?;
        let _facts = columns.nodes();
        return Ok(build_alone(alloc, way, columns, rules)?);
    }
    let list = read_rest(alloc, reader, source)?;
    let _facts = list.nodes();
    Ok(build_whole(alloc, way, list, rules, hosts)?)
}
