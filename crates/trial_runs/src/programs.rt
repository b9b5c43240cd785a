//! What each of the four programs tells of a graph.
ghost use Rattle.std.specs.Prelude.{◌≡◌, ◌≤◌, IfOk, All, length, map};
ghost use Rattle.std.specs.List.{filter, range_with_len};
ghost use Rattle.cusp_rules.specs.Hosts.{IsHostCount};
ghost use Rattle.graph_model.specs.Graph.{IsGraph};
ghost use Rattle.graph_model.specs.declared.edge.Way.TheVariants as ways;
ghost use Rattle.graph_model.specs.Least.{bfs_fares, sssp_fares, cc_fares};
ghost use Rattle.graph_maker.specs.Summary.{summary_of};
ghost use Rattle.trial_runs.specs.Trials.{own_labels};
ghost use Rattle.trial_runs.specs.Runs.{TellsLeast, TellsCore};

use crate::answers::answers_at_last;
use crate::measures::{count_own, summarize};
use edge_owner::Rules;
use graph_maker::Summary;
use graph_model::{EdgeList, Way};
use io_edge::Picker;
use kcore_program::Kcore;
use std::alloc::{AllocError, Global};
use vertex_programs::{Bfs, Components, Sssp};

/// To each vertex of the core lead at least so many arcs from the core.
const CORE_DEGREE: u32 = 8;

/// How many arcs lead from vertex 0 to the others.
pub(crate) fn distances<K: Picker>(
    alloc: Global,
    list: &EdgeList,
    rules: Rules,
    hosts: u16,
    picker: &mut K,
) -> Result<Summary, AllocError>
    requires hosts { IsHostCount hosts }
    requires graph { IsGraph list.now }
    requires few { list.now.nodes ≤ 1000000 }
    ensures tells { IfOk result (λ distances. TellsLeast (bfs_fares 0) ways.Outward rules hosts list.now
        (λ least. distances ≡ summary_of (map least (range_with_len 0 list.now.nodes)))
        (K.asked picker.old) (K.asked picker.new)) }
    ensures begun { K.begun picker.new ≡ K.begun picker.old }
{
    let program = Bfs { root: 0 };
    let answers = answers_at_last(alloc, program, Way::Outward, list, rules, hosts, picker)?;
    Ok(summarize(&answers))
}

/// What the cheapest walks from vertex 0 to the others cost.
pub(crate) fn costs<K: Picker>(
    alloc: Global,
    list: &EdgeList,
    rules: Rules,
    hosts: u16,
    picker: &mut K,
) -> Result<Summary, AllocError>
    requires hosts { IsHostCount hosts }
    requires graph { IsGraph list.now }
    requires few { list.now.nodes ≤ 1000000 }
    requires light { All (λ edge. edge.weight ≤ 1000) list.now.edges }
    ensures tells { IfOk result (λ costs. TellsLeast (sssp_fares 0) ways.Outward rules hosts list.now
        (λ least. costs ≡ summary_of (map least (range_with_len 0 list.now.nodes)))
        (K.asked picker.old) (K.asked picker.new)) }
    ensures begun { K.begun picker.new ≡ K.begun picker.old }
{
    let program = Sssp { root: 0 };
    let answers = answers_at_last(alloc, program, Way::Outward, list, rules, hosts, picker)?;
    Ok(summarize(&answers))
}

/// How many vertices have their own number for their label: one in each component.
pub(crate) fn labels<K: Picker>(
    alloc: Global,
    list: &EdgeList,
    rules: Rules,
    hosts: u16,
    picker: &mut K,
) -> Result<u64, AllocError>
    requires hosts { IsHostCount hosts }
    requires graph { IsGraph list.now }
    ensures tells { IfOk result (λ labels. TellsLeast cc_fares ways.Both rules hosts list.now
        (λ least. labels ≡ own_labels list.now.nodes least)
        (K.asked picker.old) (K.asked picker.new)) }
    ensures begun { K.begun picker.new ≡ K.begun picker.old }
{
    let answers = answers_at_last(alloc, Components, Way::Both, list, rules, hosts, picker)?;
    Ok(count_own(&answers))
}

/// How many vertices are in the core: each answers 1, and each other vertex 0.
pub(crate) fn members<K: Picker>(
    alloc: Global,
    list: &EdgeList,
    rules: Rules,
    hosts: u16,
    picker: &mut K,
) -> Result<u64, AllocError>
    requires hosts { IsHostCount hosts }
    requires graph { IsGraph list.now }
    requires few { list.now.nodes ≤ 1000000 }
    ensures tells { IfOk result (λ members. TellsCore 8 ways.Both rules hosts list.now
        (λ core. members ≡ length (filter core (range_with_len 0 list.now.nodes)))
        (K.asked picker.old) (K.asked picker.new)) }
    ensures begun { K.begun picker.new ≡ K.begun picker.old }
{
    let program = Kcore { k: CORE_DEGREE };
    let answers = answers_at_last(alloc, program, Way::Both, list, rules, hosts, picker)?;
    Ok(summarize(&answers).sum)
}
