//! The four programs on a graph that is made.
ghost use Rattle.std.specs.Prelude.{◌≡◌, ◌≤◌, IfOk};
ghost use Rattle.cusp_rules.specs.Hosts.{IsHostCount};
ghost use Rattle.graph_maker.specs.MadeGraph.{made_graph};
ghost use Rattle.trial_runs.specs.Trials.{IsTrial, AsksForTrial};

use crate::programs::{costs, distances, labels, members};
use crate::trial::Trial;
use edge_owner::Rules;
use graph_maker::make;
use io_edge::Picker;
use std::alloc::{AllocError, Global};

/// Makes a graph of 1 to 1000000 vertices from a number, and runs four programs on it over 1 to 64 hosts, each
/// to its end: breadth-first search and shortest paths from vertex 0, which follow edges outward, and
/// components and the core of degree 8, which follow them both ways. An error says that memory does not
/// suffice.
pub fn run_trial<K: Picker>(
    alloc: Global,
    size: u32,
    number: u64,
    rules: Rules,
    hosts: u16,
    picker: &mut K,
) -> Result<Trial, AllocError>
    requires some { 1 ≤ size }
    requires few { size ≤ 1000000 }
    requires hosts { IsHostCount hosts }
    ensures trial { IfOk result (IsTrial (made_graph size number)) }
    // One pick for each payload of an exchange, two in each round for each host, and one for each packet.
    ensures asked { IfOk result (λ _. AsksForTrial rules hosts (made_graph size number) (K.asked picker.old) (K.asked picker.new)) }
    ensures begun { K.begun picker.new ≡ K.begun picker.old }
{
    let list = make(alloc, size, number)?;
    Ok(Trial {
        nodes: list.nodes(),
        edges: list.edges().len() as u32,
        distances: distances(alloc, &list, rules, hosts, picker)?,
        costs: costs(alloc, &list, rules, hosts, picker)?,
        labels: labels(alloc, &list, rules, hosts, picker)?,
        members: members(alloc, &list, rules, hosts, picker)?,
    })
}
