//! Trials of small graphs, on four hosts that share edges out by a grid, against values computed elsewhere.
ghost use Rattle.std.specs.Prelude.{◌≤◌};

use crate::{Trial, run_trial};
use cusp_rules::MasterRule;
use edge_owner::{OwnerRule, Rules};
use graph_maker::Summary;
use io_edge::MixedPicks;
use std::alloc::{AllocError, Global};
use std::test::Fail;

/// The trial of the graph that is made from a size and a number.
fn trial(alloc: Global, size: u32, number: u64) -> Result<Trial, AllocError>
    requires some { 1 ≤ size }
    requires few { size ≤ 1000000 }
{
    let rules = Rules {
        masters: MasterRule::Edges,
        owner: OwnerRule::Cartesian,
    };
    run_trial(alloc, size, number, rules, 4, &mut MixedPicks::new())
}

/// The summary of values that are all there.
fn summary(reached: u64, sum: u64, greatest: u64) -> Summary {
    Summary {
        reached,
        sum,
        greatest,
    }
}

#[test]
fn one_vertex_is_a_core(rt: HostRuntime) -> Result<(), Fail> {
    let want = Trial {
        nodes: 1,
        edges: 16,
        distances: summary(1, 0, 0),
        costs: summary(1, 0, 0),
        labels: 1,
        members: 1,
    };
    assert_eq!(rt; trial(rt.alloc(), 1, 0)?, want);
    Ok(())
}

#[test]
fn three_of_eighteen_vertices_are_a_core(rt: HostRuntime) -> Result<(), Fail> {
    let want = Trial {
        nodes: 18,
        edges: 80,
        distances: summary(18, 24, 3),
        costs: summary(18, 414, 46),
        labels: 1,
        members: 3,
    };
    assert_eq!(rt; trial(rt.alloc(), 18, 1)?, want);
    Ok(())
}
