//! The answers of a run that came to its end.
ghost use Rattle.std.specs.Prelude.{◌≡◌, ◌+◌, ◌≤◌, IfOk, map};
ghost use Rattle.std.specs.List.{range_with_len};
ghost use Rattle.cusp_rules.specs.Hosts.{IsHostCount};
ghost use Rattle.graph_division.specs.Partition.{division_of};
ghost use Rattle.host_state.specs.Serving.{run_of};
ghost use Rattle.share_plan.specs.Owners.{shares_of};
ghost use Rattle.round_driver.specs.ClusterState.{StandsNow, division_in};
ghost use Rattle.run_text.specs.Told.{told_by};
ghost use Rattle.trial_runs.specs.Runs.{EndsWithin, AnswersAtLast};

use edge_owner::Rules;
use graph_model::{EdgeList, Way};
use io_edge::Picker;
use partition_build::build_list;
use reduce_laws::VertexProgram;
use round_driver::Cluster;
use run_engine::{QuietFault, answer_at, run_quiet};
use std::alloc::{AllocError, Global};

/// The answers of a cluster's vertices, by rising number, between two rounds.
fn answers_in<P: VertexProgram>(
    alloc: Global,
    cluster: &Cluster<P>,
    nodes: u32,
) -> Result<Vec<Option<u64>>, AllocError>
    requires stands { StandsNow P.Red.reducer (P.steps cluster.now.program) P.Red.Item.WIDTH P.Shown.WIDTH P.Red.Item.bytes_of P.Shown.bytes_of cluster.now }
    requires nodes { nodes ≤ (division_in cluster.now).nodes }
    ensures { IfOk result (λ answers. answers.items
        ≡ map ((told_by P.Red.Item.bytes_of P.Shown.bytes_of (run_of P.Red.reducer (P.steps cluster.now.program) P.Red.Item.WIDTH P.Shown.WIDTH (division_in cluster.now))).answer cluster.now.round) (range_with_len 0 nodes)) }
{
    let mut answers = Vec::with_capacity(alloc, nodes as usize)?;
    for v in 0..nodes {
        answers.push(answer_at(cluster, v))?;
    }
    Ok(answers)
}

/// Runs a program on a graph over hosts until a round changes nothing, and tells the answers of all vertices,
/// by rising number. A round for each vertex and one more have to be enough.
pub(crate) fn answers_at_last<P: VertexProgram, K: Picker>(
    alloc: Global,
    program: P,
    way: Way,
    list: &EdgeList,
    rules: Rules,
    hosts: u16,
    picker: &mut K,
) -> Result<Vec<Option<u64>>, AllocError>
    requires hosts { IsHostCount hosts }
    requires ends { EndsWithin (run_of P.Red.reducer (P.steps program) P.Red.Item.WIDTH P.Shown.WIDTH (division_of way (shares_of rules hosts list.now))) (list.now.nodes + 1) }
    ensures last { IfOk result (λ answers. AnswersAtLast
        (run_of P.Red.reducer (P.steps program) P.Red.Item.WIDTH P.Shown.WIDTH (division_of way (shares_of rules hosts list.now)))
        list.now.nodes answers.items (K.asked picker.old) (K.asked picker.new)) }
    ensures begun { K.begun picker.new ≡ K.begun picker.old }
{
    let graphs = build_list(alloc, list, rules, hosts)?;
    let budget = u64::from(list.nodes()) + 1;
    match run_quiet(alloc, program, way, budget, graphs, picker) {
        Ok(ended) => answers_in(alloc, &ended.cluster, list.nodes()),
        Err(QuietFault::Memory) => Err(AllocError),
        Err(QuietFault::Spent(_)) => unreachable!(),
    }
}
