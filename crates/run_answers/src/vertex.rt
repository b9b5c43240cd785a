//! The answer of one vertex.
ghost use Rattle.std.specs.Prelude.{◌≡◌, ◌<◌, false, ◌==◌, slice_get, Some, MatchOption};
ghost use Rattle.std.specs.List.{slice_index_or};
ghost use Rattle.graph_division.specs.Shares.{nodes_of, masters_here};
ghost use Rattle.host_state.specs.Serving.{run_of};
ghost use Rattle.round_driver.specs.ClusterState.{StandsNow, division_in};
ghost use Rattle.run_text.specs.Told.{told_by};

use host_core::Host;
use reduce_laws::VertexProgram;
use round_driver::Cluster;

/// The local number of a vertex on the host where its master is, and None on any other host.
fn master_here<P: VertexProgram>(host: &Host<P>, v: u32) -> Option<u32>
    requires { v < nodes_of host.now.graph }
    ensures { MatchOption result ((slice_index_or host.now.graph.masters v 0 == host.now.graph.host) ≡ false) (λ lid. slice_get (masters_here host.now.graph) lid ≡ Some v) }
{
    let lid = host.graph().local(v)?;
    if lid < host.graph().masters() {
        Some(lid)
    } else {
        None
    }
}

/// The answer of a vertex: that of its master. The cluster stands for the moment between two rounds, as
/// `Cluster::new` and `run_round` leave it.
pub fn answer_at<P: VertexProgram>(cluster: &Cluster<P>, v: u32) -> Option<u64>
    requires stands { StandsNow P.Red.reducer (P.steps cluster.now.program) P.Red.Item.WIDTH P.Shown.WIDTH P.Red.Item.bytes_of P.Shown.bytes_of cluster.now }
    requires vertex { v < (division_in cluster.now).nodes }
    ensures { result ≡ (told_by P.Red.Item.bytes_of P.Shown.bytes_of (run_of P.Red.reducer (P.steps cluster.now.program) P.Red.Item.WIDTH P.Shown.WIDTH (division_in cluster.now))).answer cluster.now.round v }
{
    for host in cluster.hosts() {
        if let Some(lid) = master_here(host, v) {
            return cluster.program().answer(host.state(lid));
        }
    }
    None
}
