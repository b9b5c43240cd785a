//! What is made before the first round.
ghost use Rattle.std.specs.Prelude.{◌≡◌, IfOk, OnOk, option_map};
ghost use Rattle.graph_division.specs.Partition.{IsPartition, division_of};
ghost use Rattle.host_state.specs.Serving.{run_of};
ghost use Rattle.memo_exchange.specs.Asks.{asked_after, exchange_asks};
ghost use Rattle.run_engine.specs.Rounds.{HasCounted, nothing_yet};

use graph_model::Way;
use io_edge::Picker;
use memo_exchange::exchange;
use proxy_graph::LocalGraph;
use reduce_laws::VertexProgram;
use round_driver::Cluster;
use std::alloc::{AllocError, Global};

/// The cluster of a partition before its first round: the hosts exchange their lists, and all memory of the
/// run is taken.
pub(crate) fn prepare<P: VertexProgram, K: Picker>(
    alloc: Global,
    program: P,
    way: Way,
    graphs: Vec<LocalGraph>,
    picker: &mut K,
) -> Result<Cluster<P>, AllocError>
    requires { IsPartition graphs.items }
    ensures counted { IfOk result (λ cluster. HasCounted P.Red.Item.bytes_of P.Shown.bytes_of
        (run_of P.Red.reducer (P.steps program) P.Red.Item.WIDTH P.Shown.WIDTH (division_of way graphs.items))
        (record { program = program; way = way; shares = graphs.items }) cluster nothing_yet) }
    ensures asked { OnOk result (K.asked picker.new ≡ option_map (asked_after (exchange_asks (division_of way graphs.items))) (K.asked picker.old)) }
    ensures begun { K.begun picker.new ≡ K.begun picker.old }
{
    let memos = exchange(alloc, &graphs, way, picker)?;
    Cluster::new(alloc, graphs, memos, program, way)
}
