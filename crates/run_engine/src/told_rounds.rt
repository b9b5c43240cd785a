//! The rounds of a run with their text.
ghost use Rattle.std.specs.Prelude.{◌≡◌, ◌<◌, ◌≤◌, ◌*◌, ◌-◌, ◌^◌, ℕ, option_map};
ghost use Rattle.graph_division.specs.Partition.{IsPartition, division_of};
ghost use Rattle.host_state.specs.Serving.{run_of};
ghost use Rattle.io_edge.specs.Writing.{state_of, Wrote};
ghost use Rattle.memo_exchange.specs.Asks.{asked_after};
ghost use Rattle.packet_table.specs.Table.{payload_of};
ghost use Rattle.cluster_laws.specs.Channels.{payload};
ghost use Rattle.cluster_laws.specs.Numbers.{channel_at};
ghost use Rattle.cluster_laws.specs.Tally.{packets_of};
ghost use Rattle.round_driver.specs.ClusterState.{shares_of};
ghost use Rattle.run_text.specs.Asks.{round_asks};
ghost use Rattle.run_engine.specs.Rounds.{Plan, HasCounted, EndsRounds, round_text, nothing_yet};

use crate::finished::Finished;
use crate::rounds::run_next;
use io_edge::{Picker, Sink, SinkFault};
use reduce_laws::VertexProgram;
use round_driver::Cluster;
use run_text::write_round;

/// Writes the packets of the round that was run last, where they are asked for.
fn tell_round<P: VertexProgram, O: Sink>(
    cluster: &Cluster<P>,
    trace: bool,
    sink: &mut O,
) -> Result<(), SinkFault>
    ghost plan: { Plan P }
    requires shares { shares_of cluster.now ≡ plan.shares }
    requires way { cluster.now.way ≡ plan.way }
    requires round { 1 ≤ cluster.now.round }
    requires payloads { (number : ℕ) → number < packets_of (division_of plan.way plan.shares) → payload_of cluster.now.table number
        ≡ payload P.Red.Item.bytes_of P.Shown.bytes_of (run_of P.Red.reducer (P.steps plan.program) P.Red.Item.WIDTH P.Shown.WIDTH (division_of plan.way plan.shares)) (cluster.now.round - 1) (channel_at (division_of plan.way plan.shares) number) }
    ensures { Wrote O.Sink result sink.old sink.new (round_text P.Red.Item.bytes_of P.Shown.bytes_of (run_of P.Red.reducer (P.steps plan.program) P.Red.Item.WIDTH P.Shown.WIDTH (division_of plan.way plan.shares)) trace (cluster.now.round - 1)) }
{
    if trace {
        write_round(sink, cluster.round(), cluster.channels())
    } else {
        Ok(())
    }
}

/// Runs rounds until one changes nothing, at most `budget` of them, and writes the packets of each where they
/// are asked for. Answers what they came to if one changed nothing.
pub(crate) fn run_told_rounds<P: VertexProgram, K: Picker, O: Sink>(
    cluster: &mut Cluster<P>,
    budget: u64,
    trace: bool,
    picker: &mut K,
    sink: &mut O,
) -> Result<Option<Finished>, SinkFault>
    ghost plan: { Plan P }
    requires partition { IsPartition plan.shares }
    requires few { budget < 2 ^ 32 }
    requires counted { HasCounted P.Red.Item.bytes_of P.Shown.bytes_of (run_of P.Red.reducer (P.steps plan.program) P.Red.Item.WIDTH P.Shown.WIDTH (division_of plan.way plan.shares)) plan cluster.old nothing_yet }
    ensures ends { EndsRounds P.Red.Item.bytes_of P.Shown.bytes_of (run_of P.Red.reducer (P.steps plan.program) P.Red.Item.WIDTH P.Shown.WIDTH (division_of plan.way plan.shares)) trace plan budget result cluster.new (state_of O.Sink sink.old) (state_of O.Sink sink.new) }
    ensures asked { K.asked picker.new ≡ option_map (asked_after (cluster.new.round * round_asks (division_of plan.way plan.shares))) (K.asked picker.old) }
    ensures begun { K.begun picker.new ≡ K.begun picker.old }
{
    let mut finished = Finished {
        rounds: 0,
        packets: 0,
        bytes: 0,
    };
    for _round in 0..budget {
        let changes = run_next(cluster, picker, &mut finished);
        tell_round(cluster, trace, sink)?;
        if !changes {
            return Ok(Some(finished));
        }
    }
    Ok(None)
}
