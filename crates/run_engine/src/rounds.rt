//! The rounds of a run.
ghost use Rattle.std.specs.Prelude.{◌≡◌, ◌<◌, ◌≤◌, ◌*◌, ◌+◌, ◌^◌, ℕ, nat_lt, option_map};
ghost use Rattle.graph_division.specs.Partition.{IsPartition, division_of};
ghost use Rattle.host_state.specs.Serving.{run_of};
ghost use Rattle.memo_exchange.specs.Asks.{asked_after};
ghost use Rattle.packet_table.specs.Table.{payload_of};
ghost use Rattle.cluster_laws.specs.Channels.{payload};
ghost use Rattle.cluster_laws.specs.Numbers.{channel_at};
ghost use Rattle.cluster_laws.specs.Tally.{packets_of, changed};
ghost use Rattle.run_text.specs.Asks.{round_asks};
ghost use Rattle.run_engine.specs.Rounds.{Plan, HasCounted, EndsRoundsQuietly, nothing_yet};

use crate::finished::Finished;
use io_edge::Picker;
use reduce_laws::VertexProgram;
use round_driver::{Cluster, run_round};

/// Runs one more round, and adds what it came to. Answers whether it changed something.
pub(crate) fn run_next<P: VertexProgram, K: Picker>(
    cluster: &mut Cluster<P>,
    picker: &mut K,
    finished: &mut Finished,
) -> bool
    ghost plan: { Plan P }
    requires partition { IsPartition plan.shares }
    requires round { cluster.old.round < 2 ^ 32 }
    requires counted { HasCounted P.Red.Item.bytes_of P.Shown.bytes_of (run_of P.Red.reducer (P.steps plan.program) P.Red.Item.WIDTH P.Shown.WIDTH (division_of plan.way plan.shares)) plan cluster.old finished.old }
    ensures counted { HasCounted P.Red.Item.bytes_of P.Shown.bytes_of (run_of P.Red.reducer (P.steps plan.program) P.Red.Item.WIDTH P.Shown.WIDTH (division_of plan.way plan.shares)) plan cluster.new finished.new }
    ensures round { cluster.new.round ≡ cluster.old.round + 1 }
    ensures changes { result ≡ nat_lt 0 (changed (run_of P.Red.reducer (P.steps plan.program) P.Red.Item.WIDTH P.Shown.WIDTH (division_of plan.way plan.shares)) cluster.old.round) }
    ensures payloads { (number : ℕ) → number < packets_of (division_of plan.way plan.shares) → payload_of cluster.new.table number
        ≡ payload P.Red.Item.bytes_of P.Shown.bytes_of (run_of P.Red.reducer (P.steps plan.program) P.Red.Item.WIDTH P.Shown.WIDTH (division_of plan.way plan.shares)) cluster.old.round (channel_at (division_of plan.way plan.shares) number) }
    ensures asked { K.asked picker.new ≡ option_map (asked_after (round_asks (division_of plan.way plan.shares))) (K.asked picker.old) }
    ensures begun { K.begun picker.new ≡ K.begun picker.old }
{
    let tally = run_round(cluster, picker);
    finished.rounds += 1;
    finished.packets += tally.packets;
    finished.bytes += u128::from(tally.bytes);
    tally.changed > 0
}

/// Runs rounds until one changes nothing, at most `budget` of them. Answers what they came to if one did.
pub(crate) fn run_quiet_rounds<P: VertexProgram, K: Picker>(
    cluster: &mut Cluster<P>,
    budget: u64,
    picker: &mut K,
) -> Option<Finished>
    ghost plan: { Plan P }
    requires partition { IsPartition plan.shares }
    requires few { budget < 2 ^ 32 }
    requires counted { HasCounted P.Red.Item.bytes_of P.Shown.bytes_of (run_of P.Red.reducer (P.steps plan.program) P.Red.Item.WIDTH P.Shown.WIDTH (division_of plan.way plan.shares)) plan cluster.old nothing_yet }
    ensures ends { EndsRoundsQuietly P.Red.Item.bytes_of P.Shown.bytes_of (run_of P.Red.reducer (P.steps plan.program) P.Red.Item.WIDTH P.Shown.WIDTH (division_of plan.way plan.shares)) plan budget result cluster.new }
    ensures asked { K.asked picker.new ≡ option_map (asked_after (cluster.new.round * round_asks (division_of plan.way plan.shares))) (K.asked picker.old) }
    ensures begun { K.begun picker.new ≡ K.begun picker.old }
{
    let mut finished = Finished {
        rounds: 0,
        packets: 0,
        bytes: 0,
    };
    for _round in 0..budget {
        if !run_next(cluster, picker, &mut finished) {
            return Some(finished);
        }
    }
    None
}
