//! A run without text.
ghost use Rattle.std.specs.Prelude.{◌≡◌, ◌≤◌, ◌<◌, ◌^◌, IfOk, option_map};
ghost use Rattle.graph_division.specs.Partition.{IsPartition, division_of};
ghost use Rattle.host_state.specs.Serving.{run_of};
ghost use Rattle.memo_exchange.specs.Asks.{asked_after};
ghost use Rattle.run_text.specs.Asks.{asks};
ghost use Rattle.run_engine.specs.Running.{HasFinished};
ghost use Rattle.run_engine.specs.Outcome.{IfRan};
ghost use Rattle.run_engine.specs.Quiet.{quiet_rounds_at, EndsQuietly};

use crate::ended::Ended;
use crate::fault::QuietFault;
use crate::prepare::prepare;
use crate::rounds::run_quiet_rounds;
use graph_model::Way;
use io_edge::Picker;
use proxy_graph::LocalGraph;
use reduce_laws::VertexProgram;
use std::alloc::Global;

/// Runs a program on the graph of a partition until a round changes nothing, for at most `budget` rounds.
pub fn run_quiet<P: VertexProgram, K: Picker>(
    alloc: Global,
    program: P,
    way: Way,
    budget: u64,
    graphs: Vec<LocalGraph>,
    picker: &mut K,
) -> Result<Ended<P>, QuietFault>
    requires partition { IsPartition graphs.items }
    requires some { 1 ≤ budget }
    requires few { budget < 2 ^ 32 }
    ensures ended { IfOk result (λ ended. HasFinished P.Red.Item.bytes_of P.Shown.bytes_of
        (run_of P.Red.reducer (P.steps program) P.Red.Item.WIDTH P.Shown.WIDTH (division_of way graphs.items))
        program way graphs.items budget ended.cluster ended.finished) }
    // The budget is spent exactly where its last round still changed something.
    ensures spent { EndsQuietly (run_of P.Red.reducer (P.steps program) P.Red.Item.WIDTH P.Shown.WIDTH (division_of way graphs.items)) budget result }
    ensures asked { IfRan (quiet_rounds_at (λ ended. ended.finished.rounds) result) (λ rounds. K.asked picker.new
        ≡ option_map (asked_after (asks (division_of way graphs.items) rounds)) (K.asked picker.old)) }
    ensures begun { K.begun picker.new ≡ K.begun picker.old }
{
    let Ok(mut cluster) = prepare(alloc, program, way, graphs, picker) else {
        return Err(QuietFault::Memory);
    };
    match run_quiet_rounds(&mut cluster, budget, picker) {
        Some(finished) => Ok(Ended { cluster, finished }),
        None => Err(QuietFault::Spent(budget)),
    }
}
