//! A run with its text.
ghost use Rattle.std.specs.Prelude.{◌≡◌, ◌≤◌, ◌<◌, ◌^◌, IfOk, IfSome, option_map};
ghost use Rattle.graph_division.specs.Partition.{IsPartition, division_of, graph_of};
ghost use Rattle.host_state.specs.Serving.{run_of};
ghost use Rattle.io_edge.specs.Writing.{state_of};
ghost use Rattle.memo_exchange.specs.Asks.{asked_after};
ghost use Rattle.run_text.specs.Asks.{asks};
ghost use Rattle.run_text.specs.Text.{budget_of};
ghost use Rattle.run_engine.specs.Running.{HasFinished};
ghost use Rattle.run_engine.specs.Outcome.{asked_by, rounds_at, EndsRun, IfRan};

use crate::ended::Ended;
use crate::ending::{probe_mirrors, write_end};
use crate::fault::RunFault;
use crate::job::RunJob;
use crate::prepare::prepare;
use crate::told_rounds::run_told_rounds;
use io_edge::{Picker, Sink};
use proxy_graph::LocalGraph;
use reduce_laws::VertexProgram;
use std::alloc::Global;

// The most rounds that a run on the graph of a partition may have.
fn most_rounds(rounds: Option<u32>, graphs: &[LocalGraph]) -> u64
    requires { IsPartition graphs.now }
    ensures budget { result ≡ budget_of rounds (graph_of graphs.now).nodes }
    ensures few { result < 2 ^ 32 }
{
    match rounds {
        Some(rounds) => u64::from(rounds),
        None => u64::from(graphs[0].nodes()) + 1,
    }
}

/// Runs a program on the graph of a partition until a round changes nothing, and writes the text of the run:
/// with `trace` a line for each packet of each round, then a line for each vertex, and with `report` a
/// report.
pub fn run<P: VertexProgram, K: Picker, O: Sink>(
    alloc: Global,
    program: P,
    job: RunJob,
    graphs: Vec<LocalGraph>,
    picker: &mut K,
    sink: &mut O,
) -> Result<Ended<P>, RunFault>
    requires partition { IsPartition graphs.items }
    requires rounds { IfSome job.rounds (λ rounds. 1 ≤ rounds) }
    // The cluster stands for the moment after the last round: the first that changed no shown value.
    ensures ended { IfOk result (λ ended. HasFinished P.Red.Item.bytes_of P.Shown.bytes_of
        (run_of P.Red.reducer (P.steps program) P.Red.Item.WIDTH P.Shown.WIDTH (division_of job.way graphs.items))
        program job.way graphs.items (budget_of job.rounds (graph_of graphs.items).nodes) ended.cluster ended.finished) }
    // What was written, and when each refusal comes.
    ensures written { EndsRun P.Red.Item.bytes_of P.Shown.bytes_of
        (run_of P.Red.reducer (P.steps program) P.Red.Item.WIDTH P.Shown.WIDTH (division_of job.way graphs.items))
        (asked_by job) job.way graphs.items (budget_of job.rounds (graph_of graphs.items).nodes)
        (λ ended. ended.finished.rounds) result (state_of O.Sink sink.old) (state_of O.Sink sink.new) }
    // One pick for each payload of the exchange, two in each round for each host, and one for each packet.
    ensures asked { IfRan (rounds_at (λ ended. ended.finished.rounds) result) (λ rounds. K.asked picker.new
        ≡ option_map (asked_after (asks (division_of job.way graphs.items) rounds)) (K.asked picker.old)) }
    ensures begun { K.begun picker.new ≡ K.begun picker.old }
{
    let budget = most_rounds(job.rounds, &graphs);
    let probe = probe_mirrors(job.report, &graphs);
    let Ok(mut cluster) = prepare(alloc, program, job.way, graphs, picker) else {
        return Err(RunFault::Memory);
    };
    match run_told_rounds(&mut cluster, budget, job.trace, picker, sink) {
        Ok(Some(finished)) => match write_end(&cluster, finished, probe, sink) {
            Ok(()) => Ok(Ended { cluster, finished }),
            Err(_) => Err(RunFault::Write),
        },
        Ok(None) => Err(RunFault::Spent(budget)),
        Err(_) => Err(RunFault::Write),
    }
}
