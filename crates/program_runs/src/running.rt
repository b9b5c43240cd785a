//! A program run over hosts.
ghost use Rattle.std.specs.Prelude.{◌≡◌, ◌≤◌, IfOk, IfSome, option_map};
ghost use Rattle.graph_model.specs.Graph.{Graph, IsGraph};
ghost use Rattle.graph_division.specs.DivisionOf.{IsDivisionOf};
ghost use Rattle.graph_division.specs.Partition.{IsPartition, division_of};
ghost use Rattle.io_edge.specs.Writing.{state_of};
ghost use Rattle.memo_exchange.specs.Asks.{asked_after};
ghost use Rattle.run_text.specs.Asks.{asks};
ghost use Rattle.run_text.specs.Text.{budget_of};
ghost use Rattle.run_engine.specs.Outcome.{asked_by, rounds_at, IfRan};
ghost use Rattle.program_runs.specs.LastRuns.{round_of, IsLastRun};
ghost use Rattle.program_runs.specs.Ends.{EndsRun};

use crate::last_run::LastRun;
use crate::program::Program;
use core_runs::kcore_tells_peeling;
use io_edge::{Picker, Sink};
use kcore_program::Kcore;
use label_runs::programs_tell_walks;
use proxy_graph::LocalGraph;
use run_engine::{RunFault, RunJob, run};
use std::alloc::Global;
use vertex_programs::{Bfs, Components, Sssp};

/// Runs a program on the graph of a partition until a round changes nothing, and writes the text of the run:
/// with `trace` a line for each packet of each round, then a line for each vertex, and with `report` a
/// report.
pub fn run_program<K: Picker, O: Sink>(
    alloc: Global,
    program: Program,
    job: RunJob,
    graphs: Vec<LocalGraph>,
    picker: &mut K,
    sink: &mut O,
) -> Result<LastRun, RunFault>
    requires partition { IsPartition graphs.items }
    requires rounds { IfSome job.rounds (λ rounds. 1 ≤ rounds) }
    // What is written is what the graph calls for, however it is divided; and when each refusal comes.
    ensures text { (graph : Graph) → IsGraph graph → IsDivisionOf graph job.way (division_of job.way graphs.items)
        → EndsRun program graph (asked_by job) job.way graphs.items (budget_of job.rounds graph.nodes)
        round_of result (state_of O.Sink sink.old) (state_of O.Sink sink.new) }
    // The cluster stands for the moment after the last round.
    ensures last { IfOk result (IsLastRun program job.way graphs.items) }
    // One pick for each payload of the exchange, two in each round for each host, and one for each packet.
    ensures asked { IfRan (rounds_at round_of result) (λ rounds. K.asked picker.new
        ≡ option_map (asked_after (asks (division_of job.way graphs.items) rounds)) (K.asked picker.old)) }
    ensures begun { K.begun picker.new ≡ K.begun picker.old }
{
    programs_tell_walks();
    kcore_tells_peeling();
    match program {
        Program::Bfs { root } => {
            let ended = run(alloc, Bfs { root }, job, graphs, picker, sink)?;
            Ok(LastRun::Bfs(ended.cluster))
        }
        Program::Sssp { root } => {
            let ended = run(alloc, Sssp { root }, job, graphs, picker, sink)?;
            Ok(LastRun::Sssp(ended.cluster))
        }
        Program::Cc => {
            let ended = run(alloc, Components, job, graphs, picker, sink)?;
            Ok(LastRun::Cc(ended.cluster))
        }
        Program::Kcore { k } => {
            let ended = run(alloc, Kcore { k }, job, graphs, picker, sink)?;
            Ok(LastRun::Kcore(ended.cluster))
        }
    }
}
