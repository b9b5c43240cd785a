//! A run with its text, in whole pages.
ghost use Rattle.std.specs.Prelude.{◌≡◌, [], Ok, is_some, nat_eq};
ghost use Rattle.graph_model.specs.Graph.{Graph, IsGraph};
ghost use Rattle.io_edge.specs.Writing.{state_of};
ghost use Rattle.gluon_top.specs.Meaning.{ran};
ghost use Rattle.gluon_top.specs.Prepared.{CanRun};
ghost use Rattle.gluon_top.specs.Outcome.{Writes};
ghost use Rattle.gluon_top.specs.Runs.{shares_in, GoesByHosts};
ghost use Rattle.gluon_top.specs.declared.runs.Stop.TheVariants.{Write};
ghost use Rattle.gluon_top.specs.Running.{WritesRun, PassesRun, RunsByHosts};

use crate::top::Outcome;
use command_words::RunWords;
use io_edge::{PagedSink, Picker, Sink, SinkFault};
use job_text::{DONE, NO_MEMORY, ROUNDS_SPENT, WRITE_FAILED, write_spent};
use program_runs::{LastRun, Program, run_program};
use proxy_graph::LocalGraph;
use run_engine::{RunFault, RunJob};
use std::alloc::Global;

/// Why the text of a run was not written to its end.
#[derive(Clone, Copy, Debug, PartialEq, Eq, Drop)]
pub(crate) enum Stop {
    /// A write failed.
    Write,
    /// Memory ran out before the first round.
    Memory,
}

impl From<SinkFault> for Stop {
    ghost from_gives = { λ _ stop. stop ≡ Write };

    fn from(_fault: SinkFault) -> Stop {
        Stop::Write
    }
}

/// Runs a program and writes its text, in whole pages. A run that is not at its end after all rounds that it
/// might have has the line of its fault behind its packets.
pub(crate) fn finish_run<K: Sink, P: Picker>(
    alloc: Global,
    program: Program,
    run: RunWords,
    graphs: Vec<LocalGraph>,
    sink: &mut K,
    picker: &mut P,
) -> Outcome
    requires { CanRun run graphs.items }
    ensures written { (graph : Graph) → IsGraph graph → graphs.items ≡ shares_in program run graph
        → Writes (Ok (ran program run graph [])) (K.faults sink.old) (K.faults sink.new) (K.held sink.old) (K.held sink.new) result.status }
    ensures hosts { (graph : Graph) → IsGraph graph → graphs.items ≡ shares_in program run graph
        → GoesByHosts program run graph result.status result.last (P.asked picker.old) (P.asked picker.new) }
    ensures last { is_some result.last ≡ nat_eq result.status 0 }
    ensures begun { P.begun picker.new ≡ P.begun picker.old }
{
    match run_in_pages(alloc, program, run, graphs, sink, picker) {
        Ok(Some(last)) => Outcome {
            status: DONE,
            last: Some(last),
        },
        Ok(None) => Outcome {
            status: ROUNDS_SPENT,
            last: None,
        },
        Err(Stop::Write) => Outcome {
            status: WRITE_FAILED,
            last: None,
        },
        Err(Stop::Memory) => Outcome {
            status: NO_MEMORY,
            last: None,
        },
    }
}

/// Runs a program and writes its text, in whole pages.
fn run_in_pages<K: Sink, P: Picker>(
    alloc: Global,
    program: Program,
    run: RunWords,
    graphs: Vec<LocalGraph>,
    sink: &mut K,
    picker: &mut P,
) -> Result<Option<LastRun>, Stop>
    requires { CanRun run graphs.items }
    ensures written { (graph : Graph) → IsGraph graph → graphs.items ≡ shares_in program run graph
        → PassesRun program run graph result (K.faults sink.old) (K.faults sink.new) (K.held sink.old) (K.held sink.new) }
    ensures hosts { (graph : Graph) → IsGraph graph → graphs.items ≡ shares_in program run graph
        → RunsByHosts program run graph result (P.asked picker.old) (P.asked picker.new) }
    ensures begun { P.begun picker.new ≡ P.begun picker.old }
{
    let mut page = PagedSink::new(sink);
    let last = write_run(alloc, program, run, graphs, &mut page, picker)?;
    page.flush()?;
    Ok(last)
}

/// Runs a program and writes its text. There is no last round where the run was not at its end after all
/// rounds that it might have.
fn write_run<K: Sink, P: Picker>(
    alloc: Global,
    program: Program,
    run: RunWords,
    graphs: Vec<LocalGraph>,
    sink: &mut K,
    picker: &mut P,
) -> Result<Option<LastRun>, Stop>
    requires { CanRun run graphs.items }
    ensures written { (graph : Graph) → IsGraph graph → graphs.items ≡ shares_in program run graph
        → WritesRun program run graph result (state_of K.Sink sink.old) (state_of K.Sink sink.new) }
    ensures hosts { (graph : Graph) → IsGraph graph → graphs.items ≡ shares_in program run graph
        → RunsByHosts program run graph result (P.asked picker.old) (P.asked picker.new) }
    ensures begun { P.begun picker.new ≡ P.begun picker.old }
{
    let job = RunJob {
        way: run.way,
        rounds: run.rounds,
        report: run.report,
        trace: run.trace,
    };
    match run_program(alloc, program, job, graphs, picker, sink) {
        Ok(last) => Ok(Some(last)),
        Err(RunFault::Spent(budget)) => {
            write_spent(sink, budget)?;
            Ok(None)
        }
        Err(RunFault::Write) => Err(Stop::Write),
        Err(RunFault::Memory) => Err(Stop::Memory),
    }
}
