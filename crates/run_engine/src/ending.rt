//! What is told after the last round.
ghost use Rattle.std.specs.Prelude.{◌≡◌, ◌≤◌, length};
ghost use Rattle.graph_division.specs.Partition.{division_of};
ghost use Rattle.host_state.specs.Serving.{run_of};
ghost use Rattle.io_edge.specs.Writing.{Wrote};
ghost use Rattle.run_text.specs.Told.{told_by};
ghost use Rattle.run_text.specs.Text.{Asked};
ghost use Rattle.run_engine.specs.Running.{HasRun};
ghost use Rattle.run_engine.specs.Rounds.{Plan};
ghost use Rattle.run_engine.specs.Ending.{Telling, probed, report_with, end_text};

use crate::finished::Finished;
use answer_writer::{Report, write_report};
use invariant_probe::{Classes, classes, mirrors};
use io_edge::{Sink, SinkFault};
use proxy_graph::LocalGraph;
use reduce_laws::VertexProgram;
use round_driver::Cluster;
use run_answers::write_answers;

/// What a report tells of a partition.
#[derive(Clone, Copy)]
pub(crate) struct Probe {
    /// How many mirrors there are.
    mirrors: u64,
    /// What they lack.
    classes: Classes,
}

/// What a report tells of a partition, where one is asked for.
pub(crate) fn probe_mirrors(report: bool, graphs: &[LocalGraph]) -> Option<Probe>
    requires { length graphs.now ≤ 64 }
    ensures { result ≡ probed report graphs.now }
{
    if report {
        Some(Probe {
            mirrors: mirrors(graphs),
            classes: classes(graphs),
        })
    } else {
        None
    }
}

// The report of what all rounds came to, and of what was probed.
fn report_of(finished: Finished, probe: Probe) -> Report
    ensures { result ≡ report_with finished probe }
{
    Report {
        rounds: finished.rounds,
        packets: finished.packets,
        bytes: finished.bytes,
        mirrors: probe.mirrors,
        no_out: probe.classes.no_out,
        no_in: probe.classes.no_in,
        no_both: probe.classes.no_both,
    }
}

/// Writes the answers, and a report of what was probed and of what all rounds came to.
pub(crate) fn write_end<P: VertexProgram, O: Sink>(
    cluster: &Cluster<P>,
    finished: Finished,
    probe: Option<Probe>,
    sink: &mut O,
) -> Result<(), SinkFault>
    ghost telling: { Telling P }
    requires ran { HasRun P.Red.Item.bytes_of P.Shown.bytes_of (run_of P.Red.reducer (P.steps telling.plan.program) P.Red.Item.WIDTH P.Shown.WIDTH (division_of telling.plan.way telling.plan.shares)) telling.plan.program telling.plan.way telling.plan.shares cluster.now finished }
    requires probe { probe ≡ probed telling.asked.report telling.plan.shares }
    ensures { Wrote O.Sink result sink.old sink.new (end_text telling.asked telling.plan (told_by P.Red.Item.bytes_of P.Shown.bytes_of (run_of P.Red.reducer (P.steps telling.plan.program) P.Red.Item.WIDTH P.Shown.WIDTH (division_of telling.plan.way telling.plan.shares))) finished.rounds) }
{
    write_answers(sink, cluster)?;
    match probe {
        Some(probe) => write_report(sink, &report_of(finished, probe)),
        None => Ok(()),
    }
}
