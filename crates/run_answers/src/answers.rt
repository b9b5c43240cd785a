//! The answers of all vertices.
ghost use Rattle.host_state.specs.Serving.{run_of};
ghost use Rattle.io_edge.specs.Writing.{Wrote};
ghost use Rattle.round_driver.specs.ClusterState.{StandsNow, division_in};
ghost use Rattle.run_text.specs.Told.{told_by};
ghost use Rattle.run_text.specs.Text.{answer_lines};
ghost use Rattle.run_answers.specs.States.{lines_here};

use answer_writer::write_answer;
use host_core::Host;
use io_edge::{Sink, SinkFault};
use reduce_laws::VertexProgram;
use round_driver::Cluster;

/// Writes a line for each master of a host, by local number: its vertex and its answer.
fn write_answers_of<P: VertexProgram, K: Sink>(
    sink: &mut K,
    program: &P,
    host: &Host<P>,
) -> Result<(), SinkFault>
    ensures written { Wrote K.Sink result sink.old sink.new (lines_here (P.steps program.now).answer host.now) }
{
    let graph = host.graph();
    for lid in 0..graph.masters() {
        write_answer(sink, graph.global(lid), program.answer(host.state(lid)))?;
    }
    Ok(())
}

/// Writes a line for each vertex by rising number: its answer, or `-` for none. The cluster stands for the
/// moment between two rounds.
pub fn write_answers<P: VertexProgram, K: Sink>(
    sink: &mut K,
    cluster: &Cluster<P>,
) -> Result<(), SinkFault>
    requires { StandsNow P.Red.reducer (P.steps cluster.now.program) P.Red.Item.WIDTH P.Shown.WIDTH P.Red.Item.bytes_of P.Shown.bytes_of cluster.now }
    ensures { Wrote K.Sink result sink.old sink.new (answer_lines (division_in cluster.now)
        (told_by P.Red.Item.bytes_of P.Shown.bytes_of (run_of P.Red.reducer (P.steps cluster.now.program) P.Red.Item.WIDTH P.Shown.WIDTH (division_in cluster.now))) cluster.now.round) }
{
    // Masters stand on hosts by rising vertex, so hosts and masters in turn are all vertices in order.
    for host in cluster.hosts() {
        write_answers_of(sink, &cluster.program(), host)?;
    }
    Ok(())
}
