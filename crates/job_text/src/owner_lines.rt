//! The text of masters and owners.
ghost use Rattle.std.specs.Prelude.{◌≡◌, ◌≤◌, length, All};
ghost use Rattle.io_edge.specs.Writing.{Wrote};
ghost use Rattle.graph_model.specs.Graph.{most_edges, IsWithin};
ghost use Rattle.job_text.specs.Numbered.{numbered};
ghost use Rattle.job_text.specs.Owners.{master_line, edge_line, plan_text};
ghost use Rattle.share_plan.specs.Plan.{owner_by};

use answer_writer::write_words;
use cusp_rules::Masters;
use graph_model::{Edge, EdgeList};
use io_edge::{Sink, SinkFault};
use share_plan::SharePlan;

/// Writes a line for each vertex with its master, and then one for each edge with its owner.
pub(crate) fn write_owners<K: Sink>(
    sink: &mut K,
    list: &EdgeList,
    plan: &SharePlan,
) -> Result<(), SinkFault>
    requires { length plan.now.masters ≡ list.now.nodes }
    ensures written { Wrote K.Sink result sink.old sink.new (plan_text plan.now list.now) }
{
    write_masters(sink, plan.masters(), list.nodes())?;
    write_edges(sink, list.edges(), plan)
}

/// Writes a line for each vertex, from 0 on: its number and its master.
fn write_masters<K: Sink>(sink: &mut K, masters: &Masters, nodes: u32) -> Result<(), SinkFault>
    requires { length masters.now.masters ≡ nodes }
    ensures written { Wrote K.Sink result sink.old sink.new (numbered master_line 0 masters.now.masters) }
{
    for v in 0..nodes {
        write_master(sink, v, masters.master(v))?;
    }
    Ok(())
}

/// Writes the line of a vertex: its number and its master.
fn write_master<K: Sink>(sink: &mut K, v: u32, master: u16) -> Result<(), SinkFault>
    ensures written { Wrote K.Sink result sink.old sink.new (master_line v master) }
{
    let v = u64::from(v);
    let master = u64::from(master);
    write_words(sink, "master", &[v, master])
}

/// Writes a line for each edge, from 0 on: its number, its ends and its owner.
fn write_edges<K: Sink>(sink: &mut K, edges: &[Edge], plan: &SharePlan) -> Result<(), SinkFault>
    requires within { All (IsWithin (length plan.now.masters)) edges.now }
    requires few { length edges.now ≤ most_edges }
    ensures written { Wrote K.Sink result sink.old sink.new (numbered (edge_line (owner_by plan.now)) 0 edges.now) }
{
    for (i, edge) in edges.iter().enumerate() {
        write_edge(sink, i as u32, *edge, plan.owner(*edge))?;
    }
    Ok(())
}

/// Writes the line of an edge: its number, its ends and its owner.
fn write_edge<K: Sink>(sink: &mut K, i: u32, edge: Edge, owner: u16) -> Result<(), SinkFault>
    ensures written { Wrote K.Sink result sink.old sink.new (edge_line (λ edge. owner) i edge) }
{
    let i = u64::from(i);
    let src = u64::from(edge.src);
    let dst = u64::from(edge.dst);
    let owner = u64::from(owner);
    write_words(sink, "edge", &[i, src, dst, owner])
}
