//! The lines of the lists along which hosts exchange values.
ghost use Rattle.std.specs.Prelude.{◌≡◌, ◌<◌, length};
ghost use Rattle.std.specs.List.{flat_map};
ghost use Rattle.io_edge.specs.Writing.{Wrote};
ghost use Rattle.graph_division.specs.Division.{hosts_of};
ghost use Rattle.graph_division.specs.Partition.{division_of};
ghost use Rattle.answer_writer.specs.Lines.{spaced_numbers};
ghost use Rattle.partition_text.specs.Agreed.{IsAgreed};
ghost use Rattle.partition_text.specs.Lists.{list_line, line_between, lists_text};

use crate::agreed::Agreed;
use crate::numbers::write_number_after;
use address_memo::ListKind;
use io_edge::{Sink, SinkFault, write_whole};
use packet_table::Leg;

/// Writes a line for each list of a leg that is not empty, by the host that sends along it and then by
/// the one that receives.
pub(crate) fn write_lists<K: Sink>(
    sink: &mut K,
    agreed: Agreed<'_>,
    leg: Leg,
) -> Result<(), SinkFault>
    requires { IsAgreed agreed }
    ensures written { Wrote K.Sink result sink.old sink.new (lists_text leg (division_of agreed.entry.way agreed.entry.graphs.now)) }
{
    for from in 0..agreed.hosts() {
        write_lists_from(sink, agreed, leg, from)?;
    }
    Ok(())
}

/// Writes a line for each list along which a host sends.
fn write_lists_from<K: Sink>(
    sink: &mut K,
    agreed: Agreed<'_>,
    leg: Leg,
    from: u16,
) -> Result<(), SinkFault>
    requires agreed { IsAgreed agreed }
    requires from { from < length agreed.graphs.now }
    ensures written { Wrote K.Sink result sink.old sink.new
        (flat_map (line_between leg (division_of agreed.entry.way agreed.entry.graphs.now) from) (hosts_of (division_of agreed.entry.way agreed.entry.graphs.now))) }
{
    for to in 0..agreed.hosts() {
        write_list_between(sink, agreed, leg, from, to)?;
    }
    Ok(())
}

/// Writes the line of the list along which one host sends to another, as the receiver of a reduction and
/// the sender of a broadcast hold it: that of its masters.
fn write_list_between<K: Sink>(
    sink: &mut K,
    agreed: Agreed<'_>,
    leg: Leg,
    from: u16,
    to: u16,
) -> Result<(), SinkFault>
    requires agreed { IsAgreed agreed }
    requires from { from < length agreed.graphs.now }
    requires to { to < length agreed.graphs.now }
    ensures written { Wrote K.Sink result sink.old sink.new (line_between leg (division_of agreed.entry.way agreed.entry.graphs.now) from to) }
{
    let memos = agreed.memos;
    match leg {
        Leg::Reduce => {
            let list = memos[to as usize].list(ListKind::ReduceFrom, from);
            write_list(sink, "reduce ", from, to, list.globals())
        }
        Leg::Spread => {
            let list = memos[from as usize].list(ListKind::SpreadTo, to);
            write_list(sink, "spread ", from, to, list.globals())
        }
    }
}

/// Writes the line of a list: what it is, who sends, who receives, and its vertices. An empty list has
/// none.
fn write_list<K: Sink>(
    sink: &mut K,
    before: &str,
    from: u16,
    to: u16,
    vertices: &[u32],
) -> Result<(), SinkFault>
    ensures written { Wrote K.Sink result sink.old sink.new (list_line before.now from to vertices.now) }
{
    if vertices.is_empty() {
        return Ok(());
    }
    write_number_after(sink, before, u64::from(from))?;
    write_number_after(sink, " ", u64::from(to))?;
    write_vertices(sink, vertices)?;
    write_whole(sink, b"\n")
}

/// Writes each vertex after one space.
fn write_vertices<K: Sink>(sink: &mut K, vertices: &[u32]) -> Result<(), SinkFault>
    ensures written { Wrote K.Sink result sink.old sink.new (spaced_numbers vertices.now) }
{
    for vertex in vertices {
        write_number_after(sink, " ", u64::from(*vertex))?;
    }
    Ok(())
}
