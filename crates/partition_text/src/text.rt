//! The text of a partition.
ghost use Rattle.io_edge.specs.Writing.{Wrote};
ghost use Rattle.graph_division.specs.Partition.{IsPartition};
ghost use Rattle.address_memo.specs.Memos.{Agree};
ghost use Rattle.partition_text.specs.Text.{partition_text};

use crate::agreed::Agreed;
use crate::classes::write_classes;
use crate::hosts::write_hosts;
use crate::lists::write_lists;
use address_memo::Memo;
use graph_model::Way;
use io_edge::{Sink, SinkFault};
use packet_table::Leg;
use proxy_graph::LocalGraph;

/// Writes the text of a partition whose hosts agreed on their lists, where edges are followed in this
/// way: for each host its line and those of its proxies, the lists of reductions, the lists of
/// broadcasts, and the classes. Where a write fails, a front of it was written.
pub fn write_partition<K: Sink>(
    sink: &mut K,
    graphs: &[LocalGraph],
    memos: &[Memo],
    way: Way,
) -> Result<(), SinkFault>
    requires partition { IsPartition graphs.now }
    requires agree { Agree way graphs.now memos.now }
    ensures written { Wrote K.Sink result sink.old sink.new (partition_text way graphs.now) }
{
    let agreed = Agreed { graphs, memos, way };
    write_hosts(sink, graphs, way)?;
    write_lists(sink, agreed, Leg::Reduce)?;
    write_lists(sink, agreed, Leg::Spread)?;
    write_classes(sink, graphs)
}
