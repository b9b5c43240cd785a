//! The lines of each host and of its proxies.
ghost use Rattle.std.specs.Prelude.{◌≡◌, ◌<◌, length};
ghost use Rattle.std.specs.List.{flat_map};
ghost use Rattle.io_edge.specs.Writing.{Wrote};
ghost use Rattle.graph_division.specs.Shares.{proxies_here};
ghost use Rattle.proxy_graph.specs.Heads.{vertex_at};
ghost use Rattle.partition_text.specs.Hosts.{host_line, host_text, proxy_line, flag, flags_end};

use crate::numbers::write_number_after;
use answer_writer::write_words;
use graph_model::Way;
use io_edge::{Sink, SinkFault, write_whole};
use proxy_graph::LocalGraph;

/// Writes the lines of each host.
pub(crate) fn write_hosts<K: Sink>(
    sink: &mut K,
    graphs: &[LocalGraph],
    way: Way,
) -> Result<(), SinkFault>
    ensures written { Wrote K.Sink result sink.old sink.new (flat_map (host_text way) graphs.now) }
{
    for graph in graphs {
        write_host(sink, graph, way)?;
    }
    Ok(())
}

/// Writes the line of a host, and then one for each of its proxies.
fn write_host<K: Sink>(sink: &mut K, graph: &LocalGraph, way: Way) -> Result<(), SinkFault>
    ensures written { Wrote K.Sink result sink.old sink.new (host_text way graph.now) }
{
    write_host_line(sink, graph)?;
    write_proxies(sink, graph, way)
}

/// Writes the line of a host: its number, how many masters and mirrors it has, and how many edges.
fn write_host_line<K: Sink>(sink: &mut K, graph: &LocalGraph) -> Result<(), SinkFault>
    ensures written { Wrote K.Sink result sink.old sink.new (host_line graph.now) }
{
    let masters = graph.masters();
    let mirrors = graph.proxies() - masters;
    write_number_after(sink, "host ", u64::from(graph.host()))?;
    write_number_after(sink, " masters ", u64::from(masters))?;
    write_number_after(sink, " mirrors ", u64::from(mirrors))?;
    write_words(sink, " edges", &[u64::from(graph.edges())])
}

/// Writes a line for each proxy of a host, by local number.
fn write_proxies<K: Sink>(sink: &mut K, graph: &LocalGraph, way: Way) -> Result<(), SinkFault>
    ensures written { Wrote K.Sink result sink.old sink.new (flat_map (proxy_line way graph.now) (proxies_here graph.now)) }
{
    for lid in 0..graph.proxies() {
        write_proxy(sink, graph, way, lid)?;
    }
    Ok(())
}

/// Writes the line of a proxy: its host, its vertex, the host of the vertex's master, and what it is.
fn write_proxy<K: Sink>(
    sink: &mut K,
    graph: &LocalGraph,
    way: Way,
    lid: u32,
) -> Result<(), SinkFault>
    requires { lid < length (proxies_here graph.now) }
    ensures written { Wrote K.Sink result sink.old sink.new (proxy_line way graph.now (vertex_at graph.now lid)) }
{
    write_number_after(sink, "proxy ", u64::from(graph.host()))?;
    write_number_after(sink, " ", u64::from(graph.global(lid)))?;
    write_number_after(sink, " ", u64::from(graph.master_of(lid)))?;
    write_whole(sink, &flags(graph, way, lid))
}

/// What ends the line of a proxy: a space, a letter or `-` for each thing that it may be, and a newline.
fn flags(graph: &LocalGraph, way: Way, lid: u32) -> [u8; 6]
    requires { lid < length (proxies_here graph.now) }
    ensures { result ≡ flags_end way graph.now (vertex_at graph.now lid) }
{
    [
        b' ',
        flag(b'o', graph.has_out(lid)),
        flag(b'i', graph.has_in(lid)),
        flag(b'r', graph.readable(way, lid)),
        flag(b'w', graph.writable(way, lid)),
        b'\n',
    ]
}

/// The letter where it is so, else `-`.
fn flag(letter: u8, is: bool) -> u8
    ensures { result ≡ flag letter is }
{
    if is { letter } else { b'-' }
}
