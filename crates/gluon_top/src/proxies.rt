//! From rules and bytes to the local graph of each host and the lists that hosts agree on.
ghost use Rattle.std.specs.Prelude.{◌≡◌, ◌≢◌, IfOk, IfErr, IfSome, Err};
ghost use Rattle.cusp_rules.specs.Hosts.{IsHostCount};
ghost use Rattle.gr_reader.specs.File.{file_at};
ghost use Rattle.partition_build.specs.Meant.{shared};
ghost use Rattle.gluon_top.specs.Divided.{IsDivided};
ghost use Rattle.job_text.specs.Fault.{cause_of};
ghost use Rattle.gluon_top.specs.Meaning.{of_input};
ghost use Rattle.gluon_top.specs.Outcome.{Counts, IfMeant, LeftAfter};
ghost use Rattle.gluon_top.specs.Loaded.{LoadsWith};

use address_memo::Memo;
use edge_owner::Rules;
use gr_reader::read_graph;
use graph_model::Way;
use io_edge::{FirstPicks, Source};
use job_text::Fault;
use memo_exchange::exchange;
use partition_build::build_list;
use proxy_graph::LocalGraph;
use std::alloc::Global;

/// A graph that is divided among hosts: the local graph of each and its memo, where edges are followed in
/// this way.
#[derive(Drop)]
pub(crate) struct Divided {
    pub(crate) graphs: Vec<LocalGraph>,
    pub(crate) memos: Vec<Memo>,
    pub(crate) way: Way,
}

/// The graph that the source gives, divided among hosts that told each other their lists; or the first fault.
/// The lists do not depend on the order in which they are told.
pub(crate) fn proxies<S: Source>(
    alloc: Global,
    hosts: u16,
    rules: Rules,
    way: Way,
    source: &mut S,
) -> Result<Divided, Fault>
    requires { IsHostCount hosts }
    ensures means { IfSome (S.left source.old) (λ bytes.
        LoadsWith (λ divided. divided.graphs.items) result (S.left source.new) (of_input (shared rules hosts (file_at bytes)))) }
    ensures way { IfOk result (λ divided. divided.way ≡ way) }
    ensures divided { IfOk result IsDivided }
    ensures words { result ≢ Err Fault.Words }
    ensures taken { IfErr result (λ fault. IfMeant (cause_of fault) (IfSome (S.left source.old) (λ bytes.
        LeftAfter bytes fault (S.left source.new)))) }
    ensures counts { Counts result (S.faults source.old) (S.faults source.new) }
{
    let graphs = {
        let list = read_graph(alloc, source)?;
        build_list(alloc, &list, rules, hosts)?
    };
    let memos = exchange(alloc, &graphs, way, &mut FirstPicks)?;
    Ok(Divided { graphs, memos, way })
}
