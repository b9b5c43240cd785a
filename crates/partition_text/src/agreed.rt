//! A partition with the lists on which its hosts agreed.
ghost use Rattle.std.specs.Prelude.{◌≡◌, length};
ghost use Rattle.partition_text.specs.Agreed.{IsAgreed};

use address_memo::Memo;
use graph_model::Way;
use proxy_graph::LocalGraph;

/// The local graph of each host and its memo, where edges are followed in this way.
#[derive(Clone, Copy)]
pub(crate) struct Agreed<'a> {
    pub(crate) graphs: &'a [LocalGraph],
    pub(crate) memos: &'a [Memo],
    pub(crate) way: Way,
}

impl Agreed<'_> {
    /// The number of hosts.
    pub(crate) fn hosts(self) -> u16
        requires { IsAgreed self }
        ensures { result ≡ length self.entry.graphs.now }
    {
        self.graphs.len() as u16
    }
}
