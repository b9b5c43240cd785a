//! Arcs that are kept by the local number of one of their ends.
ghost use Rattle.std.specs.Prelude.{◌≡◌, [], nat_lt};
ghost use Rattle.proxy_graph.specs.Runs.{AreRuns, arcs_at, count_at};

use crate::run::Run;

/// Arcs by one end: those of the proxy `lid` stand from `starts[lid]` up to, but not including,
/// `starts[lid + 1]`, in the order in which they came. Starts are kept up to the last proxy that has an arc.
#[derive(Drop)]
pub(crate) struct Arcs {
    /// Where the arcs of each proxy start, and behind the last that has one where they end.
    pub(crate) starts: Vec<u32>,
    /// The local number of each arc's other end.
    pub(crate) heads: Vec<u32>,
    /// The weight of each arc.
    pub(crate) weights: Vec<u32>,
}

impl Arcs {
    /// Whether the proxy `lid` has an arc.
    pub(crate) fn has(&self, lid: u32) -> bool
        ensures { result ≡ nat_lt 0 (count_at self.now lid) }
    {
        let at = lid as usize;
        at + 1 < self.starts.len() && self.starts[at] < self.starts[at + 1]
    }

    /// The arcs of the proxy `lid`.
    pub(crate) fn of<'a>(&'a self, lid: u32) -> Run<'a>
        requires { AreRuns self.now }
        ensures { result ≡ arcs_at self.now lid }
    {
        let at = lid as usize;
        if at + 1 >= self.starts.len() {
            return self.none();
        }
        let start = self.starts[at] as usize;
        let end = self.starts[at + 1] as usize;
        Run::new(&self.heads[start..end], &self.weights[start..end])
    }

    /// No arcs.
    pub(crate) fn none<'a>(&'a self) -> Run<'a>
        ensures { result ≡ [] }
    {
        Run::new(&self.heads[..0], &self.weights[..0])
    }
}
