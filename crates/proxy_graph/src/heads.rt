//! The heads of the arcs out of one proxy.
ghost use Rattle.std.specs.Prelude.{◌≡◌, ℕ, List, [], ◌++◌};
ghost use Rattle.proxy_graph.specs.Search.{found_by};
ghost use Rattle.std.specs.Iterator.{YieldsFirst, item_count};

use crate::run::Run;
use crate::search::Search;
use std::marker::Model;

/// The arcs out of a proxy that are still to come: for each the local number of its head, and its
/// weight. They lend the arcs and copy nothing.
#[derive(Drop)]
pub struct Heads<'a> {
    run: Run<'a>,
    next_run: Run<'a>,
    search: Option<Search<'a>>,
}

impl<'a> Model for Heads<'a> {
    ghost Value = { List (ℕ × ℕ) };

    ghost view = { λ heads. heads.run ++ heads.next_run ++ found_by heads.search };
}

impl<'a> Heads<'a> {
    /// The arcs of one run, and then those of another.
    pub(crate) fn of_runs(run: Run<'a>, next_run: Run<'a>) -> Heads<'a>
        ensures { result ≡ run.entry ++ next_run.entry }
    {
        Heads {
            run,
            next_run,
            search: None,
        }
    }

    /// The arcs of one run, and then those that a search finds.
    pub(crate) fn of_search(run: Run<'a>, none: Run<'a>, search: Search<'a>) -> Heads<'a>
        requires { none ≡ [] }
        ensures { result ≡ run.entry ++ search.entry }
    {
        Heads {
            run,
            next_run: none,
            search: Some(search),
        }
    }
}

impl<'a> Iterator for Heads<'a> {
    type Item = (u32, u32);

    ghost next_gives = { YieldsFirst (λ heads. heads) };

    ghost remaining = { item_count (λ heads. heads) };

    fn next(&mut self) -> Option<(u32, u32)> {
        if let Some(arc) = self.run.next() {
            return Some(arc);
        }
        if let Some(arc) = self.next_run.next() {
            return Some(arc);
        }
        self.search.as_mut()?.next()
    }
}
