//! Arcs that lie side by side.
ghost use Rattle.std.specs.Prelude.{◌≡◌, ℕ, ◌≤◌, List, length, drop};
ghost use Rattle.std.specs.List.{zip};
ghost use Rattle.std.specs.Iterator.{YieldsFirst, item_count};

use std::marker::Model;

/// Arcs of one tail that lie side by side and are still to come: for each the local number of its head,
/// and its weight. They lend the arcs and copy nothing.
#[derive(Drop)]
pub struct Run<'a> {
    heads: &'a [u32],
    weights: &'a [u32],
    at: usize,
}

impl<'a> Model for Run<'a> {
    ghost Value = { List (ℕ × ℕ) };

    ghost view = { λ run. drop run.at (zip run.heads.now run.weights.now) };

    ghost invariant = { λ run. (length run.weights.now ≡ length run.heads.now) × (run.at ≤ length run.heads.now) };
}

impl<'a> Run<'a> {
    /// The arcs with these heads, and the weights at the same places.
    pub(crate) fn new(heads: &'a [u32], weights: &'a [u32]) -> Run<'a>
        requires { length weights.now ≡ length heads.now }
        ensures { result ≡ zip heads.now weights.now }
    {
        Run {
            heads,
            weights,
            at: 0,
        }
    }
}

impl<'a> Iterator for Run<'a> {
    type Item = (u32, u32);

    ghost next_gives = { YieldsFirst (λ arcs. arcs) };

    ghost remaining = { item_count (λ arcs. arcs) };

    fn next(&mut self) -> Option<(u32, u32)> {
        if self.at == self.heads.len() {
            return None;
        }
        let arc = (self.heads[self.at], self.weights[self.at]);
        self.at += 1;
        Some(arc)
    }
}
