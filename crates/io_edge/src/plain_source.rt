//! A source in memory that never fails.
ghost use Rattle.std.specs.Prelude.{◌≡◌, ℕ, ◌<◌, ◌≤◌, List, [], length, take, drop, min, Option, Some, IfOk, IfSome, IsOk, OnOk, OnErr};
ghost use Rattle.io_edge.specs.Faults.{Rose};
ghost use Rattle.io_edge.specs.Bytes.{Gives};

use super::pieces::fill_front;
use super::source::{Source, SourceFault};
use std::marker::Model;

/// Gives the bytes of a list, as many at a call as fit, and never fails. It is seen as the bytes still to come.
#[derive(Drop)]
pub struct PlainSource {
    bytes: Vec<u8>,
    at: usize,
}

impl Model for PlainSource {
    ghost use Rattle.std.specs.Prelude.{ℕ, ◌≤◌, List, drop, vec_len};

    ghost Value = { List ℕ };

    ghost view = { λ s. drop s.at s.bytes.items };

    ghost invariant = { λ s. s.at ≤ vec_len s.bytes };
}

impl PlainSource {
    /// A source that gives `bytes` from the first on.
    pub fn new(bytes: Vec<u8>) -> PlainSource
        ensures { result ≡ bytes.items }
    {
        PlainSource { bytes, at: 0 }
    }
}

impl Source for PlainSource {
    ghost left = { λ s. Some s };

    ghost faults = { λ _. 0 };

    /// Fills `into` as far as the bytes go.
    fn read(&mut self, into: &mut [u8]) -> Result<usize, SourceFault>
        ensures never_fails { IsOk result }
        ensures exact { IfOk result (λ n. n ≡ min (length into.old) (length self.old)) }
        ensures left { IfOk result (λ n. self.new ≡ drop n self.old) }

        ensures count { IfOk result (λ n. n ≤ length into.old) }
        ensures bytes { IfOk result (λ n. Gives (Some self.old) (Some self.new) (take n into.new)) }
        ensures rest { IfOk result (λ n. drop n into.new ≡ drop n into.old) }
        ensures end { IfOk result (λ n. n ≡ 0 → 0 < length into.old → IfSome (Some self.new) (λ bytes. bytes ≡ [])) }
    {
        let count = fill_front(&self.bytes[self.at..], into);
        self.at += count;
        Ok(count)
    }
}
