//! A source in memory whose reads are short and may fail.
ghost use Rattle.std.specs.Prelude.{◌≡◌, ℕ, ◌<◌, ◌≤◌, List, [], length, take, drop, min, Option, Some, IfOk, IfSome, OnOk, OnErr, is_err};
ghost use Rattle.io_edge.specs.Faults.{Rose, count_up};
ghost use Rattle.io_edge.specs.Bytes.{Gives};
ghost use Rattle.io_edge.specs.Listed.{is_listed};

use super::pieces::fill_front;
use super::source::{Source, SourceFault};
use std::marker::Model;

/// Gives the bytes of a list, at most `step` at a call, and fails at the calls that it was told.
#[derive(Drop)]
pub struct MemorySource {
    bytes: Vec<u8>,
    at: usize,
    step: usize,
    fails: Vec<u64>,
    calls: u64,
    failed: u64,
}

impl Model for MemorySource {
    ghost use Rattle.std.specs.Prelude.{◌≤◌, drop, vec_len};
    ghost use Rattle.io_edge.specs.MemoryInput.{MemoryInput};

    ghost Value = { MemoryInput };

    ghost view = { λ s. record {
      left = drop s.at s.bytes.items;
      step = s.step;
      fails = s.fails.items;
      calls = s.calls;
      failed = s.failed;
    } };

    ghost invariant = { λ s. (s.at ≤ vec_len s.bytes) × (1 ≤ s.step) };
}

impl MemorySource {
    /// A source that gives `bytes` from the first on, at most `step` at a call. Its calls are numbered from 0,
    /// and those of `fails` fail.
    pub fn new(bytes: Vec<u8>, step: usize, fails: Vec<u64>) -> MemorySource
        requires { 1 ≤ step }
        ensures { result ≡ record {
          left = bytes.items;
          step = step;
          fails = fails.items;
          calls = 0;
          failed = 0;
        } }
    {
        MemorySource {
            bytes,
            at: 0,
            step,
            fails,
            calls: 0,
            failed: 0,
        }
    }
}

impl Source for MemorySource {
    ghost left = { λ s. Some s.left };

    ghost faults = { λ s. s.failed };

    /// Gives as many bytes as one call gives, as fit and as are left, or fails where its number is listed.
    fn read(&mut self, into: &mut [u8]) -> Result<usize, SourceFault>
        ensures listed { is_err result ≡ is_listed self.old.fails self.old.calls }
        ensures exact { IfOk result (λ n. n ≡ min (min self.old.step (length into.old)) (length self.old.left)) }
        ensures given { IfOk result (λ n. self.new ≡ record self.old {
          left = drop n self.old.left;
          calls = count_up self.old.calls;
        }) }
        ensures failed { OnErr result (self.new ≡ record self.old {
          calls = count_up self.old.calls;
          failed = count_up self.old.failed;
        }) }

        ensures count { IfOk result (λ n. n ≤ length into.old) }
        ensures bytes { IfOk result (λ n. Gives (Some self.old.left) (Some self.new.left) (take n into.new)) }
        ensures rest { IfOk result (λ n. drop n into.new ≡ drop n into.old) }
        ensures end { IfOk result (λ n. n ≡ 0 → 0 < length into.old → IfSome (Some self.new.left) (λ bytes. bytes ≡ [])) }
        ensures quiet { OnOk result (self.new.failed ≡ self.old.failed) }
        ensures rose { OnErr result (Rose self.old.failed self.new.failed) }
        ensures left_stays { OnErr result (Some self.new.left ≡ Some self.old.left) }
    {
        let call = self.calls;
        self.calls = call.saturating_add(1);
        if self.fails.contains(&call) {
            self.failed = self.failed.saturating_add(1);
            return Err(SourceFault);
        }
        let end = self.at + self.step.min(self.bytes.len() - self.at);
        let count = fill_front(&self.bytes[self.at..end], into);
        self.at += count;
        Ok(count)
    }
}
