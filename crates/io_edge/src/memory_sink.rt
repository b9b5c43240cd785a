//! A sink in memory whose writes are short and may fail.
ghost use Rattle.std.specs.Prelude.{◌≡◌, ℕ, ◌<◌, ◌≤◌, List, [], ◌++◌, length, take, min, Option, Some, IfOk, OnOk, OnErr, is_err};
ghost use Rattle.io_edge.specs.Faults.{Rose, count_up};
ghost use Rattle.io_edge.specs.Bytes.{Gains};
ghost use Rattle.io_edge.specs.Behind.{Passes, nothing_behind};
ghost use Rattle.io_edge.specs.MemoryOutput.{room_left, next_fails};

use super::sink::{Sink, SinkFault};
use std::alloc::{AllocError, Global};
use std::marker::Model;

/// Holds the bytes that it takes, at most `step` at a call and `room` in all, and fails at the calls that it
/// was told.
#[derive(Drop)]
pub struct MemorySink {
    held: Vec<u8>,
    room: usize,
    step: usize,
    fails: Vec<u64>,
    calls: u64,
    failed: u64,
}

impl Model for MemorySink {
    ghost use Rattle.std.specs.Prelude.{◌≤◌, vec_len, vec_capacity};
    ghost use Rattle.io_edge.specs.MemoryOutput.{MemoryOutput};

    ghost Value = { MemoryOutput };

    ghost view = { λ s. record {
      held = s.held.items;
      room = s.room;
      step = s.step;
      fails = s.fails.items;
      calls = s.calls;
      failed = s.failed;
    } };

    ghost invariant = { λ s. (vec_len s.held ≤ s.room) × (s.room ≤ vec_capacity s.held) × (1 ≤ s.step) };
}

impl MemorySink {
    /// An empty sink that takes at most `step` bytes at a call and `room` in all, for which it takes the memory
    /// here. Its calls are numbered from 0, and those of `fails` fail.
    pub fn new(
        alloc: Global,
        room: usize,
        step: usize,
        fails: Vec<u64>,
    ) -> Result<MemorySink, AllocError>
        requires { 1 ≤ step }
        ensures { IfOk result (λ sink. sink ≡ record {
          held = [];
          room = room;
          step = step;
          fails = fails.items;
          calls = 0;
          failed = 0;
        }) }
    {
        let held = Vec::with_capacity(alloc, room)?;
        Ok(MemorySink {
            held,
            room,
            step,
            fails,
            calls: 0,
            failed: 0,
        })
    }

    /// The bytes written so far.
    pub fn held(&self) -> &[u8]
        ensures { result.now ≡ self.now.held }
    {
        &self.held
    }
}

impl Sink for MemorySink {
    ghost held = { λ s. Some s.held };

    ghost faults = { λ s. s.failed };

    /// Takes as many bytes as one call takes and as there is room for. It fails where its number is listed, and
    /// where there is no room for a piece that is not empty.
    fn write(&mut self, bytes: &[u8]) -> Result<usize, SinkFault>
        ensures fails { is_err result ≡ next_fails self.old bytes.now }
        ensures exact { IfOk result (λ n. n ≡ min (min self.old.step (room_left self.old)) (length bytes.now)) }
        ensures taken { IfOk result (λ n. self.new ≡ record self.old {
          held = self.old.held ++ take n bytes.now;
          calls = count_up self.old.calls;
        }) }
        ensures failed { OnErr result (self.new ≡ record self.old {
          calls = count_up self.old.calls;
          failed = count_up self.old.failed;
        }) }

        ensures count { IfOk result (λ n. n ≤ length bytes.now) }
        ensures progress { IfOk result (λ n. 0 < length bytes.now → 0 < n) }
        ensures gained { IfOk result (λ n. Gains (Some self.old.held) (Some self.new.held) (take n bytes.now)) }
        ensures quiet { OnOk result (self.new.failed ≡ self.old.failed) }
        ensures rose { OnErr result (Rose self.old.failed self.new.failed) }
        ensures held_stays { OnErr result (Some self.new.held ≡ Some self.old.held) }
        ensures passed { Passes nothing_behind nothing_behind }
    {
        let call = self.calls;
        self.calls = call.saturating_add(1);
        let room_left = self.room - self.held.len();
        if self.fails.contains(&call) || (room_left == 0 && !bytes.is_empty()) {
            self.failed = self.failed.saturating_add(1);
            return Err(SinkFault);
        }
        let count = self.step.min(room_left).min(bytes.len());
        match self.held.extend_from_slice(&bytes[..count]) {
            Ok(()) => Ok(count),
            Err(_) => unreachable!(),
        }
    }
}
