//! A picker that picks what a list says.
ghost use Rattle.std.specs.Prelude.{◌≡◌, ℕ, ◌+◌, ◌≤◌, drop, min, slice_index, Option, Some, None};
ghost use Rattle.io_edge.specs.Faults.{count_up, last_count};

use super::picker::Picker;
use std::marker::Model;

/// Picks the numbers of a list in their order, and then 0. It tells how often it was asked and where it
/// began, and adds up its choices.
#[derive(Drop)]
pub struct ListedPicks {
    picks: Vec<u32>,
    at: usize,
    begun: Option<u64>,
    asked: u64,
    choices: u64,
}

impl Model for ListedPicks {
    ghost use Rattle.std.specs.Prelude.{◌≤◌, drop, vec_len};
    ghost use Rattle.io_edge.specs.ListedChoices.{ListedChoices};

    ghost Value = { ListedChoices };

    ghost view = { λ s. record {
      left = drop s.at s.picks.items;
      begun = s.begun;
      asked = s.asked;
      choices = s.choices;
    } };

    ghost invariant = { λ s. s.at ≤ vec_len s.picks };
}

impl ListedPicks {
    /// A picker that has not begun and gives `picks` from the first on.
    pub fn new(picks: Vec<u32>) -> ListedPicks
        ensures { result ≡ record {
          left = picks.items;
          begun = None;
          asked = 0;
          choices = 0;
        } }
    {
        ListedPicks {
            picks,
            at: 0,
            begun: None,
            asked: 0,
            choices: 0,
        }
    }

    /// The number of picks so far. It stands still at 2^64 - 1.
    pub fn asked(&self) -> u64
        ensures { result ≡ self.now.asked }
    {
        self.asked
    }

    /// The number of the last `start`, or none before the first.
    pub fn begun(&self) -> Option<u64>
        ensures { result ≡ self.now.begun }
    {
        self.begun
    }

    /// The sum of the numbers of choices of all picks. It stands still at 2^64 - 1.
    pub fn choices(&self) -> u64
        ensures { result ≡ self.now.choices }
    {
        self.choices
    }
}

impl Picker for ListedPicks {
    ghost use Rattle.std.specs.Prelude.{refl};

    ghost begun = { λ s. Some s.begun };

    ghost asked = { λ s. Some s.asked };

    ghost tells_both = { λ _. refl };

    fn start(&mut self, number: u64)
        ensures { self.new ≡ record self.old { begun = Some number } }
    {
        self.begun = Some(number);
    }

    fn pick(&mut self, n: u32) -> u32
        ensures picked { result ≡ slice_index self.old.left 0 }
        ensures counted { self.new ≡ record self.old {
          left = drop 1 self.old.left;
          asked = count_up self.old.asked;
          choices = min (self.old.choices + n) last_count;
        } }
    {
        self.asked = self.asked.saturating_add(1);
        self.choices = self.choices.saturating_add(u64::from(n));
        if self.at == self.picks.len() {
            return 0;
        }
        self.at += 1;
        self.picks[self.at - 1]
    }
}
