//! Who picks the order of events within a round.
ghost use Rattle.std.specs.Prelude.{◌≡◌, ℕ, ◌≤◌, Bool, Option, Some, is_some, option_map};
ghost use Rattle.io_edge.specs.Faults.{count_up};

/// Picks one of `n`, again and again.
pub trait Picker {
    /// The number of the last `start`, `None` before the first, where the picker tells it.
    ghost begun: { Self → Option (Option ℕ) };

    /// How many picks it was asked for, where it tells that.
    ghost asked: { Self → Option ℕ };

    /// Begins anew from this number.
    fn start(&mut self, number: u64)
        ensures begun { begun self.new ≡ option_map (λ _. Some number) (begun self.old) }
        ensures asked { asked self.new ≡ asked self.old };

    /// A pick among `n` choices: any number, which the caller takes modulo `n`.
    fn pick(&mut self, n: u32) -> u32
        requires { 1 ≤ n }
        ensures begun { begun self.new ≡ begun self.old }
        ensures asked { asked self.new ≡ option_map count_up (asked self.old) };

    /// A picker tells both or neither.
    ghost tells_both: { (picker : Self) → is_some (begun picker) ≡ is_some (asked picker) };
}
