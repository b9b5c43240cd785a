//! A picker that always picks the first.
ghost use Rattle.std.specs.Prelude.{◌≡◌, ℕ, Option, None};

use super::picker::Picker;

/// Picks 0 always, and tells neither of its meanings.
#[derive(Clone, Copy, Debug, Default, Drop)]
pub struct FirstPicks;

impl Picker for FirstPicks {
    ghost use Rattle.std.specs.Prelude.{refl};

    ghost begun = { λ _. None };

    ghost asked = { λ _. None };

    ghost tells_both = { λ _. refl };

    fn start(&mut self, _number: u64) {}

    fn pick(&mut self, _n: u32) -> u32
        ensures { result ≡ 0 }
    {
        0
    }
}
