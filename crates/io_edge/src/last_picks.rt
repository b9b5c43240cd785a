//! A picker that always picks the last.
ghost use Rattle.std.specs.Prelude.{◌≡◌, ℕ, ◌-◌, ◌≤◌, Option, None};

use super::picker::Picker;

/// Picks the last of the choices always, and tells neither of its meanings.
#[derive(Clone, Copy, Debug, Default, Drop)]
pub struct LastPicks;

impl Picker for LastPicks {
    ghost use Rattle.std.specs.Prelude.{refl};

    ghost begun = { λ _. None };

    ghost asked = { λ _. None };

    ghost tells_both = { λ _. refl };

    fn start(&mut self, _number: u64) {}

    fn pick(&mut self, n: u32) -> u32
        requires { 1 ≤ n }
        ensures { result ≡ n - 1 }
    {
        n - 1
    }
}
