//! A picker whose picks are mixed from its number.
ghost use Rattle.std.specs.Prelude.{◌≡◌, ℕ, ◌%◌, ◌^◌, ◌≤◌, Option, None};
ghost use Rattle.rand_xoshiro.specs.SplitMix64.{mix_u64};

use super::picker::Picker;
use rand_core::SeedableRng;
use rand_core::utils::NextWord;
use rand_xoshiro::SplitMix64;
use std::marker::Model;

/// Picks by the SplitMix64 generator (Steele, Lea and Flood), whose state is the number of the last `start`.
/// Each pick is the low half of the generator's next word of 64 bits. It is seen as the generator's state,
/// and tells neither of its meanings.
#[derive(Drop)]
pub struct MixedPicks {
    words: SplitMix64,
}

impl Model for MixedPicks {
    ghost use Rattle.std.specs.Prelude.{ℕ};

    ghost Value = { ℕ };

    ghost view = { λ s. s.words };
}

impl MixedPicks {
    /// A picker that begins at 0.
    pub fn new() -> MixedPicks
        ensures { result ≡ 0 }
    {
        MixedPicks {
            words: SplitMix64::seed_from_u64(0),
        }
    }
}

impl Picker for MixedPicks {
    ghost use Rattle.std.specs.Prelude.{refl};

    ghost begun = { λ _. None };

    ghost asked = { λ _. None };

    ghost tells_both = { λ _. refl };

    fn start(&mut self, number: u64)
        ensures { self.new ≡ number }
    {
        self.words = SplitMix64::seed_from_u64(number);
    }

    fn pick(&mut self, _n: u32) -> u32
        ensures low_half { result ≡ (mix_u64 self.old).0 % 2 ^ 32 }
        ensures next { self.new ≡ (mix_u64 self.old).1 }
    {
        let word: u64 = self.words.next_word();
        (word % 0x1_0000_0000) as u32
    }
}
