//! A set of numbers below a length that tells ranks.
ghost use Rattle.std.specs.Prelude.{◌≡◌, ◌<◌, length, take, IfOk};
ghost use Rattle.list_laws.specs.Members.{count_of};

use crate::update_bits::UpdateBits;
use crate::words::{ones_before, ones_below};
use std::alloc::{AllocError, Global};
use std::marker::Model;

/// A set of numbers below a length that tells at once how many members are below a number.
///
/// It keeps, for each word of the set, how many members are in the words before: one u32 for 64 numbers.
#[derive(Drop)]
pub struct RankedBits {
    bits: UpdateBits,
    before: Vec<u32>,
}

impl Model for RankedBits {
    ghost use Rattle.std.specs.Prelude.{Bool, List};
    ghost use Rattle.update_bits.specs.Words.{AreCountsBefore};

    ghost Value = { List Bool };

    ghost view = { λ r. r.bits };

    ghost invariant = { λ r. AreCountsBefore r.bits r.before.items };
}

impl RankedBits {
    /// The set `bits`, ready to tell ranks. Takes memory for one number for each 64.
    pub fn new(alloc: Global, bits: UpdateBits) -> Result<RankedBits, AllocError>
        ensures { IfOk result (λ ranked. ranked ≡ bits) }
    {
        let before = ones_before(alloc, bits.words())?;
        Ok(RankedBits { bits, before })
    }

    /// The set.
    pub fn bits(&self) -> &UpdateBits
        ensures { result.now ≡ self.now }
    {
        &self.bits
    }

    /// How many members are below `i`, a number below the length.
    pub fn rank(&self, i: u32) -> u32
        requires { i < length self.now }
        ensures { result ≡ count_of (take i self.now) }
    {
        self.before[(i / 64) as usize] + ones_below(self.bits.words(), i)
    }
}

#[cfg(test)]
mod tests {
    use super::*;
    use std::test::Fail;

    #[test]
    fn ranks_count_the_members_below(rt: HostRuntime) -> Result<(), Fail> {
        let mut bits = UpdateBits::new(rt.alloc(), 200)?;
        for member in [0, 63, 64, 130] {
            assert!(rt; member < bits.len());
            bits.set(member);
        }
        let ranked = RankedBits::new(rt.alloc(), bits)?;
        assert_eq!(rt; (ranked.bits().len(), ranked.bits().count()), (200, 4));
        for (number, want) in [
            (0, 0),
            (1, 1),
            (63, 1),
            (64, 2),
            (65, 3),
            (127, 3),
            (128, 3),
            (130, 3),
            (131, 4),
            (199, 4),
        ] {
            assert!(rt; number < ranked.bits().len());
            assert_eq!(rt; ranked.rank(number), want, "below {number}");
        }
        Ok(())
    }
}
