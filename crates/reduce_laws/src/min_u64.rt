ghost use Rattle.std.specs.Prelude.{◌^◌, true, refl};
ghost use Rattle.std.proofs.Common.{lit<};
ghost use Rattle.reduce_laws.specs.Reducers.{least_below};
ghost use Rattle.reduce_laws.specs.ReducerLaws.{least_laws};

use crate::reduction::Reduction;

/// The least number; the greatest `u64` adds nothing.
#[derive(Clone, Copy)]
pub struct MinU64;

impl Reduction for MinU64 {
    type Item = u64;

    const KEEPS: bool = true;

    ghost KEEPS = { true };

    ghost reducer = { least_below (256 ^ 8) };

    ghost keeps = { refl };

    ghost laws = { least_laws (256 ^ 8) (lit< tt) };

    fn identity() -> u64 {
        u64::MAX
    }

    fn combine(a: u64, b: u64) -> u64 {
        a.min(b)
    }
}
