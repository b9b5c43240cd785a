ghost use Rattle.std.specs.Prelude.{◌^◌, true, refl};
ghost use Rattle.std.proofs.Common.{lit<};
ghost use Rattle.reduce_laws.specs.Reducers.{least_below};
ghost use Rattle.reduce_laws.specs.ReducerLaws.{least_laws};

use crate::reduction::Reduction;

/// The least number; the greatest `u32` adds nothing.
#[derive(Clone, Copy)]
pub struct MinU32;

impl Reduction for MinU32 {
    type Item = u32;

    const KEEPS: bool = true;

    ghost KEEPS = { true };

    ghost reducer = { least_below (256 ^ 4) };

    ghost keeps = { refl };

    ghost laws = { least_laws (256 ^ 4) (lit< tt) };

    fn identity() -> u32 {
        u32::MAX
    }

    fn combine(a: u32, b: u32) -> u32 {
        a.min(b)
    }
}
