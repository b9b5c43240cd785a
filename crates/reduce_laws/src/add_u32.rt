ghost use Rattle.std.specs.Prelude.{false, refl};
ghost use Rattle.reduce_laws.specs.Reducers.{wrapping_sum};
ghost use Rattle.reduce_laws.specs.ReducerLaws.{sum_laws};

use crate::reduction::Reduction;

/// The sum of numbers, modulo 2^32; 0 adds nothing.
#[derive(Clone, Copy)]
pub struct AddU32;

impl Reduction for AddU32 {
    type Item = u32;

    const KEEPS: bool = false;

    ghost KEEPS = { false };

    ghost reducer = { wrapping_sum };

    ghost keeps = { refl };

    ghost laws = { sum_laws };

    fn identity() -> u32 {
        0
    }

    fn combine(a: u32, b: u32) -> u32 {
        a.wrapping_add(b)
    }
}
