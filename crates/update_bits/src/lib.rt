//! Sets of numbers below a length, as a synchronisation notes which vertices changed.
//!
//! An [`UpdateBits`] takes its memory when it is made, and none after that. It has one bit for each number,
//! in words of 64 bits, and one bit more for each word, so that a large set with few members is gone
//! through, and emptied, in few steps. Its contracts speak of the set alone: a list of truth values that is true exactly
//! at the members. A [`RankedBits`] tells for such a set how many members are below a number.
#![tactic(auto)]

mod last_bit;
mod marks;
mod ranked_bits;
mod spans;
mod update_bits;
mod words;

pub use ranked_bits::RankedBits;
pub use update_bits::UpdateBits;
