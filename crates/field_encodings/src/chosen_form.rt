//! Chooses the form that is sent.
ghost use Rattle.std.specs.Prelude.{◌≡◌, ◌<◌, ◌≤◌, ℕ, length, slice_index};
ghost use Rattle.reduce_laws.specs.WordLaws.{IsWordWidth};
ghost use Rattle.field_encodings.specs.Lengths.{form_length, IsSentTag};

use crate::coded::Coded;
use crate::length_table::lengths;
use graph_model::MAX_NODES;

/// The place of the least of four numbers, the first on a tie.
fn first_least(numbers: &[u64]) -> u8
    requires { length numbers.now ≡ 4 }
    ensures within { result < 4 }
    ensures least { (k : ℕ) → k < 4 → slice_index numbers.now result ≤ slice_index numbers.now k }
    ensures first { (k : ℕ) → k < result → slice_index numbers.now result < slice_index numbers.now k }
{
    let mut best: u8 = 0;
    for place in 1..4u8 {
        if numbers[place as usize] < numbers[best as usize] {
            best = place;
        }
    }
    best
}

/// The tag that is sent for a list of `n` positions, `u` of them updated, `greatest` the last of these,
/// and values of `width` bytes, with the length of its form.
pub(crate) fn choose_form(n: u32, u: u32, greatest: u32, width: u32) -> Coded
    requires short { n ≤ MAX_NODES }
    requires updated { u ≤ n }
    requires within { 0 < u → greatest < n }
    requires word { IsWordWidth width }
    ensures sent { IsSentTag n u greatest width result.tag }
    ensures len { result.len ≡ form_length n u greatest width result.tag }
{
    let lengths = lengths(n, u, greatest, width);
    let tag = if n == 0 { 3 } else { first_least(&lengths) };
    Coded {
        tag,
        len: lengths[tag as usize],
    }
}
