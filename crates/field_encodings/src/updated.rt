//! Counts the updated positions of a list.
ghost use Rattle.std.specs.Prelude.{◌≡◌, ◌<◌, ◌≤◌, ◌+◌, ◌-◌, ◌^◌, length, slice_index};
ghost use Rattle.std.specs.List.{All, range_with_len};
ghost use Rattle.std.specs.List.Sorted.{IsStrictlyIncreasing};
ghost use Rattle.list_laws.specs.Members.{members, IsLeastMemberSince};
ghost use Rattle.field_encodings.specs.Lists.{marks_at};
ghost use Rattle.field_encodings.specs.Lengths.{greatest_of};

use crate::next_updated::{next_by_jumps, next_updated};
use crate::rows::is_run;
use update_bits::UpdateBits;

/// The updated positions of a list.
#[derive(Clone, Copy)]
pub(crate) struct Updated {
    /// How many there are.
    pub(crate) count: u32,
    /// The greatest of them, and 0 where there is none.
    pub(crate) greatest: u32,
}

/// One more than the last number of a list.
fn end_of(locals: &[u32], bits: &UpdateBits) -> u32
    requires some { 0 < length locals.now }
    requires rise { IsStrictlyIncreasing locals.now }
    requires has_bits { All (λ local. local < length bits.now) locals.now }
    ensures last { result ≡ slice_index locals.now (length locals.now - 1) + 1 }
    ensures order { slice_index locals.now 0 ≤ result }
    ensures within { result ≤ length bits.now }
{
    let members = bits.len();
    let last = locals[locals.len() - 1];
    prove!(last < members);
    last + 1
}

/// Whether at least one in eight of a list's positions may be updated, as the members of the set between
/// the list's first number and its last tell. It only chooses how to count, and each way of counting gives
/// the same, so nothing is promised of the answer.
fn are_many(locals: &[u32], bits: &UpdateBits) -> bool
    requires some { 0 < length locals.now }
    requires rise { IsStrictlyIncreasing locals.now }
    requires has_bits { All (λ local. local < length bits.now) locals.now }
{
    let end = end_of(locals, bits);
    bits.count_between(locals[0], end) as usize * 8 >= locals.len()
}

/// Counts the updated positions of a list whose numbers stand in a row, by whole words of the set.
fn count_run(locals: &[u32], bits: &UpdateBits) -> Updated
    requires some { 0 < length locals.now }
    requires row { locals.now ≡ range_with_len (slice_index locals.now 0) (length locals.now) }
    requires rise { IsStrictlyIncreasing locals.now }
    requires has_bits { All (λ local. local < length bits.now) locals.now }
    ensures count { result.count ≡ length (members (marks_at bits.now locals.now)) }
    ensures greatest { result.greatest ≡ greatest_of (members (marks_at bits.now locals.now)) }
    ensures few { result.count ≤ length locals.now }
    ensures within { 0 < result.count → result.greatest < length locals.now }
{
    let first = locals[0];
    let end = end_of(locals, bits);
    let count = bits.count_between(first, end);
    match bits.last_before(end) {
        Some(last) => Updated {
            count,
            greatest: last.saturating_sub(first),
        },
        None => Updated { count, greatest: 0 },
    }
}

/// Counts the updated positions: each position is looked at once, with the same steps.
fn count_each(locals: &[u32], bits: &UpdateBits) -> Updated
    requires short { length locals.now < 2 ^ 32 }
    requires has_bits { All (λ local. local < length bits.now) locals.now }
    ensures count { result.count ≡ length (members (marks_at bits.now locals.now)) }
    ensures greatest { result.greatest ≡ greatest_of (members (marks_at bits.now locals.now)) }
    ensures few { result.count ≤ length locals.now }
    ensures within { 0 < result.count → result.greatest < length locals.now }
{
    let mut count = 0;
    let mut greatest = 0;
    for (position, local) in locals.iter().enumerate() {
        let updated = bits.test(*local);
        count += updated as u32;
        if updated {
            greatest = position as u32;
        }
    }
    Updated { count, greatest }
}

/// Counts the updated positions, from one to the next; `first` is the first of them.
fn count_from(locals: &[u32], bits: &UpdateBits, first: u32) -> Updated
    requires short { length locals.now < 2 ^ 32 }
    requires rise { IsStrictlyIncreasing locals.now }
    requires has_bits { All (λ local. local < length bits.now) locals.now }
    requires first { IsLeastMemberSince (marks_at bits.now locals.now) 0 first }
    ensures count { result.count ≡ length (members (marks_at bits.now locals.now)) }
    ensures greatest { result.greatest ≡ greatest_of (members (marks_at bits.now locals.now)) }
    ensures few { result.count ≤ length locals.now }
    ensures within { 0 < result.count → result.greatest < length locals.now }
{
    let mut count = 1;
    let mut greatest = first;
    let mut place = first + 1;
    while let Some(position) = next_updated(locals, bits, place) {
        count += 1;
        greatest = position;
        place = position + 1;
    }
    Updated { count, greatest }
}

/// Counts the updated positions. The first is found from the set, so that where there is none no position
/// is tried. A list whose numbers stand in a row is counted by whole words of the set. Of another list,
/// each position is looked at once where many may be updated, and where few may be, each updated one is
/// found from the one before.
pub(crate) fn count_updated(locals: &[u32], bits: &UpdateBits) -> Updated
    requires short { length locals.now < 2 ^ 32 }
    requires rise { IsStrictlyIncreasing locals.now }
    requires has_bits { All (λ local. local < length bits.now) locals.now }
    ensures count { result.count ≡ length (members (marks_at bits.now locals.now)) }
    ensures greatest { result.greatest ≡ greatest_of (members (marks_at bits.now locals.now)) }
    ensures few { result.count ≤ length locals.now }
    ensures within { 0 < result.count → result.greatest < length locals.now }
{
    let Some(first) = next_by_jumps(locals, bits, 0) else {
        return Updated {
            count: 0,
            greatest: 0,
        };
    };
    if is_run(locals) {
        return count_run(locals, bits);
    }
    if are_many(locals, bits) {
        return count_each(locals, bits);
    }
    count_from(locals, bits, first)
}
