//! Goes from one updated position of a list to the next.
ghost use Rattle.std.specs.Prelude.{◌<◌, ◌≤◌, ◌^◌, length};
ghost use Rattle.std.specs.List.{All};
ghost use Rattle.std.specs.List.Sorted.{IsStrictlyIncreasing};
ghost use Rattle.list_laws.specs.Members.{IsNextMember};
ghost use Rattle.field_encodings.specs.Lists.{marks_at};

use crate::rising_search::find_from;
use update_bits::UpdateBits;

/// How many positions are tried one by one before the set is asked.
const NEAR: usize = 16;

/// The first updated position from `place` on, found from the set: its next member is looked up in the
/// list behind the place that is reached, until one is there or it is above the list's last.
pub(crate) fn next_by_jumps(locals: &[u32], bits: &UpdateBits, place: usize) -> Option<u32>
    requires within { place ≤ length locals.now }
    requires short { length locals.now < 2 ^ 32 }
    requires rise { IsStrictlyIncreasing locals.now }
    requires has_bits { All (λ local. local < length bits.now) locals.now }
    ensures { IsNextMember (marks_at bits.now locals.now) place result }
{
    let mut from = place;
    while from < locals.len() {
        let member = bits.next_from(locals[from])?;
        if member > locals[locals.len() - 1] {
            return None;
        }
        match find_from(locals, from, member) {
            Ok(found) => return Some(found as u32),
            Err(behind) => from = behind,
        }
    }
    None
}

/// The first updated position from `place` on: one of the next few, or else found from the set.
fn next_by_steps(locals: &[u32], bits: &UpdateBits, place: usize) -> Option<u32>
    requires within { place ≤ length locals.now }
    requires short { length locals.now < 2 ^ 32 }
    requires rise { IsStrictlyIncreasing locals.now }
    requires has_bits { All (λ local. local < length bits.now) locals.now }
    ensures { IsNextMember (marks_at bits.now locals.now) place result }
{
    let near = locals.len().min(place + NEAR);
    for position in place..near {
        if bits.test(locals[position]) {
            return Some(position as u32);
        }
    }
    next_by_jumps(locals, bits, near)
}

/// The first updated position from `place` on. Where the list goes on without a gap up to the set's next
/// member, that member's place is as far ahead as its number: so it is in each list that is a run.
#[inline(always)]
pub(crate) fn next_updated(locals: &[u32], bits: &UpdateBits, place: u32) -> Option<u32>
    requires within { place ≤ length locals.now }
    requires short { length locals.now < 2 ^ 32 }
    requires rise { IsStrictlyIncreasing locals.now }
    requires has_bits { All (λ local. local < length bits.now) locals.now }
    ensures { IsNextMember (marks_at bits.now locals.now) place result }
{
    let place = place as usize;
    if place >= locals.len() {
        return None;
    }
    let member = bits.next_from(locals[place])?;
    let ahead = place + (member - locals[place]) as usize;
    if ahead < locals.len() && locals[ahead] == member {
        return Some(ahead as u32);
    }
    next_by_steps(locals, bits, place)
}
