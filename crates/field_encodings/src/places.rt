//! Where the positions of entries are read from.
ghost use Rattle.std.specs.Prelude.{◌≡◌, ◌<◌, ◌≤◌, ◌+◌, ◌*◌, ◌^◌, [], ◌∷◌, drop, length, map, MatchOption};
ghost use Rattle.std.specs.List.Sorted.{IsStrictlyIncreasing};
ghost use Rattle.list_laws.specs.Among.{place_of};
ghost use Rattle.list_laws.specs.LittleEndian.{numbers};
ghost use Rattle.field_encodings.specs.Places.{coming, AreReady, IsPositionWidth, StandFrom};

use crate::bit_places::next_bit;
use crate::id_places::place_from;
use crate::number_text::{number_at, wide_number_at};

/// Where the positions of the entries to come are read from.
#[derive(Drop)]
pub(crate) enum Places<'a> {
    /// The next `left` positions from `next` on.
    All {
        next: u32,
        left: u32,
    },
    /// The bits that are set, from `next` on.
    Bits {
        bits: &'a [u8],
        next: u32,
    },
    /// The first `count` numbers of `text`, which take `width` bytes each, from turn `next` on.
    Numbers {
        next: usize,
        count: usize,
        width: u8,
        text: &'a [u8],
    },
    /// The first `count` global ids of `text`, from turn `next` on. Each of these stands in `ids`, at
    /// place `from` or behind.
    Ids {
        next: usize,
        count: usize,
        from: u32,
        text: &'a [u8],
        ids: &'a [u32],
    },
}

/// The number at turn `next` of the first `count` of a text.
fn next_number(next: usize, count: usize, width: u8, text: &[u8]) -> Option<u32>
    requires width { IsPositionWidth width }
    requires within { count * width ≤ length text.now }
    ensures turn { MatchOption result (Unit {0}) (λ _. next < count) }
    ensures first { MatchOption result (drop next (numbers width count text.now) ≡ [])
        (λ found. drop next (numbers width count text.now) ≡ found ∷ drop (next + 1) (numbers width count text.now)) }
{
    if next >= count {
        return None;
    }
    Some(wide_number_at(width, text, next))
}

/// The place of the id at turn `next` of the first `count` of a text.
fn next_id(next: usize, count: usize, from: u32, text: &[u8], ids: &[u32]) -> Option<u32>
    requires within { count * 4 ≤ length text.now }
    requires short { length ids.now < 2 ^ 32 }
    requires rising { IsStrictlyIncreasing ids.now }
    requires stand { StandFrom ids.now from (drop next (numbers 4 count text.now)) }
    ensures turn { MatchOption result (Unit {0}) (λ _. next < count) }
    ensures first { MatchOption result (drop next (numbers 4 count text.now) ≡ [])
        (λ found. map (place_of ids.now) (drop next (numbers 4 count text.now)) ≡ found ∷ map (place_of ids.now) (drop (next + 1) (numbers 4 count text.now))) }
    ensures place { MatchOption result (Unit {0}) (λ found. found < length ids.now) }
    ensures stand { MatchOption result (Unit {0}) (λ found. StandFrom ids.now (found + 1) (drop (next + 1) (numbers 4 count text.now))) }
{
    if next >= count {
        return None;
    }
    Some(place_from(ids, from, number_at::<4>(text, next)).unwrap())
}

/// The first position to come, which is passed.
#[inline(always)]
pub(crate) fn next_position(places: &mut Places<'_>) -> Option<u32>
    requires { AreReady places.old }
    ensures first { MatchOption result ((coming places.old ≡ []) × (coming places.new ≡ [])) (λ found. coming places.old ≡ found ∷ coming places.new) }
    ensures ready { AreReady places.new }
{
    match places {
        Places::All { next, left } => {
            if *left == 0 {
                return None;
            }
            let position = *next;
            *next += 1;
            *left -= 1;
            Some(position)
        }
        Places::Bits { bits, next } => {
            let position = next_bit(bits, *next)?;
            *next = position + 1;
            Some(position)
        }
        Places::Numbers {
            next,
            count,
            width,
            text,
        } => {
            let position = next_number(*next, *count, *width, text)?;
            *next += 1;
            Some(position)
        }
        Places::Ids {
            next,
            count,
            from,
            text,
            ids,
        } => {
            let position = next_id(*next, *count, *from, text, ids)?;
            *next += 1;
            *from = position + 1;
            Some(position)
        }
    }
}
