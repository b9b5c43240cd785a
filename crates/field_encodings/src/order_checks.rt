//! Checks that positions and ids rise and are those of a list.
ghost use Rattle.std.specs.Prelude.{◌≡◌, ◌<◌, ◌≤◌, ◌*◌, ◌^◌, length, MatchResult};
ghost use Rattle.std.specs.List.Sorted.{IsStrictlyIncreasing};
ghost use Rattle.list_laws.specs.LittleEndian.{numbers};
ghost use Rattle.field_encodings.specs.Lengths.{greatest_of};
ghost use Rattle.field_encodings.specs.Checks.{position_fault, id_fault};
ghost use Rattle.field_encodings.specs.Places.{IsPositionWidth};

use crate::decode_fault::DecodeFault;
use crate::id_places::place_from;
use crate::number_text::number_at;

/// The greatest of the first `left` positions of a text, `SIZE` bytes each, 0 if there is none, or the
/// first that is not below `count` or not above the one before.
fn check_sized_positions<const SIZE: usize>(
    left: usize,
    text: &[u8],
    count: u32,
) -> Result<u32, DecodeFault>
    requires width { IsPositionWidth SIZE }
    requires within { left * SIZE ≤ length text.now }
    ensures { MatchResult result
        (λ greatest. (position_fault count (numbers SIZE left text.now) ≡ None) × (greatest ≡ greatest_of (numbers SIZE left text.now)))
        (λ fault. position_fault count (numbers SIZE left text.now) ≡ Some fault) }
{
    let mut low: u32 = 0;
    for i in 0..left {
        let position = number_at::<SIZE>(text, i);
        if position >= count {
            return Err(DecodeFault::PastEnd(position));
        }
        if position < low {
            return Err(DecodeFault::NotRising(i as u32));
        }
        low = position + 1;
    }
    Ok(low.saturating_sub(1))
}

/// The greatest of the first `left` positions of a text, `width` bytes each, 0 if there is none, or the
/// first that is not below `count` or not above the one before.
pub(crate) fn check_positions(
    left: usize,
    width: u8,
    text: &[u8],
    count: u32,
) -> Result<u32, DecodeFault>
    requires width { IsPositionWidth width }
    requires within { left * width ≤ length text.now }
    ensures { MatchResult result
        (λ greatest. (position_fault count (numbers width left text.now) ≡ None) × (greatest ≡ greatest_of (numbers width left text.now)))
        (λ fault. position_fault count (numbers width left text.now) ≡ Some fault) }
{
    match width {
        1 => check_sized_positions::<1>(left, text, count),
        2 => check_sized_positions::<2>(left, text, count),
        _ => check_sized_positions::<4>(left, text, count),
    }
}

/// Whether each of the first `left` ids of a text is above the one before and is one of `ids`, or the
/// first that is not. Each is looked for behind the place of the one before.
pub(crate) fn check_ids(left: usize, text: &[u8], ids: &[u32]) -> Result<(), DecodeFault>
    requires within { left * 4 ≤ length text.now }
    requires rising { IsStrictlyIncreasing ids.now }
    requires short { length ids.now < 2 ^ 32 }
    ensures { MatchResult result
        (λ _. id_fault ids.now (numbers 4 left text.now) ≡ None)
        (λ fault. id_fault ids.now (numbers 4 left text.now) ≡ Some fault) }
{
    let mut low: u64 = 0;
    let mut from: u32 = 0;
    for i in 0..left {
        let id = number_at::<4>(text, i);
        if (id as u64) < low {
            return Err(DecodeFault::NotRising(i as u32));
        }
        let Some(place) = place_from(ids, from, id) else {
            return Err(DecodeFault::UnknownId(id));
        };
        low = id as u64 + 1;
        from = place + 1;
    }
    Ok(())
}
