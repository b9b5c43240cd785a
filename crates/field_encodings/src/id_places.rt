//! Where an id stands in a list.
ghost use Rattle.std.specs.Prelude.{◌≡◌, ◌<◌, ◌≤◌, ◌^◌, false, drop, length, slice_index, MatchOption};
ghost use Rattle.std.specs.List.Sorted.{IsStrictlyIncreasing};
ghost use Rattle.list_laws.specs.Among.{is_among};

use crate::rising_search::find_from;

/// Where an id stands in a rising list of ids, from a place on.
pub(crate) fn place_from(ids: &[u32], from: u32, id: u32) -> Option<u32>
    requires within { from ≤ length ids.now }
    requires rising { IsStrictlyIncreasing ids.now }
    requires short { length ids.now < 2 ^ 32 }
    ensures { MatchOption result (is_among (drop from ids.now) id ≡ false)
        (λ place. (from ≤ place) × (place < length ids.now) × (slice_index ids.now place ≡ id)) }
{
    match find_from(ids, from as usize, id) {
        Ok(place) => Some(place as u32),
        Err(_) => None,
    }
}
