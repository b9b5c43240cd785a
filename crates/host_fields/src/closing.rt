//! The next round begins.
ghost use Rattle.std.specs.Prelude.{◌≡◌, ◌<◌, ◌≤◌, ℕ, false, length, take};
ghost use Rattle.std.specs.List.{count_by, slice_index_or};
ghost use Rattle.list_laws.specs.Members.{has_member};

use reduce_laws::Word;
use update_bits::UpdateBits;

/// Brings over what proxies show in the next round, where it is new: `awake_next` has the proxies where it
/// is, and all others show the same in both. Gives how many masters these are, which have the local numbers
/// below `masters`.
pub fn bring_over<W: Word>(
    masters: u32,
    awake_next: &UpdateBits,
    next: &[W],
    shown: &mut [W],
) -> u64
    requires masters_fit { masters ≤ length next.now }
    requires awake_fit { length awake_next.now ≡ length next.now }
    requires shown_fit { length shown.old ≡ length next.now }
    requires quiet { (l : ℕ) (y : W) → l < length next.now → has_member awake_next.now l ≡ false
        → slice_index_or next.now l y ≡ slice_index_or shown.old l y }
    ensures shown { shown.new ≡ next.now }
    ensures woken { result ≡ count_by (λ awake. awake) (take masters awake_next.now) }
{
    let proxies = awake_next.len();
    let mut woken = 0;
    let mut from = 0;
    while let Some(local) = awake_next.next_from(from) {
        prove!(local < proxies);
        shown[local as usize] = next[local as usize];
        if local < masters {
            woken += 1;
        }
        from = local + 1;
    }
    woken
}
