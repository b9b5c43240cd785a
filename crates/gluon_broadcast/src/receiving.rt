//! Takes what masters sent into what their mirrors show in the next round.
ghost use Rattle.std.specs.Prelude.{◌≡◌, ◌<◌, ◌||◌, ℕ, not, false, length, slice_set, unwrap_or};
ghost use Rattle.std.specs.List.{All, slice_index_or};
ghost use Rattle.std.specs.List.Sorted.{IsStrictlyIncreasing};
ghost use Rattle.std.specs.Option.{option_map_or};
ghost use Rattle.list_laws.specs.Among.{place_of};
ghost use Rattle.list_laws.specs.Members.{has_member};
ghost use Rattle.field_encodings.specs.EntryOrder.{AreEntries};
ghost use Rattle.field_encodings.specs.Packets.{value_at};

use field_encodings::Entries;
use reduce_laws::Word;
use update_bits::UpdateBits;

/// Puts a number into the set, if it is to be in it.
fn wake_if(is_new: bool, local: u32, awake: &mut UpdateBits)
    requires { local < length awake.old }
    ensures { awake.new ≡ slice_set awake.old local (has_member awake.old local || is_new) }
{
    if is_new {
        awake.set(local);
    }
}

/// Puts the value of each entry of a list's packet into `next` for its proxy, and the proxy into the set
/// `awake` where the value differs from what the proxy has in `shown`. The list is `locals`, its local
/// numbers, which rise; the values and the set are kept by local number. All other values and members
/// stay, and none is taken out of the set.
pub fn receive<W: Word>(
    entries: Entries<'_, W>,
    locals: &[u32],
    shown: &[W],
    next: &mut [W],
    awake: &mut UpdateBits,
)
    requires entries { AreEntries W.IsValue (length locals.now) entries }
    requires rise { IsStrictlyIncreasing locals.now }
    requires has_shown { All (λ local. local < length shown.now) locals.now }
    requires has_next { All (λ local. local < length next.old) locals.now }
    requires has_bits { All (λ local. local < length awake.old) locals.now }

    // A proxy for whose place in the list there is an entry has the entry's value.
    // A number that is not listed has the list's length for its place, and no entry is there.
    ensures next { (l : ℕ) (y : W) → slice_index_or next.new l y
        ≡ unwrap_or (value_at entries.entry (place_of locals.now l)) (slice_index_or next.old l y) }
    // The set gains exactly the proxies that have an entry whose value differs from what they show.
    ensures awake { (l : ℕ) (y : W) → has_member awake.new l
        ≡ (has_member awake.old l || option_map_or (λ value. not (W.eq value (slice_index_or shown.now l y))) (value_at entries.entry (place_of locals.now l)) false) }
    ensures length { length awake.new ≡ length awake.old }
{
    for (position, value) in entries {
        let local = locals[position as usize];
        next[local as usize] = value;
        wake_if(value != shown[local as usize], local, awake);
    }
}
