//! Takes what mirrors sent into the sums of their masters.
ghost use Rattle.std.specs.Prelude.{◌≡◌, ◌<◌, ◌||◌, ℕ, length, is_some};
ghost use Rattle.std.specs.List.{All, slice_index_or};
ghost use Rattle.std.specs.List.Sorted.{IsStrictlyIncreasing};
ghost use Rattle.std.specs.Option.{option_map_or};
ghost use Rattle.list_laws.specs.Among.{place_of};
ghost use Rattle.list_laws.specs.Members.{has_member};
ghost use Rattle.field_encodings.specs.EntryOrder.{AreEntries};
ghost use Rattle.field_encodings.specs.Packets.{value_at};

use field_encodings::Entries;
use reduce_laws::Reduction;
use update_bits::UpdateBits;

/// Combines each entry of a list's packet into the sum of its proxy, and puts the proxy into the set
/// `touched`. The list is `locals`, its local numbers, which rise; the sums and the set are kept by local
/// number. All other sums and members stay.
pub fn absorb<R: Reduction>(
    entries: Entries<'_, R::Item>,
    locals: &[u32],
    sums: &mut [R::Item],
    touched: &mut UpdateBits,
)
    requires entries { AreEntries R.Item.IsValue (length locals.now) entries }
    requires rise { IsStrictlyIncreasing locals.now }
    requires has_sums { All (λ local. local < length sums.old) locals.now }
    requires has_bits { All (λ local. local < length touched.old) locals.now }

    // A proxy for whose place in the list there is an entry has its sum combined with the entry's value.
    // A number that is not listed has the list's length for its place, and no entry is there.
    ensures sums { (l : ℕ) (d : R.Item) → slice_index_or sums.new l d
        ≡ option_map_or (R.reducer.combine (slice_index_or sums.old l d)) (value_at entries.entry (place_of locals.now l)) (slice_index_or sums.old l d) }
    // The set gains exactly the proxies that have an entry.
    ensures touched { (l : ℕ) → has_member touched.new l ≡ (has_member touched.old l || is_some (value_at entries.entry (place_of locals.now l))) }
    ensures length { length touched.new ≡ length touched.old }
{
    for (position, value) in entries {
        let local = locals[position as usize];
        sums[local as usize] = R::combine(sums[local as usize], value);
        touched.set(local);
    }
}
