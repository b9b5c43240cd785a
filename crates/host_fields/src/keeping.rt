//! Mirrors keep what they were told.
ghost use Rattle.std.specs.Prelude.{◌≡◌, ◌<◌, ℕ, length};
ghost use Rattle.std.specs.List.{All, slice_index_or};
ghost use Rattle.std.specs.List.Sorted.{IsStrictlyIncreasing};
ghost use Rattle.std.specs.Option.{option_map_or};
ghost use Rattle.list_laws.specs.Among.{place_of};
ghost use Rattle.field_encodings.specs.EntryOrder.{AreEntries};
ghost use Rattle.field_encodings.specs.Packets.{value_at};

use field_encodings::Entries;
use reduce_laws::{Reduction, VertexProgram};

/// Makes the proxy of each entry keep what the entry's value tells. The list is `locals`, its local
/// numbers, which rise; items go by local number. All other items stay.
pub fn keep_told<P: VertexProgram>(
    program: &P,
    entries: Entries<'_, P::Shown>,
    locals: &[u32],
    items: &mut [<P::Red as Reduction>::Item],
)
    requires entries { AreEntries P.Shown.IsValue (length locals.now) entries }
    requires rise { IsStrictlyIncreasing locals.now }
    requires has_items { All (λ local. local < length items.old) locals.now }
    requires items_are { All P.Red.Item.IsValue items.old }
    ensures items { (l : ℕ) (d : P.Red.Item) → slice_index_or items.new l d
        ≡ option_map_or (P.steps program.now).keep (value_at entries.entry (place_of locals.now l)) (slice_index_or items.old l d) }
    ensures length { length items.new ≡ length items.old }
    ensures are_items { All P.Red.Item.IsValue items.new }
{
    for (position, value) in entries {
        let local = locals[position as usize];
        items[local as usize] = program.keep(value);
    }
}
