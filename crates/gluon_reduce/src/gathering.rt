//! Sends what mirrors gathered.
ghost use Rattle.std.specs.Prelude.{◌≡◌, ◌<◌, ◌≤◌, ◌+◌, ◌*◌, ◌&&◌, ℕ, not, if◌then◌else◌, length, take, drop, Ok};
ghost use Rattle.std.specs.List.{All, slice_index_or};
ghost use Rattle.std.specs.List.Sorted.{IsStrictlyIncreasing};
ghost use Rattle.list_laws.specs.Among.{is_among};
ghost use Rattle.list_laws.specs.Members.{members, without_all};
ghost use Rattle.field_encodings.specs.Lists.{marks_at, values_at};
ghost use Rattle.field_encodings.specs.Forms.{IsForm};
ghost use Rattle.field_encodings.specs.Packets.{packet_at, tag_of, bytes_of_packet, entries_of_packet};
ghost use Rattle.field_encodings.specs.Checks.{checked};
ghost use Rattle.field_encodings.specs.Lengths.{form_length, greatest_of, IsSentTag};

use crate::resetting::{clear_sent, set_back};
use field_encodings::{Coded, encode};
use graph_model::MAX_NODES;
use reduce_laws::Reduction;
use update_bits::UpdateBits;

/// Writes the packet of a list of mirrors over the front of `out`, in the shortest form, and says which
/// form it is and how long. The list is `locals`, its local numbers, with `ids`, its global ids; both
/// rise. `kept` has the mirrors' values and `bits` those that are updated, by local number. `out` has
/// room for the form of all values; what lies behind the form stays.
///
/// Then no proxy of the list is updated any more and, where the reduction does not keep, each has the
/// identity. All other proxies stay.
///
/// Where the reduction keeps, a packet without updates costs no pass over the list.
pub fn gather<R: Reduction>(
    kept: &mut [R::Item],
    locals: &[u32],
    ids: &[u32],
    bits: &mut UpdateBits,
    out: &mut [u8],
) -> Coded
    requires one_length { length locals.now ≡ length ids.now }
    requires short { length ids.now ≤ MAX_NODES }
    requires locals_rise { IsStrictlyIncreasing locals.now }
    requires ids_rise { IsStrictlyIncreasing ids.now }
    requires has_values { All (λ local. local < length kept.old) locals.now }
    requires has_bits { All (λ local. local < length bits.old) locals.now }
    requires room { 1 + length ids.now * R.Item.WIDTH ≤ length out.old }

    // What is written is the packet of the values and the bits that were there before.
    ensures shortest { let updated = members (marks_at bits.old locals.now) in
        IsSentTag (length ids.now) (length updated) (greatest_of updated) R.Item.WIDTH result.tag }
    ensures tag { result.tag ≡ tag_of R.Item.WIDTH (packet_at kept.old locals.now ids.now bits.old) }
    ensures length { let updated = members (marks_at bits.old locals.now) in
        result.len ≡ form_length (length ids.now) (length updated) (greatest_of updated) R.Item.WIDTH result.tag }
    ensures fits { result.len ≤ 1 + length ids.now * R.Item.WIDTH }
    ensures packet { take result.len out.new
        ≡ bytes_of_packet R.Item.WIDTH R.Item.bytes_of (packet_at kept.old locals.now ids.now bits.old) }
    ensures rest { drop result.len out.new ≡ drop result.len out.old }
    // Where the values are values, that is a form for these ids.
    ensures well_formed { All R.Item.IsValue (values_at kept.old locals.now)
        → IsForm R.Item.IsValue R.Item.bytes_of ids.now (take result.len out.new) result.tag
        (marks_at bits.old locals.now) (values_at kept.old locals.now) }
    // So a receiver gets exactly the entries that were sent: the updated ones, or all of them with tag 0.
    ensures received { All R.Item.IsValue (values_at kept.old locals.now)
        → checked R.Item.WIDTH R.Item.value_of ids.now (take result.len out.new)
        ≡ Ok (entries_of_packet R.Item.WIDTH (packet_at kept.old locals.now ids.now bits.old)) }

    // Then the list's bits are clear, and its values are the identity where the reduction does not keep.
    ensures cleared { bits.new ≡ without_all bits.old locals.now }
    ensures kept { (l : ℕ) (d : R.Item) → slice_index_or kept.new l d
        ≡ (if is_among locals.now l && not R.reducer.keeps then R.reducer.identity else slice_index_or kept.old l d) }
{
    let coded = encode(kept, locals, ids, bits, out);
    clear_sent(coded.len, locals, bits);
    if !R::KEEPS {
        set_back::<R>(locals, kept);
    }
    coded
}
