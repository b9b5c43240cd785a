//! Sends what masters show.
ghost use Rattle.std.specs.Prelude.{◌≡◌, ◌<◌, ◌≤◌, ◌+◌, ◌*◌, length, take, drop, Ok};
ghost use Rattle.std.specs.List.{All};
ghost use Rattle.std.specs.List.Sorted.{IsStrictlyIncreasing};
ghost use Rattle.list_laws.specs.Members.{members};
ghost use Rattle.field_encodings.specs.Lists.{marks_at, values_at};
ghost use Rattle.field_encodings.specs.Forms.{IsForm};
ghost use Rattle.field_encodings.specs.Packets.{packet_at, tag_of, bytes_of_packet, entries_of_packet};
ghost use Rattle.field_encodings.specs.Checks.{checked};
ghost use Rattle.field_encodings.specs.Lengths.{form_length, greatest_of, IsSentTag};

use field_encodings::{Coded, encode};
use graph_model::MAX_NODES;
use reduce_laws::Word;
use update_bits::UpdateBits;

/// Writes the packet of a list of masters over the front of `out`, in the shortest form, and says which
/// form it is and how long. The list is `locals`, its local numbers, with `ids`, its global ids; both
/// rise. `shown` has what the masters show and `bits` those that are updated, by local number. `out` has
/// room for the form of all values; what lies behind the form stays.
///
/// A packet without updates costs no pass over the list.
pub fn spread<W: Word>(
    shown: &[W],
    locals: &[u32],
    ids: &[u32],
    bits: &UpdateBits,
    out: &mut [u8],
) -> Coded
    requires one_length { length locals.now ≡ length ids.now }
    requires short { length ids.now ≤ MAX_NODES }
    requires locals_rise { IsStrictlyIncreasing locals.now }
    requires ids_rise { IsStrictlyIncreasing ids.now }
    requires has_values { All (λ local. local < length shown.now) locals.now }
    requires has_bits { All (λ local. local < length bits.now) locals.now }
    requires room { 1 + length ids.now * W.WIDTH ≤ length out.old }

    // What is written is the packet of the values and the bits.
    ensures shortest { let updated = members (marks_at bits.now locals.now) in
        IsSentTag (length ids.now) (length updated) (greatest_of updated) W.WIDTH result.tag }
    ensures tag { result.tag ≡ tag_of W.WIDTH (packet_at shown.now locals.now ids.now bits.now) }
    ensures length { let updated = members (marks_at bits.now locals.now) in
        result.len ≡ form_length (length ids.now) (length updated) (greatest_of updated) W.WIDTH result.tag }
    ensures fits { result.len ≤ 1 + length ids.now * W.WIDTH }
    ensures packet { take result.len out.new
        ≡ bytes_of_packet W.WIDTH W.bytes_of (packet_at shown.now locals.now ids.now bits.now) }
    ensures rest { drop result.len out.new ≡ drop result.len out.old }
    // Where the values are values, that is a form for these ids.
    ensures well_formed { All W.IsValue (values_at shown.now locals.now)
        → IsForm W.IsValue W.bytes_of ids.now (take result.len out.new) result.tag
        (marks_at bits.now locals.now) (values_at shown.now locals.now) }
    // So a receiver gets exactly the entries that were sent: the updated ones, or all of them with tag 0.
    ensures received { All W.IsValue (values_at shown.now locals.now)
        → checked W.WIDTH W.value_of ids.now (take result.len out.new)
        ≡ Ok (entries_of_packet W.WIDTH (packet_at shown.now locals.now ids.now bits.now)) }
{
    encode(shown, locals, ids, bits, out)
}
