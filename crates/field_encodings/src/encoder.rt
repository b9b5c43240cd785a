//! Writes a list's packet.
ghost use Rattle.std.specs.Prelude.{◌≡◌, ◌<◌, ◌≤◌, ◌+◌, ◌*◌, ◌++◌, ℕ, length, take, drop, slice_index, vec_len, Ok, IfOk};
ghost use Rattle.std.specs.List.{All, flat_map};
ghost use Rattle.std.specs.List.Sorted.{IsStrictlyIncreasing};
ghost use Rattle.list_laws.specs.Members.{members};
ghost use Rattle.field_encodings.specs.Lists.{marks_at, values_at};
ghost use Rattle.field_encodings.specs.Forms.{form, names, sent, IsForm};
ghost use Rattle.field_encodings.specs.Packets.{packet_at, tag_of, entries_of_packet};
ghost use Rattle.field_encodings.specs.Checks.{checked};
ghost use Rattle.field_encodings.specs.Lengths.{form_length, greatest_of, IsSentTag};

use crate::chosen_form::choose_form;
use crate::coded::Coded;
use crate::form_writers::{write_bit_form, write_id_form, write_position_form};
use crate::outgoing::Outgoing;
use crate::updated::count_updated;
use crate::writers::write_all;
use graph_model::MAX_NODES;
use reduce_laws::Word;
use update_bits::UpdateBits;

/// Writes what follows the tag, over the whole of `rest`.
fn write_rest<W: Word>(list: &Outgoing<W>, tag: u8, rest: &mut [u8])
    requires is_tag { tag ≤ 3 }
    requires room { 1 + length rest.old ≡ form_length (length list.now.ids.now) list.now.count list.now.greatest W.WIDTH tag }
    ensures { rest.new ≡ names tag list.now.ids.now (marks_at list.now.bits.now list.now.locals.now)
        ++ flat_map W.bytes_of (sent tag (marks_at list.now.bits.now list.now.locals.now) (values_at list.now.values.now list.now.locals.now)) }
{
    match tag {
        0 => write_all(list, rest),
        1 => write_bit_form(list, rest),
        2 => write_position_form(list, rest),
        _ => write_id_form(list, rest),
    }
}

/// Writes the form of the tag over the whole of `text`.
fn write_form<W: Word>(list: &Outgoing<W>, tag: u8, text: &mut [u8])
    requires is_tag { tag ≤ 3 }
    requires room { length text.old ≡ form_length (length list.now.ids.now) list.now.count list.now.greatest W.WIDTH tag }
    ensures { text.new ≡ form W.bytes_of tag list.now.ids.now (marks_at list.now.bits.now list.now.locals.now) (values_at list.now.values.now list.now.locals.now) }
{
    text[0] = tag;
    write_rest(list, tag, &mut text[1..]);
}

/// Writes the shortest form over the front of `out`. Without updates it is the tag 3 alone, which goes out
/// at once.
fn write_shortest<W: Word>(list: &Outgoing<W>, out: &mut [u8]) -> Coded
    requires short { length list.now.ids.now ≤ MAX_NODES }
    requires room { 1 + length list.now.ids.now * W.WIDTH ≤ length out.old }
    ensures sent { IsSentTag (length list.now.ids.now) list.now.count list.now.greatest W.WIDTH result.tag }
    ensures length { result.len ≡ form_length (length list.now.ids.now) list.now.count list.now.greatest W.WIDTH result.tag }
    ensures form { take result.len out.new
        ≡ form W.bytes_of result.tag list.now.ids.now (marks_at list.now.bits.now list.now.locals.now) (values_at list.now.values.now list.now.locals.now) }
    ensures rest { drop result.len out.new ≡ drop result.len out.old }
{
    if list.count == 0 {
        out[0] = 3;
        return Coded { tag: 3, len: 1 };
    }
    let coded = choose_form(list.ids.len() as u32, list.count, list.greatest, W::WIDTH);
    let text = &mut out[..coded.len as usize];
    write_form(list, coded.tag, text);
    coded
}

/// Writes the shortest form of a list's updated values over the front of `out`, the one of the smaller
/// tag on a tie, and says which it is and how long. The list is `locals`, its local numbers, with
/// `ids`, its global ids; both rise, and the values and the set `bits` are kept by local number. The
/// empty list gives the one byte `03`. `out` has room for the form of all values; what lies behind the
/// form stays.
///
/// Where the set has no member from the list's first local number to its last, no position is looked at and
/// `03` goes out at once. A list whose local numbers stand in a row is counted by whole words of the set. Of
/// another list each position is looked at once where many may be updated; where few may be, these are
/// found from the set.
pub fn encode<W: Word>(
    values: &[W],
    locals: &[u32],
    ids: &[u32],
    bits: &UpdateBits,
    out: &mut [u8],
) -> Coded
    requires one_length { length locals.now ≡ length ids.now }
    requires short { length ids.now ≤ MAX_NODES }
    requires locals_rise { IsStrictlyIncreasing locals.now }
    requires ids_rise { IsStrictlyIncreasing ids.now }
    requires has_values { All (λ local. local < length values.now) locals.now }
    requires has_bits { All (λ local. local < length bits.now) locals.now }
    requires room { 1 + length ids.now * W.WIDTH ≤ length out.old }
    ensures shortest { let updated = members (marks_at bits.now locals.now) in
        IsSentTag (length ids.now) (length updated) (greatest_of updated) W.WIDTH result.tag }
    ensures tag { result.tag ≡ tag_of W.WIDTH (packet_at values.now locals.now ids.now bits.now) }
    ensures length { let updated = members (marks_at bits.now locals.now) in
        result.len ≡ form_length (length ids.now) (length updated) (greatest_of updated) W.WIDTH result.tag }
    ensures fits { result.len ≤ 1 + length ids.now * W.WIDTH }
    ensures form { take result.len out.new
        ≡ form W.bytes_of result.tag ids.now (marks_at bits.now locals.now) (values_at values.now locals.now) }
    ensures rest { drop result.len out.new ≡ drop result.len out.old }
    // Where the values are values, what is written is a form for these ids.
    ensures well_formed { All W.IsValue (values_at values.now locals.now)
        → IsForm W.IsValue W.bytes_of ids.now (take result.len out.new) result.tag (marks_at bits.now locals.now) (values_at values.now locals.now) }
    // So a receiver gets exactly the entries that were sent: the updated ones, or all of them with tag 0.
    ensures received { All W.IsValue (values_at values.now locals.now)
        → checked W.WIDTH W.value_of ids.now (take result.len out.new)
        ≡ Ok (entries_of_packet W.WIDTH (packet_at values.now locals.now ids.now bits.now)) }
{
    let updated = count_updated(locals, bits);
    let list = Outgoing {
        values,
        locals,
        ids,
        bits,
        count: updated.count,
        greatest: updated.greatest,
    };
    write_shortest(&list, out)
}

#[cfg(test)]
mod tests {
    use super::*;
    use std::alloc::{AllocError, Global};
    use std::process::Abort;
    use std::test::Fail;

    // The first n multiples of a step, rising.
    fn multiples(alloc: Global, n: u32, step: u32) -> Result<Vec<u32>, AllocError>
        requires few { n ≤ 100000 }
        requires near { step ≤ 2 }
        ensures len { IfOk result (λ v. vec_len v ≡ n) }
        ensures each { IfOk result (λ v. (k : ℕ) → k < n → slice_index v.items k ≡ k * step) }
    {
        let mut numbers = Vec::new(alloc);
        for k in 0..n {
            numbers.push(k * step)?;
        }
        Ok(numbers)
    }

    // The form that is sent for n positions with one value, where these are updated. The local numbers, which
    // are the ids too, are the multiples of the step: a row, or a list with gaps.
    fn form_of<W: Word>(
        rt: &impl Abort,
        alloc: Global,
        n: u32,
        step: u32,
        updated: &[u32],
        value: W,
    ) -> Result<Vec<u8>, AllocError> {
        assert!(rt; n <= 100_000);
        assert!(rt; 0 < step);
        assert!(rt; step <= 2);
        let locals = multiples(alloc, n, step)?;
        let proxies = n * step;
        let values = vec![in alloc; value; proxies as usize]?;
        let mut bits = UpdateBits::new(alloc, proxies)?;
        for position in updated {
            assert!(rt; *position < n);
            bits.set(*position * step);
        }
        let mut out = vec![in alloc; 0xee; 1 + n as usize * W::WIDTH as usize]?;
        let coded = encode(&values, &locals, &locals, &bits, &mut out);
        out.truncate(coded.len as usize);
        Ok(out)
    }

    #[test]
    fn the_shortest_form_goes_out(rt: HostRuntime) -> Result<(), Fail> {
        // The first rows are lists in a row. The others have gaps: the last of them has few updated positions.
        let rows = [
            (9, 1, [3].as_slice(), 5, [1, 8, 0, 5, 0, 0, 0].as_slice()),
            (
                1_000,
                1,
                [255].as_slice(),
                7,
                [2, 1, 255, 7, 0, 0, 0].as_slice(),
            ),
            (
                1_000,
                1,
                [256].as_slice(),
                7,
                [2, 2, 0, 1, 7, 0, 0, 0].as_slice(),
            ),
            (
                100_000,
                1,
                [65_535].as_slice(),
                7,
                [2, 2, 255, 255, 7, 0, 0, 0].as_slice(),
            ),
            (
                100_000,
                1,
                [65_536].as_slice(),
                7,
                [3, 0, 0, 1, 0, 7, 0, 0, 0].as_slice(),
            ),
            (5, 1, [].as_slice(), 7, [3].as_slice()),
            (0, 1, [].as_slice(), 7, [3].as_slice()),
            (
                9,
                2,
                [3, 8].as_slice(),
                5,
                [1, 8, 1, 5, 0, 0, 0, 5, 0, 0, 0].as_slice(),
            ),
            (
                1_000,
                2,
                [9, 256].as_slice(),
                7,
                [2, 2, 9, 0, 0, 1, 7, 0, 0, 0, 7, 0, 0, 0].as_slice(),
            ),
            (5, 2, [].as_slice(), 7, [3].as_slice()),
        ];
        for (n, step, updated, value, want) in rows {
            let form = form_of::<u32>(&rt, rt.alloc(), n, step, updated, value)?;
            assert_eq!(rt; form.as_slice(), want, "of {n} positions");
        }
        let form = form_of::<u8>(&rt, rt.alloc(), 8, 1, &[0, 1, 2, 3, 4, 5, 6], 9)?;
        assert_eq!(rt; form.as_slice(), [0, 9, 9, 9, 9, 9, 9, 9, 9].as_slice());
        Ok(())
    }
}
