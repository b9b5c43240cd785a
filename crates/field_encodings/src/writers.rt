//! Goes over a list once and writes its names and values, one function for each form.
ghost use Rattle.std.specs.Prelude.{◌≡◌, ◌≤◌, ◌*◌, length};
ghost use Rattle.std.specs.List.{flat_map, items_where_true};
ghost use Rattle.list_laws.specs.LittleEndian.{le_bytes};
ghost use Rattle.list_laws.specs.Members.{members};
ghost use Rattle.field_encodings.specs.Lists.{marks_at, values_at};
ghost use Rattle.field_encodings.specs.Lengths.{vector_length};
ghost use Rattle.field_encodings.specs.Forms.{bit_vector};

use crate::next_updated::next_updated;
use crate::outgoing::Outgoing;
use crate::put_bytes::{put_number, put_word};
use reduce_laws::Word;

/// Writes the value of each position.
pub(crate) fn write_all<W: Word>(list: &Outgoing<W>, text: &mut [u8])
    requires room { length text.old ≡ length list.now.locals.now * W.WIDTH }
    ensures { text.new ≡ flat_map W.bytes_of (values_at list.now.values.now list.now.locals.now) }
{
    for (position, local) in list.locals.iter().enumerate() {
        put_word(
            list.values[*local as usize],
            position * W::WIDTH as usize,
            text,
        );
    }
}

/// Writes the updated positions, `SIZE` bytes each, and their values.
pub(crate) fn write_positions<W: Word, const SIZE: usize>(
    list: &Outgoing<W>,
    names: &mut [u8],
    text: &mut [u8],
)
    requires few { SIZE ≤ 4 }
    requires names_room { length names.old ≡ list.now.count * SIZE }
    requires text_room { length text.old ≡ list.now.count * W.WIDTH }
    ensures names { names.new ≡ flat_map (le_bytes SIZE) (members (marks_at list.now.bits.now list.now.locals.now)) }
    ensures text { text.new
        ≡ flat_map W.bytes_of (items_where_true (marks_at list.now.bits.now list.now.locals.now) (values_at list.now.values.now list.now.locals.now)) }
{
    let mut place = 0;
    for written in 0..list.count as usize {
        let position = next_updated(list.locals, list.bits, place).unwrap();
        let local = list.locals[position as usize];
        put_number::<SIZE>(position, written * SIZE, names);
        put_word(
            list.values[local as usize],
            written * W::WIDTH as usize,
            text,
        );
        place = position + 1;
    }
}

/// Writes the ids of the updated positions, and their values.
pub(crate) fn write_ids<W: Word>(list: &Outgoing<W>, names: &mut [u8], text: &mut [u8])
    requires names_room { length names.old ≡ list.now.count * 4 }
    requires text_room { length text.old ≡ list.now.count * W.WIDTH }
    ensures names { names.new ≡ flat_map (le_bytes 4) (items_where_true (marks_at list.now.bits.now list.now.locals.now) list.now.ids.now) }
    ensures text { text.new
        ≡ flat_map W.bytes_of (items_where_true (marks_at list.now.bits.now list.now.locals.now) (values_at list.now.values.now list.now.locals.now)) }
{
    let mut place = 0;
    for written in 0..list.count as usize {
        let position = next_updated(list.locals, list.bits, place).unwrap();
        let local = list.locals[position as usize];
        put_number::<4>(list.ids[position as usize], written * 4, names);
        put_word(
            list.values[local as usize],
            written * W::WIDTH as usize,
            text,
        );
        place = position + 1;
    }
}

/// Sets the bits of the updated positions, the lowest first, and writes their values. It goes over the
/// positions one by one, with the same steps at each, up to the last that is updated.
pub(crate) fn write_marked<W: Word>(list: &Outgoing<W>, names: &mut [u8], text: &mut [u8])
    requires names_room { length names.old ≡ vector_length (length list.now.locals.now) }
    requires text_room { length text.old ≡ list.now.count * W.WIDTH }
    ensures names { names.new ≡ bit_vector (marks_at list.now.bits.now list.now.locals.now) }
    ensures text { text.new
        ≡ flat_map W.bytes_of (items_where_true (marks_at list.now.bits.now list.now.locals.now) (values_at list.now.values.now list.now.locals.now)) }
{
    names.fill(0);
    let mut written = 0;
    let mut position = 0;
    while written < list.count as usize {
        let local = list.locals[position];
        let updated = list.bits.test(local);
        names[position / 8] |= (updated as u8) << (position % 8);
        // A value that is not updated is written over by the next one.
        put_word(
            list.values[local as usize],
            written * W::WIDTH as usize,
            text,
        );
        written += updated as usize;
        position += 1;
    }
}
