//! Writes what follows a tag: the names of the updated positions, and their values behind.
ghost use Rattle.std.specs.Prelude.{◌≡◌, ◌≤◌, ◌+◌, ◌*◌, ◌++◌, length};
ghost use Rattle.std.specs.List.{flat_map, items_where_true};
ghost use Rattle.list_laws.specs.LittleEndian.{le_bytes};
ghost use Rattle.list_laws.specs.Members.{members};
ghost use Rattle.field_encodings.specs.Lists.{marks_at, values_at};
ghost use Rattle.field_encodings.specs.Lengths.{vector_length, width_for};
ghost use Rattle.field_encodings.specs.Forms.{bit_vector, position_text};

use crate::length_table::position_width;
use crate::outgoing::Outgoing;
use crate::writers::{write_ids, write_marked, write_positions};
use reduce_laws::Word;

/// Writes what follows tag 1: a bit for each position, and the updated values.
pub(crate) fn write_bit_form<W: Word>(list: &Outgoing<W>, rest: &mut [u8])
    requires room { length rest.old ≡ vector_length (length list.now.locals.now) + list.now.count * W.WIDTH }
    ensures { rest.new ≡ bit_vector (marks_at list.now.bits.now list.now.locals.now)
        ++ flat_map W.bytes_of (items_where_true (marks_at list.now.bits.now list.now.locals.now) (values_at list.now.values.now list.now.locals.now)) }
{
    let (names, text) = rest.split_at_mut(list.locals.len().div_ceil(8));
    write_marked(list, names, text);
}

/// Writes what follows tag 3: the ids of the updated positions, and their values.
pub(crate) fn write_id_form<W: Word>(list: &Outgoing<W>, rest: &mut [u8])
    requires room { length rest.old ≡ list.now.count * (4 + W.WIDTH) }
    ensures { rest.new ≡ flat_map (le_bytes 4) (items_where_true (marks_at list.now.bits.now list.now.locals.now) list.now.ids.now)
        ++ flat_map W.bytes_of (items_where_true (marks_at list.now.bits.now list.now.locals.now) (values_at list.now.values.now list.now.locals.now)) }
{
    let (names, text) = rest.split_at_mut(list.count as usize * 4);
    write_ids(list, names, text);
}

/// Writes what follows tag 2 and the width byte: the updated positions, `SIZE` bytes each, and their
/// values.
fn write_position_pairs<W: Word, const SIZE: usize>(list: &Outgoing<W>, rest: &mut [u8])
    requires few { SIZE ≤ 4 }
    requires room { length rest.old ≡ list.now.count * (SIZE + W.WIDTH) }
    ensures { rest.new ≡ flat_map (le_bytes SIZE) (members (marks_at list.now.bits.now list.now.locals.now))
        ++ flat_map W.bytes_of (items_where_true (marks_at list.now.bits.now list.now.locals.now) (values_at list.now.values.now list.now.locals.now)) }
{
    let (names, text) = rest.split_at_mut(list.count as usize * SIZE);
    write_positions::<W, SIZE>(list, names, text);
}

/// Writes the updated positions, `width` bytes each, which is 1, 2 or 4, and their values.
fn write_wide_pairs<W: Word>(list: &Outgoing<W>, width: u8, rest: &mut [u8])
    requires is_width { width ≡ width_for list.now.greatest }
    requires room { length rest.old ≡ list.now.count * (width + W.WIDTH) }
    ensures { rest.new ≡ flat_map (le_bytes width) (members (marks_at list.now.bits.now list.now.locals.now))
        ++ flat_map W.bytes_of (items_where_true (marks_at list.now.bits.now list.now.locals.now) (values_at list.now.values.now list.now.locals.now)) }
{
    match width {
        1 => write_position_pairs::<W, 1>(list, rest),
        2 => write_position_pairs::<W, 2>(list, rest),
        _ => write_position_pairs::<W, 4>(list, rest),
    }
}

/// Writes what follows tag 2: the width for the greatest updated position, then the updated positions
/// and their values.
pub(crate) fn write_position_form<W: Word>(list: &Outgoing<W>, rest: &mut [u8])
    requires room { length rest.old ≡ 1 + list.now.count * (width_for list.now.greatest + W.WIDTH) }
    ensures { rest.new ≡ position_text (members (marks_at list.now.bits.now list.now.locals.now))
        ++ flat_map W.bytes_of (items_where_true (marks_at list.now.bits.now list.now.locals.now) (values_at list.now.values.now list.now.locals.now)) }
{
    let width = position_width(list.greatest);
    rest[0] = width;
    write_wide_pairs(list, width, &mut rest[1..]);
}
