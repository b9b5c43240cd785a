//! Reads what follows a tag, one function for each form.
ghost use Rattle.std.specs.Prelude.{◌≡◌, ◌<◌, ◌≤◌, ◌+◌, ◌*◌, ◌^◌, length};
ghost use Rattle.std.specs.List.Sorted.{IsStrictlyIncreasing};
ghost use Rattle.field_encodings.specs.Checks.{all_checked, bits_checked, positions_checked, ids_checked};

use crate::bit_places::{count_set, has_set_from};
use crate::decode_fault::DecodeFault;
use crate::entries::Entries;
use crate::length_table::position_width;
use crate::order_checks::{check_ids, check_positions};
use crate::places::Places;
use graph_model::MAX_NODES;
use reduce_laws::Word;

/// The fault of a text that follows so many bytes and has another length than the wanted one.
fn wrong_length(before: u8, wanted: usize, text: &[u8]) -> DecodeFault
    requires { before + wanted < 2 ^ 64 }
    ensures { result ≡ DecodeFault.Length (before + wanted) (before + length text.now) }
{
    DecodeFault::Length {
        want: before as u64 + wanted as u64,
        got: before as u64 + text.len() as u64,
    }
}

/// What follows tag 0, for a list of `count` positions.
#[tactic(auto, unfolding(crate::specs::Checks::all_checked))]
pub(crate) fn read_all<'a, W: Word>(
    text: &'a [u8],
    count: u32,
) -> Result<Entries<'a, W>, DecodeFault>
    requires { count ≤ MAX_NODES }
    ensures { result ≡ all_checked W.WIDTH W.value_of count text.now }
{
    let wanted = count as usize * W::WIDTH as usize;
    if text.len() != wanted {
        return Err(wrong_length(1, wanted, text));
    }
    let places = Places::All {
        next: 0,
        left: count,
    };
    Ok(Entries::new(places, text))
}

/// What follows tag 1, for a list of `count` positions.
#[tactic(auto, unfolding(crate::specs::Checks::bits_checked))]
pub(crate) fn read_bits<'a, W: Word>(
    text: &'a [u8],
    count: u32,
) -> Result<Entries<'a, W>, DecodeFault>
    requires { count ≤ MAX_NODES }
    ensures { result ≡ bits_checked W.WIDTH W.value_of count text.now }
{
    let width = count.div_ceil(8) as usize;
    if text.len() < width {
        return Err(wrong_length(1, width, text));
    }
    let (bits, values) = text.split_at(width);
    if has_set_from(bits, count) {
        return Err(DecodeFault::PadBits);
    }
    let wanted = width + count_set(bits) as usize * W::WIDTH as usize;
    if text.len() != wanted {
        return Err(wrong_length(1, wanted, text));
    }
    Ok(Entries::new(Places::Bits { bits, next: 0 }, values))
}

/// What follows tag 2, for a list of `count` positions.
#[tactic(auto, unfolding(crate::specs::Checks::positions_checked))]
pub(crate) fn read_positions<'a, W: Word>(
    text: &'a [u8],
    count: u32,
) -> Result<Entries<'a, W>, DecodeFault>
    requires { count ≤ MAX_NODES }
    ensures { result ≡ positions_checked W.WIDTH W.value_of count text.now }
{
    let Some((width, text)) = text.split_first() else {
        return Err(DecodeFault::Length { want: 2, got: 1 });
    };
    let width = *width;
    if width != 1 && width != 2 && width != 4 {
        return Err(DecodeFault::Width(width));
    }
    let each = width as usize + W::WIDTH as usize;
    let left = text.len() / each;
    if text.len() != left * each {
        return Err(wrong_length(2, left * each, text));
    }
    let greatest = check_positions(left, width, text, count)?;
    if width != position_width(greatest) {
        return Err(DecodeFault::Width(width));
    }
    let values = &text[left * width as usize..];
    let places = Places::Numbers {
        next: 0,
        count: left,
        width,
        text,
    };
    Ok(Entries::new(places, values))
}

/// What follows tag 3, for a list with these ids.
#[tactic(auto, unfolding(crate::specs::Checks::ids_checked))]
pub(crate) fn read_ids<'a, W: Word>(
    text: &'a [u8],
    ids: &'a [u32],
) -> Result<Entries<'a, W>, DecodeFault>
    requires rising { IsStrictlyIncreasing ids.now }
    requires short { length ids.now ≤ MAX_NODES }
    ensures { result ≡ ids_checked W.WIDTH W.value_of ids.now text.now }
{
    let each = 4 + W::WIDTH as usize;
    let left = text.len() / each;
    if text.len() != left * each {
        return Err(wrong_length(1, left * each, text));
    }
    check_ids(left, text, ids)?;
    let values = &text[left * 4..];
    let places = Places::Ids {
        next: 0,
        count: left,
        from: 0,
        text,
        ids,
    };
    Ok(Entries::new(places, values))
}
