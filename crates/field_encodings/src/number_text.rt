//! Numbers in a text.
ghost use Rattle.std.specs.Prelude.{◌≡◌, ◌<◌, ◌≤◌, ◌+◌, ◌*◌, length, take, drop};
ghost use Rattle.list_laws.specs.LittleEndian.{le_number};
ghost use Rattle.field_encodings.specs.Places.{IsPositionWidth};

/// The number at turn `i` of a text of numbers that take `SIZE` bytes each.
#[tactic(auto, unfolding(list_laws::specs::LittleEndian::le_number))]
pub(crate) fn number_at<const SIZE: usize>(text: &[u8], i: usize) -> u32
    requires width { IsPositionWidth SIZE }
    requires within { (i + 1) * SIZE ≤ length text.now }
    ensures { result ≡ le_number (take SIZE (drop (i * SIZE) text.now)) }
{
    match SIZE {
        1 => text[i] as u32,
        2 => u16::from_le_bytes([text[2 * i], text[2 * i + 1]]) as u32,
        _ => u32::from_le_bytes([
            text[4 * i],
            text[4 * i + 1],
            text[4 * i + 2],
            text[4 * i + 3],
        ]),
    }
}

/// The number at turn `i` of a text of numbers that take `width` bytes each.
pub(crate) fn wide_number_at(width: u8, text: &[u8], i: usize) -> u32
    requires width { IsPositionWidth width }
    requires within { (i + 1) * width ≤ length text.now }
    ensures { result ≡ le_number (take width (drop (i * width) text.now)) }
{
    match width {
        1 => number_at::<1>(text, i),
        2 => number_at::<2>(text, i),
        _ => number_at::<4>(text, i),
    }
}
