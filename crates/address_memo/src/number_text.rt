//! Numbers of four bytes in a text, the lowest byte first.
ghost use Rattle.std.specs.Prelude.{◌≡◌, ◌≤◌, ◌+◌, ◌*◌, ◌++◌, length, take, drop, OnOk};
ghost use Rattle.list_laws.specs.LittleEndian.{le_number, le_bytes, le_text};

use std::alloc::AllocError;

/// The number at turn `i`.
#[tactic(auto, unfolding(list_laws::specs::LittleEndian::le_number))]
pub(crate) fn number_at(text: &[u8], i: usize) -> u32
    requires { (i + 1) * 4 ≤ length text.now }
    ensures { result ≡ le_number (take 4 (drop (i * 4) text.now)) }
{
    u32::from_le_bytes([
        text[4 * i],
        text[4 * i + 1],
        text[4 * i + 2],
        text[4 * i + 3],
    ])
}

/// Puts a number behind a text.
pub(crate) fn push_number(text: &mut Vec<u8>, number: u32) -> Result<(), AllocError>
    ensures { OnOk result (text.new.items ≡ text.old.items ++ le_bytes 4 number) }
{
    text.extend_from_slice(&number.to_le_bytes())
}

/// Puts numbers behind a text.
pub(crate) fn push_numbers(text: &mut Vec<u8>, numbers: &[u32]) -> Result<(), AllocError>
    ensures { OnOk result (text.new.items ≡ text.old.items ++ le_text 4 numbers.now) }
{
    for number in numbers {
        push_number(text, *number)?;
    }
    Ok(())
}
