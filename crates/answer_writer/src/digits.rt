//! Text that is put together from its end, in a piece of memory of fixed length.
ghost use Rattle.std.specs.Prelude.{◌≡◌, ◌+◌, ◌*◌, ◌<◌, ◌≤◌, ◌∷◌, ◌++◌, length, drop, decimal};
ghost use Rattle.answer_writer.specs.Lines.{spaced_number, spaced_numbers, value_text};

use itoa::write_digits;

/// The most digits of a `u64`.
pub(crate) const U64_DIGITS: usize = 20;

/// The most bytes of a space and a `u64`.
pub(crate) const SPACED_BYTES: usize = 21;

/// Puts `byte` before what stands from `end` on, and answers where it stands.
pub(crate) fn put_byte(line: &mut [u8], end: usize, byte: u8) -> usize
    requires { (0 < end) × (end ≤ length line.old) }
    ensures start { result + 1 ≡ end }
    ensures written { drop result line.new ≡ byte ∷ drop end line.old }
{
    line[end - 1] = byte;
    end - 1
}

/// Puts the number before what stands from `end` on, and answers where it begins.
pub(crate) fn put_number(line: &mut [u8], end: usize, n: u64) -> usize
    requires { (U64_DIGITS ≤ end) × (end ≤ length line.old) }
    ensures start { end ≤ result + U64_DIGITS }
    ensures below { result ≤ end }
    ensures written { drop result line.new ≡ decimal n ++ drop end line.old }
{
    write_digits(n, line, end)
}

/// Puts the number, or `-` for none, before what stands from `end` on, and answers where it begins.
pub(crate) fn put_value(line: &mut [u8], end: usize, value: Option<u64>) -> usize
    requires { (U64_DIGITS ≤ end) × (end ≤ length line.old) }
    ensures start { end ≤ result + U64_DIGITS }
    ensures below { result ≤ end }
    ensures written { drop result line.new ≡ value_text value ++ drop end line.old }
{
    match value {
        Some(x) => put_number(line, end, x),
        None => put_byte(line, end, b'-'),
    }
}

/// Puts the bytes before what stands from `end` on, and answers where they begin.
pub(crate) fn put_bytes(line: &mut [u8], end: usize, bytes: &[u8]) -> usize
    requires { (length bytes.now ≤ end) × (end ≤ length line.old) }
    ensures start { result + length bytes.now ≡ end }
    ensures written { drop result line.new ≡ bytes.now ++ drop end line.old }
{
    let start = end - bytes.len();
    line[start..end].copy_from_slice(bytes);
    start
}

/// Puts a space and the number before what stands from `end` on, and answers where the space stands.
pub(crate) fn put_spaced_number(line: &mut [u8], end: usize, n: u64) -> usize
    requires { (SPACED_BYTES ≤ end) × (end ≤ length line.old) }
    ensures start { end ≤ result + SPACED_BYTES }
    ensures below { result ≤ end }
    ensures written { drop result line.new ≡ spaced_number n ++ drop end line.old }
{
    let digits = put_number(line, end, n);
    put_byte(line, digits, b' ')
}

/// Puts each number after a space before what stands from `end` on, and answers where they begin.
pub(crate) fn put_spaced_numbers(line: &mut [u8], end: usize, numbers: &[u64]) -> usize
    requires { (length numbers.now * SPACED_BYTES ≤ end) × (end ≤ length line.old) }
    ensures below { result ≤ end }
    ensures start { end ≤ result + length numbers.now * SPACED_BYTES }
    ensures written { drop result line.new ≡ spaced_numbers numbers.now ++ drop end line.old }
{
    let mut start = end;
    let mut left = numbers.len();
    while left > 0 {
        left -= 1;
        start = put_spaced_number(line, start, numbers[left]);
    }
    start
}
