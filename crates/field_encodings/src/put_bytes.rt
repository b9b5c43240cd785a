//! Writes one word or one number into a text.
ghost use Rattle.std.specs.Prelude.{◌≡◌, ◌≤◌, ◌+◌, ◌++◌, length, take};
ghost use Rattle.list_laws.specs.LittleEndian.{le_bytes};

use reduce_laws::Word;

/// Writes the word's bytes from `at` on.
pub(crate) fn put_word<W: Word>(word: W, at: usize, out: &mut [u8])
    requires { at + W.WIDTH ≤ length out.old }
    ensures { take (at + W.WIDTH) out.new ≡ take at out.old ++ W.bytes_of word }
{
    word.put(&mut out[at..at + W::WIDTH as usize]);
}

/// Writes the `SIZE` lowest bytes of the number from `at` on, the lowest first.
pub(crate) fn put_number<const SIZE: usize>(number: u32, at: usize, out: &mut [u8])
    requires few { SIZE ≤ 4 }
    requires room { at + SIZE ≤ length out.old }
    ensures { take (at + SIZE) out.new ≡ take at out.old ++ le_bytes SIZE number }
{
    out[at..at + SIZE].copy_from_slice(&number.to_le_bytes()[..SIZE]);
}
