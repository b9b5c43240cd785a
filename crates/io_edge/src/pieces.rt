//! How a piece of memory is filled.
ghost use Rattle.std.specs.Prelude.{◌≡◌, ◌+◌, ◌++◌, ◌≤◌, length, take, drop, min};

/// Copies the front of `from` that fits into `into` to the front of `into`, and answers its length.
pub(crate) fn fill_front(from: &[u8], into: &mut [u8]) -> usize
    ensures count { result ≡ min (length into.old) (length from.now) }
    ensures given { take result into.new ≡ take result from.now }
    ensures rest { drop result into.new ≡ drop result into.old }
{
    let count = into.len().min(from.len());
    into[..count].copy_from_slice(&from[..count]);
    count
}

/// Copies all of `bytes` into `into`, from the place `at` on.
pub(crate) fn put_at(into: &mut [u8], at: usize, bytes: &[u8])
    requires { at + length bytes.now ≤ length into.old }
    ensures { take (at + length bytes.now) into.new ≡ take at into.old ++ bytes.now }
{
    into[at..at + bytes.len()].copy_from_slice(bytes);
}
