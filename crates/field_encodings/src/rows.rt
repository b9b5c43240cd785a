//! Lists whose numbers stand in a row.
ghost use Rattle.std.specs.Prelude.{◌≡◌, ◌<◌, true, length, slice_index};
ghost use Rattle.std.specs.List.{range_with_len};
ghost use Rattle.std.specs.List.Sorted.{IsStrictlyIncreasing};

/// Whether a list, which rises, has numbers, and they stand in a row.
pub fn is_run(locals: &[u32]) -> bool
    requires { IsStrictlyIncreasing locals.now }
    ensures some { result ≡ true → 0 < length locals.now }
    ensures row { result ≡ true → locals.now ≡ range_with_len (slice_index locals.now 0) (length locals.now) }
    // Every row is told.
    ensures told { 0 < length locals.now → locals.now ≡ range_with_len (slice_index locals.now 0) (length locals.now) → result ≡ true }
{
    let count = locals.len();
    if count == 0 {
        return false;
    }
    (locals[count - 1] - locals[0]) as usize == count - 1
}
