//! The bits of a bit vector.
ghost use Rattle.std.specs.Prelude.{◌≡◌, ◌<◌, ◌≤◌, ◌+◌, ◌*◌, ◌^◌, [], ◌∷◌, drop, length, MatchOption};
ghost use Rattle.std.specs.List.{list_any};
ghost use Rattle.list_laws.specs.Bits.{unpacked};
ghost use Rattle.field_encodings.specs.Places.{set_from};

/// The first bit that is set, from `next` on: in the byte of that bit, or else in the first byte behind
/// it that is not 0.
pub(crate) fn next_bit(bits: &[u8], next: u32) -> Option<u32>
    requires within { next ≤ length bits.now * 8 }
    requires short { length bits.now * 8 < 2 ^ 32 }
    ensures first { MatchOption result (set_from bits.now next ≡ []) (λ found. set_from bits.now next ≡ found ∷ set_from bits.now (found + 1)) }
    ensures bound { MatchOption result (Unit {0}) (λ found. found < length bits.now * 8) }
{
    let place = next as usize / 8;
    if place >= bits.len() {
        return None;
    }
    let rest = bits[place] >> (next % 8);
    if rest != 0 {
        return Some(next + rest.trailing_zeros());
    }
    for later in place + 1..bits.len() {
        if bits[later] != 0 {
            return Some(later as u32 * 8 + bits[later].trailing_zeros());
        }
    }
    None
}

/// Whether a bit is set from `first` on.
pub(crate) fn has_set_from(bits: &[u8], first: u32) -> bool
    requires within { first ≤ length bits.now * 8 }
    requires short { length bits.now * 8 < 2 ^ 32 }
    ensures { result ≡ list_any (λ bit. bit) (drop first (unpacked 8 bits.now)) }
{
    next_bit(bits, first).is_some()
}

/// How many bits are set.
pub(crate) fn count_set(bits: &[u8]) -> u32
    requires { length bits.now * 8 < 2 ^ 32 }
    ensures { result ≡ length (set_from bits.now 0) }
{
    let mut count: u32 = 0;
    for byte in bits {
        count += byte.count_ones();
    }
    count
}
