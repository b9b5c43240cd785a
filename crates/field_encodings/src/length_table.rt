//! How long each form is.
ghost use Rattle.std.specs.Prelude.{◌≡◌, ◌<◌, ◌≤◌};
ghost use Rattle.reduce_laws.specs.WordLaws.{IsWordWidth};
ghost use Rattle.field_encodings.specs.Lengths.{width_for, lengths_of};

use graph_model::MAX_NODES;

/// The least of 1, 2 and 4 bytes that hold a position.
#[tactic(auto, unfolding(crate::specs::Lengths::width_for))]
pub(crate) fn position_width(position: u32) -> u8
    ensures { result ≡ width_for position }
{
    if position < 256 {
        1
    } else if position < 65_536 {
        2
    } else {
        4
    }
}

/// The lengths in bytes of the forms of tags 0, 1, 2 and 3, for a list of `n` proxies of which `u` are
/// updated, `greatest` being the greatest updated position, and values of `width` bytes.
pub fn lengths(n: u32, u: u32, greatest: u32, width: u32) -> [u64; 4]
    requires short { n ≤ MAX_NODES }
    requires updated { u ≤ n }
    requires within { 0 < u → greatest < n }
    requires word { IsWordWidth width }
    ensures { result ≡ lengths_of n u greatest width }
{
    let (n, u, size) = (n as u64, u as u64, width as u64);
    [
        1 + n * size,
        1 + n.div_ceil(8) + u * size,
        2 + u * (position_width(greatest) as u64 + size),
        1 + u * (4 + size),
    ]
}

#[cfg(test)]
mod tests {
    use super::*;

    #[test]
    fn lengths_follow_the_table(rt: HostRuntime) {
        assert_eq!(rt; lengths(9, 1, 3, 4), [37, 7, 7, 9]);
        assert_eq!(rt; lengths(8, 7, 6, 1), [9, 9, 16, 36]);
        assert_eq!(rt; lengths(100_000, 1, 65_536, 4), [400_001, 12_505, 10, 9]);
    }
}
