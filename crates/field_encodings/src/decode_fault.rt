//! Why a payload is refused.
use thiserror::Error;

/// Why a payload is not a form of a packet.
#[derive(Clone, Copy, Debug, PartialEq, Eq, Error)]
pub enum DecodeFault {
    /// The payload has no byte.
    #[error("the payload is empty")]
    Empty,
    /// The first byte is no tag.
    #[error("there is no form with tag {0}")]
    Tag(u8),
    /// The payload has `got` bytes, and `want` would be right.
    #[error("the payload has {got} bytes in place of {want}")]
    Length { want: u64, got: u64 },
    /// Positions are not written in this many bytes each.
    #[error("positions do not take {0} bytes each")]
    Width(u8),
    /// A bit past the last position is set.
    #[error("a bit past the last position is set")]
    PadBits,
    /// The position or id with this number, from 0, is not above the one before it.
    #[error("position or id number {0} is not above the one before it")]
    NotRising(u32),
    /// This position is past the end of the list.
    #[error("position {0} is past the end of the list")]
    PastEnd(u32),
    /// This id is none of the list's.
    #[error("id {0} is not in the list")]
    UnknownId(u32),
}
