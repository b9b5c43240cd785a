//! What a round came to.

/// What a round came to.
#[derive(Clone, Copy, Debug, PartialEq, Eq)]
pub struct Tally {
    /// How many vertices show something new after the round.
    pub changed: u64,
    /// How many packets were sent, one for each channel.
    pub packets: u64,
    /// How many bytes all packets have.
    pub bytes: u64,
}
