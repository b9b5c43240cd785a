//! What all rounds of a run came to.

/// What all rounds of a run came to.
#[derive(Clone, Copy, Debug, PartialEq, Eq)]
pub struct Finished {
    /// How many rounds were run, with the last one, which changes nothing.
    pub rounds: u64,
    /// How many packets were sent.
    pub packets: u64,
    /// How many bytes these packets have.
    pub bytes: u128,
}
