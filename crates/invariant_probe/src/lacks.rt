//! The classes of a partition.

/// What the mirrors of a partition lack.
#[derive(Clone, Copy, Debug, PartialEq, Eq)]
pub struct Classes {
    /// No mirror has an out-edge on its host.
    pub no_out: bool,
    /// No mirror has an in-edge on its host.
    pub no_in: bool,
    /// No mirror has both on its host.
    pub no_both: bool,
}
