//! Why a run did not come to its end.
use std::alloc::AllocError;
use thiserror::Error;

/// Why a run did not come to its end.
#[derive(Clone, Copy, Debug, PartialEq, Eq, Drop, Error)]
pub enum RunFault {
    /// All rounds that the run might have, so many, were run, and the last still changed something.
    #[error("{0} rounds were not enough")]
    Spent(u64),
    /// A write failed.
    #[error("a write failed")]
    Write,
    /// Memory ran out before the first round.
    #[error("memory ran out")]
    Memory,
}

/// Why a run without text did not come to its end.
#[derive(Clone, Copy, Debug, PartialEq, Eq, Drop, Error)]
pub enum QuietFault {
    /// All rounds that the run might have, so many, were run, and the last still changed something.
    #[error("{0} rounds were not enough")]
    Spent(u64),
    /// Memory ran out before the first round.
    #[error("memory ran out")]
    Memory,
}
