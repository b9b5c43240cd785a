//! Why a payload is refused.
ghost use Rattle.std.specs.Prelude.{◌≡◌};
ghost use Rattle.address_memo.specs.declared.memo_fault.MemoFault.TheVariants.{Memory};

use std::alloc::{AllocError, AllocFailed};
use thiserror::Error;

/// Why a payload is not one of two lists of this host's masters, or that memory ran out.
#[derive(Clone, Copy, Debug, PartialEq, Eq, Error)]
pub enum MemoFault {
    /// The payload has this many bytes, which are not as many as it says, or too few to say it.
    #[error("the payload has {0} bytes, and says otherwise")]
    Length(u64),
    /// The id with this number, from 0 through both lists, is not above the one before it in its list.
    #[error("id number {0} is not above the one before it")]
    NotRising(u32),
    /// This vertex has no master on this host.
    #[error("vertex {0} has no master here")]
    NotMine(u32),
    /// Memory ran out.
    #[error("out of memory")]
    Memory,
}

impl From<AllocError> for MemoFault {
    ghost from_gives = { λ _ fault. fault ≡ Memory };

    fn from(_: AllocError) -> MemoFault {
        MemoFault::Memory
    }
}

impl<T: Drop> From<AllocFailed<T>> for MemoFault {
    ghost from_gives = { λ _ fault. fault ≡ Memory };

    fn from(_: AllocFailed<T>) -> MemoFault {
        MemoFault::Memory
    }
}
