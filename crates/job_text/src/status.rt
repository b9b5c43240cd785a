//! The statuses with which the program ends.

/// The job is done.
pub const DONE: u8 = 0;

/// The words are refused.
pub const WORDS_REFUSED: u8 = 2;

/// The input has a fault, or the root is no node of its graph.
pub const INPUT_REFUSED: u8 = 3;

/// Memory ran out, and nothing was written.
pub const NO_MEMORY: u8 = 4;

/// A run was not at its end after all rounds that it might have.
pub const ROUNDS_SPENT: u8 = 5;

/// A write failed.
pub const WRITE_FAILED: u8 = 6;

/// A read failed.
pub const READ_FAILED: u8 = 7;
