//! The lines of text that a run writes: packets, the answer of a vertex, the report, and words followed
//! by numbers.
//!
//! Numbers are decimal without leading zeros, fields are parted by one space, and every line ends with one
//! newline. No call takes memory. Where a write fails, a front of the call's bytes was written.
#![tactic(auto)]

mod answer;
mod digits;
mod report;
#[cfg(test)]
mod tests;
mod trace;
mod words;

pub use answer::write_answer;
pub use report::{Report, write_report};
pub use trace::write_trace;
pub use words::{write_number, write_words};
