//! The outside of a run, as traits: where bytes come from, where they go, and who picks the order of events.
//!
//! Each trait tells what it means by ghost members: the bytes that a source has left, the bytes that a
//! sink holds, the picks that a picker was asked for, and how many faults a source or a sink met. An
//! object that does not tell its bytes says `None`. A count stands still at its last value, 2^64 - 1.
#![tactic(auto)]

mod first_picks;
mod last_picks;
mod listed_picks;
mod memory_sink;
mod memory_source;
mod mixed_picks;
#[cfg(test)]
mod page_caller;
mod paged_sink;
mod picker;
mod pieces;
mod plain_source;
mod sink;
mod source;
mod std_sink;
mod std_source;
#[cfg(test)]
mod tests;
mod whole;

pub use first_picks::FirstPicks;
pub use last_picks::LastPicks;
pub use listed_picks::ListedPicks;
pub use memory_sink::MemorySink;
pub use memory_source::MemorySource;
pub use mixed_picks::MixedPicks;
pub use paged_sink::PagedSink;
pub use picker::Picker;
pub use plain_source::PlainSource;
pub use sink::{Sink, SinkFault};
pub use source::{Source, SourceFault};
pub use std_sink::StdSink;
pub use std_source::StdSource;
pub use whole::write_whole;
