//! The text of a partition: the proxies of each host and what they are, the lists along which hosts
//! exchange values, and what the mirrors lack.
//!
//! [`write_partition`] writes it. Nothing is kept of it, and no call takes memory.
#![tactic(auto)]

mod agreed;
mod classes;
mod hosts;
mod lists;
mod numbers;
mod text;

pub use text::write_partition;
