//! The text of a run over hosts: what is said of each packet, of each vertex, and of the run.
#![tactic(auto)]

mod round_lines;

pub use round_lines::write_round;
