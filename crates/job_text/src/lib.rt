//! The text of what is no run: masters and owners, proxies and lists, what the four programs find on a made
//! graph, and the line and the status of each fault.
//!
//! [`write_lines`] writes it in whole pages. Nothing is kept of it, and no call takes memory.
#![tactic(auto)]

mod fault;
mod line;
mod lines;
mod owner_lines;
mod status;
mod trial_lines;

pub use fault::Fault;
pub use lines::{Lines, write_lines, write_spent};
pub use status::{
    DONE, INPUT_REFUSED, NO_MEMORY, READ_FAILED, ROUNDS_SPENT, WORDS_REFUSED, WRITE_FAILED,
};
