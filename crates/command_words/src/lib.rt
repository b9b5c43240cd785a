//! The words after the program's name, read as the job that they ask for.
//!
//! What words mean is said in specs/ without the code: specs/Items.antt says which job words, options and
//! flags they are, specs/Jobs.antt which job those ask for. The contract of [`read_words`] ties its answer
//! to that meaning in both directions.
#![tactic(auto)]

mod command;
mod fault;
mod job;
mod job_name;
mod read;
#[cfg(test)]
mod tests;
mod values;

pub use fault::WordsFault;
pub use job::{Job, RunWords};
pub use read::read_words;
