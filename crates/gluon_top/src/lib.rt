//! The top call: words and bytes in, a status and text out.
//!
//! The words name the job. Breadth-first search, shortest paths, components and k-core run over hosts; a graph
//! is made; masters and owners, or proxies and lists, are told; the four programs are tried on a made graph. The
//! bytes are a graph as a .gr file. Whatever is wrong with the words or the bytes, the first such thing has one
//! line and a status of its own.
//!
//! What words and bytes mean is said in specs/Meaning.antt without the code: by the definition of a file, by
//! walks and peeling, and by the packets that these call for. The contract of [`gluon_main`] ties what is written
//! to that meaning, and hands back the cluster that was run.
#![tactic(auto)]

mod answers;
#[cfg(test)]
mod core_tests;
mod owners;
mod prepared;
mod proxies;
#[cfg(test)]
mod proxy_tests;
#[cfg(test)]
mod run_tests;
mod runs;
mod shares;
mod task;
#[cfg(test)]
mod tests;
mod top;

pub use job_text::{
    DONE, Fault, INPUT_REFUSED, NO_MEMORY, READ_FAILED, ROUNDS_SPENT, WORDS_REFUSED, WRITE_FAILED,
};
pub use program_runs::{LastRun, Program};
pub use task::Task;
pub use top::{Outcome, gluon_main};
