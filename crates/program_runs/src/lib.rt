//! The programs that a user may name, run over hosts: breadth-first search, shortest paths, components and
//! k-core. What is written is told in the words of the whole graph: of its walks, or of its peeling.
#![tactic(auto)]

mod last_run;
mod laws;
mod program;
mod running;

pub use last_run::LastRun;
pub use laws::programs_end;
pub use program::Program;
pub use running::run_program;
