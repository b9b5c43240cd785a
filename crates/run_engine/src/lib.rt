//! A program run over hosts to its end.
//!
//! A run exchanges lists, makes a cluster, and brings it from round to round until one changes nothing: that
//! is the last. All memory is taken before the first round. [`run`] writes the packets of each round where
//! they are asked for, then the answers, and then a report where it is asked for; [`run_quiet`] writes
//! nothing. Both hand the cluster back.
#![tactic(auto)]

mod ended;
mod ending;
mod fault;
mod finished;
mod job;
mod prepare;
mod quiet_run;
mod rounds;
mod told_rounds;
mod told_run;

pub use ended::Ended;
pub use fault::{QuietFault, RunFault};
pub use finished::Finished;
pub use job::RunJob;
pub use quiet_run::run_quiet;
pub use run_answers::answer_at;
pub use told_run::run;
