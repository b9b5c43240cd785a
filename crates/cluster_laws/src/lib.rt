//! A cluster of hosts and one round of it by events: what it stands for, that each event keeps
//! that, that events do not run out before the round is over, and what the round comes to. The
//! crate has definitions and laws, and no call that does anything.
#![tactic(auto)]

mod laws;
#[cfg(test)]
mod tests;

pub use laws::{
    end_laws, number_laws, one_round, packets_are_posted, rounds_end, step_laws, table_laws,
};
