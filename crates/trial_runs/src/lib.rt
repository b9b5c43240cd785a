//! The whole layer at work without a file: a graph is made from a size and a number, and the four programs
//! run on it over hosts. What they find is told in a few numbers.
#![tactic(auto)]

mod answers;
mod measures;
mod programs;
mod trial;
mod trying;

pub use trial::Trial;
pub use trying::run_trial;

#[cfg(test)]
mod tests;
