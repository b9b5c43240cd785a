//! What runs of programs of labels over hosts tell, in the words of walks alone. The crate has definitions
//! and laws, and no call that does anything.
#![tactic(auto)]

mod laws;

pub use laws::{programs_tell_walks, walks_end};
