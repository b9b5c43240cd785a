//! What runs of k-core over hosts tell, in the words of peeling alone. The crate has definitions and laws,
//! and no call that does anything.
#![tactic(auto)]

mod laws;

pub use laws::{kcore_tells_peeling, peeling_ends};
