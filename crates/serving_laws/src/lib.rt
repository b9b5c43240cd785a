//! A host that serves a divided graph: what its calls do to its own fields is what the round of the whole
//! graph asks of it, and what it posts are the round's packets. The crate has laws, and no call that does
//! anything.
#![tactic(auto)]

mod laws;

pub use laws::{
    compute_serves, fresh_serves, serving_knows, spread_serves, take_broadcast_serves,
    take_reduce_serves,
};
