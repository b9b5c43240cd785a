//! What the mirrors of a partition lack.
//!
//! [`classes`] looks at the finished local graphs of all hosts: whether no mirror has an out-edge there,
//! none an in-edge, none both. It knows nothing of the rules that made them. [`mirrors`] counts them.
#![tactic(auto)]

mod count;
mod lacks;
mod probe;

pub use count::mirrors;
pub use lacks::Classes;
pub use probe::classes;
