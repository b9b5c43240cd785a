//! One host within a round: what it stands for, what each event does to it, and that each event
//! keeps what it stands for. The crate has definitions and laws, and no call that does anything.
#![tactic(auto)]

mod laws;

pub use laws::{
    close_stands, compute_stands, fresh_stands, spread_stands, take_broadcast_stands,
    take_reduce_stands,
};
