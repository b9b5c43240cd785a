//! A program's rounds on a whole graph, without hosts and packets: what every run over hosts is
//! held to. The crate has definitions and laws, and no call that does anything.
#![tactic(auto)]

mod laws;

pub use laws::{
    arc_order_is_free, last_stays, only_reached_change, quiet_stays, round_count_is_unique,
    round_count_order_is_free, shares_bring,
};
