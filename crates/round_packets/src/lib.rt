//! The packets of a round over hosts, and why they bring each master what a round of the whole
//! graph does. The crate has definitions and laws, and no call that does anything.
#![tactic(auto)]

mod laws;

pub use laws::{
    agreeing_have_same_bytes, entries_are_carried, given_settles, kept_is_no_news,
    packets_are_forms, untold_is_unchanged,
};
