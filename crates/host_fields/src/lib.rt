//! The fields of a host as plain slices by local number: how they start, and what the calls of a host do
//! to them that touch neither arcs nor packets.
//!
//! Only what changed is touched: masters that have news settle, and what proxies show is brought over
//! where it is new.
#![tactic(auto)]

mod closing;
mod keeping;
mod settling;
mod starting;
#[cfg(test)]
mod tests;

pub use closing::bring_over;
pub use keeping::keep_told;
pub use settling::settle_news;
pub use starting::{count_needed, start_items, start_news, start_shown, start_states};
