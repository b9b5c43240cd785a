//! A host's packets of a leg: one for each list that is not empty, written into its channel's buffer and
//! put in flight. No call takes memory.
//!
//! - [`post_reduces`] posts what mirrors gathered, and makes these mirrors ready for the next round.
//! - [`post_broadcasts`] posts what masters show.
//!
//! Each goes over the peers by rising number. A list without proxies has no packet, and no channel either.
//! No proxy is in two lists of mirrors, so the packet of a list is the same whichever were sent before it.
#![tactic(auto)]

mod broadcasts;
mod ready_channel;
mod reduces;
#[cfg(test)]
mod tests;

pub use broadcasts::post_broadcasts;
pub use reduces::post_reduces;
