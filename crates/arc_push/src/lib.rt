//! One host's arcs at work: what awake proxies show goes along their arcs and is combined at the heads.
//!
//! [`push_awake`] goes from one awake proxy to the next, so a round in which few are awake costs no pass
//! over the arcs. The arcs of each are gone through run by run, as they lie side by side. It works on plain
//! slices by local number and takes no memory.
//!
//! Each arc out of an awake tail brings the item that the
//! [`VertexProgram`](reduce_laws::VertexProgram) makes of the tail's shown value and the arc's weight. The
//! order of arcs makes no difference, since a [`Reduction`](reduce_laws::Reduction) takes items in any order.
//!
//! A set tells which proxies have news once all is pushed:
//!
//! - a mirror whose item changed, and no other. Where the reduction keeps, an item that changed never
//!   comes back, so it is enough to look at each change; where it does not, a mirror begins with the
//!   identity and has news while its item is another;
//! - a master whose item changed on the way, or that was in the set before.
//!
//! Where nothing changes nothing is written, and an item that is the identity costs no look at its head.
//!
//! With costs, of which the least counts, a tail that shows 1 brings 5 along an arc of weight 4. A mirror
//! with item 9 then has 5 and news; one with item 3 keeps it and has none.
#![tactic(auto)]

mod pushing;
#[cfg(test)]
mod tests;

pub use pushing::push_awake;
