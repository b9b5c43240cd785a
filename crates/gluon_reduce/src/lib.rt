//! Reduce on plain slices: what mirrors gathered goes to their masters.
//!
//! Two hosts share a list of proxies, mirrors on one and their masters on the other. The fields and the
//! sets of a host are kept by local number, and `locals` says which local numbers the list has, in rising
//! order.
//!
//! - [`gather`], at the mirrors, writes the list's packet, in the shortest form, and makes the mirrors ready for the next
//!   round: their update bits are clear and, where the [`Reduction`](reduce_laws::Reduction) does not keep,
//!   their values are the identity again, so that nothing is sent twice.
//! - [`absorb`], at the masters, combines each entry of a packet into the sum of its proxy, and notes in a
//!   set which proxies were reached.
//!
//! With sums that are added, kept values 4, 0 and 6 of the ids 10, 20 and 30, and the first and the third
//! updated, `01 05 04 00 00 00 06 00 00 00` goes out. At sums 1, 1 and 1 it gives 5, 1 and 7.
//!
//! No call takes memory. Whatever is not listed stays.
#![tactic(auto)]

mod absorbing;
mod gathering;
mod resetting;
#[cfg(test)]
mod tests;

pub use absorbing::absorb;
pub use gathering::gather;
