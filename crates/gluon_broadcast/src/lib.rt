//! Broadcast on plain slices: what masters show goes to their mirrors.
//!
//! Two hosts share a list of proxies, masters on one and their mirrors on the other. The fields and the
//! sets of a host are kept by local number, and `locals` says which local numbers the list has, in rising
//! order.
//!
//! - [`spread`], at the masters, writes the list's packet, in the shortest form.
//! - [`receive`], at the mirrors, puts the value of each entry into the shown values of the next round, and
//!   wakes the proxies whose value is new.
//!
//! With shown values 4, 0 and 6 of the ids 10, 20 and 30, and the first and the third updated,
//! `01 05 04 00 00 00 06 00 00 00` goes out. Mirrors that show 4, 0 and 5 then show 4, 0 and 6 in the next
//! round, and the third alone is awake.
//!
//! No call takes memory. Whatever is not listed stays.
#![tactic(auto)]

mod receiving;
mod spreading;
#[cfg(test)]
mod tests;

pub use receiving::receive;
pub use spreading::spread;
