//! The four forms in which the updated values of a list travel from host to host.
//!
//! Two hosts share a list of `n` proxies: both know the global ids in rising order, and a position is a
//! place in the list, from 0. Of these positions `u` are updated, and each has a value, a
//! [`Word`](reduce_laws::Word) of `s` bytes. Numbers of more than one byte go low byte first.
//!
//! | first byte | what follows | length |
//! |---|---|---|
//! | 0 | the value of each position | `1 + n*s` |
//! | 1 | a bit for each position, eight a byte and the lowest first, then the updated values | `1 + ceil(n/8) + u*s` |
//! | 2 | a width `w` of 1, 2 or 4, the updated positions in `w` bytes each, then their values | `2 + u*(w+s)` |
//! | 3 | the global ids of the updated positions, four bytes each, then their values | `1 + u*(4+s)` |
//!
//! Bits past the last position are 0, positions and ids rise, and `w` is the least width that holds the
//! greatest updated position, 1 where there is none.
//!
//! [`encode`] sends the form that is shortest by [`lengths`], that of the smaller first byte on a tie; a
//! list without updates sends the one byte `03`. With nine positions, four-byte values and position 3
//! updated to 5 the lengths are 37, 7, 7 and 9, and `01 08 00 05 00 00 00` goes out.
//!
//! [`decode`] accepts every form, the shortest or not, and nothing else: [`Entries`] then gives the
//! positions with their values straight from the payload. A payload that is no form gives the
//! [`DecodeFault`] of the first check that it fails. [`form_laws`] says what holds of the forms
//! themselves. No call takes memory.
#![tactic(auto)]

mod bit_places;
mod chosen_form;
mod coded;
mod decode_fault;
mod decoder;
mod encoder;
mod entries;
mod form_writers;
mod id_places;
mod laws;
mod length_table;
mod next_updated;
mod number_text;
mod order_checks;
mod outgoing;
mod places;
mod put_bytes;
mod readers;
mod rising_search;
mod rows;
mod updated;
mod writers;

pub use coded::Coded;
pub use decode_fault::DecodeFault;
pub use decoder::decode;
pub use encoder::encode;
pub use entries::Entries;
pub use laws::{form_laws, one_tag_is_sent};
pub use length_table::lengths;
pub use rows::is_run;
