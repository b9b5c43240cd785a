//! The ground under all crates: definitions and laws of lists, of sets as lists and of numbers in bytes.
//!
//! It has no function. What a contract needs of rising lists, of little-endian numbers, of sets of numbers
//! as lists of truth values and of their packed bits stands here once, in specs/, and its laws in proofs/.
#![tactic(auto)]
