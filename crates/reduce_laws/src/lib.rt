//! The words that programs and hosts exchange, how items are reduced, what a vertex program is,
//! and the laws of these that everything above may rest on.
//!
//! A [`Word`] is a value of one, four or eight bytes that can be written into a slice and read
//! back. A [`Reduction`] combines the items that reach a vertex, and a [`VertexProgram`] is what
//! each vertex does in a round. Code that is generic over one of them knows only the trait's
//! clauses and laws, so a further program proves its laws once and has every theorem of rounds.
#![tactic(auto)]

mod add_u32;
mod laws;
mod min_u32;
mod min_u64;
mod reduction;
#[cfg(test)]
mod tests;
mod vertex_program;
mod word;
mod word_u32;
mod word_u64;
mod word_u8;

pub use add_u32::AddU32;
pub use laws::combined_laws;
pub use min_u32::MinU32;
pub use min_u64::MinU64;
pub use reduction::Reduction;
pub use vertex_program::VertexProgram;
pub use word::Word;
