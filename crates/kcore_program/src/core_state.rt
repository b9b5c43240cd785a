//! What a vertex knows of itself in k-core.

/// What a vertex knows: nothing yet, that it stays with so many arcs from those who stay, or that it left.
#[derive(Clone, Copy, Debug, PartialEq, Eq)]
pub enum CoreState {
    Fresh,
    Stays(u32),
    Left,
}
