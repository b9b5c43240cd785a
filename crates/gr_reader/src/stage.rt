//! How far a reader has come.

/// What a reader reads next, or that it has read all, or that it failed.
#[derive(Clone, Copy, Debug, PartialEq, Eq)]
pub enum Stage {
    Head,
    Index,
    Edges,
    Weights,
    Done,
    Failed,
}
