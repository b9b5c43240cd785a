//! The parts of a file.

/// A part of a file, in the order in which they stand.
#[derive(Clone, Copy, Debug, PartialEq, Eq)]
pub enum Section {
    Head,
    Index,
    Destinations,
    Padding,
    Weights,
}
