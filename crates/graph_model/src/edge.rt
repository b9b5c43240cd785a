//! An edge of a file, and the ways in which a program may follow edges.

/// An edge from `src` to `dst`, both numbers of nodes, with a weight, which is 1 where the file has none.
#[derive(Clone, Copy, Debug, PartialEq, Eq)]
pub struct Edge {
    pub src: u32,
    pub dst: u32,
    pub weight: u32,
}

/// How edges are followed: from source to destination, back, or both.
#[derive(Clone, Copy, Debug, PartialEq, Eq)]
pub enum Way {
    Outward,
    Inward,
    Both,
}
