//! How a program is to be run.
use graph_model::Way;

/// How a program is to be run, and what is to be told of the run.
#[derive(Clone, Copy, Debug, PartialEq, Eq)]
pub struct RunJob {
    /// How edges are followed.
    pub way: Way,
    /// The most rounds that the run may have, at least 1. Where there is none, it is one more than the graph
    /// has vertices.
    pub rounds: Option<u32>,
    /// Whether a report follows the answers.
    pub report: bool,
    /// Whether each packet is told.
    pub trace: bool,
}
