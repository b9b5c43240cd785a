//! What the vertices of a cluster's graph answer between two rounds.
#![tactic(auto)]

mod answers;
mod vertex;

pub use answers::write_answers;
pub use vertex::answer_at;
