//! A run that came to its end.
use crate::finished::Finished;
use reduce_laws::VertexProgram;
use round_driver::Cluster;

/// A run that came to its end.
#[derive(Drop)]
pub struct Ended<P: VertexProgram> {
    /// The cluster after its last round.
    pub cluster: Cluster<P>,
    /// What all rounds came to.
    pub finished: Finished,
}
