//! What a task came to.
use crate::proxies::Divided;
use graph_model::EdgeList;
use share_plan::SharePlan;
use trial_runs::Trial;

/// What a task that is no run came to.
#[derive(Drop)]
pub(crate) enum Answers {
    /// A made graph.
    Made(EdgeList),
    /// A graph, and which host has each vertex and each edge.
    Owned(EdgeList, SharePlan),
    /// A graph that is divided among hosts.
    Divided(Divided),
    /// What the four programs find on a made graph.
    Tried(Trial),
}
