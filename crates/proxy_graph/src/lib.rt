//! One host's part of a divided graph: its proxies by local number, what each of them is, and the
//! host's arcs, lent in both directions.
#![tactic(auto)]

mod arc_view;
mod arcs;
mod columns;
mod draft;
mod file_order;
mod heads;
mod in_arcs;
mod local_graph;
mod numbering;
mod run;
mod search;
mod sorting;
mod survey;

pub use arc_view::ArcView;
pub use heads::Heads;
pub use local_graph::LocalGraph;
pub use run::Run;

#[cfg(test)]
mod tests;
