//! What one host of a run holds, and what each of its calls does to that, said of the host's own fields
//! alone: of its local graph, its lists, and the values and sets that it keeps by local number.
//!
//! It has no function. The crates that compute, post and take cite these definitions, and `serving_laws`
//! says what they come to where the host serves a whole divided graph.
#![tactic(auto)]
