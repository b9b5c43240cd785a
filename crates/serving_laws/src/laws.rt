//! Laws of a host that serves a division. Each function does nothing: its contract is the law.
ghost use Rattle.serving_laws.specs.Laws.{ServingKnows, FreshServes, ComputeServes, TakeReduceServes, SpreadServes, TakeBroadcastServes};

use reduce_laws::VertexProgram;

/// A host that serves a division knows its own part of it, and its lists are the division's.
pub fn serving_knows<P: VertexProgram>()
    ensures { ServingKnows P P.Red.Item P.State P.Shown }
{}

/// A host that is fresh as far as it can tell is a fresh host of the run.
pub fn fresh_serves<P: VertexProgram>()
    ensures { (program : P) → FreshServes P P.Red.Item.IsValue P.Shown.IsValue P.IsState P.Red.reducer (P.steps program) P.Red.Item.WIDTH P.Shown.WIDTH }
{}

/// A host that computes by its own fields does what the round asks, and posts the round's reduce packets.
pub fn compute_serves<P: VertexProgram>()
    ensures { (program : P) → ComputeServes P P.Red.Item.IsValue P.Shown.IsValue P.IsState P.Red.reducer (P.steps program) P.Red.Item.WIDTH P.Shown.WIDTH P.Red.Item.bytes_of }
{}

/// A host that takes the entries of the round's reduce packet does what the round asks.
pub fn take_reduce_serves<P: VertexProgram>()
    ensures { (program : P) → TakeReduceServes P P.Red.Item.IsValue P.Shown.IsValue P.IsState P.Red.reducer (P.steps program) P.Red.Item.WIDTH P.Shown.WIDTH }
{}

/// A host that spreads by its own fields does what the round asks, and posts the round's broadcast packets.
pub fn spread_serves<P: VertexProgram>()
    ensures { (program : P) → SpreadServes P P.Red.Item.IsValue P.Shown.IsValue P.IsState P.Red.reducer (P.steps program) P.Red.Item.WIDTH P.Shown.WIDTH P.Shown.bytes_of }
{}

/// A host that takes the entries of the round's broadcast packet does what the round asks.
pub fn take_broadcast_serves<P: VertexProgram>()
    ensures { (program : P) → TakeBroadcastServes P P.Red.Item.IsValue P.Shown.IsValue P.IsState P.Red.reducer (P.steps program) P.Red.Item.WIDTH P.Shown.WIDTH P.Shown.eq }
{}
