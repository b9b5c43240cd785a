//! Laws of one host. Each function does nothing: its contract is the law.
ghost use Rattle.host_laws.specs.Laws.{FreshStands, ComputeStands, TakeReduceStands, SpreadStands, TakeBroadcastStands, CloseStands};

use reduce_laws::VertexProgram;

/// A fresh host stands for the moment before the first round.
pub fn fresh_stands<P: VertexProgram>()
    ensures { FreshStands P P.Red.Item.IsValue P.Shown.IsValue P.IsState }
{}

/// A host that computes stands for the same round.
pub fn compute_stands<P: VertexProgram>()
    ensures { ComputeStands P P.Red.Item.IsValue P.Shown.IsValue P.IsState }
{}

/// A host that takes a reduce packet stands for the same round.
pub fn take_reduce_stands<P: VertexProgram>()
    ensures { TakeReduceStands P P.Red.Item.IsValue P.Shown.IsValue P.IsState }
{}

/// A host that spreads stands for the same round.
pub fn spread_stands<P: VertexProgram>()
    ensures { SpreadStands P P.Red.Item.IsValue P.Shown.IsValue P.IsState }
{}

/// A host that takes a broadcast packet stands for the same round.
pub fn take_broadcast_stands<P: VertexProgram>()
    ensures { TakeBroadcastStands P P.Red.Item.IsValue P.Shown.IsValue P.IsState }
{}

/// A host that has done all of a round stands for the next one once it is closed.
pub fn close_stands<P: VertexProgram>()
    ensures { CloseStands P P.Red.Item.IsValue P.Shown.IsValue P.IsState }
{}
