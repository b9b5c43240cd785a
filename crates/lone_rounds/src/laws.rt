//! Laws of the rounds of a program. Each function does nothing: its contract is the law.
ghost use Rattle.lone_rounds.specs.Laws.{QuietStays, OnlyReachedChange, ArcOrderIsFree, SharesBring, RoundCountIsUnique, LastStays, RoundCountOrderIsFree};

use reduce_laws::VertexProgram;

/// After a round that changed no shown value no state changes any more.
pub fn quiet_stays<P: VertexProgram>()
    ensures { (program : P) → QuietStays P.Red.reducer (P.steps program) }
{}

/// From the second round on only the heads of arcs from awake tails can change.
pub fn only_reached_change<P: VertexProgram>()
    ensures { (program : P) → OnlyReachedChange P.Red.reducer (P.steps program) }
{}

/// The order in which arcs stand makes no difference.
pub fn arc_order_is_free<P: VertexProgram>()
    ensures { (program : P) → ArcOrderIsFree P.Red.reducer (P.steps program) }
{}

/// What arcs bring to a vertex may be combined host by host.
pub fn shares_bring<P: VertexProgram>()
    ensures { (program : P) → SharesBring P.Red.reducer (P.steps program) }
{}

/// A program takes one number of rounds.
pub fn round_count_is_unique<P: VertexProgram>()
    ensures { (program : P) → RoundCountIsUnique P.Red.reducer (P.steps program) }
{}

/// From the last round of a program on no state changes.
pub fn last_stays<P: VertexProgram>()
    ensures { (program : P) → LastStays P.Red.reducer (P.steps program) }
{}

/// The order in which arcs stand makes no difference to the number of rounds.
pub fn round_count_order_is_free<P: VertexProgram>()
    ensures { (program : P) → RoundCountOrderIsFree P.Red.reducer (P.steps program) }
{}
