//! The rounds of k-core on a whole graph are peeling. Each function does nothing: its contract is the law.
ghost use Rattle.kcore_program.specs.Laws.{GraphsAreCounted, RoundsPeel, ShownIsLeft, TalliesCount, NoLossSaturates, QuietIsNobodyLeaves, RoundCountIsPeelCount, AnswersAreCore};

use crate::kcore::Kcore;
use reduce_laws::{Reduction, VertexProgram};

/// The arcs of a graph can be counted in four bytes.
pub fn graphs_are_counted()
    ensures { GraphsAreCounted }
{}

/// A vertex has left exactly where it is peeled off, and else knows its inner degree.
pub fn rounds_peel()
    ensures { (program : Kcore) → RoundsPeel ⟦<<Kcore as VertexProgram>::Red as Reduction>⟧.reducer (⟦<Kcore as VertexProgram>⟧.steps program) program.k }
{}

/// Who is left shows 0, and who has left shows 1.
pub fn shown_is_left()
    ensures { (program : Kcore) → ShownIsLeft ⟦<<Kcore as VertexProgram>::Red as Reduction>⟧.reducer (⟦<Kcore as VertexProgram>⟧.steps program) program.k }
{}

/// What arcs bring in a round is their tally, which does not wrap.
pub fn tallies_count()
    ensures { (program : Kcore) → TalliesCount ⟦<<Kcore as VertexProgram>::Red as Reduction>⟧.reducer (⟦<Kcore as VertexProgram>⟧.steps program) program.k }
{}

/// Who stays loses no more arcs than it has: no subtraction saturates.
pub fn no_loss_saturates()
    ensures { (program : Kcore) → NoLossSaturates ⟦<<Kcore as VertexProgram>::Red as Reduction>⟧.reducer (⟦<Kcore as VertexProgram>⟧.steps program) }
{}

/// A round changes no shown value exactly where nobody leaves in it.
pub fn quiet_is_nobody_leaves()
    ensures { (program : Kcore) → QuietIsNobodyLeaves ⟦<<Kcore as VertexProgram>::Red as Reduction>⟧.reducer (⟦<Kcore as VertexProgram>⟧.steps program) program.k }
{}

/// The program takes as many rounds as peeling does.
pub fn round_count_is_peel_count()
    ensures { (program : Kcore) → RoundCountIsPeelCount ⟦<<Kcore as VertexProgram>::Red as Reduction>⟧.reducer (⟦<Kcore as VertexProgram>⟧.steps program) program.k }
{}

/// From the last round of peeling on the answers are the core.
pub fn answers_are_core()
    ensures { (program : Kcore) → AnswersAreCore ⟦<<Kcore as VertexProgram>::Red as Reduction>⟧.reducer (⟦<Kcore as VertexProgram>⟧.steps program) program.k }
{}
