//! A law of runs. The function does nothing: its contract is the law.
ghost use Rattle.graph_model.specs.Graph.{Graph, IsGraph};
ghost use Rattle.graph_model.specs.declared.edge.Way.{Way};
ghost use Rattle.program_runs.specs.declared.program.Program.{Program};
ghost use Rattle.program_runs.specs.Programs.{ProgramEnds};

/// Every program takes some number of rounds on every graph, at most one more than there are nodes.
pub fn programs_end()
    ensures { (program : Program) (graph : Graph) (way : Way) → IsGraph graph → ProgramEnds program graph way }
{}
