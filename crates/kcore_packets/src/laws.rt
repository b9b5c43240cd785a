//! Laws of runs of k-core over hosts. Each function does nothing: its contract is the law.
ghost use Rattle.graph_model.specs.Graph.{Graph, IsGraph};
ghost use Rattle.graph_model.specs.Arcs.{arcs_of};
ghost use Rattle.graph_model.specs.declared.edge.Way.{Way};
ghost use Rattle.graph_division.specs.Division.{Division};
ghost use Rattle.graph_division.specs.DivisionOf.{IsDivisionOf};
ghost use Rattle.kcore_packets.specs.Laws.{FindsCore, SendsTallies};

use kcore_program::Kcore;
use reduce_laws::{AddU32, Reduction, VertexProgram};

/// On every graph and however it is divided, the rounds of `Kcore` are rounds of peeling. They end
/// within one round more than there are nodes, and who is left then is the core.
pub fn kcore_finds_core()
    ensures { (program : Kcore) (graph : Graph) (way : Way) (division : Division) → IsGraph graph → IsDivisionOf graph way division
        → FindsCore program.k graph way
        (record { reducer = ⟦<AddU32 as Reduction>⟧.reducer; steps = ⟦<Kcore as VertexProgram>⟧.steps program; division = division; item_size = 4; shown_size = 1 }) }
{}

/// On every graph and however it is divided, each packet of a run of `Kcore` is the one that
/// peeling calls for: tallies to masters, and who leaves to mirrors.
pub fn kcore_sends_tallies()
    ensures { (program : Kcore) (graph : Graph) (way : Way) (division : Division) → IsGraph graph → IsDivisionOf graph way division
        → SendsTallies program.k (arcs_of way graph.edges)
        (record { reducer = ⟦<AddU32 as Reduction>⟧.reducer; steps = ⟦<Kcore as VertexProgram>⟧.steps program; division = division; item_size = 4; shown_size = 1 }) }
{}
