//! Laws of the text of runs of k-core. Each function does nothing: its contract is the law.
ghost use Rattle.std.specs.Prelude.{ℕ, List};
ghost use Rattle.graph_model.specs.Graph.{Graph, IsGraph};
ghost use Rattle.graph_model.specs.declared.edge.Way.{Way};
ghost use Rattle.graph_division.specs.DivisionOf.{IsDivisionOf};
ghost use Rattle.graph_division.specs.Shares.{Share};
ghost use Rattle.graph_division.specs.Partition.{IsPartition, division_of};
ghost use Rattle.host_state.specs.Serving.{run_of};
ghost use Rattle.core_runs.specs.Laws.{TellsWhatPeelingDoes, PeelingEndsOn};

use kcore_program::Kcore;
use reduce_laws::{AddU32, Reduction, VertexProgram, Word};

/// On every graph and however it is divided among hosts, the text of a run of k-core is the one that peeling
/// the graph calls for: as many rounds, the same packets, and at last the members of the core.
pub fn kcore_tells_peeling()
    ensures { (program : Kcore) (graph : Graph) (way : Way) (shares : List Share) → IsGraph graph → IsPartition shares → IsDivisionOf graph way (division_of way shares)
        → TellsWhatPeelingDoes program.k ⟦<u32 as Word>⟧.bytes_of ⟦<u8 as Word>⟧.bytes_of
        (run_of ⟦<AddU32 as Reduction>⟧.reducer (⟦<Kcore as VertexProgram>⟧.steps program) 4 1 (division_of way shares)) graph way shares }
{}

/// Peeling takes some number of rounds on every graph, at most one more than there are nodes.
pub fn peeling_ends()
    ensures { (k : ℕ) (graph : Graph) (way : Way) → PeelingEndsOn k graph way }
{}
