//! Laws of the text of runs. Each function does nothing: its contract is the law.
ghost use Rattle.std.specs.Prelude.{ℕ, List};
ghost use Rattle.graph_model.specs.Graph.{Graph, IsGraph};
ghost use Rattle.graph_model.specs.declared.edge.Way.{Way};
ghost use Rattle.graph_division.specs.DivisionOf.{IsDivisionOf};
ghost use Rattle.graph_division.specs.Shares.{Share};
ghost use Rattle.graph_division.specs.Partition.{IsPartition, division_of};
ghost use Rattle.host_state.specs.Serving.{run_of};
ghost use Rattle.label_runs.specs.ByWalks.{bfs_labels, sssp_labels, cc_labels};
ghost use Rattle.label_runs.specs.Laws.{TellsWhatWalksDo, WalksEnd};

use reduce_laws::{MinU32, MinU64, Reduction, VertexProgram, Word};
use vertex_programs::{Bfs, Components, Sssp};

/// On every graph and however it is divided among hosts, the text of a run of the three programs is the one
/// that the walks of the graph call for: as many rounds, the same packets, and the least of walks.
pub fn programs_tell_walks()
    ensures bfs { (program : Bfs) (graph : Graph) (way : Way) (shares : List Share) → IsGraph graph → IsPartition shares → IsDivisionOf graph way (division_of way shares)
        → TellsWhatWalksDo (bfs_labels program.root) ⟦<u32 as Word>⟧.bytes_of
        (run_of ⟦<MinU32 as Reduction>⟧.reducer (⟦<Bfs as VertexProgram>⟧.steps program) 4 4 (division_of way shares)) graph way shares }
    ensures sssp { (program : Sssp) (graph : Graph) (way : Way) (shares : List Share) → IsGraph graph → IsPartition shares → IsDivisionOf graph way (division_of way shares)
        → TellsWhatWalksDo (sssp_labels program.root) ⟦<u64 as Word>⟧.bytes_of
        (run_of ⟦<MinU64 as Reduction>⟧.reducer (⟦<Sssp as VertexProgram>⟧.steps program) 8 8 (division_of way shares)) graph way shares }
    ensures components { (program : Components) (graph : Graph) (way : Way) (shares : List Share) → IsGraph graph → IsPartition shares → IsDivisionOf graph way (division_of way shares)
        → TellsWhatWalksDo cc_labels ⟦<u32 as Word>⟧.bytes_of
        (run_of ⟦<MinU32 as Reduction>⟧.reducer (⟦<Components as VertexProgram>⟧.steps program) 4 4 (division_of way shares)) graph way shares }
{}

/// Walks take some number of rounds on every graph, at most as many as there are nodes, or one where there
/// is none; so one more than the nodes is always enough.
pub fn walks_end()
    ensures bfs { (root : ℕ) (graph : Graph) (way : Way) → IsGraph graph → WalksEnd (bfs_labels root) graph way }
    ensures sssp { (root : ℕ) (graph : Graph) (way : Way) → IsGraph graph → WalksEnd (sssp_labels root) graph way }
    ensures components { (graph : Graph) (way : Way) → IsGraph graph → WalksEnd cc_labels graph way }
{}
