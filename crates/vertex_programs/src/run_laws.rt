//! Laws of runs of programs of labels over hosts. Each function does nothing: its contract is the law.
ghost use Rattle.std.specs.Prelude.{◌^◌, ◌-◌, ℕ, Option};
ghost use Rattle.graph_model.specs.Graph.{Graph, IsGraph};
ghost use Rattle.graph_model.specs.Arcs.{arcs_of};
ghost use Rattle.graph_model.specs.declared.edge.Way.{Way};
ghost use Rattle.graph_model.specs.Least.{Fares, bfs_fares, sssp_fares, cc_fares};
ghost use Rattle.graph_division.specs.Division.{Division, IsDivision};
ghost use Rattle.graph_division.specs.DivisionOf.{IsDivisionOf};
ghost use Rattle.vertex_programs.specs.LabelPackets.{AreLeast};
ghost use Rattle.vertex_programs.specs.RunLaws.{LabelsFindLeast, FindsLeast, LabelsAreSent, SendsLabels, LeastExist};

use crate::bfs::Bfs;
use crate::components::Components;
use crate::sssp::Sssp;
use reduce_laws::{MinU32, MinU64, Reduction, VertexProgram};

/// Every run of a program of labels finds the least that the walks of its graph give.
pub fn labels_find_least()
    ensures { (size : ℕ) (fares : Fares) → LabelsFindLeast size fares }
{}

/// On every graph and however it is divided, `Bfs` finds how many arcs lead from its root, `Sssp`
/// how much the cheapest way from its root costs, and `Components` the least node from which a
/// walk leads. Each round follows one arc more, and they end within as many rounds as there are
/// nodes, or after one where there is none.
pub fn programs_find_least()
    ensures bfs { (program : Bfs) (graph : Graph) (way : Way) (division : Division) → IsGraph graph → IsDivisionOf graph way division
        → FindsLeast (256 ^ 4 - 1) (bfs_fares program.root) graph way
        (record { reducer = ⟦<MinU32 as Reduction>⟧.reducer; steps = ⟦<Bfs as VertexProgram>⟧.steps program; division = division; item_size = 4; shown_size = 4 }) }
    ensures sssp { (program : Sssp) (graph : Graph) (way : Way) (division : Division) → IsGraph graph → IsDivisionOf graph way division
        → FindsLeast (256 ^ 8 - 1) (sssp_fares program.root) graph way
        (record { reducer = ⟦<MinU64 as Reduction>⟧.reducer; steps = ⟦<Sssp as VertexProgram>⟧.steps program; division = division; item_size = 8; shown_size = 8 }) }
    ensures components { (program : Components) (graph : Graph) (way : Way) (division : Division) → IsGraph graph → IsDivisionOf graph way division
        → FindsLeast (256 ^ 4 - 1) cc_fares graph way
        (record { reducer = ⟦<MinU32 as Reduction>⟧.reducer; steps = ⟦<Components as VertexProgram>⟧.steps program; division = division; item_size = 4; shown_size = 4 }) }
{}

/// On every graph and for every fares that fit there are answers, round by round.
pub fn least_exist()
    ensures { (size : ℕ) (fares : Fares) → LeastExist size fares }
{}

/// Each packet of a run of a program of labels is the one that walks call for.
pub fn labels_are_sent()
    ensures { (size : ℕ) (fares : Fares) → LabelsAreSent size fares }
{}

/// On every graph and however it is divided, each packet of a run of the three programs is the one
/// that the walks of the graph call for.
pub fn programs_send_least()
    ensures bfs { (program : Bfs) (graph : Graph) (way : Way) (division : Division) (plain : ℕ → ℕ → Option ℕ)
        → IsGraph graph → IsDivision division → IsDivisionOf graph way division
        → AreLeast (bfs_fares program.root) graph.nodes (arcs_of way graph.edges) plain
        → SendsLabels (256 ^ 4 - 1) (bfs_fares program.root) plain
        (record { reducer = ⟦<MinU32 as Reduction>⟧.reducer; steps = ⟦<Bfs as VertexProgram>⟧.steps program; division = division; item_size = 4; shown_size = 4 }) }
    ensures sssp { (program : Sssp) (graph : Graph) (way : Way) (division : Division) (plain : ℕ → ℕ → Option ℕ)
        → IsGraph graph → IsDivision division → IsDivisionOf graph way division
        → AreLeast (sssp_fares program.root) graph.nodes (arcs_of way graph.edges) plain
        → SendsLabels (256 ^ 8 - 1) (sssp_fares program.root) plain
        (record { reducer = ⟦<MinU64 as Reduction>⟧.reducer; steps = ⟦<Sssp as VertexProgram>⟧.steps program; division = division; item_size = 8; shown_size = 8 }) }
    ensures components { (program : Components) (graph : Graph) (way : Way) (division : Division) (plain : ℕ → ℕ → Option ℕ)
        → IsGraph graph → IsDivision division → IsDivisionOf graph way division
        → AreLeast cc_fares graph.nodes (arcs_of way graph.edges) plain
        → SendsLabels (256 ^ 4 - 1) cc_fares plain
        (record { reducer = ⟦<MinU32 as Reduction>⟧.reducer; steps = ⟦<Components as VertexProgram>⟧.steps program; division = division; item_size = 4; shown_size = 4 }) }
{}
