//! Laws of the rounds of programs of labels. Each function does nothing: its contract is the law.
ghost use Rattle.std.specs.Prelude.{◌≡◌, ◌^◌, ℕ};
ghost use Rattle.graph_model.specs.Least.{Fares, bfs_fares, sssp_fares, cc_fares};
ghost use Rattle.vertex_programs.specs.Labels.{label_steps};
ghost use Rattle.vertex_programs.specs.Laws.{ProgramsFit, RoundsAreWalks, LabelsAreLeast, SumsAreLabels, QuietRounds, CountsAgree, RoundsEnd, LastIsAllWalks, LastLabelsAreLeast};

use crate::bfs::Bfs;
use crate::components::Components;
use crate::sssp::Sssp;
use reduce_laws::VertexProgram;

/// The three programs are programs of labels.
pub fn programs_have_labels()
    ensures bfs { (program : Bfs) → ⟦<Bfs as VertexProgram>⟧.steps program ≡ label_steps (256 ^ 4) (bfs_fares program.root) }
    ensures sssp { (program : Sssp) → ⟦<Sssp as VertexProgram>⟧.steps program ≡ label_steps (256 ^ 8) (sssp_fares program.root) }
    ensures components { (program : Components) → ⟦<Components as VertexProgram>⟧.steps program ≡ label_steps (256 ^ 4) cc_fares }
{}

/// The fares of the three programs fit on every graph: their sums stay below the number for none.
pub fn programs_fit()
    ensures { ProgramsFit }
{}

/// After so many rounds a label says the least that walks of at most so many arcs give.
pub fn rounds_are_walks()
    ensures { (limit : ℕ) (fares : Fares) → RoundsAreWalks limit fares }
{}

/// Whatever is the least, the label is its number.
pub fn labels_are_least()
    ensures { (limit : ℕ) (fares : Fares) → LabelsAreLeast limit fares }
{}

/// No sum of a label and the cost of an arc saturates.
pub fn sums_are_labels()
    ensures { (limit : ℕ) (fares : Fares) → SumsAreLabels limit fares }
{}

/// A round changes no label exactly where walks of one arc more give no vertex less.
pub fn quiet_rounds()
    ensures { (limit : ℕ) (fares : Fares) → QuietRounds limit fares }
{}

/// A program of labels takes as many rounds as walks do.
pub fn counts_agree()
    ensures { (limit : ℕ) (fares : Fares) → CountsAgree limit fares }
{}

/// It ends after at most as many rounds as there are nodes, or after one where there is none.
pub fn rounds_end()
    ensures { (limit : ℕ) (fares : Fares) → RoundsEnd limit fares }
{}

/// From the last round on walks of so many arcs give what all walks do.
pub fn last_is_all_walks()
    ensures { (limit : ℕ) (fares : Fares) → LastIsAllWalks limit fares }
{}

/// From the last round on labels say the least of all walks.
pub fn last_labels_are_least()
    ensures { (limit : ℕ) (fares : Fares) → LastLabelsAreLeast limit fares }
{}
