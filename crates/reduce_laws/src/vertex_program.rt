ghost use Rattle.std.specs.Prelude.{◌≡◌};
ghost use Rattle.reduce_laws.specs.ProgramLaws.{Steps, ProgramLaws};

use crate::reduction::Reduction;
use crate::word::Word;

/// A program that every vertex runs, round by round: what it shows goes along its arcs, what
/// comes along the arcs into a vertex is reduced, and the vertex settles with that.
///
/// The laws are said of states, of values of `Shown` and `Red::Item`, of vertices below 2^32 and
/// of weights below 2^32.
pub trait VertexProgram: Copy {
    /// How items that reach one vertex are combined.
    type Red: Reduction;

    /// What a master knows of its vertex.
    type State: Copy + Eq;

    /// What other vertices see of a vertex, and what a broadcast carries.
    type Shown: Word;

    ghost IsState: { Self.State → Type 0 };

    ghost steps: { Self → Steps Self.Red.Item Self.State Self.Shown };

    /// The state in which vertex `v` starts.
    fn start(&self, v: u32) -> Self::State
        ensures { result ≡ (steps self.now).start v };

    /// What a vertex in this state shows.
    fn shown(&self, state: Self::State) -> Self::Shown
        ensures { result ≡ (steps self.now).shown state };

    /// The item that goes along an arc of this weight, from a tail that shows this.
    fn along(&self, shown: Self::Shown, weight: u32) -> <Self::Red as Reduction>::Item
        ensures { result ≡ (steps self.now).along shown weight };

    /// The state after a round that brought `got`.
    fn settle(&self, state: Self::State, got: <Self::Red as Reduction>::Item) -> Self::State
        ensures { result ≡ (steps self.now).settle state got };

    /// The item that a mirror keeps once it was told what its master shows. Where the reduction
    /// does not keep, it is the identity.
    fn keep(&self, shown: Self::Shown) -> <Self::Red as Reduction>::Item
        ensures { result ≡ (steps self.now).keep shown };

    /// What is printed of a state, and `None` where there is nothing to print.
    fn answer(&self, state: Self::State) -> Option<u64>
        ensures { result ≡ (steps self.now).answer state };

    ghost laws: { (program : Self) → ProgramLaws Self.Red.Item.IsValue Self.Shown.IsValue IsState Self.Red.reducer (steps program) };
}
