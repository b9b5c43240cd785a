ghost use Rattle.std.specs.Prelude.{◌≡◌, Bool};
ghost use Rattle.reduce_laws.specs.ReductionLaws.{Reducer, ReductionLaws};

use crate::word::Word;

/// How the items that reach a vertex in one round are combined into one.
///
/// It is commutative and associative, so the items may come in any order and from any host.
pub trait Reduction {
    /// What goes along arcs and from mirrors to masters.
    type Item: Word;

    /// Whether combining an item with itself gives that item. Then a mirror keeps what it sent;
    /// otherwise it is set back to the identity after each send.
    const KEEPS: bool;

    ghost KEEPS: { Bool };

    ghost reducer: { Reducer Self.Item };

    /// The item that adds nothing.
    fn identity() -> Self::Item
        ensures { result ≡ reducer.identity };

    /// Two items in one.
    fn combine(a: Self::Item, b: Self::Item) -> Self::Item
        ensures { result ≡ reducer.combine a b };

    ghost keeps: { reducer.keeps ≡ KEEPS };

    ghost laws: { ReductionLaws Self.Item.IsValue reducer };
}
