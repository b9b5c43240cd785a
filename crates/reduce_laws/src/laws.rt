ghost use Rattle.reduce_laws.specs.CombinedLaws.{OrderIsFree, PartsCombine, SharesCombine};

use crate::reduction::Reduction;

/// Does nothing: many items may be combined in any order and part by part. `A` is what gives an
/// item, as an arc, and `B` is what has a part of them, as a host.
pub fn combined_laws<R: Reduction, A, B>()
    ensures order { OrderIsFree A R.Item.IsValue R.reducer }
    ensures parts { PartsCombine A R.Item.IsValue R.reducer }
    ensures shares { SharesCombine A B R.Item.IsValue R.reducer }
{}
