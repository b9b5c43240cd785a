//! Local numbers for the vertices that have proxies on a host.
ghost use Rattle.std.specs.Prelude.{◌≡◌, ◌^◌, ◌+◌, ◌<◌, ◌≤◌, length, slice_index, IfOk};
ghost use Rattle.list_laws.specs.Members.{members};
ghost use Rattle.graph_model.specs.Graph.{most_nodes};
ghost use Rattle.proxy_graph.specs.Numbering.{is_hosted, table_of, Numbers};

use std::alloc::{AllocError, Global};
use update_bits::{RankedBits, UpdateBits};

/// The local numbers of a host's proxies. Masters lie side by side, and have their places in the row for
/// their numbers; the number of a mirror is how many mirrors come before it, behind the masters.
#[derive(Drop)]
pub(crate) struct Numbering {
    /// The first vertex whose master is here, and how many there are.
    first: u32,
    count: u32,
    /// The vertices that have mirrors here.
    mirrored: RankedBits,
}

/// Whether a vertex is among the `count` vertices from `first` on.
fn is_hosted(first: u32, count: u32, v: u32) -> bool
    ensures { result ≡ is_hosted first count v }
{
    v >= first && v - first < count
}

impl Numbering {
    /// The numbers of the `count` masters from `first` on, and of the other vertices that have a mark.
    pub(crate) fn new(
        alloc: Global,
        first: u32,
        count: u32,
        marks: UpdateBits,
    ) -> Result<Numbering, AllocError>
        requires few { length marks ≤ most_nodes }
        requires within { first + count ≤ length marks }
        ensures { IfOk result (λ numbering. Numbers first count marks numbering) }
    {
        let mut mirrored = marks;
        mirrored.clear_between(first, first + count);
        Ok(Numbering {
            first,
            count,
            mirrored: RankedBits::new(alloc, mirrored)?,
        })
    }

    /// The local number of a vertex that has a proxy here.
    #[tactic(auto, using(crate::proofs::NumberingSteps::few_before))]
    pub(crate) fn lid(&self, v: u32) -> u32
        requires known { v < length self.now.mirrored }
        requires few { self.now.count + length self.now.mirrored < 2 ^ 32 }
        ensures { result ≡ slice_index (table_of self.now) v }
    {
        // Both are at hand before it is known which counts: a guess would be wrong too often.
        let before = self.mirrored.rank(v);
        if is_hosted(self.first, self.count, v) {
            v - self.first
        } else {
            self.count + before
        }
    }

    /// The vertices of the mirrors, rising.
    pub(crate) fn mirrors(&self, alloc: Global) -> Result<Vec<u32>, AllocError>
        ensures { IfOk result (λ mirrors. mirrors.items ≡ members self.now.mirrored) }
    {
        let mirrored = self.mirrored.bits();
        let nodes = mirrored.len();
        let mut mirrors = Vec::with_capacity(alloc, mirrored.count() as usize)?;
        let mut from = 0;
        while let Some(v) = mirrored.next_from(from) {
            prove!(v < nodes);
            mirrors.push(v)?;
            from = v + 1;
        }
        Ok(mirrors)
    }
}
