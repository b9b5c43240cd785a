//! The master of each vertex, in a table.
ghost use Rattle.std.specs.Prelude.{◌≡◌, ◌⊎◌, ◌<◌, ◌≤◌, ℕ, length, slice_index, IfOk};

use cusp_rules::Masters;
use std::alloc::{AllocError, Global};

/// Writes a host at the places from `first` up to, but not including, `end`.
fn mark(table: &mut [u8], first: u32, end: u32, host: u8)
    requires ordered { first ≤ end }
    requires within { end ≤ length table.old }
    ensures long { length table.new ≡ length table.old }
    ensures marked { (v : ℕ) → first ≤ v → v < end → slice_index table.new v ≡ host }
    ensures others { (v : ℕ) → (v < first) ⊎ (end ≤ v) → slice_index table.new v ≡ slice_index table.old v }
{
    for v in first..end {
        table[v as usize] = host;
    }
}

/// The master of each of so many vertices, a byte a vertex.
pub(crate) fn table(alloc: Global, nodes: u32, masters: &Masters) -> Result<Vec<u8>, AllocError>
    requires { nodes ≡ length masters.now.masters }
    ensures { IfOk result (λ table. table.items ≡ masters.now.masters) }
{
    let mut table = vec![in alloc; 0u8; nodes as usize]?;
    for host in 0..masters.hosts() {
        let (first, end) = masters.range(host);
        mark(&mut table, first, end, host as u8);
    }
    Ok(table)
}
