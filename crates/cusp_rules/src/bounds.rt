//! Where the vertices of each host begin.
ghost use Rattle.std.specs.Prelude.{◌≡◌, ℕ, ◌/◌, ◌<◌, ◌≤◌, ◌↔◌, length, vec_len, slice_index, IfOk};
ghost use Rattle.cusp_rules.specs.Hosts.{IsHostCount};
ghost use Rattle.cusp_rules.specs.Formulas.{IsStarts, vertices_of, masters_of};
ghost use Rattle.cusp_rules.specs.Blocks.{block_of, quotient_of};
ghost use Rattle.cusp_rules.specs.Bounds.{IsBounds, assignment_of};

use crate::master_rule::MasterRule;
use std::alloc::{AllocError, Global};

// How much each block holds.
fn block(rule: MasterRule, hosts: u16, starts: &[u32]) -> u32
    requires hosts { IsHostCount hosts }
    requires starts { IsStarts starts.now }
    ensures { result ≡ block_of rule hosts starts.now }
{
    let nodes = starts.len() - 1;
    let whole = match rule {
        MasterRule::Edges => starts[nodes],
        MasterRule::Nodes => nodes as u32,
    };
    whole.div_ceil(u32::from(hosts)).max(1)
}

// The first vertex that is in block `host` or a later one.
fn first_from(rule: MasterRule, block: u32, host: u32, starts: &[u32]) -> u32
    requires block { 0 < block }
    requires starts { IsStarts starts.now }
    ensures within { result ≤ vertices_of starts.now }
    ensures first { (v : ℕ) → v < vertices_of starts.now → (result ≤ v) ↔ (host ≤ quotient_of rule block starts.now v) }
{
    let nodes = starts.len() - 1;
    match rule {
        MasterRule::Edges => starts[..nodes].partition_point(|first| *first / block < host) as u32,
        // Where the product does not fit, it is past every vertex.
        MasterRule::Nodes => (nodes as u32).min(host.saturating_mul(block)),
    }
}

/// Where the vertices of each host begin, and the number of vertices: the rule's masters, as bounds.
pub fn bounds_by(
    alloc: Global,
    rule: MasterRule,
    hosts: u16,
    starts: &[u32],
) -> Result<Vec<u32>, AllocError>
    requires hosts { IsHostCount hosts }
    requires starts { IsStarts starts.now }
    ensures bounds { IfOk result (λ bounds. IsBounds bounds.items) }
    ensures masters { IfOk result (λ bounds. assignment_of bounds.items ≡ record { hosts = hosts; masters = masters_of rule hosts starts.now }) }
{
    let block = block(rule, hosts, starts);
    let mut bounds = Vec::with_capacity(alloc, usize::from(hosts) + 1)?;
    for host in 0..u32::from(hosts) {
        bounds.push(first_from(rule, block, host, starts))?;
    }
    bounds.push((starts.len() - 1) as u32)?;
    Ok(bounds)
}
