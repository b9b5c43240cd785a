//! The master of each vertex.
ghost use Rattle.std.specs.Prelude.{◌≡◌, ℕ, ◌<◌, ◌≤◌, ◌↔◌, nat_lt, length, slice_index, count_by, IfOk};

use crate::bounds::bounds_by;
use crate::master_rule::MasterRule;
use std::alloc::{AllocError, Global};
use std::marker::Model;

/// Which host is the master of each vertex. Each vertex has one, and a host's vertices lie side by
/// side. It holds where each host's vertices begin, and not a table of the vertices.
#[derive(Debug, Drop)]
pub struct Masters {
    bounds: Vec<u32>,
}

impl Model for Masters {
    ghost use Rattle.cusp_rules.specs.Assignment.{Assignment};
    ghost use Rattle.cusp_rules.specs.Bounds.{IsBounds, assignment_of};

    ghost Value = { Assignment };

    ghost view = { λ m. assignment_of m.bounds.items };

    ghost invariant = { λ m. IsBounds m.bounds.items };
}

impl Masters {
    ghost use Rattle.cusp_rules.specs.Hosts.{IsHostCount};
    ghost use Rattle.cusp_rules.specs.Assignment.{IsAssignment};
    ghost use Rattle.cusp_rules.specs.Formulas.{IsStarts, masters_of};

    /// The masters that the rule gives (CuSP, IPDPS 2019). There are 1 to 64 `hosts`. `starts` has one
    /// entry a vertex, the number of its first out-edge, and then the number of all edges: it begins
    /// with 0 and does not fall, and there are at most 268,435,456 vertices and as many edges.
    pub fn new(
        alloc: Global,
        rule: MasterRule,
        hosts: u16,
        starts: &[u32],
    ) -> Result<Masters, AllocError>
        requires hosts { IsHostCount hosts }
        requires starts { IsStarts starts.now }
        ensures { IfOk result (λ made. made ≡ record { hosts = hosts; masters = masters_of rule hosts starts.now }) }
    {
        Ok(Masters {
            bounds: bounds_by(alloc, rule, hosts, starts)?,
        })
    }

    /// The same masters once more.
    pub fn try_clone(&self, alloc: Global) -> Result<Masters, AllocError>
        ensures same { IfOk result (λ made. made ≡ self.now) }
        ensures facts { IsAssignment self.now }
    {
        Ok(Masters {
            bounds: Vec::from_slice(alloc, self.bounds.as_slice())?,
        })
    }

    /// The master of vertex `v`, which is below the number of vertices.
    pub fn master(&self, v: u32) -> u16
        requires { v < length self.now.masters }
        ensures master { result ≡ slice_index self.now.masters v }
        ensures host { result < self.now.hosts }
    {
        (self.bounds.partition_point(|bound| *bound <= v) - 1) as u16
    }

    /// The number of hosts, from 1 to 64.
    pub fn hosts(&self) -> u16
        ensures hosts { result ≡ self.now.hosts }
        ensures facts { IsAssignment self.now }
    {
        (self.bounds.len() - 1) as u16
    }

    /// The vertices whose master is host `h`, which is below the number of hosts: those from the first
    /// number up to, but not including, the second. The first is how many vertices have a lower master,
    /// and both are the same where `h` is the master of none.
    pub fn range(&self, h: u16) -> (u32, u32)
        requires { h < self.now.hosts }
        ensures first { result.0 ≡ count_by (λ master. nat_lt master h) self.now.masters }
        ensures ordered { result.0 ≤ result.1 }
        ensures within { result.1 ≤ length self.now.masters }
        ensures vertices { (v : ℕ) → v < length self.now.masters → (slice_index self.now.masters v ≡ h) ↔ ((result.0 ≤ v) × (v < result.1)) }
    {
        let h = usize::from(h);
        (self.bounds[h], self.bounds[h + 1])
    }
}
