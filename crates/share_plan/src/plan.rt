//! What tells the host of each vertex and of each edge.
ghost use Rattle.std.specs.Prelude.{◌≡◌, ◌<◌, ◌≤◌, ◌==◌, nat_lt, length, map, slice_index, count_by, All, IfOk, IsTrue};
ghost use Rattle.std.specs.List.{filter};

use crate::starts::starts;
use crate::table::table;
use cusp_rules::Masters;
use edge_owner::{OwnerRule, Rules, owner};
use graph_model::{Edge, EdgeList};
use std::alloc::{AllocError, Global};
use std::marker::Model;

/// Tells the master of each vertex of a graph and the owner of each edge.
#[derive(Debug, Drop)]
pub struct SharePlan {
    rule: OwnerRule,
    masters: Masters,
    /// The master of each vertex once more, where one look tells it.
    table: Vec<u8>,
    starts: Vec<u32>,
}

impl Model for SharePlan {
    ghost use Rattle.std.specs.Prelude.{◌≡◌, ◌+◌, length};
    ghost use Rattle.cusp_rules.specs.Formulas.{IsStarts};
    ghost use Rattle.share_plan.specs.Plan.{Plan};

    ghost Value = { Plan };

    ghost view = { λ plan. record { rule = plan.rule; hosts = plan.masters.hosts; masters = plan.masters.masters; starts = plan.starts.items } };

    ghost invariant = { λ plan. IsStarts plan.starts.items × (length plan.starts.items ≡ length plan.masters.masters + 1) × (plan.table.items ≡ plan.masters.masters) };
}

impl SharePlan {
    ghost use Rattle.graph_model.specs.Graph.{IsWithin};
    ghost use Rattle.share_plan.specs.Owners.{owner_at};
    ghost use Rattle.cusp_rules.specs.Hosts.{IsHostCount};
    ghost use Rattle.share_plan.specs.Plan.{Plan, owner_by, plan_of, sources_own};
    ghost use Rattle.edge_columns.specs.Starts.{starts_of};

    /// The plan of a graph by these rules, for 1 to 64 hosts. It takes time in proportion to vertices and
    /// edges together.
    pub fn new(
        alloc: Global,
        rules: Rules,
        hosts: u16,
        list: &EdgeList,
    ) -> Result<SharePlan, AllocError>
        requires { IsHostCount hosts }
        ensures plan { IfOk result (λ plan. plan ≡ plan_of rules hosts list.now) }
        ensures vertices { IfOk result (λ plan. length plan.masters ≡ list.now.nodes) }
        ensures owners { IfOk result (λ plan.
            All (λ edge. owner_by plan edge ≡ owner_at rules hosts list.now edge) list.now.edges) }
    {
        let starts = starts(alloc, list.nodes(), list.edges())?;
        let masters = Masters::new(alloc, rules.masters, hosts, &starts)?;
        let table = table(alloc, list.nodes(), &masters)?;
        Ok(SharePlan {
            rule: rules.owner,
            masters,
            table,
            starts,
        })
    }

    /// The masters of the vertices.
    pub fn masters(&self) -> &Masters
        ensures hosts { result.now.hosts ≡ self.now.hosts }
        ensures masters { result.now.masters ≡ self.now.masters }
    {
        &self.masters
    }

    /// The host that owns an edge between vertices of the graph.
    pub fn owner(&self, edge: Edge) -> u16
        requires { IsWithin (length self.now.masters) edge }
        ensures owner { result ≡ owner_by self.now edge }
        ensures host { result < self.now.hosts }
        ensures few_hosts { self.now.hosts ≤ 64 }
    {
        let first = self.starts[edge.src as usize];
        let end = self.starts[edge.src as usize + 1];
        owner(
            self.rule,
            self.masters.hosts(),
            u16::from(self.table[edge.src as usize]),
            u16::from(self.table[edge.dst as usize]),
            end - first,
        )
    }

    /// The host that owns each of these edges between vertices of the graph.
    pub fn owners(&self, alloc: Global, edges: &[Edge]) -> Result<Vec<u8>, AllocError>
        requires { All (IsWithin (length self.now.masters)) edges.now }
        ensures owners { IfOk result (λ owners. owners.items ≡ map (owner_by self.now) edges.now) }
        ensures hosts { IfOk result (λ owners. All (λ owner. owner < self.now.hosts) owners.items) }
    {
        let mut owners = Vec::with_capacity(alloc, edges.len())?;
        for edge in edges {
            owners.push(self.owner(*edge) as u8)?;
        }
        Ok(owners)
    }

    /// Whether each edge is with the master of its source, as where there is one host.
    pub fn sources_own(&self) -> bool
        ensures value { result ≡ sources_own self.now }
        ensures owners { IsTrue result → (edge : Edge) → IsWithin (length self.now.masters) edge
            → owner_by self.now edge ≡ slice_index self.now.masters edge.src }
    {
        self.rule == OwnerRule::Source || self.masters.hosts() == 1
    }

    /// The edges whose source has this master, of the list that the plan was made of. They lie side by side.
    pub fn edges_from<'a>(&self, list: &'a EdgeList, host: u16) -> &'a [Edge]
        requires host { host < self.now.hosts }
        requires list { self.now.starts ≡ starts_of list.now }
        ensures { result.now ≡ filter (λ edge. slice_index self.now.masters edge.src == host) list.now.edges }
    {
        let (first, end) = self.masters.range(host);
        let from = self.starts[first as usize] as usize;
        let to = self.starts[end as usize] as usize;
        &list.edges()[from..to]
    }

    /// Where the edges begin whose source has this master, in the list that the plan was made of: before
    /// them stand the edges whose sources have a lower master.
    pub fn place_from(&self, host: u16) -> usize
        requires { host < self.now.hosts }
        ensures { result ≡ slice_index self.now.starts (count_by (λ master. nat_lt master host) self.now.masters) }
    {
        let (first, _) = self.masters.range(host);
        self.starts[first as usize] as usize
    }
}
