//! One host's local graph.
ghost use Rattle.std.specs.Prelude.{◌≡◌, ℕ, ◌+◌, ◌<◌, ◌≤◌, false, [], length, slice_get, slice_index, All, IfOk, IfSome, MatchOption, Some};
ghost use Rattle.std.specs.List.{slice_index_or};
ghost use Rattle.list_laws.specs.Among.{is_among};
ghost use Rattle.graph_model.specs.Graph.{most_nodes, most_edges, IsWithin};
ghost use Rattle.graph_model.specs.declared.edge.Way.TheVariants.{Outward, Inward};
ghost use Rattle.graph_division.specs.Lists.{is_readable, is_writable};
ghost use Rattle.graph_division.specs.Shares.{Share, IsShare, nodes_of, in_file_order, seen, masters_here, proxies_here};
ghost use Rattle.proxy_graph.specs.Heads.{vertex_at, heads_from};
ghost use Rattle.proxy_graph.specs.Drafts.{IsDraft, IsDraftOf};
ghost use Rattle.proxy_graph.specs.Search.{TellsInArcs};

use crate::arc_view::ArcView;
use crate::arcs::Arcs;
use crate::columns::Columns;
use crate::draft::Draft;
use crate::in_arcs::InArcs;
use crate::run::Run;
use crate::sorting::by_tail;
use cusp_rules::Masters;
use edge_columns::EdgeColumns;
use graph_model::{Edge, Way};
use std::alloc::{AllocError, Global};
use std::marker::Model;

/// One host's part of a divided graph: the host's edges, and a proxy for each vertex whose master is
/// here or that is an end of one of these edges. Proxies have local numbers: masters first, then
/// mirrors, each by rising global number.
#[derive(Drop)]
pub struct LocalGraph {
    host: u16,
    nodes: u32,
    masters: Masters,
    /// The first vertex whose master is here, and how many there are: they lie side by side.
    first: u32,
    count: u32,
    /// The vertices of the mirrors, rising.
    mirrors: Vec<u32>,
    /// The arcs out of each proxy, and those into it.
    out: Arcs,
    back: InArcs,
}

impl Model for LocalGraph {
    ghost use Rattle.graph_division.specs.Shares.{Share};

    ghost Value = { Share };

    ghost use Rattle.proxy_graph.specs.Kept.{share_of, IsKept};

    ghost view = { share_of };

    ghost invariant = { IsKept };
}

impl LocalGraph {
    /// The local graph of a host, which is below the number of hosts, with these edges, whose ends are
    /// below `nodes`, the number of vertices that have masters. There are at most 16,777,216 vertices and
    /// at most 67,108,864 edges. Edges are kept by source; those of one source stay in their order. Arcs are
    /// laid for each way.
    pub fn assemble(
        alloc: Global,
        host: u16,
        masters: &Masters,
        nodes: u32,
        edges: &[Edge],
    ) -> Result<LocalGraph, AllocError>
        requires host { host < masters.now.hosts }
        requires nodes { nodes ≡ length masters.now.masters }
        requires few_nodes { nodes ≤ most_nodes }
        requires few_edges { length edges.now ≤ most_edges }
        requires within { All (IsWithin nodes) edges.now }
        ensures { IfOk result (λ graph. graph ≡ record { host = host; hosts = masters.now.hosts; masters = masters.now.masters; edges = in_file_order nodes edges.now }) }
    {
        LocalGraph::assemble_for(alloc, Way::Both, host, masters, nodes, edges)
    }

    /// The same, where arcs are laid for one way: a run that follows edges in this way finds the arcs of a
    /// proxy side by side, and memory is taken for no others. Arcs that are not laid are found by search.
    pub fn assemble_for(
        alloc: Global,
        way: Way,
        host: u16,
        masters: &Masters,
        nodes: u32,
        edges: &[Edge],
    ) -> Result<LocalGraph, AllocError>
        requires host { host < masters.now.hosts }
        requires nodes { nodes ≡ length masters.now.masters }
        requires few_nodes { nodes ≤ most_nodes }
        requires few_edges { length edges.now ≤ most_edges }
        requires within { All (IsWithin nodes) edges.now }
        ensures { IfOk result (λ graph. graph ≡ record { host = host; hosts = masters.now.hosts; masters = masters.now.masters; edges = in_file_order nodes edges.now }) }
    {
        let draft = Draft::new(alloc, host, masters, nodes, edges)?;
        LocalGraph::of_draft(alloc, way, draft)
    }

    /// The local graph of the one host there is, with all edges of a graph whose nodes are the vertices that
    /// have masters, laid for this way. Each vertex is a master, and its local number is its own, so the
    /// columns are kept as they stand.
    pub fn of_columns(
        alloc: Global,
        way: Way,
        masters: &Masters,
        columns: EdgeColumns,
    ) -> Result<LocalGraph, AllocError>
        requires alone { masters.now.hosts ≡ 1 }
        requires nodes { columns.nodes ≡ length masters.now.masters }
        ensures { IfOk result (λ graph. graph ≡ record { host = 0; hosts = masters.now.hosts; masters = masters.now.masters; edges = columns.edges }) }
    {
        let nodes = columns.nodes();
        let masters = masters.try_clone(alloc)?;
        let back = InArcs::of_columns(alloc, way, &columns)?;
        let (starts, heads, weights) = columns.into_parts();
        Ok(LocalGraph {
            host: 0,
            nodes,
            masters,
            first: 0,
            count: nodes,
            mirrors: Vec::new(alloc),
            out: Arcs {
                starts,
                heads,
                weights,
            },
            back,
        })
    }

    /// The local graph that this is a draft of, whose arcs are laid for this way.
    fn of_draft(alloc: Global, way: Way, draft: Draft) -> Result<LocalGraph, AllocError>
        requires { IsDraft draft }
        ensures { (share : Share) → IsDraftOf share draft → IfOk result (λ graph. graph ≡ share) }
    {
        let Draft {
            host,
            nodes,
            masters,
            first,
            count,
            mirrors,
            columns,
        } = draft;
        let Columns {
            tails,
            heads,
            weights,
        } = columns;
        let proxies = count + mirrors.len() as u32;
        let back = InArcs::new(alloc, way, proxies, &heads, &tails, &weights)?;
        let out = by_tail(alloc, &tails, heads, weights)?;
        Ok(LocalGraph {
            host,
            nodes,
            masters,
            first,
            count,
            mirrors,
            out,
            back,
        })
    }

    /// The number of this host.
    pub fn host(&self) -> u16
        ensures host { result ≡ self.now.host }
        ensures facts { IsShare self.now }
    {
        self.host
    }

    /// The number of hosts, from 1 to 64.
    pub fn hosts(&self) -> u16
        ensures hosts { result ≡ self.now.hosts }
        ensures facts { IsShare self.now }
    {
        self.masters.hosts()
    }

    /// The number of vertices of the whole graph.
    pub fn nodes(&self) -> u32
        ensures nodes { result ≡ nodes_of self.now }
        ensures facts { IsShare self.now }
    {
        self.nodes
    }

    /// The number of masters on this host. They have the local numbers below it.
    pub fn masters(&self) -> u32
        ensures masters { result ≡ length (masters_here self.now) }
        ensures among { result ≤ length (proxies_here self.now) }
    {
        self.count
    }

    /// The number of proxies on this host, masters and mirrors. Local numbers are the numbers below it.
    pub fn proxies(&self) -> u32
        ensures proxies { result ≡ length (proxies_here self.now) }
        ensures few { result ≤ nodes_of self.now }
    {
        self.count + self.mirrors.len() as u32
    }

    /// The number of edges of this host.
    pub fn edges(&self) -> u32
        ensures { result ≡ length self.now.edges }
    {
        self.out.heads.len() as u32
    }

    /// The vertex of the proxy with this local number.
    pub fn global(&self, lid: u32) -> u32
        requires { lid < length (proxies_here self.now) }
        ensures vertex { slice_get (proxies_here self.now) lid ≡ Some result }
        ensures known { result < nodes_of self.now }
    {
        if lid < self.count {
            self.first + lid
        } else {
            self.mirrors[(lid - self.count) as usize]
        }
    }

    /// The host on which the vertex of the proxy with this local number has its master.
    pub fn master_of(&self, lid: u32) -> u16
        requires { lid < length (proxies_here self.now) }
        ensures master { result ≡ slice_index_or self.now.masters (vertex_at self.now lid) 0 }
        ensures host { result < self.now.hosts }
    {
        self.masters.master(self.global(lid))
    }

    /// Whether the proxy with this local number is the source of an edge of this host.
    pub fn has_out(&self, lid: u32) -> bool
        requires { lid < length (proxies_here self.now) }
        ensures { result ≡ is_readable (seen Outward self.now) self.now.host (vertex_at self.now lid) }
    {
        self.out.has(lid)
    }

    /// Whether the proxy with this local number is the destination of an edge of this host.
    pub fn has_in(&self, lid: u32) -> bool
        requires { lid < length (proxies_here self.now) }
        ensures { result ≡ is_writable (seen Outward self.now) self.now.host (vertex_at self.now lid) }
    {
        match &self.back {
            InArcs::Laid(arcs) => arcs.has(lid),
            InArcs::Unlaid(heads) => heads.test(lid),
        }
    }

    /// The local number of the vertex `gid`, and None exactly where it has no proxy on this host.
    pub fn local(&self, gid: u32) -> Option<u32>
        ensures { MatchOption result (is_among (proxies_here self.now) gid ≡ false) (λ lid. slice_get (proxies_here self.now) lid ≡ Some gid) }
    {
        if gid >= self.first && gid - self.first < self.count {
            return Some(gid - self.first);
        }
        match self.mirrors.binary_search(&gid) {
            Ok(place) => Some(self.count + place as u32),
            Err(_) => None,
        }
    }

    /// Whether the proxy with this local number is the tail of an arc of this host, where edges are
    /// followed in this way.
    pub fn readable(&self, way: Way, lid: u32) -> bool
        requires { lid < length (proxies_here self.now) }
        ensures { result ≡ is_readable (seen way self.now) self.now.host (vertex_at self.now lid) }
    {
        match way {
            Way::Outward => self.has_out(lid),
            Way::Inward => self.has_in(lid),
            Way::Both => self.has_out(lid) || self.has_in(lid),
        }
    }

    /// Whether the proxy with this local number is the head of an arc of this host, where edges are
    /// followed in this way.
    pub fn writable(&self, way: Way, lid: u32) -> bool
        requires { lid < length (proxies_here self.now) }
        ensures { result ≡ is_writable (seen way self.now) self.now.host (vertex_at self.now lid) }
    {
        match way {
            Way::Outward => self.has_in(lid),
            Way::Inward => self.has_out(lid),
            Way::Both => self.has_in(lid) || self.has_out(lid),
        }
    }

    /// The arcs of this host, where edges are followed in this way.
    pub fn arcs<'a>(&'a self, way: Way) -> ArcView<'a>
        ensures way { result.way ≡ way }
        ensures share { result.share ≡ self.now }
    {
        ArcView::new(self, way)
    }

    /// The out-arcs of a proxy.
    pub(crate) fn out_run<'a>(&'a self, tail: u32) -> Run<'a>
        requires { tail < length (proxies_here self.now) }
        ensures { result ≡ heads_from Outward self.now tail }
    {
        self.out.of(tail)
    }

    /// The in-arcs of a proxy, where they are laid.
    pub(crate) fn in_run<'a>(&'a self, tail: u32) -> Option<Run<'a>>
        requires { tail < length (proxies_here self.now) }
        ensures { IfSome result (λ run. run ≡ heads_from Inward self.now tail) }
    {
        match &self.back {
            InArcs::Laid(arcs) => Some(arcs.of(tail)),
            InArcs::Unlaid(_) => None,
        }
    }

    /// The out-arcs of the vertex `gid` and its local number, and None where it has no proxy on this host.
    pub(crate) fn run_from<'a>(&'a self, gid: u32) -> Option<(u32, Run<'a>)>
        ensures { TellsInArcs self.now gid result }
    {
        let out = &self.out;
        let tail = self.local(gid)?;
        Some((tail, out.of(tail)))
    }

    /// No arcs.
    pub(crate) fn no_run<'a>(&'a self) -> Run<'a>
        ensures { result ≡ [] }
    {
        self.out.none()
    }
}
