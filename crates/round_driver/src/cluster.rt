//! A cluster of hosts.
ghost use Rattle.std.specs.Prelude.{◌≡◌, ℕ, IfOk, map, All};
ghost use Rattle.graph_division.specs.Partition.{IsPartition};
ghost use Rattle.address_memo.specs.Memos.{Agree};
ghost use Rattle.round_driver.specs.ClusterState.{IsCluster, StandsNow, shares_of, memos_of};

use crate::channel_specs::channel_specs;
use crate::hosting::make_hosts;
use address_memo::Memo;
use graph_model::Way;
use host_core::Host;
use packet_table::Channels;
use proxy_graph::LocalGraph;
use reduce_laws::{Reduction, VertexProgram};
use std::alloc::{AllocError, Global};
use std::marker::Model;

/// The hosts of a run, by number, and the channels between them.
#[derive(Drop)]
pub struct Cluster<P: VertexProgram> {
    pub(crate) program: P,
    pub(crate) way: Way,
    pub(crate) round: u64,
    pub(crate) hosts: Vec<Host<P>>,
    pub(crate) channels: Channels,
}

impl<P: VertexProgram> Model for Cluster<P> {
    ghost use Rattle.round_driver.specs.ClusterState.{ClusterState, IsCluster};

    ghost Value = { ClusterState P P.Red.Item P.State P.Shown };

    ghost view = { λ c. record {
      program = c.program;
      way = c.way;
      round = c.round;
      hosts = c.hosts.items;
      table = c.channels;
    } };

    ghost invariant = { λ c. IsCluster P.Red.Item.WIDTH P.Shown.WIDTH (view c) };
}

impl<P: VertexProgram> Cluster<P> {
    /// The cluster of a partition's local graphs and their memos for this way, by host, before its first
    /// round. All memory of a run is taken here.
    pub fn new(
        alloc: Global,
        graphs: Vec<LocalGraph>,
        memos: Vec<Memo>,
        program: P,
        way: Way,
    ) -> Result<Cluster<P>, AllocError>
        requires partition { IsPartition graphs.items }
        requires agree { Agree way graphs.items memos.items }
        ensures graphs { IfOk result (λ cluster. shares_of cluster ≡ graphs.items) }
        ensures memos { IfOk result (λ cluster. memos_of cluster ≡ memos.items) }
        ensures program { IfOk result (λ cluster. cluster.program ≡ program) }
        ensures way { IfOk result (λ cluster. cluster.way ≡ way) }
        ensures round { IfOk result (λ cluster. cluster.round ≡ 0) }
        // It stands for the moment before the first round.
        ensures stands { IfOk result (λ cluster. StandsNow P.Red.reducer (P.steps program) P.Red.Item.WIDTH P.Shown.WIDTH P.Red.Item.bytes_of P.Shown.bytes_of cluster) }
    {
        let specs = channel_specs::<<P::Red as Reduction>::Item, P::Shown>(alloc, &memos)?;
        let channels = Channels::new(alloc, specs)?;
        let hosts = make_hosts(alloc, graphs, memos, program, way)?;
        Ok(Cluster {
            program,
            way,
            round: 0,
            hosts,
            channels,
        })
    }

    /// The hosts, by number.
    pub fn hosts(&self) -> &[Host<P>]
        ensures hosts { result.now ≡ self.now.hosts }
        ensures facts { IsCluster P.Red.Item.WIDTH P.Shown.WIDTH self.now }
    {
        &self.hosts
    }

    /// The channels between hosts, with what was last posted on them.
    pub fn channels(&self) -> &Channels
        ensures channels { result.now ≡ self.now.table }
        ensures facts { IsCluster P.Red.Item.WIDTH P.Shown.WIDTH self.now }
    {
        &self.channels
    }

    /// How many rounds were run.
    pub fn round(&self) -> u64
        ensures { result ≡ self.now.round }
    {
        self.round
    }

    /// The program that the cluster was made with.
    pub fn program(&self) -> P
        ensures { result ≡ self.now.program }
    {
        self.program
    }
}
