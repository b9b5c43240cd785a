//! A host.
ghost use Rattle.std.specs.Prelude.{◌≡◌, ◌+◌, ◌⊎◌, ◌<◌, ◌≤◌, ◌↔◌, ℕ, Bool, true, false, List, length, replicate, slice_get, Some, IfOk};
ghost use Rattle.std.specs.List.{slice_index_or};
ghost use Rattle.graph_division.specs.Division.{Division};
ghost use Rattle.graph_division.specs.Shares.{seen};
ghost use Rattle.address_memo.specs.Memos.{Fits, list_at};
ghost use Rattle.field_encodings.specs.Forms.{IsForm, entries};
ghost use Rattle.field_encodings.specs.Packets.{packet_at, bytes_of_packet};
ghost use Rattle.packet_table.specs.declared.channel_spec.Leg.TheVariants.{Reduce, Spread};
ghost use Rattle.round_packets.specs.Runs.{IsRun};
ghost use Rattle.round_packets.specs.RunPackets.{reduce_packet, broadcast_packet};
ghost use Rattle.round_packets.specs.Packets as round;
ghost use Rattle.host_laws.specs.Standing.{StandsFor, IsFresh, IsDone};
ghost use Rattle.host_laws.specs.Effects.{Spreads, after_compute, after_reduce, after_spread, after_broadcast, closed};
ghost use Rattle.cluster_laws.specs.Channels.{is_needed};
ghost use Rattle.cluster_laws.specs.Cluster.{may_spread};
ghost use Rattle.cluster_laws.specs.Tally.{woken};
ghost use Rattle.host_state.specs.HostState.{IsHost};
ghost use Rattle.host_state.specs.Serving.{run_of, Serves};
ghost use Rattle.host_state.specs.Posting.{IsReady, Posts};
ghost use Rattle.host_state.specs.OwnEffects.{HasEntries, is_ready_to_spread, is_ready_to_close, NoneIsSent, ComputesOwn, TakesReduceOwn, TakesBroadcastOwn};
ghost use Rattle.host_core.specs.Calls.{StaysItself, ComputesIn, SpreadsIn, TakesReduceIn, TakesBroadcastIn};

use address_memo::{ListKind, Memo};
use arc_push::push_awake;
use field_encodings::decode;
use gluon_broadcast::receive;
use gluon_reduce::absorb;
use graph_model::Way;
use host_fields::{
    bring_over, count_needed, keep_told, settle_news, start_items, start_news, start_shown,
    start_states,
};
use list_posting::{post_broadcasts, post_reduces};
use packet_table::Channels;
use proxy_graph::LocalGraph;
use reduce_laws::{Reduction, VertexProgram};
use std::alloc::{AllocError, Global};
use std::marker::Model;
use std::mem::swap;
use update_bits::UpdateBits;

/// One host of a run: its part of the graph, its lists, and what it knows of its proxies within a round.
/// Only [`Host::new`] takes memory.
#[derive(Drop)]
pub struct Host<P: VertexProgram> {
    graph: LocalGraph,
    memo: Memo,
    program: P,
    way: Way,
    // of masters
    states: Vec<P::State>,
    // of all proxies, by local number: what they show in this round and in the next, and the sum of a
    // master or what a mirror keeps
    shown: Vec<P::Shown>,
    next: Vec<P::Shown>,
    items: Vec<<P::Red as Reduction>::Item>,
    // who is awake in this round, and in the next
    awake: UpdateBits,
    awake_next: UpdateBits,
    // masters whose sum changed since they settled or that took an entry, and mirrors whose item changed
    // since it was sent
    news: UpdateBits,
    has_computed: bool,
    has_spread: bool,
    // whose packets were taken in this round, by host, and how many are still to come
    took_reduce: Vec<bool>,
    took_broadcast: Vec<bool>,
    reduces_left: u16,
    broadcasts_left: u16,
}

impl<P: VertexProgram> Model for Host<P> {
    ghost use Rattle.std.specs.Prelude.{length};
    ghost use Rattle.graph_division.specs.Shares.{masters_here, proxies_here};
    ghost use Rattle.host_state.specs.HostState.{HostState};
    ghost use Rattle.host_core.specs.Kept.{IsKept};

    ghost Value = { HostState P P.Red.Item P.State P.Shown };

    ghost view = { λ h. record {
      graph = h.graph;
      memo = h.memo;
      way = h.way;
      view = record {
        program = h.program;
        host = h.graph.host;
        vertices = proxies_here h.graph;
        masters = length (masters_here h.graph);
        states = h.states.items;
        shown = h.shown.items;
        next = h.next.items;
        items = h.items.items;
        awake = h.awake;
        awake_next = h.awake_next;
        has_computed = h.has_computed;
        has_spread = h.has_spread;
        took_reduce = h.took_reduce.items;
        took_broadcast = h.took_broadcast.items;
      };
    } };

    ghost invariant = { λ h. IsKept P.Red.Item.IsValue P.Shown.IsValue P.IsState P.Red.reducer (P.steps h.program) (view h) h.news h.reduces_left h.broadcasts_left };
}

impl<P: VertexProgram> Host<P> {
    /// The host of this graph, with a memo that fits it for the way. Each vertex is at its start and
    /// awake, masters have the identity for their sums, and mirrors keep what the start tells them.
    pub fn new(
        alloc: Global,
        graph: LocalGraph,
        memo: Memo,
        program: P,
        way: Way,
    ) -> Result<Host<P>, AllocError>
        requires { Fits way graph memo }
        ensures graph { IfOk result (λ host. host.graph ≡ graph) }
        ensures memo { IfOk result (λ host. host.memo ≡ memo) }
        ensures way { IfOk result (λ host. host.way ≡ way) }
        ensures program { IfOk result (λ host. host.view.program ≡ program) }
        ensures facts { IfOk result (λ host. IsHost host) }
        ensures fresh { IfOk result (λ host. IsFresh (run_of P.Red.reducer (P.steps program) P.Red.Item.WIDTH P.Shown.WIDTH (seen way graph)) host.view) }
        // So it is on every divided graph that it serves.
        ensures serves { IfOk result (λ host. (division : Division) → Serves division host
            → IsFresh (run_of P.Red.reducer (P.steps program) P.Red.Item.WIDTH P.Shown.WIDTH division) host.view) }
    {
        let masters = graph.masters();
        let proxies = graph.proxies();
        let hosts = graph.hosts();
        let states = start_states(alloc, &program, &graph)?;
        let shown = start_shown(alloc, &program, &graph)?;
        let next = Vec::from_slice(alloc, shown.as_slice())?;
        let items = start_items(alloc, &program, masters, &shown)?;
        let mut awake = UpdateBits::new(alloc, proxies)?;
        awake.set_all();
        let awake_next = UpdateBits::new(alloc, proxies)?;
        let news = start_news(alloc, masters, proxies)?;
        let took_reduce = vec![in alloc; false; hosts as usize]?;
        let took_broadcast = vec![in alloc; false; hosts as usize]?;
        let reduces_left = count_needed(&memo, ListKind::ReduceFrom, hosts);
        let broadcasts_left = count_needed(&memo, ListKind::SpreadFrom, hosts);
        Ok(Host {
            graph,
            memo,
            program,
            way,
            states,
            shown,
            next,
            items,
            awake,
            awake_next,
            news,
            has_computed: false,
            has_spread: false,
            took_reduce,
            took_broadcast,
            reduces_left,
            broadcasts_left,
        })
    }

    /// Computes, once in a round: what awake proxies show goes along their arcs and is combined at the
    /// heads, and a packet is posted for each list of mirrors that are written here. Their channels have
    /// room for the form of all values, and nothing is in flight there.
    pub fn compute(&mut self, channels: &mut Channels)
        requires first { self.old.view.has_computed ≡ false }
        requires ready { IsReady Reduce self.old.view.host P.Red.Item.WIDTH self.old.memo.reduce_to channels.old }
        ensures stays { StaysItself self.old self.new }
        ensures becomes { self.new.view ≡ after_compute self.old.view self.new.view.items }
        ensures own { ComputesOwn self.old P.Red.reducer (P.steps self.old.view.program) P.Red.Item.WIDTH P.Red.Item.bytes_of self.new.view.items channels.old channels.new }
        // Where the host stands for a moment of a round, it still does, and posts the packets of that round.
        ensures serves { (division : Division) (rounds : ℕ) → Serves division self.old
            → IsRun P.Red.Item.IsValue P.Shown.IsValue P.IsState (run_of P.Red.reducer (P.steps self.old.view.program) P.Red.Item.WIDTH P.Shown.WIDTH division)
            → StandsFor (run_of P.Red.reducer (P.steps self.old.view.program) P.Red.Item.WIDTH P.Shown.WIDTH division) rounds self.old.view
            → ComputesIn P.Red.reducer (P.steps self.old.view.program) P.Red.Item.WIDTH P.Shown.WIDTH division rounds self.old self.new P.Red.Item.bytes_of channels.old channels.new }
    {
        push_awake(
            &self.program,
            &self.graph,
            self.way,
            &self.shown,
            &self.awake,
            &mut self.items,
            &mut self.news,
        );
        post_reduces::<P::Red>(
            &self.memo,
            self.graph.host(),
            self.graph.hosts(),
            &mut self.items,
            &mut self.news,
            channels,
        );
        self.has_computed = true;
    }

    /// Takes a host's reduce packet, which is well formed for the list of masters to which that host
    /// reduces: each entry is combined into the sum of its master. The list is not empty and was not taken
    /// in this round, and this host has not spread in it.
    pub fn take_reduce(&mut self, from: u16, payload: &[u8])
        requires from { from < self.old.graph.hosts }
        requires expected { is_needed (list_at self.old.memo.reduce_from from).globals ≡ true }
        requires first { slice_index_or self.old.view.took_reduce from false ≡ false }
        requires in_time { self.old.view.has_spread ≡ false }
        requires well_formed { HasEntries P.Red.Item.IsValue P.Red.Item.bytes_of (list_at self.old.memo.reduce_from from).globals payload.now }
        ensures stays { StaysItself self.old self.new }
        ensures becomes { self.new.view ≡ after_reduce from self.old.view self.new.view.items }
        ensures own { (tag : ℕ) (marks : List Bool) (values : List P.Red.Item)
            → IsForm P.Red.Item.IsValue P.Red.Item.bytes_of (list_at self.old.memo.reduce_from from).globals payload.now tag marks values
            → TakesReduceOwn self.old P.Red.reducer (list_at self.old.memo.reduce_from from) (entries tag marks values) self.new.view.items }
        // Where the host stands for a moment of a round and this is that round's packet, it still does.
        ensures serves { (division : Division) (rounds : ℕ) → Serves division self.old
            → IsRun P.Red.Item.IsValue P.Shown.IsValue P.IsState (run_of P.Red.reducer (P.steps self.old.view.program) P.Red.Item.WIDTH P.Shown.WIDTH division)
            → StandsFor (run_of P.Red.reducer (P.steps self.old.view.program) P.Red.Item.WIDTH P.Shown.WIDTH division) rounds self.old.view
            → payload.now ≡ round.bytes_of_packet P.Red.Item.WIDTH P.Red.Item.bytes_of
            (reduce_packet (run_of P.Red.reducer (P.steps self.old.view.program) P.Red.Item.WIDTH P.Shown.WIDTH division) rounds from self.old.view.host)
            → TakesReduceIn P.Red.reducer (P.steps self.old.view.program) P.Red.Item.WIDTH P.Shown.WIDTH division rounds self.old self.new from }
    {
        let list = self.memo.list(ListKind::ReduceFrom, from);
        match decode(payload, list.globals()) {
            Ok(entries) => {
                absorb::<P::Red>(entries, list.locals(), &mut self.items, &mut self.news)
            }
            Err(_) => unreachable!(),
        }
        self.took_reduce[from as usize] = true;
        self.reduces_left -= 1;
    }

    /// Whether the host has not computed in this round.
    pub fn may_compute(&self) -> bool
        ensures { (result ≡ true) ↔ (self.now.view.has_computed ≡ false) }
    {
        !self.has_computed
    }

    /// Whether the host may spread: it has computed and not spread in this round, and has taken all reduce
    /// packets that it expects.
    pub fn may_spread(&self) -> bool
        ensures own { result ≡ is_ready_to_spread self.now }
        ensures serves { (division : Division) → Serves division self.now → result ≡ may_spread division self.now.view }
    {
        self.has_computed && !self.has_spread && self.reduces_left == 0
    }

    /// Spreads, where the host may: masters settle with their sums, and a packet is posted for each list
    /// of masters that are read elsewhere, of which those are updated that show something new. Their
    /// channels have room for the form of all values, and nothing is in flight there.
    pub fn spread(&mut self, channels: &mut Channels)
        requires may { is_ready_to_spread self.old ≡ true }
        requires ready { IsReady Spread self.old.view.host P.Shown.WIDTH self.old.memo.spread_to channels.old }
        ensures stays { StaysItself self.old self.new }
        ensures becomes { self.new.view ≡ after_spread self.old.view self.new.view.states self.new.view.next self.new.view.items self.new.view.awake_next }
        ensures own { Spreads (run_of P.Red.reducer (P.steps self.old.view.program) P.Red.Item.WIDTH P.Shown.WIDTH (seen self.old.way self.old.graph)) self.old.view
            self.new.view.states self.new.view.next self.new.view.items self.new.view.awake_next }
        ensures posts { Posts Spread self.old.view.host self.old.memo.spread_to
            (λ to. bytes_of_packet P.Shown.WIDTH P.Shown.bytes_of (packet_at self.new.view.next (list_at self.old.memo.spread_to to).locals (list_at self.old.memo.spread_to to).globals self.new.view.awake_next))
            channels.old channels.new }
        // Where the host stands for a moment of a round, it still does, and posts the packets of that round.
        ensures serves { (division : Division) (rounds : ℕ) → Serves division self.old
            → IsRun P.Red.Item.IsValue P.Shown.IsValue P.IsState (run_of P.Red.reducer (P.steps self.old.view.program) P.Red.Item.WIDTH P.Shown.WIDTH division)
            → StandsFor (run_of P.Red.reducer (P.steps self.old.view.program) P.Red.Item.WIDTH P.Shown.WIDTH division) rounds self.old.view
            → SpreadsIn P.Red.reducer (P.steps self.old.view.program) P.Red.Item.WIDTH P.Shown.WIDTH division rounds self.old self.new P.Shown.bytes_of channels.old channels.new }
    {
        settle_news(
            &self.program,
            self.graph.masters(),
            &self.shown,
            &mut self.states,
            &mut self.items,
            &mut self.next,
            &mut self.news,
            &mut self.awake_next,
        );
        post_broadcasts(
            &self.memo,
            self.graph.host(),
            self.graph.hosts(),
            &self.next,
            &self.awake_next,
            channels,
        );
        self.has_spread = true;
    }

    /// Takes a host's broadcast packet, which is well formed for the list of mirrors of that host's masters
    /// that are read here: each entry's value is what its mirror shows in the next round. The list is not
    /// empty and was not taken in this round. This host has computed in it, or none of the list's mirrors
    /// is written here.
    pub fn take_broadcast(&mut self, from: u16, payload: &[u8])
        requires from { from < self.old.graph.hosts }
        requires expected { is_needed (list_at self.old.memo.spread_from from).globals ≡ true }
        requires first { slice_index_or self.old.view.took_broadcast from false ≡ false }
        requires in_time { (self.old.view.has_computed ≡ true) ⊎ NoneIsSent self.old from }
        requires well_formed { HasEntries P.Shown.IsValue P.Shown.bytes_of (list_at self.old.memo.spread_from from).globals payload.now }
        ensures stays { StaysItself self.old self.new }
        ensures becomes { self.new.view ≡ after_broadcast from self.old.view self.new.view.next self.new.view.items self.new.view.awake_next }
        ensures own { (tag : ℕ) (marks : List Bool) (values : List P.Shown)
            → IsForm P.Shown.IsValue P.Shown.bytes_of (list_at self.old.memo.spread_from from).globals payload.now tag marks values
            → TakesBroadcastOwn self.old P.Red.reducer (P.steps self.old.view.program) P.Shown.eq (list_at self.old.memo.spread_from from) (entries tag marks values)
            self.new.view.next self.new.view.items self.new.view.awake_next }
        // Where the host stands for a moment of a round and this is that round's packet, it still does,
        // whether it has computed or not.
        ensures serves { (division : Division) (rounds : ℕ) → Serves division self.old
            → IsRun P.Red.Item.IsValue P.Shown.IsValue P.IsState (run_of P.Red.reducer (P.steps self.old.view.program) P.Red.Item.WIDTH P.Shown.WIDTH division)
            → StandsFor (run_of P.Red.reducer (P.steps self.old.view.program) P.Red.Item.WIDTH P.Shown.WIDTH division) rounds self.old.view
            → payload.now ≡ round.bytes_of_packet P.Shown.WIDTH P.Shown.bytes_of
            (broadcast_packet (run_of P.Red.reducer (P.steps self.old.view.program) P.Red.Item.WIDTH P.Shown.WIDTH division) rounds from self.old.view.host)
            → TakesBroadcastIn P.Red.reducer (P.steps self.old.view.program) P.Red.Item.WIDTH P.Shown.WIDTH division rounds self.old self.new from }
    {
        let list = self.memo.list(ListKind::SpreadFrom, from);
        match decode(payload, list.globals()) {
            Ok(entries) => receive(
                entries,
                list.locals(),
                &self.shown,
                &mut self.next,
                &mut self.awake_next,
            ),
            Err(_) => unreachable!(),
        }
        if P::Red::KEEPS {
            match decode(payload, list.globals()) {
                Ok(entries) => keep_told(&self.program, entries, list.locals(), &mut self.items),
                Err(_) => unreachable!(),
            }
        }
        self.took_broadcast[from as usize] = true;
        self.broadcasts_left -= 1;
    }

    /// Whether the host has done all of this round: it has computed and spread, and has taken all packets
    /// that it expects.
    pub fn may_close(&self) -> bool
        ensures { result ≡ is_ready_to_close self.now }
    {
        self.has_computed && self.has_spread && self.reduces_left == 0 && self.broadcasts_left == 0
    }

    /// Begins the next round, where the host may: what proxies were to show is what they show. Gives the
    /// number of masters that show something new.
    pub fn close(&mut self) -> u64
        requires { is_ready_to_close self.old ≡ true }
        ensures stays { StaysItself self.old self.new }
        ensures closed { self.new.view ≡ closed self.old.view }
        ensures woken { result ≡ woken self.old.view }
        // Where the host stands for a moment of a round, it then stands for the start of the next.
        ensures serves { (division : Division) (rounds : ℕ) → Serves division self.old
            → IsRun P.Red.Item.IsValue P.Shown.IsValue P.IsState (run_of P.Red.reducer (P.steps self.old.view.program) P.Red.Item.WIDTH P.Shown.WIDTH division)
            → StandsFor (run_of P.Red.reducer (P.steps self.old.view.program) P.Red.Item.WIDTH P.Shown.WIDTH division) rounds self.old.view
            → StandsFor (run_of P.Red.reducer (P.steps self.old.view.program) P.Red.Item.WIDTH P.Shown.WIDTH division) (rounds + 1) self.new.view }
    {
        let masters = self.graph.masters();
        let woken = bring_over(masters, &self.awake_next, &self.next, &mut self.shown);
        swap(&mut self.awake, &mut self.awake_next);
        self.awake_next.clear_all();
        self.has_computed = false;
        self.has_spread = false;
        self.took_reduce.fill(false);
        self.took_broadcast.fill(false);
        let hosts = self.graph.hosts();
        self.reduces_left = count_needed(&self.memo, ListKind::ReduceFrom, hosts);
        self.broadcasts_left = count_needed(&self.memo, ListKind::SpreadFrom, hosts);
        woken
    }

    /// The state of the master with this local number, which is below the number of masters.
    pub fn state(&self, lid: u32) -> P::State
        requires { lid < self.now.view.masters }
        ensures state { slice_get self.now.view.states lid ≡ Some result }
        ensures facts { IsHost self.now }
    {
        self.states[lid as usize]
    }

    /// The host's part of the graph.
    pub fn graph(&self) -> &LocalGraph
        ensures graph { result.now ≡ self.now.graph }
        ensures facts { IsHost self.now }
    {
        &self.graph
    }
}
