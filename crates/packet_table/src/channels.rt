//! The table of channels.
ghost use Rattle.std.specs.Prelude.{◌≡◌, ℕ, ◌<◌, ◌≤◌, ◌^◌, List, length, sum, false, IfOk, IfSome, IfNone, vec_len, slice_get, slice_index};
ghost use Rattle.std.specs.List.Sorted.{IsStrictlyIncreasing};
ghost use Rattle.std.specs.Borrow.{sem};
ghost use Rattle.list_laws.specs.Members.{has_member, members, count_of, IsMember};

use crate::channel_spec::{ChannelSpec, Leg};
use crate::layout::lay_out;
use crate::search::find_channel;
use std::alloc::{AllocError, Global};
use std::marker::Model;
use update_bits::UpdateBits;

/// The channels between hosts, each with a buffer of its own. A channel's number is its place in the
/// order by leg, sender and receiver.
#[derive(Drop)]
pub struct Channels {
    specs: Vec<ChannelSpec>,
    // where each channel's buffer starts in the block
    starts: Vec<usize>,
    // how long each channel's payload is
    lengths: Vec<u64>,
    // all buffers, one behind the other
    block: Vec<u8>,
    // which channels are in flight, and how many
    flying: UpdateBits,
    flying_count: u32,
}

impl Model for Channels {
    ghost use Rattle.packet_table.specs.Table.{Table};
    ghost use Rattle.packet_table.specs.Block.{table_of, IsLaidOut};

    ghost Value = { Table };

    ghost view = { λ c. table_of c.specs.items c.flying c.lengths.items c.block.items };

    ghost invariant = { λ c. IsLaidOut c.specs.items c.starts.items c.lengths.items c.block.items c.flying c.flying_count };
}

impl Channels {
    ghost use Rattle.packet_table.specs.Order.{Rise, IsChannelAt, HasNoChannel};
    ghost use Rattle.packet_table.specs.Table.{Table, IsTable, rooms_of, payload_of, fresh, posted, taken, with_buffer, written};
    ghost use Rattle.packet_table.specs.Lending.{LendsBuffer};

    /// The channels of these specs, which rise strictly by leg (Reduce first), sender and receiver.
    /// Nothing is in flight and each payload is empty. This is the one call that takes memory.
    pub fn new(alloc: Global, specs: Vec<ChannelSpec>) -> Result<Channels, AllocError>
        requires rise { Rise specs.items }
        requires few { vec_len specs < 2 ^ 32 }
        requires room { sum (rooms_of specs.items) < 2 ^ 63 }
        ensures { IfOk result (λ channels. channels ≡ fresh specs.items) }
    {
        let layout = lay_out(alloc, &specs)?;
        let block = vec![in alloc; 0u8; layout.len]?;
        let lengths = vec![in alloc; 0u64; specs.len()]?;
        let flying = UpdateBits::new(alloc, specs.len() as u32)?;
        Ok(Channels {
            specs,
            starts: layout.starts,
            lengths,
            block,
            flying,
            flying_count: 0,
        })
    }

    /// How many channels there are: their numbers are those below it.
    pub fn count(&self) -> u32
        ensures count { result ≡ length self.now.specs }
        ensures facts { IsTable self.now }
    {
        self.specs.len() as u32
    }

    /// What the channel of this number is.
    pub fn spec(&self, id: u32) -> ChannelSpec
        requires { id < length self.now.specs }
        ensures { slice_get self.now.specs id ≡ Some result }
    {
        self.specs[id as usize]
    }

    /// The number of the channel for packets of this leg from one host to another, and None exactly
    /// where there is no such channel.
    pub fn find(&self, leg: Leg, from: u16, to: u16) -> Option<u32>
        ensures found { IfSome result (λ id. IsChannelAt self.now.specs id leg from to) }
        ensures absent { IfNone result (HasNoChannel self.now.specs leg from to) }
    {
        find_channel(&self.specs, leg, from, to)
    }

    /// The channel's whole buffer, to be written; the channel is not in flight. What it has at the places
    /// of the channel's payload is that payload from then on.
    pub fn buffer(&mut self, id: u32) -> &mut [u8]
        requires known { id < length self.old.specs }
        requires resting { has_member self.old.flying id ≡ false }
        ensures* writes_back { sem 𝓛 (LendsBuffer self.entry id result) }
        ensures value { slice_get self.old.buffers id ≡ Some result.now }
        ensures room { length result.now ≡ slice_index (rooms_of self.old.specs) id }
        // A slice keeps its length, so what is written back is this one buffer.
        ensures others_stay { (bytes : List ℕ) → length bytes ≡ length result.now
            → written self.old id bytes ≡ with_buffer self.old id bytes }
    {
        let start = self.starts[id as usize];
        let end = start + self.specs[id as usize].room as usize;
        self.block.slice_mut(start..end)
    }

    /// Puts the first `len` bytes of the channel's buffer in flight as its payload. The channel is not in
    /// flight, and its room is at least `len`.
    pub fn post(&mut self, id: u32, len: u64)
        requires known { id < length self.old.specs }
        requires resting { has_member self.old.flying id ≡ false }
        requires fits { len ≤ slice_index (rooms_of self.old.specs) id }
        ensures { self.new ≡ posted self.old id len }
    {
        self.lengths[id as usize] = len;
        self.flying.set(id);
        self.flying_count += 1;
    }

    /// How many channels are in flight.
    pub fn flying_count(&self) -> u32
        ensures count { result ≡ count_of self.now.flying }
        ensures rising { IsStrictlyIncreasing (members self.now.flying) }
    {
        self.flying_count
    }

    /// The channel at this place among those in flight, by rising number. The place is below their count.
    pub fn flying(&self, place: u32) -> u32
        requires { place < count_of self.now.flying }
        ensures channel { slice_get (members self.now.flying) place ≡ Some result }
        ensures flies { IsMember self.now.flying result }
        ensures known { result < length self.now.specs }
    {
        self.flying.nth(place)
    }

    /// Takes the channel at this place among those in flight out of flight, and gives its number. Its
    /// payload stays.
    pub fn take(&mut self, place: u32) -> u32
        requires { place < count_of self.old.flying }
        ensures channel { slice_get (members self.old.flying) place ≡ Some result }
        ensures flew { IsMember self.old.flying result }
        ensures known { result < length self.old.specs }
        ensures taken { self.new ≡ taken self.old result }
    {
        let id = self.flying.nth(place);
        self.flying.clear(id);
        self.flying_count -= 1;
        id
    }

    /// What was last posted on the channel, and nothing before; where its buffer was lent since, the bytes
    /// that it now has at those places.
    pub fn payload(&self, id: u32) -> &[u8]
        requires { id < length self.now.specs }
        ensures payload { result.now ≡ payload_of self.now id }
        ensures len { length result.now ≡ slice_index self.now.lengths id }
    {
        let start = self.starts[id as usize];
        let end = start + self.lengths[id as usize] as usize;
        &self.block[start..end]
    }
}
