//! What a channel is: its leg, its two hosts and its room.
ghost use Rattle.std.specs.Prelude.{◌≡◌};
ghost use Rattle.packet_table.specs.Order.{leg_place, IsOrder};

use std::cmp::Ordering;

/// The two legs of a round.
#[derive(Clone, Copy, PartialEq, Eq, Debug)]
pub enum Leg {
    /// From mirrors to their masters.
    Reduce,
    /// From masters to their mirrors.
    Spread,
}

impl Leg {
    // Reduce comes before Spread.
    fn place(self) -> u8
        ensures { result ≡ leg_place self }
    {
        match self {
            Leg::Reduce => 0,
            Leg::Spread => 1,
        }
    }
}

/// A channel: packets of one leg from one host to another.
#[derive(Clone, Copy, PartialEq, Eq, Debug)]
pub struct ChannelSpec {
    /// The leg of its packets.
    pub leg: Leg,
    /// The host that sends.
    pub from: u16,
    /// The host that receives.
    pub to: u16,
    /// The bytes of its buffer, which no packet exceeds.
    pub room: u64,
}

impl ChannelSpec {
    // Whether this channel stands before, at or after that of `leg` from `from` to `to`.
    pub(crate) fn order(self, leg: Leg, from: u16, to: u16) -> Ordering
        ensures { IsOrder self leg from to result }
    {
        let by_leg = self.leg.place().cmp(&leg.place());
        by_leg.then(self.from.cmp(&from)).then(self.to.cmp(&to))
    }
}
