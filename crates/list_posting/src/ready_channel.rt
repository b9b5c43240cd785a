//! The channel of a list that is not empty.
ghost use Rattle.std.specs.Prelude.{◌≡◌, ◌≤◌, ℕ, false, slice_index};
ghost use Rattle.list_laws.specs.Members.{has_member};
ghost use Rattle.packet_table.specs.Order.{IsChannelAt};
ghost use Rattle.packet_table.specs.Table.{IsTable, rooms_of};
ghost use Rattle.host_state.specs.Posting.{HasRoom};

use packet_table::{Channels, Leg};

/// The number of the channel of `leg` from `host` to `peer`, which is there and has nothing in flight.
pub(crate) fn ready_channel(channels: &Channels, leg: Leg, host: u16, peer: u16) -> u32
    requires { HasRoom leg host peer 0 channels.now }
    ensures channel { IsChannelAt channels.now.specs result leg host peer }
    ensures resting { has_member channels.now.flying result ≡ false }
    ensures room { (bytes : ℕ) → HasRoom leg host peer bytes channels.now → bytes ≤ slice_index (rooms_of channels.now.specs) result }
    ensures facts { IsTable channels.now }
{
    let _ = channels.count();
    match channels.find(leg, host, peer) {
        Some(id) => id,
        None => unreachable!(),
    }
}
