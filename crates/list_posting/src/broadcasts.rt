//! Posts what masters show.
ghost use Rattle.std.specs.Prelude.{◌≡◌, ◌<◌, ◌≤◌, ◌+◌, ◌*◌, ℕ, true, length};
ghost use Rattle.std.specs.List.{All};
ghost use Rattle.graph_model.specs.Graph.{most_nodes};
ghost use Rattle.address_memo.specs.Memos.{AreMemos, list_at};
ghost use Rattle.field_encodings.specs.Packets.{packet_at, bytes_of_packet};
ghost use Rattle.packet_table.specs.declared.channel_spec.Leg.TheVariants.{Spread};
ghost use Rattle.cluster_laws.specs.Channels.{is_needed};
ghost use Rattle.host_state.specs.Posting.{HasRoom, IsReady, Posts};
ghost use Rattle.list_posting.specs.Steps.{posts_to, packets_of, PostsWhere};

use crate::ready_channel::ready_channel;
use address_memo::{ListKind, Memo};
use gluon_broadcast::spread;
use packet_table::{Channels, Leg};
use reduce_laws::Word;
use update_bits::UpdateBits;

/// Posts, for each peer to which the host broadcasts masters, the packet of these masters: what they show,
/// of which those are updated that the set `changed` has. The channels of these lists have room for the
/// form of all values, and nothing is in flight there. Shown values and the set go by local number.
pub fn post_broadcasts<W: Word>(
    memo: &Memo,
    host: u16,
    hosts: u16,
    shown: &[W],
    changed: &UpdateBits,
    channels: &mut Channels,
)
    requires memo { AreMemos memo.now }
    requires hosts { hosts ≡ memo.now.hosts }
    requires has_values { (peer : ℕ) → All (λ local. local < length shown.now) (list_at memo.now.spread_to peer).locals }
    requires has_bits { (peer : ℕ) → All (λ local. local < length changed.now) (list_at memo.now.spread_to peer).locals }
    requires short { (peer : ℕ) → length (list_at memo.now.spread_to peer).globals ≤ most_nodes }
    requires ready { IsReady Spread host W.WIDTH memo.now.spread_to channels.old }
    ensures posts { Posts Spread host memo.now.spread_to
        (λ to. bytes_of_packet W.WIDTH W.bytes_of (packet_at shown.now (list_at memo.now.spread_to to).locals (list_at memo.now.spread_to to).globals changed.now))
        channels.old channels.new }
{
    for peer in 0..hosts {
        post_broadcast(memo, host, peer, shown, changed, channels);
    }
}

// Posts the packet for one peer, if the host broadcasts masters to it.
fn post_broadcast<W: Word>(
    memo: &Memo,
    host: u16,
    peer: u16,
    shown: &[W],
    changed: &UpdateBits,
    channels: &mut Channels,
)
    requires peer { peer < memo.now.hosts }
    requires has_values { All (λ local. local < length shown.now) (list_at memo.now.spread_to peer).locals }
    requires has_bits { All (λ local. local < length changed.now) (list_at memo.now.spread_to peer).locals }
    requires short { length (list_at memo.now.spread_to peer).globals ≤ most_nodes }
    requires ready { is_needed (list_at memo.now.spread_to peer).globals ≡ true
        → HasRoom Spread host peer (1 + length (list_at memo.now.spread_to peer).globals * W.WIDTH) channels.old }
    ensures posts { PostsWhere (posts_to Spread host memo.now.spread_to peer)
        (packets_of W.WIDTH W.bytes_of memo.now.spread_to shown.now changed.now)
        channels.old channels.new }
{
    let list = memo.list(ListKind::SpreadTo, peer);
    if list.globals().is_empty() {
        return;
    }
    let id = ready_channel(channels, Leg::Spread, host, peer);
    let coded = spread(
        shown,
        list.locals(),
        list.globals(),
        changed,
        channels.buffer(id),
    );
    channels.post(id, coded.len);
}
