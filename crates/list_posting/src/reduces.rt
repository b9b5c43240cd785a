//! Posts what mirrors gathered.
ghost use Rattle.std.specs.Prelude.{◌≡◌, ◌≢◌, ◌<◌, ◌≤◌, ◌+◌, ◌*◌, ◌&&◌, ℕ, true, false, not, if◌then◌else◌, length};
ghost use Rattle.std.specs.List.{All, slice_index_or};
ghost use Rattle.list_laws.specs.Among.{is_among};
ghost use Rattle.list_laws.specs.Members.{has_member};
ghost use Rattle.graph_model.specs.Graph.{most_nodes};
ghost use Rattle.address_memo.specs.Memos.{AreMemos, list_at};
ghost use Rattle.field_encodings.specs.Packets.{packet_at, bytes_of_packet};
ghost use Rattle.packet_table.specs.declared.channel_spec.Leg.TheVariants.{Reduce};
ghost use Rattle.cluster_laws.specs.Channels.{is_needed};
ghost use Rattle.host_state.specs.Posting.{is_listed, HasRoom, IsReady, Posts};
ghost use Rattle.list_posting.specs.Steps.{posts_to, packets_of, PostsWhere};

use crate::ready_channel::ready_channel;
use address_memo::{ListKind, Memo};
use gluon_reduce::gather;
use packet_table::{Channels, Leg};
use reduce_laws::Reduction;
use update_bits::UpdateBits;

/// Posts, for each peer to which the host reduces mirrors, the packet of these mirrors: their items, of
/// which those are updated that the set `news` has. The channels of these lists have room for the form of
/// all values, and nothing is in flight there. Items and the set go by local number.
///
/// Then none of these mirrors has news and, where the reduction does not keep, each has the identity.
pub fn post_reduces<R: Reduction>(
    memo: &Memo,
    host: u16,
    hosts: u16,
    items: &mut [R::Item],
    news: &mut UpdateBits,
    channels: &mut Channels,
)
    requires memo { AreMemos memo.now }
    requires hosts { hosts ≡ memo.now.hosts }
    requires has_items { (peer : ℕ) → All (λ local. local < length items.old) (list_at memo.now.reduce_to peer).locals }
    requires has_bits { (peer : ℕ) → All (λ local. local < length news.old) (list_at memo.now.reduce_to peer).locals }
    requires short { (peer : ℕ) → length (list_at memo.now.reduce_to peer).globals ≤ most_nodes }
    requires apart { (peer other local : ℕ) → peer ≢ other → is_among (list_at memo.now.reduce_to peer).locals local ≡ true
        → is_among (list_at memo.now.reduce_to other).locals local ≡ false }
    requires ready { IsReady Reduce host R.Item.WIDTH memo.now.reduce_to channels.old }
    ensures posts { Posts Reduce host memo.now.reduce_to
        (λ to. bytes_of_packet R.Item.WIDTH R.Item.bytes_of (packet_at items.old (list_at memo.now.reduce_to to).locals (list_at memo.now.reduce_to to).globals news.old))
        channels.old channels.new }
    ensures cleared { (local : ℕ) → has_member news.new local ≡ (has_member news.old local && not (is_listed memo.now.reduce_to local)) }
    ensures news_length { length news.new ≡ length news.old }
    ensures kept { (local : ℕ) (d : R.Item) → slice_index_or items.new local d
        ≡ (if is_listed memo.now.reduce_to local && not R.reducer.keeps then R.reducer.identity else slice_index_or items.old local d) }
{
    for peer in 0..hosts {
        post_reduce::<R>(memo, host, peer, items, news, channels);
    }
}

// Posts the packet for one peer, if the host reduces mirrors to it, and makes these mirrors ready for the
// next round.
fn post_reduce<R: Reduction>(
    memo: &Memo,
    host: u16,
    peer: u16,
    items: &mut [R::Item],
    news: &mut UpdateBits,
    channels: &mut Channels,
)
    requires peer { peer < memo.now.hosts }
    requires has_items { All (λ local. local < length items.old) (list_at memo.now.reduce_to peer).locals }
    requires has_bits { All (λ local. local < length news.old) (list_at memo.now.reduce_to peer).locals }
    requires short { length (list_at memo.now.reduce_to peer).globals ≤ most_nodes }
    requires ready { is_needed (list_at memo.now.reduce_to peer).globals ≡ true
        → HasRoom Reduce host peer (1 + length (list_at memo.now.reduce_to peer).globals * R.Item.WIDTH) channels.old }
    ensures posts { PostsWhere (posts_to Reduce host memo.now.reduce_to peer)
        (packets_of R.Item.WIDTH R.Item.bytes_of memo.now.reduce_to items.old news.old)
        channels.old channels.new }
    ensures cleared { (local : ℕ) → has_member news.new local ≡ (has_member news.old local && not (is_among (list_at memo.now.reduce_to peer).locals local)) }
    ensures news_length { length news.new ≡ length news.old }
    ensures kept { (local : ℕ) (d : R.Item) → slice_index_or items.new local d
        ≡ (if is_among (list_at memo.now.reduce_to peer).locals local && not R.reducer.keeps then R.reducer.identity else slice_index_or items.old local d) }
{
    let list = memo.list(ListKind::ReduceTo, peer);
    if list.globals().is_empty() {
        return;
    }
    let id = ready_channel(channels, Leg::Reduce, host, peer);
    let coded = gather::<R>(
        items,
        list.locals(),
        list.globals(),
        news,
        channels.buffer(id),
    );
    channels.post(id, coded.len);
}
