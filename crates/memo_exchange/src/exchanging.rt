//! The exchange of payloads among all hosts.
ghost use Rattle.std.specs.Prelude.{◌≡◌, ◌<◌, ◌≤◌, ◌^◌, IfOk, OnOk, option_map};
ghost use Rattle.graph_division.specs.Partition.{IsPartition, division_of};
ghost use Rattle.address_memo.specs.Memos.{Agree};
ghost use Rattle.io_edge.specs.Faults.{count_up};
ghost use Rattle.memo_exchange.specs.Asks.{exchange_asks, asked_after};

use crate::delivery::deliver;
use crate::posting::open_all;
use address_memo::Memo;
use graph_model::Way;
use io_edge::Picker;
use proxy_graph::LocalGraph;
use std::alloc::{AllocError, Global};

/// A place among `count`, which one pick names.
fn place_by_pick<K: Picker>(picker: &mut K, count: usize) -> usize
    requires some { 1 ≤ count }
    requires few { count < 2 ^ 32 }
    ensures within { result < count }
    ensures asked { K.asked picker.new ≡ option_map count_up (K.asked picker.old) }
    ensures begun { K.begun picker.new ≡ K.begun picker.old }
{
    picker.pick(count as u32) as usize % count
}

/// The memos of all hosts of a partition, by host, where edges are followed in this way: each host has
/// told every other what it has to tell.
///
/// Each payload is delivered by one pick among those not yet delivered, in the order of senders and then
/// receivers. Which pick comes makes no difference to the memos.
pub fn exchange<K: Picker>(
    alloc: Global,
    graphs: &[LocalGraph],
    way: Way,
    picker: &mut K,
) -> Result<Vec<Memo>, AllocError>
    requires { IsPartition graphs.now }
    ensures memos { IfOk result (λ memos. Agree way graphs.now memos.items) }
    ensures asked { OnOk result (K.asked picker.new
        ≡ option_map (asked_after (exchange_asks (division_of way graphs.now))) (K.asked picker.old)) }
    ensures begun { K.begun picker.new ≡ K.begun picker.old }
{
    let mut mail = Vec::new(alloc);
    let mut memos = open_all(alloc, graphs, way, &mut mail)?;
    while !mail.is_empty() {
        let place = place_by_pick(picker, mail.len());
        let letter = mail.remove(place);
        deliver(alloc, graphs, &mut memos, &letter)?;
    }
    Ok(memos)
}
