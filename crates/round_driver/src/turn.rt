//! One round.
ghost use Rattle.std.specs.Prelude.{◌≡◌, ◌≤◌, ◌<◌, ◌+◌, ◌*◌, ◌^◌, ℕ, true, map, length, option_map, All};
ghost use Rattle.std.specs.List.{sum_by};
ghost use Rattle.io_edge.specs.Faults.{count_up};
ghost use Rattle.memo_exchange.specs.Asks.{asked_after};
ghost use Rattle.packet_table.specs.Table.{payload_of};
ghost use Rattle.cluster_laws.specs.Channels.{payload};
ghost use Rattle.cluster_laws.specs.Numbers.{channel_at};
ghost use Rattle.cluster_laws.specs.Tally.{packets_of, bytes_of_round, changed, woken};
ghost use Rattle.cluster_laws.specs.Cluster.{StandsBetween, IsOver};
ghost use Rattle.cluster_laws.specs.Steps.{StepsInTurn};
ghost use Rattle.host_laws.specs.HostView.{HostView};
ghost use Rattle.host_state.specs.OwnEffects.{is_ready_to_close};
ghost use Rattle.host_state.specs.Serving.{run_of};
ghost use Rattle.round_driver.specs.Choices.{choices};
ghost use Rattle.round_driver.specs.Closing.{closed_cluster};
ghost use Rattle.round_driver.specs.ClusterState.{StandsNow, StaysItself, division_in};
ghost use Rattle.round_driver.specs.Underway.{Moment, Underway, Turns, lasting, seen_as, moment_of};

use crate::choosing::{Doing, count_who_may, find_who_may};
use crate::closing::{close_all, count_bytes};
use crate::cluster::Cluster;
use crate::events::{compute_at, deliver_at, spread_at};
use crate::tally::Tally;
use host_core::Host;
use io_edge::Picker;
use packet_table::Channels;
use reduce_laws::VertexProgram;

// A place among `count`, which one pick names.
fn place_by_pick<K: Picker>(picker: &mut K, count: usize) -> usize
    requires some { 1 ≤ count }
    requires few { count < 2 ^ 32 }
    ensures within { result < count }
    ensures asked { K.asked picker.new ≡ option_map count_up (K.asked picker.old) }
    ensures begun { K.begun picker.new ≡ K.begun picker.old }
{
    picker.pick(count as u32) as usize % count
}

// Brings the event that the picker picks among those that may come next.
fn take_turn<P: VertexProgram, K: Picker>(
    hosts: &mut [Host<P>],
    channels: &mut Channels,
    picker: &mut K,
)
    ghost moment: { Moment P }
    requires underway { Underway P.Red.Item.IsValue P.Shown.IsValue P.IsState P.Red.Item.bytes_of P.Shown.bytes_of (run_of P.Red.reducer (P.steps moment.program) P.Red.Item.WIDTH P.Shown.WIDTH moment.division) moment.program moment.rounds hosts.old channels.old }
    requires some { 1 ≤ choices hosts.old channels.old }
    ensures turns { Turns P.Red.Item.IsValue P.Shown.IsValue P.IsState P.Red.Item.bytes_of P.Shown.bytes_of (run_of P.Red.reducer (P.steps moment.program) P.Red.Item.WIDTH P.Shown.WIDTH moment.division) moment.program moment.rounds hosts.old channels.old hosts.new channels.new }
    ensures asked { K.asked picker.new ≡ option_map count_up (K.asked picker.old) }
    ensures begun { K.begun picker.new ≡ K.begun picker.old }
{
    let computing = count_who_may(hosts, Doing::Compute);
    let spreading = count_who_may(hosts, Doing::Spread);
    let flying = channels.flying_count() as usize;
    let place = place_by_pick(picker, computing + spreading + flying);
    if place < computing {
        let number = find_who_may(hosts, Doing::Compute, place);
        compute_at(hosts, channels, number);
    } else if place < computing + spreading {
        let number = find_who_may(hosts, Doing::Spread, place - computing);
        spread_at(hosts, channels, number);
    } else {
        deliver_at(hosts, channels, (place - computing - spreading) as u32);
    }
}

// Brings all events of a round, of hosts and channels that stand for the moment before it.
fn run_events<P: VertexProgram, K: Picker>(
    hosts: &mut [Host<P>],
    channels: &mut Channels,
    picker: &mut K,
)
    ghost moment: { Moment P }
    requires underway { Underway P.Red.Item.IsValue P.Shown.IsValue P.IsState P.Red.Item.bytes_of P.Shown.bytes_of (run_of P.Red.reducer (P.steps moment.program) P.Red.Item.WIDTH P.Shown.WIDTH moment.division) moment.program moment.rounds hosts.old channels.old }
    requires between { (spare : HostView P P.Red.Item P.State P.Shown) → StandsBetween P.Red.Item.bytes_of P.Shown.bytes_of (run_of P.Red.reducer (P.steps moment.program) P.Red.Item.WIDTH P.Shown.WIDTH moment.division) moment.rounds (seen_as moment.division spare hosts.old channels.old) }
    ensures underway { Underway P.Red.Item.IsValue P.Shown.IsValue P.IsState P.Red.Item.bytes_of P.Shown.bytes_of (run_of P.Red.reducer (P.steps moment.program) P.Red.Item.WIDTH P.Shown.WIDTH moment.division) moment.program moment.rounds hosts.new channels.new }
    ensures lasting { map lasting hosts.new ≡ map lasting hosts.old }
    ensures steps { (spare : HostView P P.Red.Item P.State P.Shown) → StepsInTurn P.Red.Item.bytes_of P.Shown.bytes_of (run_of P.Red.reducer (P.steps moment.program) P.Red.Item.WIDTH P.Shown.WIDTH moment.division) moment.rounds (2 * moment.division.hosts + packets_of moment.division)
        (seen_as moment.division spare hosts.old channels.old) (seen_as moment.division spare hosts.new channels.new) }
    ensures over { (spare : HostView P P.Red.Item P.State P.Shown) → IsOver moment.division (seen_as moment.division spare hosts.new channels.new) }
    ensures asked { K.asked picker.new ≡ option_map (asked_after (2 * moment.division.hosts + packets_of moment.division)) (K.asked picker.old) }
    ensures begun { K.begun picker.new ≡ K.begun picker.old }
{
    let events = 2 * hosts.len() as u64 + u64::from(channels.count());
    for _turn in 0..events {
        take_turn(hosts, channels, picker);
    }
}

// Brings all events of a cluster's round. The cluster stands for the moment before it.
fn bring_events<P: VertexProgram, K: Picker>(cluster: &mut Cluster<P>, picker: &mut K)
    ghost moment: { Moment P }
    requires moment { moment ≡ moment_of cluster.old }
    requires stands { StandsNow P.Red.reducer (P.steps cluster.old.program) P.Red.Item.WIDTH P.Shown.WIDTH P.Red.Item.bytes_of P.Shown.bytes_of cluster.old }
    ensures stays { StaysItself cluster.old cluster.new }
    ensures round { cluster.new.round ≡ cluster.old.round }
    ensures underway { Underway P.Red.Item.IsValue P.Shown.IsValue P.IsState P.Red.Item.bytes_of P.Shown.bytes_of (run_of P.Red.reducer (P.steps moment.program) P.Red.Item.WIDTH P.Shown.WIDTH moment.division) moment.program moment.rounds cluster.new.hosts cluster.new.table }
    ensures steps { (spare : HostView P P.Red.Item P.State P.Shown) → StepsInTurn P.Red.Item.bytes_of P.Shown.bytes_of (run_of P.Red.reducer (P.steps moment.program) P.Red.Item.WIDTH P.Shown.WIDTH moment.division) moment.rounds (2 * moment.division.hosts + packets_of moment.division)
        (seen_as moment.division spare cluster.old.hosts cluster.old.table) (seen_as moment.division spare cluster.new.hosts cluster.new.table) }
    ensures over { (spare : HostView P P.Red.Item P.State P.Shown) → IsOver moment.division (seen_as moment.division spare cluster.new.hosts cluster.new.table) }
    ensures asked { K.asked picker.new ≡ option_map (asked_after (2 * moment.division.hosts + packets_of moment.division)) (K.asked picker.old) }
    ensures begun { K.begun picker.new ≡ K.begun picker.old }
{
    run_events(&mut cluster.hosts, &mut cluster.channels, picker);
}

// Closes the round of a cluster whose hosts have done all of it, and gives the number of masters that show
// something new.
fn close_round<P: VertexProgram>(cluster: &mut Cluster<P>) -> u64
    requires round { cluster.old.round < 2 ^ 32 }
    requires ready { All (λ host. is_ready_to_close host ≡ true) cluster.old.hosts }
    requires few { sum_by (λ host. woken host.view) cluster.old.hosts < 2 ^ 64 }
    ensures closed { cluster.new ≡ closed_cluster cluster.old }
    ensures woken { result ≡ sum_by (λ host. woken host.view) cluster.old.hosts }
{
    let woken = close_all(&mut cluster.hosts);
    cluster.round += 1;
    woken
}

/// Runs one round of a cluster that stands for the moment between its round and the next one, as
/// [`Cluster::new`] and this call leave it. At its end each channel's payload is the packet of this round.
/// It has no refusal and takes no memory. Whatever the picker picks, it is asked once for each event.
pub fn run_round<P: VertexProgram, K: Picker>(cluster: &mut Cluster<P>, picker: &mut K) -> Tally
    requires round { cluster.old.round < 2 ^ 32 }
    requires stands { StandsNow P.Red.reducer (P.steps cluster.old.program) P.Red.Item.WIDTH P.Shown.WIDTH P.Red.Item.bytes_of P.Shown.bytes_of cluster.old }
    ensures stays { StaysItself cluster.old cluster.new }
    ensures round { cluster.new.round ≡ cluster.old.round + 1 }
    ensures stands { StandsNow P.Red.reducer (P.steps cluster.old.program) P.Red.Item.WIDTH P.Shown.WIDTH P.Red.Item.bytes_of P.Shown.bytes_of cluster.new }
    ensures payloads { (number : ℕ) → number < packets_of (division_in cluster.old) → payload_of cluster.new.table number
        ≡ payload P.Red.Item.bytes_of P.Shown.bytes_of (run_of P.Red.reducer (P.steps cluster.old.program) P.Red.Item.WIDTH P.Shown.WIDTH (division_in cluster.old)) cluster.old.round (channel_at (division_in cluster.old) number) }
    ensures changed { result.changed ≡ changed (run_of P.Red.reducer (P.steps cluster.old.program) P.Red.Item.WIDTH P.Shown.WIDTH (division_in cluster.old)) cluster.old.round }
    ensures packets { result.packets ≡ packets_of (division_in cluster.old) }
    ensures bytes { result.bytes ≡ bytes_of_round P.Red.Item.bytes_of P.Shown.bytes_of (run_of P.Red.reducer (P.steps cluster.old.program) P.Red.Item.WIDTH P.Shown.WIDTH (division_in cluster.old)) cluster.old.round }
    // Two picks for each host and one for each packet.
    ensures asked { K.asked picker.new ≡ option_map (asked_after (2 * (division_in cluster.old).hosts + packets_of (division_in cluster.old))) (K.asked picker.old) }
    ensures begun { K.begun picker.new ≡ K.begun picker.old }
{
    bring_events(cluster, picker);
    let changed = close_round(cluster);
    let channels = cluster.channels();
    Tally {
        changed,
        packets: u64::from(channels.count()),
        bytes: count_bytes(channels),
    }
}
