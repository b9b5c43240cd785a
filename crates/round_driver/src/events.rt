//! The events of a round.
ghost use Rattle.std.specs.Prelude.{◌≡◌, ◌<◌, true, length, IsSomeAnd, slice_get};
ghost use Rattle.list_laws.specs.Members.{count_of, IsMember};
ghost use Rattle.packet_table.specs.declared.channel_spec.Leg.TheVariants as Leg;
ghost use Rattle.packet_table.specs.Order.{IsChannelAt};
ghost use Rattle.packet_table.specs.Table.{IsTable, taken};
ghost use Rattle.host_state.specs.HostState.{IsHost};
ghost use Rattle.host_state.specs.Serving.{run_of};
ghost use Rattle.round_driver.specs.Choices.{may_do};
ghost use Rattle.round_driver.specs.declared.choosing.Doing.TheVariants.{Compute, Spread};
ghost use Rattle.round_driver.specs.Underway.{Moment, Underway, Turns};

use host_core::Host;
use packet_table::{Channels, Leg};
use reduce_laws::VertexProgram;

// Does nothing: it tells what holds of every host and of every table of channels.
fn facts_of<P: VertexProgram>(host: &Host<P>, channels: &Channels)
    ensures host { IsHost host.now }
    ensures channels { IsTable channels.now }
{
    let _ = host.graph();
    let _ = channels.count();
}

/// The host of this number computes, which it may.
pub(crate) fn compute_at<P: VertexProgram>(
    hosts: &mut [Host<P>],
    channels: &mut Channels,
    number: usize,
)
    ghost moment: { Moment P }
    requires underway { Underway P.Red.Item.IsValue P.Shown.IsValue P.IsState P.Red.Item.bytes_of P.Shown.bytes_of (run_of P.Red.reducer (P.steps moment.program) P.Red.Item.WIDTH P.Shown.WIDTH moment.division) moment.program moment.rounds hosts.old channels.old }
    requires within { number < length hosts.old }
    requires may { IsSomeAnd (slice_get hosts.old number) (λ host. may_do Compute host ≡ true) }
    ensures { Turns P.Red.Item.IsValue P.Shown.IsValue P.IsState P.Red.Item.bytes_of P.Shown.bytes_of (run_of P.Red.reducer (P.steps moment.program) P.Red.Item.WIDTH P.Shown.WIDTH moment.division) moment.program moment.rounds hosts.old channels.old hosts.new channels.new }
{
    hosts[number].compute(channels);
    facts_of(&hosts[number], channels);
}

/// The host of this number spreads, which it may.
pub(crate) fn spread_at<P: VertexProgram>(
    hosts: &mut [Host<P>],
    channels: &mut Channels,
    number: usize,
)
    ghost moment: { Moment P }
    requires underway { Underway P.Red.Item.IsValue P.Shown.IsValue P.IsState P.Red.Item.bytes_of P.Shown.bytes_of (run_of P.Red.reducer (P.steps moment.program) P.Red.Item.WIDTH P.Shown.WIDTH moment.division) moment.program moment.rounds hosts.old channels.old }
    requires within { number < length hosts.old }
    requires may { IsSomeAnd (slice_get hosts.old number) (λ host. may_do Spread host ≡ true) }
    ensures { Turns P.Red.Item.IsValue P.Shown.IsValue P.IsState P.Red.Item.bytes_of P.Shown.bytes_of (run_of P.Red.reducer (P.steps moment.program) P.Red.Item.WIDTH P.Shown.WIDTH moment.division) moment.program moment.rounds hosts.old channels.old hosts.new channels.new }
{
    hosts[number].spread(channels);
    facts_of(&hosts[number], channels);
}

// The receiver takes the reduce packet in flight on this channel.
fn give_reduce<P: VertexProgram>(
    hosts: &mut [Host<P>],
    channels: &Channels,
    id: u32,
    from: u16,
    to: usize,
)
    ghost moment: { Moment P }
    requires underway { Underway P.Red.Item.IsValue P.Shown.IsValue P.IsState P.Red.Item.bytes_of P.Shown.bytes_of (run_of P.Red.reducer (P.steps moment.program) P.Red.Item.WIDTH P.Shown.WIDTH moment.division) moment.program moment.rounds hosts.old channels.now }
    requires known { id < length channels.now.specs }
    requires channel { IsChannelAt channels.now.specs id Leg.Reduce from to }
    requires within { to < length hosts.old }
    requires flies { IsMember channels.now.flying id }
    ensures { Turns P.Red.Item.IsValue P.Shown.IsValue P.IsState P.Red.Item.bytes_of P.Shown.bytes_of (run_of P.Red.reducer (P.steps moment.program) P.Red.Item.WIDTH P.Shown.WIDTH moment.division) moment.program moment.rounds hosts.old channels.now hosts.new (taken channels.now id) }
{
    let host = &mut hosts[to];
    host.take_reduce(from, channels.payload(id));
    facts_of(host, channels);
}

// The receiver takes the broadcast packet in flight on this channel.
fn give_broadcast<P: VertexProgram>(
    hosts: &mut [Host<P>],
    channels: &Channels,
    id: u32,
    from: u16,
    to: usize,
)
    ghost moment: { Moment P }
    requires underway { Underway P.Red.Item.IsValue P.Shown.IsValue P.IsState P.Red.Item.bytes_of P.Shown.bytes_of (run_of P.Red.reducer (P.steps moment.program) P.Red.Item.WIDTH P.Shown.WIDTH moment.division) moment.program moment.rounds hosts.old channels.now }
    requires known { id < length channels.now.specs }
    requires channel { IsChannelAt channels.now.specs id Leg.Spread from to }
    requires within { to < length hosts.old }
    requires flies { IsMember channels.now.flying id }
    ensures { Turns P.Red.Item.IsValue P.Shown.IsValue P.IsState P.Red.Item.bytes_of P.Shown.bytes_of (run_of P.Red.reducer (P.steps moment.program) P.Red.Item.WIDTH P.Shown.WIDTH moment.division) moment.program moment.rounds hosts.old channels.now hosts.new (taken channels.now id) }
{
    let host = &mut hosts[to];
    host.take_broadcast(from, channels.payload(id));
    facts_of(host, channels);
}

/// The packet at this place among those in flight, by rising channel, is delivered: its receiver takes it.
pub(crate) fn deliver_at<P: VertexProgram>(
    hosts: &mut [Host<P>],
    channels: &mut Channels,
    place: u32,
)
    ghost moment: { Moment P }
    requires underway { Underway P.Red.Item.IsValue P.Shown.IsValue P.IsState P.Red.Item.bytes_of P.Shown.bytes_of (run_of P.Red.reducer (P.steps moment.program) P.Red.Item.WIDTH P.Shown.WIDTH moment.division) moment.program moment.rounds hosts.old channels.old }
    requires place { place < count_of channels.old.flying }
    ensures { Turns P.Red.Item.IsValue P.Shown.IsValue P.IsState P.Red.Item.bytes_of P.Shown.bytes_of (run_of P.Red.reducer (P.steps moment.program) P.Red.Item.WIDTH P.Shown.WIDTH moment.division) moment.program moment.rounds hosts.old channels.old hosts.new channels.new }
{
    let id = channels.flying(place);
    let spec = channels.spec(id);
    let to = usize::from(spec.to);
    match spec.leg {
        Leg::Reduce => give_reduce(hosts, channels, id, spec.from, to),
        Leg::Spread => give_broadcast(hosts, channels, id, spec.from, to),
    }
    channels.take(place);
}
