//! What is done once a round is over.
ghost use Rattle.std.specs.Prelude.{◌≡◌, ◌<◌, ◌^◌, true, length, map, All};
ghost use Rattle.std.specs.List.{range_with_len, sum_by};
ghost use Rattle.packet_table.specs.Table.{payload_of};
ghost use Rattle.cluster_laws.specs.Tally.{woken};
ghost use Rattle.host_state.specs.HostState.{IsHost};
ghost use Rattle.host_state.specs.OwnEffects.{is_ready_to_close};
ghost use Rattle.round_driver.specs.Closing.{closed_host};

use host_core::Host;
use packet_table::Channels;
use reduce_laws::VertexProgram;

// Closes a host that has done all of the round, and gives the number of its masters that show something
// new.
fn close_one<P: VertexProgram>(host: &mut Host<P>) -> u64
    requires { is_ready_to_close host.old ≡ true }
    ensures closed { host.new ≡ closed_host host.old }
    ensures woken { result ≡ woken host.old.view }
    ensures facts { IsHost host.new }
{
    let woken = host.close();
    let _ = host.graph();
    woken
}

/// Closes all hosts, which have done all of the round, and gives the number of masters that show something
/// new.
pub(crate) fn close_all<P: VertexProgram>(hosts: &mut [Host<P>]) -> u64
    requires ready { All (λ host. is_ready_to_close host ≡ true) hosts.old }
    requires few { sum_by (λ host. woken host.view) hosts.old < 2 ^ 64 }
    ensures closed { hosts.new ≡ map closed_host hosts.old }
    ensures woken { result ≡ sum_by (λ host. woken host.view) hosts.old }
    ensures facts { All IsHost hosts.new }
{
    let mut woken = 0;
    for number in 0..hosts.len() {
        woken += close_one(&mut hosts[number]);
    }
    woken
}

/// How many bytes all payloads have.
pub(crate) fn count_bytes(channels: &Channels) -> u64
    ensures { result ≡ sum_by length (map (payload_of channels.now) (range_with_len 0 (length channels.now.specs))) }
{
    let mut bytes = 0;
    for id in 0..channels.count() {
        bytes += channels.payload(id).len() as u64;
    }
    bytes
}
