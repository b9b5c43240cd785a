//! Which hosts may act next.
ghost use Rattle.std.specs.Prelude.{◌≡◌, ◌<◌, Some, slice_get};
ghost use Rattle.list_laws.specs.Members.{members, count_of};
ghost use Rattle.round_driver.specs.Choices.{may_do, who_may};

use host_core::Host;
use reduce_laws::VertexProgram;

/// What a host does by itself, once in a round.
#[derive(Clone, Copy)]
pub(crate) enum Doing {
    /// It computes.
    Compute,
    /// It spreads.
    Spread,
}

// Whether a host may do this next.
fn may<P: VertexProgram>(host: &Host<P>, doing: Doing) -> bool
    ensures { result ≡ may_do doing host.now }
{
    match doing {
        Doing::Compute => host.may_compute(),
        Doing::Spread => host.may_spread(),
    }
}

/// How many hosts may do this next.
pub(crate) fn count_who_may<P: VertexProgram>(hosts: &[Host<P>], doing: Doing) -> usize
    ensures { result ≡ count_of (who_may doing hosts.now) }
{
    let mut count = 0;
    for host in hosts {
        if may(host, doing) {
            count += 1;
        }
    }
    count
}

/// The host at this place among those that may do this next, by rising number.
pub(crate) fn find_who_may<P: VertexProgram>(hosts: &[Host<P>], doing: Doing, place: usize) -> usize
    requires { place < count_of (who_may doing hosts.now) }
    ensures { slice_get (members (who_may doing hosts.now)) place ≡ Some result }
{
    let mut before = 0;
    for (number, host) in hosts.iter().enumerate() {
        if may(host, doing) {
            if before == place {
                return number;
            }
            before += 1;
        }
    }
    unreachable!()
}
