//! The owner of an edge.
ghost use Rattle.std.specs.Prelude.{◌≡◌, ◌<◌};
ghost use Rattle.cusp_rules.specs.Hosts.{IsHostCount};
ghost use Rattle.edge_owner.specs.Owner.{owner_of};

use crate::host_grid::columns;
use crate::owner_rule::OwnerRule;

/// The host that owns an edge, of 1 to 64 hosts. `ms` is the master of its source, `md` that of its
/// destination, both below `hosts`, and `outdegree` how many out-edges its source has.
pub fn owner(rule: OwnerRule, hosts: u16, ms: u16, md: u16, outdegree: u32) -> u16
    requires hosts { IsHostCount hosts }
    requires source { ms < hosts }
    requires destination { md < hosts }
    ensures owner { result ≡ owner_of rule hosts ms md outdegree }
    ensures host { result < hosts }
{
    match rule {
        OwnerRule::Source => ms,
        OwnerRule::Dest => md,
        OwnerRule::Hybrid(threshold) => { if outdegree > threshold { md } else { ms } }
        OwnerRule::Cartesian => {
            let columns = columns(hosts);
            ms / columns * columns + md % columns
        }
    }
}
