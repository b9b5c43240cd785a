//! Grids and owners, against values reckoned by hand.
use crate::{OwnerRule, Rules, both_ways_is_master, grid, owner, owners_are_hosts, owners_cross};
use cusp_rules::MasterRule;

#[test]
fn grids_are_as_narrow_as_they_may_be(rt: HostRuntime) {
    for (hosts, want) in [
        (1, (1, 1)),
        (2, (1, 2)),
        (4, (2, 2)),
        (6, (2, 3)),
        (7, (1, 7)),
        (12, (3, 4)),
        (64, (8, 8)),
    ] {
        assert!(rt; 1 <= hosts && hosts <= 64);
        assert_eq!(rt; grid(hosts), want, "of {hosts}");
    }
}

#[test]
fn each_rule_names_its_owner(rt: HostRuntime) {
    for (rule, hosts, ms, md, outdegree, want) in [
        (OwnerRule::Source, 4, 3, 1, 9, 3),
        (OwnerRule::Dest, 4, 3, 1, 9, 1),
        (OwnerRule::Hybrid(2), 2, 0, 1, 2, 0),
        (OwnerRule::Hybrid(2), 2, 0, 1, 3, 1),
        (OwnerRule::Hybrid(0), 2, 0, 1, 0, 0),
        (OwnerRule::Cartesian, 6, 4, 5, 0, 5),
        // A cycle of four vertices on four hosts, two in a row.
        (OwnerRule::Cartesian, 4, 0, 1, 1, 1),
        (OwnerRule::Cartesian, 4, 1, 2, 1, 0),
        (OwnerRule::Cartesian, 4, 2, 3, 1, 3),
        (OwnerRule::Cartesian, 4, 3, 0, 1, 2),
        (OwnerRule::Cartesian, 64, 63, 0, 1, 56),
    ] {
        assert!(rt; 1 <= hosts && hosts <= 64 && ms < hosts && md < hosts);
        assert_eq!(rt; owner(rule, hosts, ms, md, outdegree), want, "by {rule:?}");
    }
}

#[test]
fn rules_are_told_apart(rt: HostRuntime) {
    let rules = Rules {
        masters: MasterRule::Edges,
        owner: OwnerRule::Hybrid(1),
    };
    let others = Rules {
        owner: OwnerRule::Hybrid(2),
        ..rules
    };
    assert_ne!(rt; rules, others);
}

#[test]
fn laws_return() {
    owners_are_hosts();
    owners_cross();
    both_ways_is_master();
}
