//! Masters by both rules, against values reckoned by hand.
ghost use Rattle.std.specs.Prelude.{IsTrue};
ghost use Rattle.cusp_rules.specs.Formulas.{IsStarts};

use crate::{MasterRule, Masters, rules_assign};
use std::test::Fail;

/// Whether these may be the starts of a small graph.
fn are_starts(starts: &[u32]) -> bool
    ensures { IsTrue result → IsStarts starts.now }
{
    if starts.is_empty() || starts.len() > 100 || starts[0] != 0 {
        return false;
    }
    starts[starts.len() - 1] <= 100 && starts.is_sorted()
}

#[test]
fn hosts_have_blocks_of_vertices(rt: HostRuntime) -> Result<(), Fail> {
    let four: &[u32] = &[0, 2, 3, 4, 4];
    let five: &[u32] = &[0, 1, 2, 3, 4, 5];
    let first_has_all: &[u32] = &[0, 9, 9, 9];
    let no_edges: &[u32] = &[0, 0, 0, 0];
    let two: &[u32] = &[0, 1, 2];
    let none: &[u32] = &[0];
    for (rule, starts, want) in [
        // Blocks of two edges. The last vertex has none: it is past the last block, and so the last host's.
        (MasterRule::Edges, four, [(0, 1), (1, 4)].as_slice()),
        (MasterRule::Nodes, four, [(0, 2), (2, 4)].as_slice()),
        // Half of five edges is a block of three.
        (MasterRule::Edges, five, [(0, 3), (3, 5)].as_slice()),
        (MasterRule::Nodes, five, [(0, 3), (3, 5)].as_slice()),
        (
            MasterRule::Edges,
            first_has_all,
            [(0, 1), (1, 1), (1, 3)].as_slice(),
        ),
        (MasterRule::Edges, no_edges, [(0, 3), (3, 3)].as_slice()),
        // More hosts than vertices.
        (
            MasterRule::Edges,
            two,
            [(0, 1), (1, 2), (2, 2), (2, 2)].as_slice(),
        ),
        (
            MasterRule::Nodes,
            two,
            [(0, 1), (1, 2), (2, 2), (2, 2)].as_slice(),
        ),
        // No vertices.
        (MasterRule::Edges, none, [(0, 0), (0, 0), (0, 0)].as_slice()),
        (MasterRule::Nodes, none, [(0, 0), (0, 0), (0, 0)].as_slice()),
        (MasterRule::Edges, four, [(0, 4)].as_slice()),
    ] {
        assert!(rt; are_starts(starts) && !want.is_empty() && want.len() <= 64);
        let masters = Masters::new(rt.alloc(), rule, want.len() as u16, starts)?;
        let masters = masters.try_clone(rt.alloc())?;
        assert_eq!(rt; usize::from(masters.hosts()), want.len());
        for (h, range) in want.iter().enumerate() {
            let host = h as u16;
            assert!(rt; host < masters.hosts());
            let (first, end) = masters.range(host);
            assert_eq!(rt;
                (first, end),
                *range,
                "{rule:?} {starts:?}, of {host} in {masters:?}"
            );
            for v in first..end {
                assert_eq!(rt; masters.master(v), host, "of {v}");
            }
        }
    }
    Ok(())
}

#[test]
fn laws_return() {
    rules_assign();
}
