//! Each call once, against values from outside.
use crate::{Summary, make};
use graph_model::Edge;
use std::test::Fail;

#[test]
fn one_node_leads_to_itself(rt: HostRuntime) -> Result<(), Fail> {
    for number in [0, 7, u64::MAX] {
        let list = make(rt.alloc(), 1, number)?;
        let edges = list.edges();
        assert_eq!(rt; list.nodes(), 1);
        assert_eq!(rt; edges.len(), 16);
        assert_eq!(rt; edges[0].weight, 1);
        assert!(rt; edges.iter().all(|edge| edge.src == 0 && edge.dst == 0));
    }
    Ok(())
}

// From the state 1234567 the generator's first words are known to be 6457827717110365317,
// 3203168211198807973, 9817491932198370423, 4593380528125082431 and 16408922859458223821: they draw
// the edges at places 1 to 5. The later edges were computed by the published algorithm elsewhere.
#[test]
fn known_words_draw_the_edges(rt: HostRuntime) -> Result<(), Fail> {
    let list = make(rt.alloc(), 20_000, 1_234_567)?;
    let edges = list.edges();
    assert_eq!(rt; list.nodes(), 20_000);
    assert_eq!(rt; edges.len(), 76_250);
    for (place, src, dst, weight) in [
        (0, 0, 1, 1),
        (1, 0, 183, 318),
        (2, 0, 15_716, 974),
        (3, 0, 12_965, 424),
        (4, 0, 19_744, 432),
        (5, 0, 71, 822),
        (16, 1, 2, 2),
        (17, 1, 16_674, 132),
        (61, 16, 17, 3),
        (62, 16, 1_810, 770),
        (76_247, 19_999, 0, 1),
        (76_248, 19_999, 14_828, 317),
        (76_249, 19_999, 7_363, 820),
    ] {
        let edge = Edge { src, dst, weight };
        assert_eq!(rt; edges.get(place).copied(), Some(edge), "at {place}");
    }
    Ok(())
}

#[test]
fn missing_values_are_left_out(rt: HostRuntime) {
    let mut summary = Summary::new();
    assert_eq!(rt; (summary.reached, summary.sum, summary.greatest), (0, 0, 0));
    summary.add(Some(3));
    let before = summary;
    summary.add(None);
    assert_eq!(rt; summary, before);
    summary.add(Some(7));
    summary.add(Some(0));
    let all = Summary {
        reached: 3,
        sum: 10,
        greatest: 7,
    };
    assert_eq!(rt; summary, all, "in {summary:?}");
}
