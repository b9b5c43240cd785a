//! Each program at one arc, and each law once.
use crate::{
    Bfs, Components, Sssp, counts_agree, labels_are_least, labels_are_sent, labels_find_least,
    last_is_all_walks, last_labels_are_least, least_exist, programs_find_least, programs_fit,
    programs_have_labels, programs_send_least, quiet_rounds, rounds_are_walks, rounds_end,
    sums_are_labels,
};
use reduce_laws::VertexProgram;

// What the head of an arc answers after a round that brought what its tail shows at first.
fn answer_after_arc<P: VertexProgram>(
    program: P,
    tail: u32,
    head: u32,
    weight: u32,
) -> Option<u64> {
    let item = program.along(program.shown(program.start(tail)), weight);
    program.answer(program.settle(program.start(head), item))
}

#[test]
fn labels_go_along_an_arc(rt: HostRuntime) {
    assert_eq!(rt; answer_after_arc(Bfs { root: 3 }, 3, 5, 9), Some(1));
    assert_eq!(rt; answer_after_arc(Sssp { root: 3 }, 3, 5, 9), Some(9));
    assert_eq!(rt; answer_after_arc(Components, 3, 5, 9), Some(3));
    assert_eq!(rt; answer_after_arc(Bfs { root: 3 }, 4, 5, 9), None);
    assert_eq!(rt; answer_after_arc(Sssp { root: 3 }, 4, 5, 9), None);
    assert_eq!(rt; answer_after_arc(Components, 5, 3, 9), Some(3));
    assert_eq!(rt; [Bfs { root: 0 }.keep(7), Components.keep(8)], [7, 8]);
    assert_eq!(rt; Sssp { root: 0 }.keep(9), 9);
}

#[test]
fn laws_return() {
    programs_have_labels();
    programs_fit();
    rounds_are_walks();
    labels_are_least();
    sums_are_labels();
    quiet_rounds();
    counts_agree();
    rounds_end();
    last_is_all_walks();
    last_labels_are_least();
    labels_find_least();
    programs_find_least();
    least_exist();
    labels_are_sent();
    programs_send_least();
}
