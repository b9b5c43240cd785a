//! Each law once.
use crate::{kcore_finds_core, kcore_sends_tallies};

#[test]
fn laws_return() {
    kcore_finds_core();
    kcore_sends_tallies();
}
