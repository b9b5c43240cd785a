//! The laws are public calls. Plans are tried on graphs from files, by the program's own tests.
use crate::{
    arcs_are_shared, cartesian_has_no_both, dest_has_no_in, edges_have_owners, plans_tell_owners,
    shares_are_partition, source_has_no_out,
};

#[test]
fn laws_return() {
    plans_tell_owners();
    edges_have_owners();
    shares_are_partition();
    arcs_are_shared();
    source_has_no_out();
    dest_has_no_in();
    cartesian_has_no_both();
}
