//! What the tests do over the count with its tree of three nodes.

use crate::jobs::{COUNT, TREE, checked, counted, has_shape, opened, valid};
use crate::links::{one_end_stops, there_and_back};
use crate::passing::to_and_fro;

/// One case for all of them, since the proof of making one is costly.
#[test]
fn lots_and_links_on_a_count(rt: HostRuntime) {
    let alloc = rt.alloc();
    let checked = checked(&rt, alloc, COUNT);
    let valid = valid(&rt, alloc, &checked, TREE);
    let streams = counted(&rt, alloc);
    let case = opened(&rt, alloc, &checked, &valid, &streams);
    assert!(rt; has_shape(&case));
    there_and_back(&rt, alloc, &case);
    one_end_stops(&rt, alloc, &case);
    to_and_fro(&rt, alloc, &case);
}
