//! When the tree of threads pays by the estimates.

use crate::jobs::{COUNT_PLAN, job, judged};
use flu_estimate::{Costs, is_worth_it};
use std::alloc::Global;
use std::process::Abort;
use std::test::Fail;

/// Two sources add to a count, by 16 actions each, and the third emits it.
const LONG: &str = "cell count sum
tag inc int
tag read none
depends inc read
depends read read
on inc: add count value; add count value * 2; add count value * 3; add count value * 4; add count value; add count value * 2; add count value * 3; \
add count value * 4; add count value; add count value * 2; add count value * 3; add count value * 4; add count value; add count value * 2; \
add count value * 3; add count value * 4
on read: emit \"count {count}\"; clear count
source a \"a.csv\": inc
source b \"b.csv\": inc
source c \"c.csv\": read
";

/// The same by one action.
const SHORT: &str = "cell count sum
tag inc int
tag read none
depends inc read
depends read read
on inc: add count value
on read: emit \"count {count}\"; clear count
source a \"a.csv\": inc
source b \"b.csv\": inc
source c \"c.csv\": read
";

/// Whether a tree of three workers pays for this many events of the three itags, on this many processors.
fn check<R: Abort>(
    rt: &R,
    alloc: Global,
    text: &str,
    processors: u64,
    counts: [u64; 3],
    wanted: bool,
) -> Result<(), Fail> {
    let both = judged(alloc, job(alloc, text, "")?, COUNT_PLAN)?;
    assert!(rt; both.is_some());
    let (checked, valid) = both.unwrap();
    let costs = Costs::new(alloc, &checked, processors)?;
    let tree = costs.tree(alloc, &valid, counts.as_slice())?;
    assert_eq!(rt; is_worth_it(tree, costs.fold(counts.as_slice())), wanted);
    Ok(())
}

#[test]
fn trees_pay_where_actions_are_long(rt: HostRuntime) -> Result<(), Fail> {
    let alloc = rt.alloc();
    check(&rt, alloc, LONG, 4, [8000, 8000, 1], true)?;
    check(&rt, alloc, SHORT, 4, [8000, 8000, 1], false)?;

    // One processor, one source with nearly all events, few events, and a meeting at nearly each event.
    check(&rt, alloc, LONG, 1, [8000, 8000, 1], false)?;
    check(&rt, alloc, LONG, 4, [16_000, 10, 1], false)?;
    check(&rt, alloc, LONG, 4, [20, 20, 1], false)?;
    check(&rt, alloc, LONG, 4, [8000, 8000, 8000], false)
}

#[test]
fn the_greatest_counts_have_costs(rt: HostRuntime) -> Result<(), Fail> {
    let most = u64::MAX;
    check(&rt, rt.alloc(), LONG, 4, [most, most, most], false)?;
    check(&rt, rt.alloc(), LONG, 0, [0, 0, 0], false)?;
    check(&rt, rt.alloc(), LONG, most, [most, 0, 0], false)
}
