//! Which nodes of a plan may be apart, and the classes of cells.

use crate::jobs::{COUNT, COUNT_DEPENDS, COUNT_PLAN, PAGES, PAGES_ACCEPTED, job, judged};
use flu_apart::{Class, Reason, SharedUse, Subtree, apart};
use flu_model::{Cell, Tag};
use std::alloc::Global;
use std::process::Abort;
use std::test::Fail;

/// Rides by station, and the longest one of a day.
const RIDES: &str = "cell rides keyed sum
cell longest max
tag ride keyed int
tag day none
depends ride day
depends day day
on ride: add rides[key] 1; raise longest value
on day: flush rides \"station {key}: {cell} rides\"; emit \"longest ride {longest} minutes\"; clear longest
source north \"north.csv\": ride[1..2]
source south \"south.csv\": ride[3]
source clock \"days.csv\": day
";

const RIDES_PLAN: &str = "node root: day -> left right
node left: ride@north
node right: ride@south
";

/// Payments are compared with the totals of the window before, which flow back to them.
const FRAUD: &str = "version 2
cell total sum
cell count sum
cell total_before last
cell count_before last
tag payment int
tag window none
depends payment window
depends window window
on payment: add total value; add count 1; emit \"suspect {value}\" when value * count_before > 3 * total_before
on window: set total_before total; set count_before count; clear total; clear count
source north \"north.csv\": payment
source south \"south.csv\": payment
source clock \"windows.csv\": window
";

const FRAUD_PLAN: &str = "node root: window -> north south
node north: payment@north
node south: payment@south
";

/// The updates of five users beside views and the updates of the others.
const PAGES_PLAN: &str = "node root: tick -> few rest
node few: update[0..4]
node rest: view, update[5..9]
";

/// The updates of all users from two sources, of which the root owns one.
const TWICE: &str = "depends update update same
depends view tick
depends tick tick
source web \"web.csv\": view[0..9]
source first \"first.csv\": update[3..9]
source second \"second.csv\": update[3..9]
source clock \"clock.csv\": tick
";

const TWICE_PLAN: &str = "node root: tick, update@second -> users pages
node users: update@first
node pages: view
";

/// A look emits the mark of its item, and a mark sets that of item 7 alone; what others count is for a clock.
const MARKS: &str = "version 3
cell others sum
cell marks keyed last
tag look item none
tag mark int
tag other none
tag tick none
depends look mark
depends mark mark
depends other tick
depends tick tick
on look: emit \"{marks[item]}\"
on mark: set marks[7] value
on other: add others 1
on tick: emit \"{others}\"; clear others
source a \"a.csv\": look
source b \"b.csv\": other
source m \"m.csv\": mark
source c \"c.csv\": tick
";

const MARKS_PLAN: &str = "node root: mark, tick -> looks others
node looks: look
node others: other
";

/// Looks from two sources.
const LOOKS: &str = "version 3
cell marks keyed last
tag look item none
tag mark int
depends look mark
depends mark mark
on look: emit \"{marks[item]}\"
on mark: set marks[7] value
source a \"a.csv\": look
source b \"b.csv\": look
source m \"m.csv\": mark
";

const LOOKS_PLAN: &str = "node root: mark -> left right
node left: look@a
node right: look@b
";

/// Rides that a clock counts, whose itag the root owns.
const CLOCKED: &str = "version 3
cell rides sum
tag ride none
tag day none
depends ride day
depends day day
on ride: add rides 1
on day: emit \"{rides}\"; clear rides
source north \"north.csv\": ride
source south \"south.csv\": ride
clock midnight every 86400: day
";

const CLOCKED_PLAN: &str = "node root: day -> left right
node left: ride@north
node right: ride@south
";

const fn on(kind: u32, key: u32, family: u32, at: u32) -> Option<Reason> {
    Some(Reason::Shared(SharedUse {
        tag: Tag { kind, key },
        cell: Cell { family, key: at },
    }))
}

/// Whether each node of the plan may be apart, or else the first reason why not.
fn check<R: Abort>(
    rt: &R,
    alloc: Global,
    text: &str,
    more: &str,
    plan: &str,
    wanted: &[Option<Reason>],
) -> Result<(), Fail> {
    let both = judged(alloc, job(alloc, text, more)?, plan)?;
    assert!(rt; both.is_some());
    let (checked, valid) = both.unwrap();
    for w in 0..valid.count() {
        let found = match apart(&checked, &valid, w) {
            Ok(()) => None,
            Err(reason) => Some(reason),
        };
        assert_eq!(rt; Some(&found), wanted.get(w as usize));
    }
    Ok(())
}

#[test]
fn nodes_that_may_be_apart(rt: HostRuntime) -> Result<(), Fail> {
    let alloc = rt.alloc();
    check(
        &rt,
        alloc,
        COUNT,
        COUNT_DEPENDS,
        COUNT_PLAN,
        &[None, None, None],
    )?;
    check(&rt, alloc, RIDES, "", RIDES_PLAN, &[None, None, None])?;
    check(
        &rt,
        alloc,
        PAGES,
        PAGES_ACCEPTED,
        PAGES_PLAN,
        &[None, None, None],
    )
}

#[test]
fn nodes_that_may_not(rt: HostRuntime) -> Result<(), Fail> {
    let alloc = rt.alloc();
    let before = on(0, 0, 2, 0);
    check(&rt, alloc, FRAUD, "", FRAUD_PLAN, &[None, before, before])?;
    check(
        &rt,
        alloc,
        PAGES,
        TWICE,
        TWICE_PLAN,
        &[None, on(1, 3, 1, 3), None],
    )?;
    check(
        &rt,
        alloc,
        MARKS,
        "",
        MARKS_PLAN,
        &[None, on(0, 0, 1, 7), None],
    )?;
    let first = on(0, 0, 0, 0);
    check(&rt, alloc, LOOKS, "", LOOKS_PLAN, &[None, first, first])?;
    let clock = Some(Reason::Clock(2));
    check(&rt, alloc, CLOCKED, "", CLOCKED_PLAN, &[clock, None, None])
}

/// Whether the cells have these classes for a node of a plan.
fn classes<R: Abort>(
    rt: &R,
    alloc: Global,
    text: &str,
    plan: &str,
    w: u32,
    wanted: &[(Cell, Class)],
) -> Result<(), Fail> {
    let both = judged(alloc, job(alloc, text, "")?, plan)?;
    assert!(rt; both.is_some());
    let (checked, valid) = both.unwrap();
    let subtree = Subtree::of(&checked, &valid, w);
    for (cell, class) in wanted {
        assert_eq!(rt; subtree.class_of(*cell), *class);
    }
    Ok(())
}

#[test]
fn classes_of_cells(rt: HostRuntime) -> Result<(), Fail> {
    let alloc = rt.alloc();
    let first = Cell { family: 0, key: 1 };
    let third = Cell { family: 0, key: 3 };
    let longest = Cell { family: 1, key: 0 };
    let inside = [
        (first, Class::Contributed),
        (third, Class::Unused),
        (longest, Class::Contributed),
    ];
    classes(&rt, alloc, RIDES, RIDES_PLAN, 1, &inside)?;
    let all = [(first, Class::Kept), (longest, Class::Kept)];
    classes(&rt, alloc, RIDES, RIDES_PLAN, 0, &all)?;
    let before = Cell { family: 2, key: 0 };
    classes(&rt, alloc, FRAUD, FRAUD_PLAN, 1, &[(before, Class::Shared)])
}
