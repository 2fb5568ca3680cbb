//! Dependency, modes, conflicts and acceptance.

use crate::jobs::{COUNT, COUNT_DEPENDS, PAGES, PAGES_ACCEPTED, job};
use flu_check::check;
use flu_deps::{Mode, conflict, dep, mode};
use flu_model::{Cell, Itag, Program, Tag, itag_count, tag_of};
use std::alloc::Global;
use std::process::Abort;
use std::test::Fail;

const INC: Tag = Tag { kind: 0, key: 0 };

const READ: Tag = Tag { kind: 1, key: 0 };

const COUNTED: Cell = Cell { family: 0, key: 0 };

const TICK: Tag = Tag { kind: 2, key: 0 };

/// The view of a page.
const fn view(key: u32) -> Tag {
    Tag { kind: 0, key }
}

/// The update of a user.
const fn update(key: u32) -> Tag {
    Tag { kind: 1, key }
}

/// The views of a page.
const fn views(key: u32) -> Cell {
    Cell { family: 0, key }
}

/// The zip code of a user.
const fn zip(key: u32) -> Cell {
    Cell { family: 1, key }
}

/// A count behind a gate, without dependencies: `pass` adds to the count if the gate holds a value, `open` sets it, and `tell`
/// raises the note of its own key, 0 or 1, and emits the note 7.
const GATED: &str = "cell gate last
cell count sum
cell note keyed max
tag pass none
tag open int
tag tell keyed int
on pass: add count 1 when has gate
on open: set gate value
on tell: raise note[key] value; emit \"note {note[7]}\"
source s \"s.csv\": pass, open, tell[0..1]
";

const PASS: Tag = Tag { kind: 0, key: 0 };

const OPEN: Tag = Tag { kind: 1, key: 0 };

const GATE: Cell = Cell { family: 0, key: 0 };

const PASSED: Cell = Cell { family: 1, key: 0 };

/// The tag of the kind `tell` with a key.
const fn tell(key: u32) -> Tag {
    Tag { kind: 2, key }
}

const fn note(key: u32) -> Cell {
    Cell { family: 2, key }
}

/// Trades read the price that quotes set, and are independent.
const TRADES: &str = "cell price last
cell vol sum
tag quote int
tag trade int
depends quote quote
depends quote trade
on quote: set price value
on trade: add vol value * price; emit \"at {price}\"
source q \"q.csv\": quote
source t1 \"t1.csv\": trade
source t2 \"t2.csv\": trade
";

const TRADE: Tag = Tag { kind: 1, key: 0 };

const PRICE: Cell = Cell { family: 0, key: 0 };

/// Whether each tag has its mode on its cell.
fn expect_modes(
    rt: &impl Abort,
    alloc: Global,
    text: &str,
    cases: &[(Tag, Cell, Mode)],
) -> Result<(), Fail> {
    let p = job(alloc, text, "")?;
    for (tag, cell, wanted) in cases {
        assert_eq!(rt; mode(&p, *tag, *cell), *wanted);
    }
    Ok(())
}

#[test]
fn modes_are_read_from_the_actions(rt: HostRuntime) -> Result<(), Fail> {
    let cases = [(INC, COUNTED, Mode::Add), (READ, COUNTED, Mode::Own)];
    expect_modes(&rt, rt.alloc(), COUNT, &cases)?;
    let cases = [
        (view(2), views(2), Mode::Add),
        (view(2), views(3), Mode::None),
        (TICK, views(5), Mode::Own),
        (TICK, views(65_535), Mode::Own),
        (TICK, zip(5), Mode::None),
        (update(3), zip(3), Mode::Own),
        (update(3), zip(4), Mode::None),
    ];
    expect_modes(&rt, rt.alloc(), PAGES, &cases)
}

#[test]
fn guards_texts_fixed_keys_and_versions_count(rt: HostRuntime) -> Result<(), Fail> {
    let cases = [
        (PASS, GATE, Mode::Own),
        (PASS, PASSED, Mode::Add),
        (tell(0), note(0), Mode::Raise),
        (tell(0), note(1), Mode::None),
        (tell(1), note(7), Mode::Own),
    ];
    expect_modes(&rt, rt.alloc(), GATED, &cases)?;
    let cases = [(TRADE, PRICE, Mode::Own)];
    expect_modes(&rt, rt.alloc(), TRADES, &cases)?;
    let mut text = String::from_str(rt.alloc(), "version 2 ")?;
    text.push_str(TRADES)?;
    let cases = [(TRADE, PRICE, Mode::Read)];
    expect_modes(&rt, rt.alloc(), text.as_str(), &cases)
}

/// Whether two tags conflict on a cell, and whether they depend on each other.
fn expect_conflicts(
    rt: &impl Abort,
    alloc: Global,
    text: &str,
    cases: &[(Tag, Tag, Option<Cell>, bool)],
) -> Result<(), Fail> {
    let p = job(alloc, text, "")?;
    for (a, b, cell, dependent) in cases {
        assert_eq!(rt; conflict(&p, *a, *b), *cell);
        assert_eq!(rt; dep(&p, *a, *b), *dependent);
    }
    Ok(())
}

#[test]
fn tags_conflict_and_depend(rt: HostRuntime) -> Result<(), Fail> {
    let cases = [
        (PASS, OPEN, Some(GATE), false),
        (tell(0), tell(1), Some(note(7)), false),
        (PASS, tell(1), None, false),
    ];
    expect_conflicts(&rt, rt.alloc(), GATED, &cases)?;
    let mut text = String::from_str(rt.alloc(), PAGES)?;
    text.push_str(PAGES_ACCEPTED)?;
    let cases = [
        (view(2), TICK, Some(views(2)), true),
        (TICK, view(2), Some(views(2)), true),
        (TICK, TICK, Some(views(0)), true),
        (view(2), view(2), None, false),
        (view(2), view(3), None, false),
        (update(1), update(1), Some(zip(1)), true),
        (update(1), update(2), None, false),
        (update(1), TICK, None, false),
    ];
    expect_conflicts(&rt, rt.alloc(), text.as_str(), &cases)
}

/// How many keys of each family are examined when all cells are gone through.
const KEYS: u32 = 10;

/// Whether two tags conflict on a cell and are independent.
fn is_fault(p: &Program, a: Tag, b: Tag, cell: Cell) -> bool {
    let conflicts = match (mode(p, a, cell), mode(p, b, cell)) {
        (Mode::None, _) | (_, Mode::None) => false,
        (Mode::Add, Mode::Add) | (Mode::Raise, Mode::Raise) | (Mode::Read, Mode::Read) => false,
        _ => true,
    };
    a <= b && conflicts && !dep(p, a, b)
}

/// The first conflict of two independent tags, of all pairs of tags of itags and all cells.
fn first_of_all(p: &Program) -> Option<(Tag, Tag, Cell)> {
    let mut first = None;
    for i in 0..itag_count(p) {
        for j in 0..itag_count(p) {
            first = first_of_pair(p, tag_of(p, Itag(i)), tag_of(p, Itag(j)), first);
        }
    }
    first
}

fn first_of_pair(
    p: &Program,
    a: Tag,
    b: Tag,
    first: Option<(Tag, Tag, Cell)>,
) -> Option<(Tag, Tag, Cell)> {
    let mut first = first;
    for family in 0..p.families.items().len() {
        for key in 0..KEYS {
            let fault = (
                a,
                b,
                Cell {
                    family: family as u32,
                    key,
                },
            );
            if is_fault(p, a, b, fault.2) && is_before(fault, first) {
                first = Some(fault);
            }
        }
    }
    first
}

fn is_before(fault: (Tag, Tag, Cell), first: Option<(Tag, Tag, Cell)>) -> bool {
    match first {
        Some(other) => fault < other,
        None => true,
    }
}

/// What the check of a job finds.
fn found(p: Program) -> Option<(Tag, Tag, Cell)> {
    match check(p) {
        Ok(_checked) => None,
        Err(fault) => Some((fault.a, fault.b, fault.cell)),
    }
}

/// Whether the check of each job, in two parts, finds its fault.
fn expect_found(
    rt: &impl Abort,
    alloc: Global,
    cases: &[(&str, &str, Option<(Tag, Tag, Cell)>)],
) -> Result<(), Fail> {
    for (text, more, wanted) in cases {
        assert_eq!(rt; found(job(alloc, text, more)?), *wanted, "{more}");
    }
    Ok(())
}

#[test]
fn the_first_conflict_is_named(rt: HostRuntime) -> Result<(), Fail> {
    let cases = [
        (COUNT, COUNT_DEPENDS, None),
        (COUNT, "depends read inc", Some((READ, READ, COUNTED))),
        (COUNT, "depends read read", Some((INC, READ, COUNTED))),
        (COUNT, "", Some((INC, READ, COUNTED))),
        (TRADES, "", Some((TRADE, TRADE, PRICE))),
        ("version 2 ", TRADES, None),
        (GATED, "", Some((PASS, PASS, GATE))),
    ];
    expect_found(&rt, rt.alloc(), &cases)
}

const TEN: &str =
    "source web \"w\": view[0..9] source app \"a\": view[0..9], update[0..9] source clock \"c\": tick ";

#[test]
fn the_first_conflict_of_pages_is_named(rt: HostRuntime) -> Result<(), Fail> {
    let mut text = String::from_str(rt.alloc(), PAGES)?;
    text.push_str(TEN)?;
    let text = text.as_str();
    let cases = [
        (PAGES, PAGES_ACCEPTED, None),
        (
            text,
            "depends view tick depends tick tick",
            Some((update(0), update(0), zip(0))),
        ),
        (
            text,
            "depends update update same depends view tick",
            Some((TICK, TICK, views(0))),
        ),
        (
            text,
            "depends update update same depends tick tick",
            Some((view(0), TICK, views(0))),
        ),
        // 256 itags
        (
            PAGES,
            "depends update update same depends view tick depends tick tick source web \"w\": view[0..99] source app \"a\": view[0..99], update[0..54] source clock \"c\": tick",
            None,
        ),
    ];
    expect_found(&rt, rt.alloc(), &cases)
}

/// The job of pages and users in short, three of each, without a dependency.
const SMALL: &str =
    "cell views keyed sum cell zip keyed last tag view keyed int tag update keyed int tag tick none
on view: add views[key] value on update: emit \"{zip[key]}\"; set zip[key] value on tick: flush views \"{key}\"
source web \"w\": view[0..2] source app \"a\": view[0..2], update[0..2] source clock \"c\": tick
";

#[test]
fn the_check_finds_what_all_pairs_and_cells_give(rt: HostRuntime) -> Result<(), Fail> {
    let cases = [
        (GATED, ""),
        (SMALL, ""),
        (SMALL, "depends update update same"),
        (SMALL, "depends update update depends view tick"),
        (SMALL, "depends tick tick depends tick view"),
        (SMALL, "depends view tick depends tick tick"),
        (
            SMALL,
            "depends update update same depends view tick depends tick tick",
        ),
    ];
    for (text, more) in cases {
        let p = job(rt.alloc(), text, more)?;
        let wanted = first_of_all(&p);
        assert_eq!(rt; found(p), wanted, "{more}");
    }
    Ok(())
}
