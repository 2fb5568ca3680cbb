//! A lot goes down a link and comes back, and an end that stops is noticed by the other one.

ghost use Rattle.std.specs.Prelude.{◌≡◌, true};
ghost use Rattle.flu_fork.specs.Lots.{LotFits};
ghost use Rattle.flu_fork.specs.Serving.{counts_of};
ghost use Rattle.flu_thread_tests.specs.Rows.{IsRow, IsUnused, IsServed, IsIdle, IsNew, no_events, first_read};

use crate::jobs::MEMORY;
use crate::lots::{counts_are, left_part, with_first_event};
use crate::passing::{count_of, lends};
use flu_fork::laws::{contents_are_settings, itags_are_of_nodes};
use flu_fork::{Ask, Case, Lot};
use flu_link::{Lower, Upper, close, link};
use flu_model::Itag;
use std::alloc::Global;
use std::process::Abort;

pub const READ: Ask = Ask {
    itag: Itag(2),
    index: 0,
};

/// The upper end may not ask yet, and has nothing to take.
fn is_too_early(rt: &impl Abort, up: &mut Upper, case: &Case)
    requires row { IsRow case.now }
    requires idle { IsIdle case.now up.old }
    ensures link { up.new.link ≡ up.old.link }
    ensures idle { IsIdle case.now up.new }
{
    contents_are_settings();
    itags_are_of_nodes();
    assert!(rt; !up.try_ask(READ));
    let None = up.try_take() else {
        panic!(rt; "nothing was given");
    };
}

/// One lot can be lent, and a second one then comes back as it was.
fn lends_one(rt: &impl Abort, up: &mut Upper, case: &Case, left: Lot, other: Lot)
    requires row { IsRow case.now }
    requires idle { IsIdle case.now up.old }
    requires left { IsUnused case.now left }
    requires other { IsUnused case.now other }
    ensures link { up.new.link ≡ up.old.link }
    ensures idle { IsIdle case.now up.new }
{
    let Ok(()) = up.try_lend(left) else {
        panic!(rt; "nothing was lent");
    };
    let Err(back) = up.try_lend(other) else {
        panic!(rt; "a lot was lent");
    };
    assert!(rt; counts_are(&back, &[0, 0, 0], &[0, 0, 0]));
}

/// The lot is held, it is there once, and nothing is asked.
fn holds_one(rt: &impl Abort, low: &mut Lower, case: &Case) -> Lot
    requires { IsNew case.now low.old }
    ensures link { low.new.link ≡ low.old.link }
    ensures new { IsNew case.now low.new }
    ensures fits { LotFits case.now 1 result }
    ensures held { low.new.held ≡ counts_of result }
{
    let Some(lot) = low.try_hold() else {
        panic!(rt; "a lot was lent");
    };
    let None = low.try_hold() else {
        panic!(rt; "it is held");
    };
    let None = low.asked() else {
        panic!(rt; "nothing is asked for");
    };
    lot
}

/// The upper end has nothing to take, and asks once.
fn asks_once(rt: &impl Abort, up: &mut Upper, case: &Case)
    requires row { IsRow case.now }
    requires idle { IsIdle case.now up.old }
    ensures { up.new.link ≡ up.old.link }
{
    contents_are_settings();
    itags_are_of_nodes();
    let None = up.try_take() else {
        panic!(rt; "nothing was given");
    };
    assert!(rt; up.try_ask(READ));
    assert!(rt; !up.try_ask(READ));
}

pub fn is_first_read(y: Ask) -> bool
    ensures { result ≡ true → y ≡ first_read }
{
    y.itag.0 == 2 && y.index == 0
}

/// The first read is asked for, and the lot can be given for it.
fn gives_one(rt: &impl Abort, low: &mut Lower, case: &Case, lot: Lot)
    requires new { IsNew case.now low.old }
    requires held { low.old.held ≡ no_events }
    requires served { IsServed case.now lot }
    ensures { low.new.link ≡ low.old.link }
{
    let Some(y) = low.asked() else {
        panic!(rt; "a read is asked for");
    };
    assert!(rt; is_first_read(y));
    let Ok(()) = low.try_give(lot) else {
        unreachable!();
    };
}

/// The lot can be taken, and is there once.
fn takes_one(rt: &impl Abort, up: &mut Upper) -> Lot
    ensures { up.new.link ≡ up.old.link }
{
    let Some(lot) = up.try_take() else {
        panic!(rt; "a lot was given");
    };
    let None = up.try_take() else {
        panic!(rt; "it was taken");
    };
    lot
}

/// A lot goes down the link of the left leaf and comes back with an event. Then the lower end stops, which the upper one notices.
pub fn there_and_back(rt: &impl Abort, alloc: Global, case: &Case)
    requires { IsRow case.now }
{
    let (mut up, mut low) = link(alloc, case, 1).expect(rt, MEMORY);
    let left = left_part(alloc, case).expect(rt, MEMORY);
    let other = left_part(alloc, case).expect(rt, MEMORY);
    is_too_early(rt, &mut up, case);
    lends_one(rt, &mut up, case, left, other);
    let lot = holds_one(rt, &mut low, case);
    assert!(rt; counts_are(&lot, &[0, 0, 0], &[0, 0, 0]));
    asks_once(rt, &mut up, case);
    let lot = with_first_event(alloc, case, lot).expect(rt, MEMORY);
    gives_one(rt, &mut low, case, lot);
    let lot = takes_one(rt, &mut up);
    assert!(rt; counts_are(&lot, &[0, 0, 0], &[1, 0, 0]));
    assert_eq!(rt; count_of(&lot), 5);
    assert!(rt; !up.stopped());
    low.stop();
    assert!(rt; up.stopped());
    assert!(rt; close(up, low).is_none());
}

/// The upper end stops, which the lower one notices, and the lot that it has lent comes out when the link is closed.
#[tactic(auto, using(crate::proofs::PassLemmas::free_first, crate::proofs::PassLemmas::goes_first))]
pub fn one_end_stops(rt: &impl Abort, alloc: Global, case: &Case)
    requires { IsRow case.now }
{
    let (mut up, mut low) = link(alloc, case, 1).expect(rt, MEMORY);
    let left = left_part(alloc, case).expect(rt, MEMORY);
    lends(&mut up, left);
    assert!(rt; !low.stopped());
    up.stop();
    assert!(rt; low.stopped());
    let lot = close(up, low).expect(rt, "a lot was lent");
    assert!(rt; counts_are(&lot, &[0, 0, 0], &[0, 0, 0]));
}
