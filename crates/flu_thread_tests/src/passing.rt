//! One lot that two threads pass back and forth over a link.

ghost use Rattle.std.specs.Prelude.{◌≡◌, Some};
ghost use Rattle.flu_fork.specs.Lots.{LotFits};
ghost use Rattle.flu_fork.specs.Serving.{Served};
ghost use Rattle.flu_thread_tests.specs.Rows.{IsRow, IsServed, first_read};
ghost use Rattle.flu_thread_tests.specs.Passing.{IsAbove, IsFree, IsOut, MayGo, IsTaken, IsBelow, Holds};

use crate::jobs::MEMORY;
use crate::links::{READ, is_first_read};
use crate::lots::{counts_are, left_part, with_first_event};
use crossbeam_utils::Backoff;
use flu_cells::{Cell, Worth};
use flu_fork::laws::{clear_events_are_served, contents_are_settings, itags_are_of_nodes};
use flu_fork::{Case, Lot};
use flu_link::{Lower, Upper, close, link};
use std::alloc::Global;
use std::process::Abort;
use std::sync::Wait;
use std::thread::{Threads, join};

/// How often the lot goes down and comes back: 100,000 lots in all.
const ROUNDS: u64 = 50_000;

/// What the lot has in the count.
pub fn count_of(lot: &Lot) -> i128 {
    match lot.state.get(Cell { family: 0, key: 0 }) {
        Some(Worth::Sum(n)) => n,
        _ => 0,
    }
}

// ---- the upper end

/// Lends the lot, which is never refused.
pub fn lends(up: &mut Upper, lot: Lot)
    requires free { IsFree up.old }
    requires goes { MayGo up.old lot }
    ensures out { IsOut up.new }
    ensures link { up.new.link ≡ up.old.link }
{
    if up.try_lend(lot).is_err() {
        unreachable!();
    }
}

/// Asks for the lot until it is held.
#[tactic(auto, using(crate::proofs::PassLemmas::asks_here))]
fn asks<R: Wait>(rt: &R, up: &mut Upper)
    requires { IsOut up.old }
    ensures at { IsAbove up.new }
    ensures link { up.new.link ≡ up.old.link }
{
    contents_are_settings();
    itags_are_of_nodes();
    let backoff = Backoff::new();
    for _ in rt.forever() {
        if up.try_ask(READ) {
            return;
        }
        backoff.snooze();
    }
    unreachable!()
}

/// Takes the lot once it is given.
fn takes<R: Wait>(rt: &R, up: &mut Upper) -> Lot
    requires { IsAbove up.old }
    ensures link { up.new.link ≡ up.old.link }
    ensures free { IsFree up.new }
    ensures taken { IsTaken up.new result }
{
    let backoff = Backoff::new();
    for _ in rt.forever() {
        if let Some(lot) = up.try_take() {
            return lot;
        }
        backoff.snooze();
    }
    unreachable!()
}

/// Lends the lot and takes it back with its first event counted.
#[tactic(auto, using(crate::proofs::PassLemmas::goes_again))]
fn goes_round<R: Wait + Abort>(rt: &R, up: &mut Upper, lot: Lot) -> Lot
    requires free { IsFree up.old }
    requires goes { MayGo up.old lot }
    ensures link { up.new.link ≡ up.old.link }
    ensures free { IsFree up.new }
    ensures goes { MayGo up.new result }
{
    lends(up, lot);
    asks(rt, up);
    let lot = takes(rt, up);
    assert!(rt; counts_are(&lot, &[0, 0, 0], &[1, 0, 0]));
    lot
}

/// Passes the lot down again and again, and adds up what it has when it comes back.
fn passes_down<R: Wait + Abort>(rt: &R, up: &mut Upper, lot: Lot) -> i128
    requires free { IsFree up.old }
    requires goes { MayGo up.old lot }
    ensures { up.new.link ≡ up.old.link }
{
    let mut lot = lot;
    let mut sum: i128 = 0;
    for _ in 0..ROUNDS {
        lot = goes_round(rt, up, lot);
        sum = sum.wrapping_add(count_of(&lot));
    }
    sum
}

// ---- the lower end

/// Takes the lot once it is lent.
fn holds<R: Wait>(rt: &R, low: &mut Lower) -> Lot
    requires { IsBelow low.old }
    ensures link { low.new.link ≡ low.old.link }
    ensures case { low.new.case ≡ low.old.case }
    ensures holds { Holds low.new result }
{
    let backoff = Backoff::new();
    for _ in rt.forever() {
        if let Some(lot) = low.try_hold() {
            return lot;
        }
        backoff.snooze();
    }
    unreachable!()
}

/// Waits until the first read is asked for.
fn hears<R: Wait + Abort>(rt: &R, low: &mut Lower)
    requires { IsBelow low.old }
    ensures at { IsBelow low.new }
    ensures link { low.new.link ≡ low.old.link }
    ensures case { low.new.case ≡ low.old.case }
    ensures held { low.new.held ≡ low.old.held }
    ensures asked { low.new.ask ≡ Some first_read }
{
    let backoff = Backoff::new();
    for _ in rt.forever() {
        if let Some(y) = low.asked() {
            assert!(rt; is_first_read(y));
            return;
        }
        backoff.snooze();
    }
    unreachable!()
}

/// Gives the lot for the first read, once that is asked for.
#[tactic(auto, using(crate::proofs::PassLemmas::stays_below))]
fn gives<R: Wait + Abort>(rt: &R, low: &mut Lower, lot: Lot)
    requires at { IsBelow low.old }
    requires fits { LotFits low.old.case 1 lot }
    requires served { Served low.old.case 1 low.old.held first_read lot }
    ensures at { IsBelow low.new }
    ensures link { low.new.link ≡ low.old.link }
{
    hears(rt, low);
    if low.try_give(lot).is_err() {
        unreachable!();
    }
}

/// Holds the lot without an event, and gives it with its first one.
#[tactic(auto, using(crate::proofs::PassLemmas::first_fits, crate::proofs::PassLemmas::serves_first))]
fn gives_first<R: Wait + Abort>(rt: &R, low: &mut Lower, first: Lot)
    requires at { IsBelow low.old }
    requires served { IsServed low.old.case first }
    ensures at { IsBelow low.new }
    ensures link { low.new.link ≡ low.old.link }
{
    let lot = holds(rt, low);
    assert!(rt; counts_are(&lot, &[0, 0, 0], &[0, 0, 0]));
    gives(rt, low, first);
}

/// Holds the lot with its first event, and gives it as it is. What it has in the count.
#[tactic(auto, using(crate::proofs::PassLemmas::serves_again))]
fn gives_again<R: Wait + Abort>(rt: &R, low: &mut Lower) -> i128
    requires { IsBelow low.old }
    ensures at { IsBelow low.new }
    ensures link { low.new.link ≡ low.old.link }
{
    clear_events_are_served();
    contents_are_settings();
    itags_are_of_nodes();
    let lot = holds(rt, low);
    assert!(rt; counts_are(&lot, &[0, 0, 0], &[1, 0, 0]));
    let count = count_of(&lot);
    gives(rt, low, lot);
    count
}

/// Passes the lot up again and again, and adds up what it has when it comes down.
fn passes_up<R: Wait + Abort>(rt: &R, low: &mut Lower, first: Lot) -> i128
    requires at { IsBelow low.old }
    requires served { IsServed low.old.case first }
    ensures { low.new.link ≡ low.old.link }
{
    gives_first(rt, low, first);
    let mut sum: i128 = 0;
    for _ in 1..ROUNDS {
        let count = gives_again(rt, low);
        sum = sum.wrapping_add(count);
    }
    sum
}

// ---- both

/// The upper end after its rounds, with its sum.
fn above<R: Wait + Abort>(rt: &R, up: Upper, lot: Lot) -> (Upper, i128)
    requires free { IsFree up }
    requires goes { MayGo up lot }
    ensures { result.0.link ≡ up.link }
{
    let mut up = up;
    let sum = passes_down(rt, &mut up, lot);
    (up, sum)
}

/// The lower end after its rounds, with its sum.
fn below<R: Wait + Abort>(rt: &R, low: Lower, first: Lot) -> (Lower, i128)
    requires at { IsBelow low }
    requires served { IsServed low.case first }
    ensures { result.0.link ≡ low.link }
{
    let mut low = low;
    let sum = passes_up(rt, &mut low, first);
    (low, sum)
}

/// The sums below and above. Nothing is left in the link.
fn passed<R: Threads + Wait + Sync + Abort>(
    rt: &R,
    up: Upper,
    low: Lower,
    lot: Lot,
    first: Lot,
) -> (i128, i128)
    requires one_link { low.link ≡ up.link }
    requires free { IsFree up }
    requires goes { MayGo up lot }
    requires at { IsBelow low }
    requires served { IsServed low.case first }
{
    let ((low, down), (up, back)) = join(
        rt,
        move || -> (Lower, i128)
            requires { IsBelow low × IsServed low.case first }
            ensures { result.0.link ≡ low.link }
        { below(rt, low, first) },
        move || -> (Upper, i128)
            requires { IsFree up × MayGo up lot }
            ensures { result.0.link ≡ up.link }
        { above(rt, up, lot) },
    );
    assert!(rt; close(up, low).is_none());
    (down, back)
}

/// Two threads pass a lot back and forth.
#[tactic(auto, using(crate::proofs::PassLemmas::free_first, crate::proofs::PassLemmas::below_first, crate::proofs::PassLemmas::goes_first))]
pub fn to_and_fro<R: Threads + Wait + Sync + Abort>(rt: &R, alloc: Global, case: &Case)
    requires { IsRow case.now }
{
    let (up, low) = link(alloc, case, 1).expect(rt, MEMORY);
    let lot = left_part(alloc, case).expect(rt, MEMORY);
    let first = left_part(alloc, case).expect(rt, MEMORY);
    let first = with_first_event(alloc, case, first).expect(rt, MEMORY);
    // At first it has nothing, and 5 from then on.
    assert_eq!(rt; passed(rt, up, low, lot, first), (249_995, 250_000));
}
