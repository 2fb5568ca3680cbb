//! Which event a worker takes next, which one it aims at, and when it may give its lot.

ghost use Rattle.std.specs.Prelude.{◌≡◌, ◌<◌, true, IfSome, slice_index};
ghost use Rattle.std.specs.List.{AllByRecursion};
ghost use Rattle.flu_model.specs.declared.events.Itag.{Itag as ItagNote};
ghost use Rattle.flu_model.specs.Itags.{count_of_itags};
ghost use Rattle.flu_model.specs.Owners.{owns};
ghost use Rattle.flu_fork.specs.Lots.{job, nodes};
ghost use Rattle.flu_mail.specs.Mailboxes.{counts_of};
ghost use Rattle.flu_worker.specs.Hands.{is_whole, is_down};
ghost use Rattle.flu_worker.specs.Choosing.{sight_at, own_itags, above_itags, next_at, takes, if_ready, event_of, serves, earlier, least_next, least_ready};
ghost use Rattle.flu_worker.specs.Choosing.{ask_for, if_own, if_serves, is_same_ask, first_some, new_target, next_by, target_by, gives_by};
ghost use Rattle.flu_worker.specs.Sights.{IsMailFor, comes_first, comes_before, due_of, earlier_due, first_due};

use crate::hand::Hand;
use crate::laws::laws_below;
use flu_fork::{Ask, Case};
use flu_mail::Mailbox;
use flu_model::{Event, Itag, before};

/// The itags that the node owns.
pub fn own_itags<'a>(case: &'a Case, node: u32) -> &'a [Itag]
    ensures listed { result.now ≡ own_itags case.now node }
    ensures known { AllByRecursion (λ (i : ItagNote). i.0 < count_of_itags (job case.now)) result.now }
{
    case.tables().own(node)
}

/// The itags of the nodes above.
pub fn above_itags<'a>(case: &'a Case, node: u32) -> &'a [Itag]
    ensures listed { result.now ≡ above_itags case.now node }
    ensures known { AllByRecursion (λ (i : ItagNote). i.0 < count_of_itags (job case.now)) result.now }
{
    case.tables().above(node)
}

// The next event of an itag.
fn next_at(case: &Case, node: u32, mail: &Mailbox, i: Itag) -> Option<Event>
    requires mail { IsMailFor case.now node mail.now }
    requires known { i.0 < count_of_itags (job case.now) }
    ensures { result ≡ next_at (sight_at case.now node mail.now) i }
{
    mail.next(case.streams(), i)
}

// Whether the node may take its event.
fn takes(case: &Case, node: u32, mail: &Mailbox, x: &Event) -> bool
    requires mail { IsMailFor case.now node mail.now }
    ensures { result ≡ takes (sight_at case.now node mail.now) x.now }
{
    mail.ready(case.tables(), case.streams(), x)
}

/// The time and the itag of an event, by which events are ordered.
#[derive(Clone, Copy)]
pub struct Due {
    pub time: u64,
    pub itag: Itag,
}

// Whether an event comes before what was found so far.
fn comes_before(y: &Event, found: Due) -> bool
    ensures { result ≡ comes_before y.now found }
{
    y.time < found.time || (y.time == found.time && y.itag.0 < found.itag.0)
}

fn due_of(next: Option<Event>) -> Option<Due>
    ensures { result ≡ due_of next }
{
    match next {
        Some(y) => Some(Due {
            time: y.time,
            itag: y.itag,
        }),
        None => None,
    }
}

// What was found so far, or the time and the itag of a next event, if this one is earlier.
fn earlier_due(found: Option<Due>, next: Option<Event>) -> Option<Due>
    ensures { result ≡ earlier_due found next }
{
    match found {
        Some(x) => match next {
            Some(y) => {
                if comes_before(&y, x) {
                    due_of(Some(y))
                } else {
                    Some(x)
                }
            }
            None => Some(x),
        },
        None => due_of(next),
    }
}

// The time and the itag of the least next event of the node's own itags. Whole events would be copied through memory at each step.
fn first_due(case: &Case, node: u32, mail: &Mailbox) -> Option<Due>
    requires mail { IsMailFor case.now node mail.now }
    ensures { result ≡ first_due (sight_at case.now node mail.now) }
{
    let mut found = None;
    for i in own_itags(case, node) {
        found = earlier_due(found, next_at(case, node, mail, *i));
    }
    found
}

// The least next event of the node's own itags, by a look at each.
fn search_next(case: &Case, node: u32, mail: &Mailbox) -> Option<Event>
    requires mail { IsMailFor case.now node mail.now }
    ensures { result ≡ least_next (sight_at case.now node mail.now) }
{
    laws_below();
    match first_due(case, node, mail) {
        Some(due) => next_at(case, node, mail, due.itag),
        None => None,
    }
}

// The least next event of the node's own itags. The mailbox mostly has it at hand.
fn least_next(case: &Case, node: u32, mail: &Mailbox) -> Option<Event>
    requires mail { IsMailFor case.now node mail.now }
    ensures { result ≡ least_next (sight_at case.now node mail.now) }
{
    laws_below();
    match mail.first(case.streams()) {
        Some(x) => Some(x),
        None => search_next(case, node, mail),
    }
}

fn if_ready(case: &Case, node: u32, mail: &Mailbox, next: Option<Event>) -> Option<Event>
    requires mail { IsMailFor case.now node mail.now }
    ensures { result ≡ if_ready (sight_at case.now node mail.now) next }
{
    match next {
        Some(x) => {
            if takes(case, node, mail, &x) {
                Some(x)
            } else {
                None
            }
        }
        None => None,
    }
}

// Whether an event comes before the one that was found so far.
fn comes_first(x: &Event, found: &Option<Event>) -> bool
    ensures { result ≡ comes_first x.now found.now }
{
    match found {
        Some(y) => before(x, y),
        None => true,
    }
}

// The earlier of what was found so far and the next event of an itag, if the node may take that. Whether the node may take it is
// checked last, since that takes longest.
fn earlier_ready(
    case: &Case,
    node: u32,
    mail: &Mailbox,
    found: Option<Event>,
    i: Itag,
) -> Option<Event>
    requires mail { IsMailFor case.now node mail.now }
    requires known { i.0 < count_of_itags (job case.now) }
    ensures { result ≡ earlier found (if_ready (sight_at case.now node mail.now) (next_at (sight_at case.now node mail.now) i)) }
{
    match next_at(case, node, mail, i) {
        Some(x) => {
            if comes_first(&x, &found) && takes(case, node, mail, &x) {
                Some(x)
            } else {
                found
            }
        }
        None => found,
    }
}

// The least of the next events that the node may take.
fn search_ready(case: &Case, node: u32, mail: &Mailbox) -> Option<Event>
    requires mail { IsMailFor case.now node mail.now }
    ensures { result ≡ least_ready (sight_at case.now node mail.now) }
{
    let mut found = None;
    for i in own_itags(case, node) {
        found = earlier_ready(case, node, mail, found, *i);
    }
    found
}

// The least of the next events that the node may take. The least next event is tried first, and usually is the one.
fn least_ready(case: &Case, node: u32, mail: &Mailbox) -> Option<Event>
    requires mail { IsMailFor case.now node mail.now }
    ensures { result ≡ least_ready (sight_at case.now node mail.now) }
{
    match least_next(case, node, mail) {
        Some(x) => {
            if takes(case, node, mail, &x) {
                Some(x)
            } else {
                search_ready(case, node, mail)
            }
        }
        None => None,
    }
}

// An event as it is asked for.
fn ask_for(case: &Case, node: u32, mail: &Mailbox, found: Option<Event>) -> Option<Ask>
    ensures { result ≡ ask_for (sight_at case.now node mail.now) found }
{
    match found {
        Some(x) => Some(Ask {
            itag: x.itag,
            index: mail.count(x.itag),
        }),
        None => None,
    }
}

// Whether the node may serve the event that y names, which is the next one of its itag by the worker's counts.
fn serves(case: &Case, node: u32, mail: &Mailbox, y: Ask) -> bool
    requires mail { IsMailFor case.now node mail.now }
    requires known { y.itag.0 < count_of_itags (job case.now) }
    requires next { y.index ≡ slice_index (counts_of mail.now) y.itag.0 }
    ensures { result ≡ serves (sight_at case.now node mail.now) (event_of case.now y) }
{
    match mail.pending(case.streams(), y.itag) {
        Some(x) => mail.ready_to_serve(case.tables(), case.streams(), &x),
        None => false,
    }
}

// What is asked, if the node may serve it.
fn if_serves(case: &Case, node: u32, mail: &Mailbox, asked: Option<Ask>) -> Option<Ask>
    requires mail { IsMailFor case.now node mail.now }
    requires known { IfSome asked (λ y. y.itag.0 < count_of_itags (job case.now)) }
    requires next { IfSome asked (λ y. y.index ≡ slice_index (counts_of mail.now) y.itag.0) }
    ensures { result ≡ if_serves (sight_at case.now node mail.now) asked }
{
    match asked {
        Some(y) => {
            if serves(case, node, mail, y) {
                Some(y)
            } else {
                None
            }
        }
        None => None,
    }
}

// The first of two asks that is present.
fn first_some(a: Option<Ask>, b: Option<Ask>) -> Option<Ask>
    ensures { result ≡ first_some a b }
{
    match a {
        Some(y) => Some(y),
        None => b,
    }
}

// A new target of a worker whose parts are both lent.
fn new_target(case: &Case, node: u32, mail: &Mailbox, asked: Option<Ask>) -> Option<Ask>
    requires mail { IsMailFor case.now node mail.now }
    requires known { IfSome asked (λ y. y.itag.0 < count_of_itags (job case.now)) }
    requires next { IfSome asked (λ y. y.index ≡ slice_index (counts_of mail.now) y.itag.0) }
    ensures { result ≡ new_target (sight_at case.now node mail.now) asked }
{
    let own = if_ready(case, node, mail, least_next(case, node, mail));
    first_some(
        ask_for(case, node, mail, own),
        if_serves(case, node, mail, asked),
    )
}

// Whether an ask is the kept target.
fn is_same(y: Ask, kept: Option<Ask>) -> bool
    ensures { result ≡ is_same_ask y kept }
{
    match kept {
        Some(x) => x.itag.0 == y.itag.0 && x.index == y.index,
        None => false,
    }
}

// Whether the node owns an itag.
fn owns(case: &Case, node: u32, i: Itag) -> bool
    requires { i.0 < count_of_itags (job case.now) }
    ensures { result ≡ owns (job case.now) (nodes case.now) node i }
{
    laws_below();
    case.valid().owner(i) == node
}

// The kept target, if the node owns it.
fn if_own(case: &Case, node: u32, mail: &Mailbox, kept: Option<Ask>) -> Option<Ask>
    requires known { IfSome kept (λ y. y.itag.0 < count_of_itags (job case.now)) }
    ensures { result ≡ if_own (sight_at case.now node mail.now) kept }
{
    match kept {
        Some(y) => {
            if owns(case, node, y.itag) {
                Some(y)
            } else {
                None
            }
        }
        None => None,
    }
}

/// The event that a worker takes next: `laws::next_events_are_least` says which one that is.
pub fn next_ask(
    case: &Case,
    node: u32,
    mail: &Mailbox,
    hand: Hand,
    kept: Option<Ask>,
) -> Option<Ask>
    requires mail { IsMailFor case.now node mail.now }
    requires known { IfSome kept (λ y. y.itag.0 < count_of_itags (job case.now)) }
    ensures { result ≡ next_by (sight_at case.now node mail.now) hand kept }
{
    if !is_whole(hand) {
        return None;
    }
    if case.valid().kids(node).is_none() {
        ask_for(case, node, mail, least_ready(case, node, mail))
    } else {
        if_own(case, node, mail, kept)
    }
}

/// The target of a worker.
pub fn target(
    case: &Case,
    node: u32,
    mail: &Mailbox,
    hand: Hand,
    kept: Option<Ask>,
    asked: Option<Ask>,
) -> Option<Ask>
    requires mail { IsMailFor case.now node mail.now }
    requires known { IfSome asked (λ y. y.itag.0 < count_of_itags (job case.now)) }
    requires next { is_down hand ≡ true → IfSome asked (λ y. y.index ≡ slice_index (counts_of mail.now) y.itag.0) }
    ensures { result ≡ target_by (sight_at case.now node mail.now) hand kept asked }
{
    match kept {
        Some(y) => Some(y),
        None => {
            if is_down(hand) {
                new_target(case, node, mail, asked)
            } else {
                None
            }
        }
    }
}

/// Whether a worker may give its lot for the next event of an itag above it.
pub fn gives(case: &Case, node: u32, mail: &Mailbox, hand: Hand, kept: Option<Ask>, y: Ask) -> bool
    requires mail { IsMailFor case.now node mail.now }
    requires known { y.itag.0 < count_of_itags (job case.now) }
    requires next { is_whole hand ≡ true → y.index ≡ slice_index (counts_of mail.now) y.itag.0 }
    ensures { result ≡ gives_by (sight_at case.now node mail.now) hand kept y }
{
    if !is_whole(hand) {
        return false;
    }
    if case.valid().kids(node).is_none() {
        serves(case, node, mail, y)
    } else {
        is_same(y, kept)
    }
}

fn is_whole(hand: Hand) -> bool
    ensures { result ≡ is_whole hand }
{
    matches!(hand, Hand::Whole)
}

fn is_down(hand: Hand) -> bool
    ensures { result ≡ is_down hand }
{
    matches!(hand, Hand::Down)
}
