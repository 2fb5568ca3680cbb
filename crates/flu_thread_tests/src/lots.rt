//! Lots that take events.

ghost use Rattle.std.specs.Prelude.{◌≡◌, ◌+◌, ◌∷◌, [], true, slice_index, slice_set, IfOk, IfSome, OnOk};
ghost use Rattle.flu_thread_tests.specs.Rows.{IsRow, IsUnused, IsServed};
ghost use Rattle.flu_thread_tests.specs.Walks.{ComesNext, FitsOwner};

use flu_fork::laws::{
    clear_events_are_served, contents_are_settings, events_have_moments, itags_are_of_nodes,
    prefixes_are_of_streams, updates_fit,
};
use flu_fork::{Case, Lot, fork, opening_lot};
use flu_model::{Event, Itag, Outs};
use flu_step::update;
use std::alloc::{AllocError, Global};

/// The first event of the left leaf.
pub const INC_5: Event = Event {
    time: 1,
    itag: Itag(0),
    item: 0,
    value: 5,
};

/// The part of the opening lot that goes to the left leaf.
pub fn left_part(alloc: Global, case: &Case) -> Result<Lot, AllocError>
    requires { IsRow case.now }
    ensures { IfOk result (IsUnused case.now) }
{
    let (left, _) = fork(alloc, case, 0, opening_lot(alloc, case)?)?;
    Ok(left)
}

pub fn counts_are(lot: &Lot, since: &[u64], upto: &[u64]) -> bool
    ensures since { result ≡ true → lot.now.since ≡ since.now }
    ensures upto { result ≡ true → lot.now.upto ≡ upto.now }
{
    lot.since.items() == since && lot.upto.items() == upto
}

/// The lot of an event's owner takes it, if it comes next.
pub fn takes(
    alloc: Global,
    case: &Case,
    lot: &mut Lot,
    x: &Event,
    outs: &mut Outs,
) -> Result<(), AllocError>
    requires next { ComesNext case.now lot.old x.now }
    requires fits { FitsOwner case.now x.now lot.old }
    ensures fits { OnOk result (FitsOwner case.now x.now lot.new) }
    ensures since { OnOk result (lot.new.since ≡ lot.old.since) }
    ensures upto { OnOk result (lot.new.upto ≡ slice_set lot.old.upto x.now.itag.0 (slice_index lot.old.upto x.now.itag.0 + 1)) }
{
    contents_are_settings();
    events_have_moments();
    prefixes_are_of_streams();
    updates_fit();
    update(alloc, case.checked().program(), &mut lot.state, x, outs)?;
    lot.upto.count_one(x.itag.0 as usize);
    Ok(())
}

/// The lot of the left leaf with its first event.
pub fn with_first_event(alloc: Global, case: &Case, mut lot: Lot) -> Result<Lot, AllocError>
    requires row { IsRow case.now }
    requires unused { IsUnused case.now lot }
    ensures { IfOk result (IsServed case.now) }
{
    clear_events_are_served();
    contents_are_settings();
    itags_are_of_nodes();
    let mut outs = Outs::of(Vec::new(alloc));
    takes(alloc, case, &mut lot, &INC_5, &mut outs)?;
    Ok(lot)
}
