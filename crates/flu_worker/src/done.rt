//! Updating a lot with an event, and counting the event.

ghost use Rattle.std.specs.Prelude.{◌≡◌, ◌<◌, ◌+◌, true, None, length, slice_index, slice_set, OnOk, OnErr};
ghost use Rattle.flu_fork.specs.declared.lots.Lot.{Lot as LotNote};
ghost use Rattle.flu_fork.specs.Lots.{nodes, kids, LotFits};
ghost use Rattle.flu_worker.specs.Agreeing.{IsExactFor};
ghost use Rattle.flu_worker.specs.Doing.{PutsOut, DoneIn};
ghost use Rattle.flu_worker.specs.Hands.{is_whole};
ghost use Rattle.flu_worker.specs.Holding.{hand_of};
ghost use Rattle.flu_worker.specs.Moving.{IsWholeOf};
ghost use Rattle.flu_worker.specs.declared.holding.Holding.TheVariants.{Gone};

use crate::holding::{Holding, held_as, taken};
use crate::laws::laws_below;
use crate::moving::whole_of;
use flu_fork::{Ask, Case, Lot};
use flu_model::{Event, Outs};
use flu_step::update;
use std::alloc::{AllocError, Global};

/// The lot of a whole hand, updated with the event that x names, for which its counts are exact, with this event counted. An inner
/// worker then forks it.
///
/// A leaf's lot stays in place, since moving it takes longer than most updates. If memory runs out, nothing is left of the lot.
pub fn done_in(
    alloc: Global,
    case: &Case,
    node: u32,
    holding: &mut Holding,
    x: Ask,
    event: &Event,
    outs: &mut Outs,
) -> Result<(), AllocError>
    requires whole { is_whole (hand_of holding.old) ≡ true }
    requires exact { (lot : LotNote) → IsWholeOf holding.old lot → IsExactFor case.now node lot.upto x event.now }
    requires fits { (lot : LotNote) → IsWholeOf holding.old lot → LotFits case.now node lot }
    requires node { node < length (nodes case.now) }
    ensures done { OnOk result (DoneIn case.now node x holding.old holding.new) }
    ensures outs { OnOk result (PutsOut case.now x outs.old outs.new) }
    ensures gone { OnErr result (holding.new ≡ Gone) }
{
    if case.valid().kids(node).is_none() {
        return done_at_leaf(alloc, case, node, holding, x, event, outs);
    }
    let mut lot = whole_of(taken(holding));
    done(alloc, case, node, &mut lot, x, event, outs)?;
    *holding = held_as(alloc, case, node, lot)?;
    Ok(())
}

// Updates the lot of a leaf and counts the event.
fn done_at_leaf(
    alloc: Global,
    case: &Case,
    node: u32,
    holding: &mut Holding,
    x: Ask,
    event: &Event,
    outs: &mut Outs,
) -> Result<(), AllocError>
    requires leaf { kids case.now node ≡ None }
    requires whole { is_whole (hand_of holding.old) ≡ true }
    requires exact { (lot : LotNote) → IsWholeOf holding.old lot → IsExactFor case.now node lot.upto x event.now }
    requires fits { (lot : LotNote) → IsWholeOf holding.old lot → LotFits case.now node lot }
    ensures done { OnOk result (DoneIn case.now node x holding.old holding.new) }
    ensures outs { OnOk result (PutsOut case.now x outs.old outs.new) }
    ensures gone { OnErr result (holding.new ≡ Gone) }
{
    let told = match holding {
        Holding::Whole(lot) => done(alloc, case, node, lot, x, event, outs),
        _ => unreachable!(),
    };
    if told.is_err() {
        *holding = Holding::Gone;
    }
    told
}

// Updates the lot of a node and counts the event.
fn done(
    alloc: Global,
    case: &Case,
    node: u32,
    lot: &mut Lot,
    x: Ask,
    event: &Event,
    outs: &mut Outs,
) -> Result<(), AllocError>
    requires exact { IsExactFor case.now node lot.old.upto x event.now }
    requires fits { LotFits case.now node lot.old }
    ensures fits { OnOk result (LotFits case.now node lot.new) }
    ensures since { OnOk result (lot.new.since ≡ lot.old.since) }
    ensures upto { OnOk result (lot.new.upto ≡ slice_set lot.old.upto x.itag.0 (slice_index lot.old.upto x.itag.0 + 1)) }
    ensures outs { OnOk result (PutsOut case.now x outs.old outs.new) }
{
    laws_below();
    // There are at least as many items as events, so one more event can be counted.
    if x.index >= case.streams().items(x.itag).len() as u64 {
        unreachable!();
    }
    update(alloc, case.checked().program(), &mut lot.state, event, outs)?;
    lot.upto.count_one(x.itag.0 as usize);
    Ok(())
}
