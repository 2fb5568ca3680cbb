//! What each step on the table says.

ghost use Rattle.flu_link.specs.Steps.{looks_up, fetches, stores_itag, stores_index, asks, lends, stops_up, sees_stop_up, looks_low, holds, replies};
ghost use Rattle.flu_link.specs.Steps.{stores_held, gives_lot, sees_itag, sees_index, stops_low, sees_stop_low, ends};
ghost use Rattle.flu_link.specs.Seats.{upper_side, lower_side, both_sides};
ghost use Rattle.flu_link.specs.declared.notes.View.TheVariants.{Closed};

use crate::notes::View;
use atomic_table::{Join, Play, Split};
use flu_fork::Lot;

// The upper end looks at the phase.
pub(crate) struct PeekUp;

impl Play<Option<Lot>, View> for PeekUp {
    ghost then = { looks_up };
}

// The upper end looks, and takes the slot where it finds Given.
pub(crate) struct Fetch;

impl Play<Option<Lot>, View> for Fetch {
    ghost then = { fetches };
}

pub(crate) struct StoreItag;

impl Play<Option<Lot>, View> for StoreItag {
    ghost then = { stores_itag };
}

pub(crate) struct StoreIndex;

impl Play<Option<Lot>, View> for StoreIndex {
    ghost then = { stores_index };
}

pub(crate) struct StoreAsked;

impl Play<Option<Lot>, View> for StoreAsked {
    ghost then = { asks };
}

pub(crate) struct StoreLent;

impl Play<Option<Lot>, View> for StoreLent {
    ghost then = { lends };
}

pub(crate) struct StopUp;

impl Play<Option<Lot>, View> for StopUp {
    ghost then = { stops_up };
}

pub(crate) struct SeeStopUp;

impl Play<Option<Lot>, View> for SeeStopUp {
    ghost then = { sees_stop_up };
}

// The lower end looks at the phase.
pub(crate) struct PeekLow;

impl Play<Option<Lot>, View> for PeekLow {
    ghost then = { looks_low };
}

// The lower end looks, and takes the lot where it finds Lent.
pub(crate) struct Hold;

impl Play<Option<Lot>, View> for Hold {
    ghost then = { holds };
}

// The lower end looks, and takes the empty slot where it finds Asked.
pub(crate) struct Reply;

impl Play<Option<Lot>, View> for Reply {
    ghost then = { replies };
}

pub(crate) struct StoreHeld;

impl Play<Option<Lot>, View> for StoreHeld {
    ghost then = { stores_held };
}

pub(crate) struct StoreGiven;

impl Play<Option<Lot>, View> for StoreGiven {
    ghost then = { gives_lot };
}

pub(crate) struct SeeItag;

impl Play<Option<Lot>, View> for SeeItag {
    ghost then = { sees_itag };
}

pub(crate) struct SeeIndex;

impl Play<Option<Lot>, View> for SeeIndex {
    ghost then = { sees_index };
}

pub(crate) struct StopLow;

impl Play<Option<Lot>, View> for StopLow {
    ghost then = { stops_low };
}

pub(crate) struct SeeStopLow;

impl Play<Option<Lot>, View> for SeeStopLow {
    ghost then = { sees_stop_low };
}

// The joined ends look, and take the slot.
pub(crate) struct End;

impl Play<Option<Lot>, View> for End {
    ghost then = { ends };
}

pub(crate) struct TwoEnds;

impl Split<View> for TwoEnds {
    ghost left = { upper_side };

    ghost right = { lower_side };
}

impl Join<View> for TwoEnds {
    ghost both = { both_sides };

    ghost spent = { Closed };
}
