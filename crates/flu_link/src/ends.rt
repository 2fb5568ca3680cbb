//! The two ends of a link.

ghost use Rattle.std.specs.Prelude.{◌≡◌, ◌≢◌, ◌⊎◌, ℕ, ◌+◌, ◌≤◌, true, false, if◌then◌else◌, Some, None, IfOk, OnOk, IsOk, IfErr, IfSome, OnSome, IfNone};
ghost use Rattle.std.specs.Prelude.{IsSome, slice_index};
ghost use Rattle.flu_fork.specs.declared.lots.Ask.{Ask as AskNote};
ghost use Rattle.flu_fork.specs.Lots.{LotFits};
ghost use Rattle.flu_fork.specs.Serving.{AsksAbove, GrownFrom, Served};
ghost use Rattle.flu_link.specs.Notes.{phase_lent, phase_held, phase_asked, phase_given, upper_start, lower_start, found_below, after_ask, after_take};
ghost use Rattle.flu_link.specs.Notes.{after_lend, found_above, after_hold, after_asked, after_give};
ghost use Rattle.flu_link.specs.Ends.{Closes};

use crate::notes::{ASKED, Board, GIVEN, HELD, LENT, Place};
use crate::steps::{
    End, Fetch, Hold, PeekLow, PeekUp, Reply, SeeIndex, SeeItag, SeeStopLow, SeeStopUp, StopLow,
    StopUp, StoreAsked, StoreGiven, StoreHeld, StoreIndex, StoreItag, StoreLent, TwoEnds,
};
use atomic_table::Table;
use flu_fork::{Ask, Case, Lot};
use flu_model::Itag;
use std::alloc::{AllocError, Global};
use std::marker::Model;
use std::sync::Arc;

/// The end of the worker above. It asks for lots, takes them and lends others.
///
/// Contracts see of it which link it is, the content of the case and the lower node, the phase that it found or stored last, the
/// counts of the lot lent last, the `upto` of the lot taken last, the event asked for last, whether there is no ask whose lot is not
/// yet taken, its looks at the phase, whether it stopped, and its looks at the stop word with the number found last.
#[derive(Drop)]
pub struct Upper {
    board: Arc<Board, Global>,
    place: Place,
}

impl Model for Upper {
    ghost use Rattle.std.specs.Arc.{arc_value};
    ghost use Rattle.std.specs.Coded.{codes};
    ghost use Rattle.flu_fork.specs.contracts.content.Content as e;
    ghost use Rattle.flu_link.specs.Seats.{upper_seat, upper_or};
    ghost use Rattle.flu_link.specs.Notes.{UpperNote};
    ghost use Rattle.flu_link.specs.Ends.{upper_note, IsUpper};

    ghost Value = { UpperNote };

    ghost coded = { Prim.hlevel (codes, e.the_row.coded) };

    ghost view = { λ u. upper_note u.place.table_id (upper_or (upper_seat (arc_value u.board).shared.key.0 (arc_value u.board).shared.key.1) u.place.me.0) };

    ghost invariant = { λ u. IsUpper (upper_seat (arc_value u.board).shared.key.0 (arc_value u.board).shared.key.1)
        (arc_value u.board).shared.table_id u.place.table_id u.place.me };
}

/// The end of the worker below. It holds lots and gives them back when asked.
///
/// Contracts see of it which link it is, the content of the case and the lower node, the phase that it found or stored last, the
/// counts of the lot held last, the `upto` of the lot given last, the ask that it read since it stored a phase, its looks at the
/// phase, whether it stopped, and its looks at the stop word with the number found last.
#[derive(Drop)]
pub struct Lower {
    board: Arc<Board, Global>,
    place: Place,
}

impl Model for Lower {
    ghost use Rattle.std.specs.Arc.{arc_value};
    ghost use Rattle.std.specs.Coded.{codes};
    ghost use Rattle.flu_fork.specs.contracts.content.Content as e;
    ghost use Rattle.flu_link.specs.Seats.{lower_seat, lower_or};
    ghost use Rattle.flu_link.specs.Notes.{LowerNote};
    ghost use Rattle.flu_link.specs.Ends.{lower_note, IsLower};

    ghost Value = { LowerNote };

    ghost coded = { Prim.hlevel (codes, e.the_row.coded) };

    ghost view = { λ l. lower_note l.place.table_id (lower_or (lower_seat (arc_value l.board).shared.key.0 (arc_value l.board).shared.key.1) l.place.me.0) };

    ghost invariant = { λ l. IsLower (lower_seat (arc_value l.board).shared.key.0 (arc_value l.board).shared.key.1)
        (arc_value l.board).shared.table_id l.place.table_id l.place.me };
}

/// A link to this node, with nothing in it. Its phase is Given, so a lot is lent next.
///
/// # Errors
///
/// Only if memory runs out.
pub fn link(alloc: Global, case: &Case, lower: u32) -> Result<(Upper, Lower), AllocError>
    ensures one_link { IfOk result (λ r. r.1.link ≡ r.0.link) }
    ensures upper { IfOk result (λ r. r.0 ≡ upper_start r.0.link case.now lower) }
    ensures lower { IfOk result (λ r. r.1 ≡ lower_start r.1.link case.now lower) }
{
    let about = (case.note(), lower);
    let (table, mut place) = Table::vacant(alloc, &[GIVEN, 0, 0, 0], 1, &about)?;
    let board = Arc::new(alloc, table)?;
    let theirs = Arc::try_clone(&board)?;
    let seat = board.shared.split_seat::<TwoEnds>(&mut place);
    let upper = Upper { board, place };
    let lower = Lower {
        board: theirs,
        place: seat,
    };
    Ok((upper, lower))
}

impl Upper {
    /// Asks for a lot that has all that comes before this event, and says whether it did. It did not where the lower end does not
    /// hold a lot, as far as a look in this call shows.
    pub fn try_ask(&mut self, a: Ask) -> bool
        requires above { AsksAbove self.old.case self.old.lower a }
        requires next { a.index ≡ slice_index self.old.lent.upto a.itag.0 }
        ensures asked { result ≡ true → self.new ≡ after_ask self.old a }
        ensures sure { self.old.phase ≡ phase_held → result ≡ true }
        ensures not_yet { result ≡ false → (self.new ≡ found_below self.old self.new.phase) × (self.new.phase ≢ phase_held) }
        ensures still { result ≡ false → self.old.phase ≤ phase_held → self.new.phase ≤ phase_held }
    {
        let shared = &self.board.shared;
        if shared.load::<PeekUp>(&mut self.place, 0) != HELD {
            return false;
        }
        shared.store::<StoreItag>(&mut self.place, 1, u64::from(a.itag.0));
        shared.store::<StoreIndex>(&mut self.place, 2, a.index);
        shared.store::<StoreAsked>(&mut self.place, 0, ASKED);
        true
    }

    /// Takes the lot that was given for the ask. `None` where none is given, as far as a look in this call shows, or where nothing
    /// was given since the link was made or since the last take.
    pub fn try_take(&mut self) -> Option<Lot>
        ensures note { IfSome result (λ lot. self.new ≡ after_take self.old lot) }
        ensures fits { IfSome result (LotFits self.old.case self.old.lower) }
        ensures served { IfSome result (Served self.old.case self.old.lower self.old.lent self.old.ask) }
        ensures asked { OnSome result (self.old.taken ≡ false) }
        ensures not_yet { IfNone result ((self.new ≡ found_below self.old self.new.phase) × ((self.new.phase ≢ phase_given) ⊎ (self.old.taken ≡ true))) }
        ensures still { IfNone result (self.old.phase ≤ phase_held → self.new.phase ≤ phase_held) }
    {
        let shared = &self.board.shared;
        if shared.load::<Fetch>(&mut self.place, 0) != GIVEN {
            return None;
        }
        shared.exchange(&mut self.place, 0, None)
    }

    /// Lends a lot.
    ///
    /// # Errors
    ///
    /// The same lot where one is lent already, as far as a look in this call shows.
    pub fn try_lend(&mut self, lot: Lot) -> Result<(), Lot>
        requires fits { LotFits self.old.case self.old.lower lot }
        requires grown { GrownFrom self.old.case self.old.lower self.old.received lot.upto }
        requires free { self.old.taken ≡ true }
        ensures lent { OnOk result (self.new ≡ after_lend self.old lot) }
        ensures sure { self.old.phase ≡ phase_given → IsOk result }
        ensures not_yet { IfErr result (λ back. (back ≡ lot) × (self.new ≡ found_below self.old self.new.phase) × (self.new.phase ≢ phase_given)) }
    {
        let shared = &self.board.shared;
        if shared.load::<Fetch>(&mut self.place, 0) != GIVEN {
            return Err(lot);
        }
        shared.exchange(&mut self.place, 0, Some(lot));
        shared.store::<StoreLent>(&mut self.place, 0, LENT);
        Ok(())
    }

    /// Tells both ends to stop.
    pub fn stop(&mut self)
        ensures { self.new ≡ record self.old { stopped = true } }
    {
        self.board.shared.store::<StopUp>(&mut self.place, 3, 1);
    }

    /// Whether an end has stopped, as a look in this call finds it.
    pub fn stopped(&mut self) -> bool
        ensures note { self.new ≡ record self.old { stop_looks = self.old.stop_looks + 1; stop_found = if result then 1 else 0 } }
        ensures own { self.old.stopped ≡ true → result ≡ true }
        ensures stays { self.old.stop_found ≤ self.new.stop_found }
    {
        self.board.shared.load::<SeeStopUp>(&mut self.place, 3) == 1
    }
}

impl Lower {
    /// Takes the lot that was lent. `None` where none is lent, as far as a look in this call shows.
    pub fn try_hold(&mut self) -> Option<Lot>
        ensures note { IfSome result (λ lot. self.new ≡ after_hold self.old lot) }
        ensures fits { IfSome result (LotFits self.old.case self.old.lower) }
        ensures grown { IfSome result (λ lot. GrownFrom self.old.case self.old.lower self.old.given lot.upto) }
        ensures not_yet { IfNone result ((self.new ≡ found_above self.old self.new.phase) × (self.new.phase ≢ phase_lent)) }
        ensures still { IfNone result (phase_held ≤ self.old.phase → self.old.phase ≤ phase_asked → (phase_held ≤ self.new.phase)
            × (self.new.phase ≤ phase_asked)) }
    {
        let shared = &self.board.shared;
        if shared.load::<Hold>(&mut self.place, 0) != LENT {
            return None;
        }
        let lot = shared.exchange(&mut self.place, 0, None);
        shared.store::<StoreHeld>(&mut self.place, 0, HELD);
        lot
    }

    /// The event for which a lot is asked. `None` where none is asked for, as far as a look in this call shows.
    pub fn asked(&mut self) -> Option<Ask>
        ensures note { IfSome result (λ y. self.new ≡ after_asked self.old y) }
        ensures above { IfSome result (AsksAbove self.old.case self.old.lower) }
        ensures next { IfSome result (λ y. y.index ≡ slice_index self.old.held.upto y.itag.0) }
        ensures sure { self.old.phase ≡ phase_asked → IsSome result }
        ensures not_yet { IfNone result ((self.new ≡ found_above self.old self.new.phase) × (self.new.phase ≢ phase_asked)) }
        ensures still { IfNone result (phase_held ≤ self.old.phase → self.old.phase ≤ phase_asked → (phase_held ≤ self.new.phase)
            × (self.new.phase ≤ phase_asked)) }
    {
        let shared = &self.board.shared;
        if shared.load::<PeekLow>(&mut self.place, 0) != ASKED {
            return None;
        }
        let itag = shared.load::<SeeItag>(&mut self.place, 1) as u32;
        let index = shared.load::<SeeIndex>(&mut self.place, 2);
        Some(Ask {
            itag: Itag(itag),
            index,
        })
    }

    /// Gives a lot for the ask that was read last.
    ///
    /// # Errors
    ///
    /// The same lot where nothing is asked for, as far as a look in this call shows. Since an ask was read, that does not happen.
    pub fn try_give(&mut self, lot: Lot) -> Result<(), Lot>
        requires noted { IsSome self.old.ask }
        requires fits { LotFits self.old.case self.old.lower lot }
        requires served { (y : AskNote) → self.old.ask ≡ Some y → Served self.old.case self.old.lower self.old.held y lot }
        ensures given { OnOk result (self.new ≡ after_give self.old lot) }
        ensures sure { IsOk result }
        ensures not_yet { IfErr result (λ back. (back ≡ lot) × (self.new ≡ found_above self.old self.new.phase) × (self.new.phase ≢ phase_asked)) }
    {
        let shared = &self.board.shared;
        if shared.load::<Reply>(&mut self.place, 0) != ASKED {
            return Err(lot);
        }
        shared.exchange(&mut self.place, 0, Some(lot));
        shared.store::<StoreGiven>(&mut self.place, 0, GIVEN);
        Ok(())
    }

    /// Tells both ends to stop.
    pub fn stop(&mut self)
        ensures { self.new ≡ record self.old { stopped = true } }
    {
        self.board.shared.store::<StopLow>(&mut self.place, 3, 1);
    }

    /// Whether an end has stopped, as a look in this call finds it.
    pub fn stopped(&mut self) -> bool
        ensures note { self.new ≡ record self.old { stop_looks = self.old.stop_looks + 1; stop_found = if result then 1 else 0 } }
        ensures own { self.old.stopped ≡ true → result ≡ true }
        ensures stays { self.old.stop_found ≤ self.new.stop_found }
    {
        self.board.shared.load::<SeeStopLow>(&mut self.place, 3) == 1
    }
}

/// Closes a link, and gives the lot that is in it. `None` exactly if a lot is held or asked for, or nothing was given since
/// the link was made or since the last take.
pub fn close(upper: Upper, lower: Lower) -> Option<Lot>
    requires { lower.link ≡ upper.link }
    ensures found { (phase : ℕ) × Closes upper lower phase result }
    ensures agree { upper.phase ≤ phase_held → lower.phase ≡ phase_held → (result ≡ None) × (lower.held ≡ upper.lent) }
{
    let Upper { board, mut place } = upper;
    let Lower {
        board: _,
        place: other,
    } = lower;
    board.shared.join_seat::<TwoEnds>(&mut place, other);
    board.shared.load::<End>(&mut place, 0);
    board.shared.exchange(&mut place, 0, None)
}
