//! The end above a worker: of a link, or of the root, which has nothing above it.

ghost use Rattle.std.specs.Prelude.{◌≡◌, ◌≢◌, ◌<◌, IfSome, IfNone, IsSome, Some, slice_index};
ghost use Rattle.flu_fork.specs.declared.lots.Ask.{Ask as AskNote};
ghost use Rattle.flu_fork.specs.Lots.{LotFits};
ghost use Rattle.flu_fork.specs.Serving.{AsksAbove, GrownFrom, Served};
ghost use Rattle.flu_link.specs.Notes.{phase_asked, after_hold, after_asked, after_give};
ghost use Rattle.flu_run.specs.EndNotes.{end_note, LooksUp, LooksAside};

use flu_fork::{Ask, CaseNote, Lot};
use flu_link::Lower;

/// The end above a worker. The root has one as well: it holds the opening lot, is never asked for anything, and is never stopped.
#[derive(Drop)]
pub enum End {
    Linked(Lower),
    Top(CaseNote),
}

impl End {
    /// Takes the lot that was lent. `None` if none is lent yet.
    pub fn try_hold(&mut self) -> Option<Lot>
        ensures note { IfSome result (λ lot. end_note self.new ≡ after_hold (end_note self.old) lot) }
        ensures fits { IfSome result (LotFits (end_note self.old).case (end_note self.old).lower) }
        ensures grown { IfSome result (λ lot. GrownFrom (end_note self.old).case (end_note self.old).lower (end_note self.old).given lot.upto) }
        ensures not_yet { IfNone result (LooksUp (end_note self.old) (end_note self.new)) }
    {
        match self {
            End::Linked(lower) => lower.try_hold(),
            End::Top(_) => None,
        }
    }

    /// The event for which a lot is asked. `None` if none is asked for yet.
    pub fn asked(&mut self) -> Option<Ask>
        ensures note { IfSome result (λ y. end_note self.new ≡ after_asked (end_note self.old) y) }
        ensures above { IfSome result (AsksAbove (end_note self.old).case (end_note self.old).lower) }
        ensures next { IfSome result (λ y. y.index ≡ slice_index (end_note self.old).held.upto y.itag.0) }
        ensures not_yet { IfNone result (LooksUp (end_note self.old) (end_note self.new)) }
        ensures none { IfNone result ((end_note self.new).phase ≢ phase_asked) }
    {
        match self {
            End::Linked(lower) => lower.asked(),
            End::Top(_) => None,
        }
    }

    /// Gives a lot for the event that was asked for last.
    pub fn give(&mut self, lot: Lot)
        requires noted { IsSome (end_note self.old).ask }
        requires fits { LotFits (end_note self.old).case (end_note self.old).lower lot }
        requires served { (y : AskNote) → (end_note self.old).ask ≡ Some y
            → Served (end_note self.old).case (end_note self.old).lower (end_note self.old).held y lot }
        ensures { end_note self.new ≡ after_give (end_note self.old) lot }
    {
        match self {
            End::Linked(lower) => give(lower, lot),
            End::Top(_) => unreachable!(),
        }
    }

    /// Tells all to stop.
    pub fn stop(&mut self)
        ensures { LooksAside (end_note self.old) (end_note self.new) }
    {
        match self {
            End::Linked(lower) => lower.stop(),
            End::Top(_) => {}
        }
    }

    /// Whether it is to stop.
    pub fn stopped(&mut self) -> bool
        ensures { LooksAside (end_note self.old) (end_note self.new) }
    {
        match self {
            End::Linked(lower) => lower.stopped(),
            End::Top(_) => false,
        }
    }

    /// The end of the link to a node that is not the root.
    pub fn into_lower(self) -> Lower
        requires { 0 < (end_note self).lower }
        ensures { result ≡ end_note self }
    {
        match self {
            End::Linked(lower) => lower,
            End::Top(_) => unreachable!(),
        }
    }
}

// Gives a lot for the event that was asked for last.
fn give(lower: &mut Lower, lot: Lot)
    requires noted { IsSome lower.old.ask }
    requires fits { LotFits lower.old.case lower.old.lower lot }
    requires served { (y : AskNote) → lower.old.ask ≡ Some y → Served lower.old.case lower.old.lower lower.old.held y lot }
    ensures { lower.new ≡ after_give lower.old lot }
{
    let Ok(()) = lower.try_give(lot) else {
        unreachable!();
    };
}
