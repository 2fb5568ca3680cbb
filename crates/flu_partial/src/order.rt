//! Which contributions, one after another, make a whole partial.

ghost use Rattle.std.specs.Prelude.{◌≡◌, ◌≢◌, Bool, not, IsTrue, IfOk, IfErr, OnOk, OnErr, length};
ghost use Rattle.flu_partial.specs.declared.order.OrderFault.TheVariants.{Incomplete};
ghost use Rattle.flu_partial.specs.declared.order.Reached.TheVariants.{Head, End};
ghost use Rattle.flu_partial.specs.Order.{is_after, is_empty, may_come, reached_with, IsOrderFault};

use crate::values::{Contribution, Place};
use flu_model::Itag;
use std::marker::Model;
use thiserror::Error;

/// Why a contribution may not come next, or none may be missing: the first of these, in this order, that applies.
#[derive(Clone, Copy, Debug, PartialEq, Eq, Error)]
pub enum OrderFault {
    /// The contribution comes after the one up to the end.
    #[error("after the end")]
    AfterEnd,
    /// It is up to an event that is not after the event of the contribution before it, by time and then by itag.
    #[error("out of order")]
    OutOfOrder,
    /// It is up to an event, and has no events, no amounts and no outputs.
    #[error("empty")]
    Empty,
    /// The contribution up to the end is missing.
    #[error("incomplete")]
    Incomplete,
}

/// Up to where the contributions go that came so far.
#[derive(Clone, Copy, PartialEq, Eq, Debug)]
pub enum Reached {
    /// None came: the head did.
    Head,
    /// Up to an event.
    Event { time: u64, itag: Itag },
    /// Up to the end.
    End,
}

/// Which contributions of a partial came so far, after its head: contracts see up to where they go.
#[derive(Drop)]
pub struct PartialLines {
    reached: Reached,
}

impl Model for PartialLines {
    ghost use Rattle.flu_partial.specs.declared.order.Reached.{Reached};

    ghost Value = { Reached };

    ghost view = { λ a. a.reached };
}

impl PartialLines {
    /// The lines of a partial of which only the head came.
    pub fn new() -> PartialLines
        ensures { result ≡ Head }
    {
        PartialLines {
            reached: Reached::Head,
        }
    }

    /// Takes the next contribution, if it may come there: one up to an event has to be after the one before it, and not empty; none may
    /// come after the end.
    ///
    /// # Errors
    ///
    /// `AfterEnd`, `OutOfOrder` or `Empty`, the first that applies; all is as before then.
    pub fn take(&mut self, contribution: &Contribution) -> Result<(), OrderFault>
        ensures ok { OnOk result (IsTrue (may_come self.old contribution.now)) }
        ensures reached { OnOk result (self.new ≡ reached_with contribution.now.place) }
        ensures fault { IfErr result (IsOrderFault self.old contribution.now) }
        ensures refused { OnErr result (IsTrue (may_come self.old contribution.now) → ⊥) }
        ensures as_before { OnErr result (self.new ≡ self.old) }
    {
        self.reached = next(self.reached, contribution)?;
        Ok(())
    }

    /// Whether the partial is whole: nothing may be missing.
    ///
    /// # Errors
    ///
    /// `Incomplete` exactly where the contribution up to the end did not come.
    pub fn end(&self) -> Result<(), OrderFault>
        ensures ok { OnOk result (self.now ≡ End) }
        ensures fault { IfErr result (λ e. (e ≡ Incomplete) × (self.now ≢ End)) }
    {
        match self.reached {
            Reached::End => Ok(()),
            _ => Err(OrderFault::Incomplete),
        }
    }
}

// Whether an event is after what was reached.
fn is_after(reached: Reached, time: u64, itag: Itag) -> bool
    ensures { result ≡ is_after reached time itag.0 }
{
    match reached {
        Reached::Head => true,
        Reached::Event { time: s, itag: j } => s < time || (s == time && j.0 < itag.0),
        Reached::End => false,
    }
}

fn is_empty(contribution: &Contribution) -> bool
    ensures { result ≡ is_empty contribution.now }
{
    contribution.cells.items().is_empty()
        && contribution.events == 0
        && contribution.outs.items().is_empty()
}

// What is reached with the next contribution.
fn next(reached: Reached, contribution: &Contribution) -> Result<Reached, OrderFault>
    ensures ok { OnOk result (IsTrue (may_come reached contribution.now)) }
    ensures reached { IfOk result (λ r. r ≡ reached_with contribution.now.place) }
    ensures fault { IfErr result (IsOrderFault reached contribution.now) }
    ensures refused { OnErr result (IsTrue (may_come reached contribution.now) → ⊥) }
{
    if matches!(reached, Reached::End) {
        return Err(OrderFault::AfterEnd);
    }
    match contribution.place {
        Place::End { .. } => Ok(Reached::End),
        Place::Before { time, itag } => {
            if !is_after(reached, time, itag) {
                return Err(OrderFault::OutOfOrder);
            }
            if is_empty(contribution) {
                return Err(OrderFault::Empty);
            }
            Ok(Reached::Event { time, itag })
        }
    }
}
