//! The table of a link. Word 0 is the phase, words 1 and 2 the ask, and word 3 is 1 once an end has stopped. The slot has a lot or
//! nothing.

use atomic_table::{Seat, Table, TableRule};
use flu_fork::{Ask, CaseNote, Content, Counts, Lot};
use std::alloc::Global;

// The phases follow one another in this order, and after the last the first comes.

/// The upper end has lent a lot: the lower end takes it next.
pub(crate) const LENT: u64 = 0;

/// The lower end holds the lot: the upper end asks next.
pub(crate) const HELD: u64 = 1;

/// The upper end has asked: the lower end gives a lot next.
pub(crate) const ASKED: u64 = 2;

/// The lower end has given a lot: the upper end takes it next, and lends one.
pub(crate) const GIVEN: u64 = 3;

/// The counts of a lot. No value of it is made.
pub struct Loan {
    pub since: Counts,
    pub upto: Counts,
}

/// What the upper end knows. No value of it is made.
pub struct UpperSeat {
    pub case: Content,
    pub lower: u32,
    /// The phase that was found or stored last.
    pub phase: u64,
    /// The counts lent last.
    pub lent: Loan,
    /// The upto of the lot taken last.
    pub received: Counts,
    pub ask: Ask,
    /// There is no ask whose lot is not yet taken.
    pub taken: bool,
    /// The slot is out with this end.
    pub out: bool,
    pub looks: u64,
    pub stopped: bool,
    pub stop_looks: u64,
    pub stop_found: u64,
}

/// What the lower end knows. No value of it is made.
pub struct LowerSeat {
    pub case: Content,
    pub lower: u32,
    /// The phase that was found or stored last.
    pub phase: u64,
    /// The counts held last.
    pub held: Loan,
    /// The upto of the lot given last.
    pub given: Counts,
    /// The parts of the ask that were read since this end stored a phase.
    pub itag: Option<u64>,
    pub index: Option<u64>,
    /// The slot is out with this end.
    pub out: bool,
    pub looks: u64,
    pub stopped: bool,
    pub stop_looks: u64,
    pub stop_found: u64,
}

/// What a seat knows. No value of it is made.
pub enum View {
    /// The upper end, before the lower one is made.
    Fresh(UpperSeat),
    Top(UpperSeat),
    Bottom(LowerSeat),
    /// Both ends, once they are joined.
    Joined(UpperSeat, LowerSeat),
    Closed,
}

/// The rule of the table.
pub struct Ruled;

/// The case and the lower node.
pub type About = (CaseNote, u32);

impl TableRule<Option<Lot>, View, About> for Ruled {
    ghost use Rattle.flu_link.specs.Seats.{fresh};
    ghost use Rattle.flu_link.specs.Rule.{Kept};

    ghost holds = { λ _. Kept };

    ghost first = { λ key. fresh key.0 key.1 };
}

pub type Board = Table<Option<Lot>, View, About, Ruled, Global>;

pub type Place = Seat<Option<Lot>, View>;
