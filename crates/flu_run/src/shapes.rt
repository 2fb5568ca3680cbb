//! Tests of what a worker has in its hand.

ghost use Rattle.std.specs.Prelude.{◌≡◌};
ghost use Rattle.flu_worker.specs.Hands.{is_open, may_lend, may_take};

use flu_worker::{Hand, Side};

/// Whether any of three steps moved something.
pub const fn any(a: bool, b: bool, c: bool) -> bool {
    a || b || c
}

/// Whether a worker has its lot, or parts of it are out.
pub fn is_open(hand: Hand) -> bool
    ensures { result ≡ is_open hand }
{
    match hand {
        Hand::Empty => false,
        Hand::Whole | Hand::Lending { .. } | Hand::Down | Hand::Taking { .. } => true,
    }
}

/// Whether the part for a side is still to be lent.
pub fn may_lend(side: Side, hand: Hand) -> bool
    ensures { result ≡ may_lend side hand }
{
    match hand {
        Hand::Lending { left, right } => match side {
            Side::Left => left,
            Side::Right => right,
        },
        Hand::Empty | Hand::Whole | Hand::Down | Hand::Taking { .. } => false,
    }
}

/// Whether the part of a side is out, and to be taken.
pub fn may_take(side: Side, hand: Hand) -> bool
    ensures { result ≡ may_take side hand }
{
    match hand {
        Hand::Down => true,
        Hand::Taking { left, right } => match side {
            Side::Left => !left,
            Side::Right => !right,
        },
        Hand::Empty | Hand::Whole | Hand::Lending { .. } => false,
    }
}
