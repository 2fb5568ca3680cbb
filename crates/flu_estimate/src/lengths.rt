//! The lengths of kinds: what their actions cost.

use crate::prices::{ACTION, EVENT, PIECE, TERM};
use flu_model::{Act, Action, Expr, Piece};

/// What an event with these actions costs the fold, in nanoseconds.
pub(crate) fn event_cost(actions: &[Action]) -> u64 {
    let mut cost = EVENT;
    for action in actions {
        cost = cost.saturating_add(action_cost(action));
    }
    cost
}

/// How many cells these actions name as targets of a change.
pub(crate) fn targets(actions: &[Action]) -> u64 {
    let mut count: u64 = 0;
    for action in actions {
        match action.act {
            Act::Emit(_) => {}
            _ => count = count.saturating_add(1),
        }
    }
    count
}

// An action that has a guard is counted as half, since it is not done at each event.
fn action_cost(action: &Action) -> u64 {
    let cost = act_cost(&action.act).saturating_add(ACTION);
    match &action.guard {
        None => cost,
        Some(guard) => (cost / 2).saturating_add(expr_cost(guard)),
    }
}

fn act_cost(act: &Act) -> u64 {
    match act {
        Act::Add(_, expr) | Act::Raise(_, expr) | Act::Set(_, expr) => expr_cost(expr),
        Act::Clear(_) | Act::ClearFamily(_) => 0,
        Act::Emit(pieces) | Act::Flush(_, pieces) => text_cost(pieces.items()),
    }
}

fn text_cost(pieces: &[Piece]) -> u64 {
    (pieces.len() as u64).saturating_mul(PIECE)
}

fn expr_cost(expr: &Expr) -> u64 {
    terms(expr).saturating_mul(TERM)
}

// How many nodes an expression has.
fn terms(expr: &Expr) -> u64 {
    match expr {
        Expr::Lit(_)
        | Expr::Value
        | Expr::Key
        | Expr::Item
        | Expr::Time
        | Expr::Read(_)
        | Expr::Has(_) => 1,
        Expr::Neg(inner) | Expr::Not(inner) => terms(inner).saturating_add(1),
        Expr::Two(_, left, right) => {
            let both = terms(left).saturating_add(terms(right));
            both.saturating_add(1)
        }
    }
}
