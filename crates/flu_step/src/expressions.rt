//! The values of expressions: signed numbers of 64 bits, where each result is clamped to that range (`docs/LANGUAGE.md`).

ghost use Rattle.std.specs.Prelude.{◌≡◌, pos};
ghost use Rattle.flu_model.specs.Contents as contents;
ghost use Rattle.flu_model.specs.Expressions as meaning;
ghost use Rattle.flu_model.specs.declared.jobs.Op.TheVariants.{Plus, Minus, Times};
ghost use Rattle.flu_cells.specs.Holding.{held};

use flu_cells::State;
use flu_model::{CellRef, Event, Expr, Op, Worth, cell_of, item_of};

/// What the operands of an expression are read from: a state and an event whose tag has this key.
#[derive(Clone, Copy)]
struct Scope<'a> {
    state: &'a State,
    event: &'a Event,
    key: u32,
}

/// The value of an expression in a state, at an event whose tag has this key. It takes no memory.
///
/// A sum and a time are clamped as they are read, and a neutral cell reads as 0. Comparisons, `has` and the connectives
/// give 0 or 1, and every number but 0 counts as true.
pub fn value_of(e: &Expr, s: &State, x: &Event, key: u32) -> i64
    ensures { result ≡ meaning.value_of_expr e.now (held s.now) x.now key }
{
    value_in(
        e,
        &Scope {
            state: s,
            event: x,
            key,
        },
    )
}

// The value of an expression. A chain of operators leans to the left, so up to five of them are done without a call.
#[cycle(expression)]
#[inline(never)]
fn value_in(e: &Expr, scope: &Scope<'_>) -> i64
    ensures { result ≡ meaning.value_of_expr e.now (held scope.now.state.now) scope.now.event.now scope.now.key }
{
    if let Expr::Two(op, a, b) = e {
        result_of(*op, chain_of_four(a, scope), operand(b, scope))
    } else {
        value_of_any(e, scope)
    }
}

// The value of an expression, by its kind.
#[cycle(expression)]
#[inline(never)]
fn value_of_any(e: &Expr, scope: &Scope<'_>) -> i64
    ensures { result ≡ meaning.value_of_expr e.now (held scope.now.state.now) scope.now.event.now scope.now.key }
{
    match e {
        Expr::Lit(n) => *n,
        Expr::Value => scope.event.value,
        Expr::Key => i64::from(scope.key),
        Expr::Item => i64::from(item_of(scope.event)),
        Expr::Time => clamped_time(scope.event.time),
        Expr::Read(r) => number_in(held_at(r, scope)),
        Expr::Has(r) => as_number(held_at(r, scope).is_some()),
        Expr::Neg(e) => value_in(e, scope).saturating_neg(),
        Expr::Not(e) => as_number(!is_true(value_in(e, scope))),
        Expr::Two(op, a, b) => result_of_any(*op, value_in(a, scope), value_in(b, scope)),
    }
}

// What the cell holds that a reference means.
#[inline(always)]
fn held_at(r: &CellRef, scope: &Scope<'_>) -> Option<Worth>
    ensures { result ≡ held scope.now.state.now (meaning.cell_of r.now scope.now.key (meaning.item_of scope.now.event.now)) }
{
    let item = item_of(scope.event);
    scope.state.get(cell_of(*r, scope.key, item))
}

// The value of an expression of which up to four operators are done without a call.
#[cycle(expression)]
#[inline(always)]
fn chain_of_four(e: &Expr, scope: &Scope<'_>) -> i64
    ensures { result ≡ meaning.value_of_expr e.now (held scope.now.state.now) scope.now.event.now scope.now.key }
{
    if let Expr::Two(op, a, b) = e {
        result_of(*op, chain_of_three(a, scope), operand(b, scope))
    } else {
        operand(e, scope)
    }
}

// The same with up to three.
#[cycle(expression)]
#[inline(always)]
fn chain_of_three(e: &Expr, scope: &Scope<'_>) -> i64
    ensures { result ≡ meaning.value_of_expr e.now (held scope.now.state.now) scope.now.event.now scope.now.key }
{
    if let Expr::Two(op, a, b) = e {
        result_of(*op, chain_of_two(a, scope), operand(b, scope))
    } else {
        operand(e, scope)
    }
}

// The same with up to two.
#[cycle(expression)]
#[inline(always)]
fn chain_of_two(e: &Expr, scope: &Scope<'_>) -> i64
    ensures { result ≡ meaning.value_of_expr e.now (held scope.now.state.now) scope.now.event.now scope.now.key }
{
    if let Expr::Two(op, a, b) = e {
        result_of(*op, chain_of_one(a, scope), operand(b, scope))
    } else {
        operand(e, scope)
    }
}

// The same with one.
#[cycle(expression)]
#[inline(always)]
fn chain_of_one(e: &Expr, scope: &Scope<'_>) -> i64
    ensures { result ≡ meaning.value_of_expr e.now (held scope.now.state.now) scope.now.event.now scope.now.key }
{
    if let Expr::Two(op, a, b) = e {
        result_of(*op, operand(a, scope), operand(b, scope))
    } else {
        operand(e, scope)
    }
}

// The value of an operand. Most are numbers of the job, which are read off without a call.
#[cycle(expression)]
#[inline(always)]
fn operand(e: &Expr, scope: &Scope<'_>) -> i64
    ensures { result ≡ meaning.value_of_expr e.now (held scope.now.state.now) scope.now.event.now scope.now.key }
{
    if let Expr::Lit(n) = e {
        *n
    } else {
        other_operand(e, scope)
    }
}

// The same if it is likely no number: the event's value costs a short call, and all others are evaluated.
#[cycle(expression)]
#[inline(never)]
fn other_operand(e: &Expr, scope: &Scope<'_>) -> i64
    ensures { result ≡ meaning.value_of_expr e.now (held scope.now.state.now) scope.now.event.now scope.now.key }
{
    if let Expr::Value = e {
        scope.event.value
    } else {
        value_in(e, scope)
    }
}

/// Every number but 0 counts as true.
pub fn is_true(n: i64) -> bool
    ensures { result ≡ meaning.is_true n }
{
    n != 0
}

// A truth value as a number.
fn as_number(b: bool) -> i64
    ensures { result ≡ meaning.as_number b }
{
    if b { 1 } else { 0 }
}

// A time as a signed number.
fn clamped_time(time: u64) -> i64
    ensures { result ≡ meaning.clamped (pos time) }
{
    i64::try_from(time).unwrap_or(i64::MAX)
}

// The number that an expression reads in a cell.
fn number_in(held: Option<Worth>) -> i64
    ensures { result ≡ contents.number_in held }
{
    match held {
        None => 0,
        Some(Worth::Sum(n)) => clamped_sum(n),
        Some(Worth::Max(v)) => v,
        Some(Worth::Last(v)) => v,
    }
}

// A sum that is clamped to 64 bits.
fn clamped_sum(n: i128) -> i64
    ensures { result ≡ meaning.clamped n }
{
    i64::try_from(n).unwrap_or(if n < 0 { i64::MIN } else { i64::MAX })
}

// The result of an operator. Most are sums, differences and products, so these are tested first.
#[inline(always)]
fn result_of(op: Op, a: i64, b: i64) -> i64
    ensures { result ≡ meaning.result_of op a b }
{
    match op {
        Op::Plus => sum(a, b),
        Op::Minus => difference(a, b),
        Op::Times => product(a, b),
        _ => result_of_any(op, a, b),
    }
}

// The sum. Most fit, so the test whether one does is all that is done beside it.
#[inline(always)]
fn sum(a: i64, b: i64) -> i64
    ensures { result ≡ meaning.result_of Plus a b }
{
    match a.checked_add(b) {
        Some(n) => n,
        None => result_of_any(Op::Plus, a, b),
    }
}

// The difference, in the same way.
#[inline(always)]
fn difference(a: i64, b: i64) -> i64
    ensures { result ≡ meaning.result_of Minus a b }
{
    match a.checked_sub(b) {
        Some(n) => n,
        None => result_of_any(Op::Minus, a, b),
    }
}

// The product, in the same way.
#[inline(always)]
fn product(a: i64, b: i64) -> i64
    ensures { result ≡ meaning.result_of Times a b }
{
    match a.checked_mul(b) {
        Some(n) => n,
        None => result_of_any(Op::Times, a, b),
    }
}

// The result of any operator.
#[cold]
#[inline(never)]
fn result_of_any(op: Op, a: i64, b: i64) -> i64
    ensures { result ≡ meaning.result_of op a b }
{
    match op {
        Op::Plus => a.saturating_add(b),
        Op::Minus => a.saturating_sub(b),
        Op::Times => a.saturating_mul(b),
        Op::Divide => quotient(a, b),
        Op::Remainder => remainder(a, b),
        Op::Less => as_number(a < b),
        Op::LessEq => as_number(a <= b),
        Op::More => as_number(a > b),
        Op::MoreEq => as_number(a >= b),
        Op::Same => as_number(a == b),
        Op::Differs => as_number(a != b),
        Op::Both => as_number(is_true(a) && is_true(b)),
        Op::Either => as_number(is_true(a) || is_true(b)),
    }
}

// The quotient, cut toward 0. One alone does not fit: that of the least number and -1, which is clamped.
fn quotient(a: i64, b: i64) -> i64
    ensures { result ≡ meaning.quotient_of a b }
{
    if b == 0 {
        0
    } else if a == i64::MIN && b == -1 {
        i64::MAX
    } else {
        a / b
    }
}

// The remainder, with the sign of the left operand.
fn remainder(a: i64, b: i64) -> i64
    ensures { result ≡ meaning.remainder_of a b }
{
    if b == 0 { 0 } else { a.wrapping_rem(b) }
}
