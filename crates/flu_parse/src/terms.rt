//! Written expressions.

ghost use Rattle.std.specs.Prelude.{◌≡◌, nat_le};
ghost use Rattle.flu_model.specs.Versions.{op_divides};
ghost use Rattle.flu_model.specs.Erasure.{term_of as plain_term};
ghost use Rattle.flu_syntax.specs.Tree.{view};
ghost use Rattle.flu_parse.specs.Faults.{Gives, unless};
ghost use Rattle.flu_parse.specs.Naming.{naming};
ghost use Rattle.flu_parse.specs.Terms.{height, first_part, is_alone, is_item, op_fits, first_token, term_of, expression_of};

use crate::cells::{family_for, resolved_cell};
use crate::faults::JobFault;
use crate::names::{KindHead, Names};
use crate::naming::{is_version_3, takes_items};
use flu_layout::name_of;
use flu_model::{Expr, Op, What};
use flu_syntax::{WrittenExpr, WrittenKey, WrittenRef};
use std::alloc::Global;

/// The greatest height of an expression.
const MOST_LEVELS: u32 = 32;

// Whether an expression is at most this many levels high. It goes down no further than these.
fn is_within(written: &WrittenExpr, levels: u32) -> bool
    ensures { result ≡ nat_le (height (view written.now)) levels }
{
    if levels == 0 {
        return false;
    }
    match written {
        WrittenExpr::Number(_)
        | WrittenExpr::Value { .. }
        | WrittenExpr::Key { .. }
        | WrittenExpr::Time { .. }
        | WrittenExpr::Read(_)
        | WrittenExpr::Has { .. } => true,
        WrittenExpr::Paren { inner, .. } => is_within(inner, levels),
        WrittenExpr::Neg { inner, .. } | WrittenExpr::Not { inner, .. } => is_within(
            inner,
            levels - 1,
        ),
        WrittenExpr::Two { left, right, .. } => {
            is_within(left, levels - 1) && is_within(right, levels - 1)
        }
    }
}

// The part that the expression's first token begins.
fn first_part(written: &WrittenExpr) -> &WrittenExpr
    ensures { view result.now ≡ first_part (view written.now) }
{
    let mut part = written;
    while let WrittenExpr::Two { left, .. } = part {
        part = left;
    }
    part
}

/// Whether a family is named without brackets.
pub fn is_alone(key: &WrittenKey) -> bool
    ensures { result ≡ is_alone key.now }
{
    match key {
        WrittenKey::Alone => true,
        WrittenKey::OwnKey { .. } | WrittenKey::OwnItem { .. } | WrittenKey::Fixed(_) => false,
    }
}

// Whether what is read as a cell is the event's item.
fn is_item(text: &str, names: &Names, written: &WrittenRef) -> bool
    ensures { result ≡ is_item text.now (naming names.now) written.now }
{
    is_version_3(names) && is_alone(&written.key) && name_of(text, written.family) == "item"
}

fn divides(op: Op) -> bool
    ensures { result ≡ op_divides op }
{
    match op {
        Op::Divide | Op::Remainder => true,
        Op::Plus
        | Op::Minus
        | Op::Times
        | Op::Less
        | Op::LessEq
        | Op::More
        | Op::MoreEq
        | Op::Same
        | Op::Differs
        | Op::Both
        | Op::Either => false,
    }
}

// Whether the language has an operator in the job's version.
fn op_fits(names: &Names, op: Op) -> bool
    ensures { result ≡ op_fits (naming names.now) op }
{
    is_version_3(names) || !divides(op)
}

#[tactic(auto, unfolding(crate::specs::Terms::first_token))]
fn first_token(
    text: &str,
    names: &Names,
    under: KindHead,
    part: &WrittenExpr,
) -> Result<(), JobFault>
    ensures { Gives (λ done. done) result (first_token text.now (naming names.now) under (view part.now)) }
{
    match part {
        WrittenExpr::Value { at } => shape_at(under.has_value, *at),
        WrittenExpr::Key { at } => shape_at(under.keyed, *at),
        WrittenExpr::Read(cell) => {
            if is_item(text, names, cell) {
                return shape_at(takes_items(names, under), cell.family.from);
            }
            family_for(text, names, None, cell)?;
            Ok(())
        }
        WrittenExpr::Number(_)
        | WrittenExpr::Time { .. }
        | WrittenExpr::Has { .. }
        | WrittenExpr::Paren { .. }
        | WrittenExpr::Neg { .. }
        | WrittenExpr::Not { .. }
        | WrittenExpr::Two { .. } => Ok(()),
    }
}

/// A wrong shape at a place, unless the test passes.
pub fn shape_at(passes: bool, at: usize) -> Result<(), JobFault>
    ensures { Gives (λ done. done) result (unless passes (JobFault.WrongShape at)) }
{
    if passes {
        Ok(())
    } else {
        Err(JobFault::WrongShape { at })
    }
}

#[tactic(auto, unfolding(crate::specs::Terms::term_of))]
fn term_of(
    alloc: Global,
    text: &str,
    names: &Names,
    under: KindHead,
    written: &WrittenExpr,
) -> Result<Expr, JobFault>
    ensures { Gives plain_term result (term_of text.now (naming names.now) under (view written.now)) }
{
    match written {
        WrittenExpr::Number(number) => Ok(Expr::Lit(number.value)),
        WrittenExpr::Value { at } => {
            shape_at(under.has_value, *at)?;
            Ok(Expr::Value)
        }
        WrittenExpr::Key { at } => {
            shape_at(under.keyed, *at)?;
            Ok(Expr::Key)
        }
        WrittenExpr::Time { .. } => Ok(Expr::Time),
        WrittenExpr::Read(cell) => {
            if is_item(text, names, cell) {
                shape_at(takes_items(names, under), cell.family.from)?;
                return Ok(Expr::Item);
            }
            let cell = resolved_cell(text, names, under, None, cell)?;
            Ok(Expr::Read(cell))
        }
        WrittenExpr::Has { cell, .. } => {
            let cell = resolved_cell(text, names, under, None, cell)?;
            Ok(Expr::Has(cell))
        }
        WrittenExpr::Paren { inner, .. } => term_of(alloc, text, names, under, inner),
        WrittenExpr::Neg { inner, .. } => {
            let inner = term_of(alloc, text, names, under, inner)?;
            Ok(Expr::Neg(Box::new(alloc, inner)?))
        }
        WrittenExpr::Not { inner, .. } => {
            let inner = term_of(alloc, text, names, under, inner)?;
            Ok(Expr::Not(Box::new(alloc, inner)?))
        }
        WrittenExpr::Two {
            op,
            at,
            left,
            right,
        } => {
            let left = term_of(alloc, text, names, under, left)?;
            shape_at(op_fits(names, *op), *at)?;
            let right = term_of(alloc, text, names, under, right)?;
            Ok(Expr::Two(*op, Box::new(alloc, left)?, Box::new(alloc, right)?))
        }
    }
}

/// What an expression means under a kind, or the first fault in it.
#[tactic(auto, unfolding(crate::specs::Terms::expression_of))]
pub fn expression_of(
    alloc: Global,
    text: &str,
    names: &Names,
    under: KindHead,
    written: &WrittenExpr,
) -> Result<Expr, JobFault>
    ensures { Gives plain_term result (expression_of text.now (naming names.now) under (view written.now)) }
{
    first_token(text, names, under, first_part(written))?;
    if !is_within(written, MOST_LEVELS) {
        return Err(JobFault::OverLimit {
            what: What::Height,
            count: 33,
        });
    }
    term_of(alloc, text, names, under, written)
}
