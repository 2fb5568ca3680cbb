//! Expressions, by recursive descent: a level for each group of operators.

ghost use Rattle.std.specs.Prelude.{◌≡◌, ◌≤◌, ◌<◌, length, MatchOption, IfOk, IfSome, OnErr};
ghost use Rattle.flu_syntax.specs.Tree.{view, NumberTree};
ghost use Rattle.flu_syntax.specs.Machine.{Want, Have, Done, level_behind, is_within, is_close};
ghost use Rattle.flu_syntax.specs.Reading.{ReadsExpression, Closes, IsPassed, IsTaken};

use crate::cells::{cell, key};
use crate::fault::SyntaxFault;
use crate::tokens::{Front, level_of, next, operator_of, span_of, start_of, unexpected};
use crate::tree::{WrittenExpr, WrittenNumber, WrittenRef};
use flu_model::Op;
use flu_text::{Mark, Token, Word};
use std::alloc::Global;

const MOST_OPEN: u32 = 64;

const UNARY_LEVEL: u32 = 6;

const NOT_LEVEL: u32 = 2;

const COMPARISON_LEVEL: u32 = 3;

fn is_close(word: Word) -> bool
    ensures { result ≡ is_close word }
{
    matches!(word, Word::Mark(Mark::CloseParen))
}

/// The end of a parenthesis.
fn close(tokens: &[Token], end: usize) -> Result<&[Token], SyntaxFault>
    ensures run { Closes end tokens.now (λ rest. rest.now) result }
    ensures shorter { IfOk result (λ x. length x.now < length tokens.now) }
{
    let Some((token, rest)) = next(tokens) else {
        return Err(unexpected(tokens, end));
    };
    if is_close(token.word) {
        Ok(rest)
    } else {
        Err(unexpected(tokens, end))
    }
}

/// The greatest level after an operator and its right operand: comparisons do not chain.
fn level_behind(level: u32) -> u32
    ensures { result ≡ level_behind level }
{
    if level == COMPARISON_LEVEL {
        NOT_LEVEL
    } else {
        level
    }
}

fn is_within(low: u32, level: u32, high: u32) -> bool
    ensures { result ≡ is_within low level high }
{
    low <= level && level <= high
}

/// A binary operator of one of these levels, its place, and what comes after it.
fn operator(tokens: &[Token], low: u32, high: u32) -> Option<(Op, usize, &[Token])>
    ensures run { MatchOption result (IsPassed low high tokens.now) (λ x. IsTaken low high tokens.now x.0 x.1 x.2.now) }
    ensures shorter { IfSome result (λ x. length x.2.now < length tokens.now) }
{
    let Some((token, rest)) = next(tokens) else {
        return None;
    };
    let Some(op) = operator_of(token.word) else {
        return None;
    };
    if is_within(low, level_of(op), high) {
        Some((op, token.from, rest))
    } else {
        None
    }
}

/// An expression in a box.
fn boxed(alloc: Global, inner: WrittenExpr) -> Result<Box<WrittenExpr>, SyntaxFault>
    ensures value { IfOk result (λ b. b.value ≡ inner) }
    ensures err { OnErr result (result ≡ Err SyntaxFault.NoMemory) }
{
    match Box::new(alloc, inner) {
        Ok(inner) => Ok(inner),
        Err(_) => Err(SyntaxFault::NoMemory),
    }
}

fn numbered(value: i64, at: usize) -> WrittenExpr
    ensures { view result ≡ NumberTree (record { value = value; at = at }) }
{
    WrittenExpr::Number(WrittenNumber { value, at })
}

/// What an expression begins with: an atom, or a unary operator with its operand. With it comes the greatest level that an
/// operator after it may have.
#[cycle(expression)]
fn first<'t>(
    alloc: Global,
    tokens: &'t [Token],
    end: usize,
    level: u32,
    opened: u32,
) -> Result<(WrittenExpr, u32, &'t [Token]), SyntaxFault>
    requires opened { opened ≤ 64 }
    requires level { level ≤ 6 }
    ensures run { ReadsExpression end opened (Want level) tokens.now (λ x. Have level x.1 (view x.0)) (λ x. x.2.now) result }
    ensures shorter { IfOk result (λ x. length x.2.now < length tokens.now) }
{
    let Some((token, rest)) = next(tokens) else {
        return Err(unexpected(tokens, end));
    };
    let at = token.from;
    match start_of(token.word) {
        Front::Number(value) => Ok((numbered(value, at), UNARY_LEVEL, rest)),
        Front::Value => Ok((WrittenExpr::Value { at }, UNARY_LEVEL, rest)),
        Front::Key => Ok((WrittenExpr::Key { at }, UNARY_LEVEL, rest)),
        Front::Time => Ok((WrittenExpr::Time { at }, UNARY_LEVEL, rest)),
        Front::Family => {
            let family = span_of(token);
            let (key, rest) = key(rest, end)?;
            let cell = WrittenRef { family, key };
            Ok((WrittenExpr::Read(cell), UNARY_LEVEL, rest))
        }
        Front::Has => {
            let (cell, rest) = cell(rest, end)?;
            Ok((WrittenExpr::Has { at, cell }, UNARY_LEVEL, rest))
        }
        Front::Not => {
            if level > NOT_LEVEL {
                return Err(unexpected(tokens, end));
            }
            if opened == MOST_OPEN {
                return Err(SyntaxFault::TooDeep);
            }
            let (operand, rest) = expression(alloc, rest, end, NOT_LEVEL, opened + 1)?;
            let inner = boxed(alloc, operand)?;
            Ok((WrittenExpr::Not { at, inner }, NOT_LEVEL, rest))
        }
        Front::Minus => {
            if opened == MOST_OPEN {
                return Err(SyntaxFault::TooDeep);
            }
            let (operand, rest) = expression(alloc, rest, end, UNARY_LEVEL, opened + 1)?;
            let inner = boxed(alloc, operand)?;
            Ok((WrittenExpr::Neg { at, inner }, UNARY_LEVEL, rest))
        }
        Front::Open => {
            if opened == MOST_OPEN {
                return Err(SyntaxFault::TooDeep);
            }
            let (inside, rest) = expression(alloc, rest, end, 0, opened + 1)?;
            let rest = close(rest, end)?;
            let inner = boxed(alloc, inside)?;
            Ok((WrittenExpr::Paren { at, inner }, UNARY_LEVEL, rest))
        }
        Front::Other => Err(unexpected(tokens, end)),
    }
}

/// An expression whose operators outside parentheses have at least this level, with this many parentheses and unary operators
/// open.
#[cycle(expression)]
pub fn expression<'t>(
    alloc: Global,
    tokens: &'t [Token],
    end: usize,
    level: u32,
    opened: u32,
) -> Result<(WrittenExpr, &'t [Token]), SyntaxFault>
    requires opened { opened ≤ 64 }
    requires level { level ≤ 6 }
    ensures run { ReadsExpression end opened (Want level) tokens.now (λ x. Done (view x.0)) (λ x. x.1.now) result }
    ensures shorter { IfOk result (λ x. length x.1.now < length tokens.now) }
{
    let (mut left, mut high, mut rest) = first(alloc, tokens, end, level, opened)?;
    while let Some((op, at, after)) = operator(rest, level, high) {
        let found = level_of(op);
        let (right, behind) = expression(alloc, after, end, found + 1, opened)?;
        left = WrittenExpr::Two {
            op,
            at,
            left: boxed(alloc, left)?,
            right: boxed(alloc, right)?,
        };
        high = level_behind(found);
        rest = behind;
    }
    Ok((left, rest))
}
