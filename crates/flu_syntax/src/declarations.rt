//! Declarations, by recursive descent.

ghost use Rattle.std.specs.Prelude.{◌≡◌, ◌≤◌, ◌<◌, length, map, option_map, IfOk, MatchOption};
ghost use Rattle.flu_syntax.specs.Tree.{view, deed_of, Writes, action_of, declaration_of};
ghost use Rattle.flu_syntax.specs.Machine.{Start, CellName, TagName, NamesName, DependsFirst, OnKind, SourceName, ClockName};
ghost use Rattle.flu_syntax.specs.Reading.{ReadsWriting, ReadsDeed, ReadsGuard, ReadsAction, ReadsActions, ReadsRange, ReadsKeys, ReadsTag, ReadsTags};
ghost use Rattle.flu_syntax.specs.Reading.{ReadsRate, ReadsClockRate, ReadsSlack, ReadsRelation, ReadsDeclaration, IsFirst, NotFirst, TakesKeyed};
ghost use Rattle.flu_syntax.specs.Reading.{keyed_by, ReadsKeyedBy, ReadsItemBy, ReadsCells, ReadsItem, ReadsTexts};

use crate::cells::cell;
use crate::expressions::expression;
use crate::fault::SyntaxFault;
use crate::tokens::{
    Doing, Heading, Verb, doing_of, expect, heading_of, name, next, number, place_of, sort_of,
    span_of, take, unexpected, value_of,
};
use crate::tree::{
    WrittenAct, WrittenAction, WrittenBy, WrittenCells, WrittenDeclaration, WrittenExpr,
    WrittenItem, WrittenKeys, WrittenNumber, WrittenRef, WrittenRelation, WrittenSpan, WrittenTag,
};
use flu_model::List;
use flu_text::{Contextual, Mark, Reserved, Token, Word};
use std::alloc::Global;

/// Whether `keyed` is here, and what comes after it.
fn keyed(tokens: &[Token]) -> (bool, &[Token])
    ensures { TakesKeyed tokens.now result.0 result.1.now }
{
    match take(tokens, Word::Reserved(Reserved::Keyed)) {
        Some((_, rest)) => (true, rest),
        None => (false, tokens),
    }
}

/// The list that names keys or items, if one is written.
fn by(tokens: &[Token], end: usize) -> Result<(Option<WrittenBy>, &[Token]), SyntaxFault>
    ensures keys { ReadsKeyedBy end tokens.now (λ x. x.0) (λ x. x.1.now) result }
    ensures items { ReadsItemBy end tokens.now (λ x. x.0) (λ x. x.1.now) result }
    ensures shorter { IfOk result (λ x. length x.1.now ≤ length tokens.now) }
{
    let Some((word, rest)) = take(tokens, Word::Name(Contextual::By)) else {
        return Ok((None, tokens));
    };
    let (list, rest) = name(rest, end)?;
    let at = word.from;
    Ok((Some(WrittenBy { at, list }), rest))
}

fn keyed_by(by: Option<WrittenBy>) -> WrittenCells
    ensures { result ≡ keyed_by by }
{
    match by {
        Some(by) => WrittenCells::By(by),
        None => WrittenCells::Keyed,
    }
}

/// Which cells a family has.
fn cells(tokens: &[Token], end: usize) -> Result<(WrittenCells, &[Token]), SyntaxFault>
    ensures run { ReadsCells end tokens.now (λ x. x.0) (λ x. x.1.now) result }
    ensures shorter { IfOk result (λ x. length x.1.now ≤ length tokens.now) }
{
    let Some((_, rest)) = take(tokens, Word::Reserved(Reserved::Keyed)) else {
        return Ok((WrittenCells::Alone, tokens));
    };
    let (by, rest) = by(rest, end)?;
    Ok((keyed_by(by), rest))
}

/// The items of a kind, if it has any.
fn item(tokens: &[Token], end: usize) -> Result<(Option<WrittenItem>, &[Token]), SyntaxFault>
    ensures run { ReadsItem end tokens.now (λ x. x.0) (λ x. x.1.now) result }
    ensures shorter { IfOk result (λ x. length x.1.now ≤ length tokens.now) }
{
    let Some((word, rest)) = take(tokens, Word::Name(Contextual::Item)) else {
        return Ok((None, tokens));
    };
    let (by, rest) = by(rest, end)?;
    let at = word.from;
    Ok((Some(WrittenItem { at, by }), rest))
}

/// A line of cells, after its first word.
fn cell_line(tokens: &[Token], end: usize) -> Result<(WrittenDeclaration, &[Token]), SyntaxFault>
    ensures run { ReadsDeclaration end CellName tokens.now (λ x. declaration_of x.0) (λ x. x.1.now) result }
    ensures shorter { IfOk result (λ x. length x.1.now < length tokens.now) }
{
    let (name, rest) = name(tokens, end)?;
    let (cells, rest) = cells(rest, end)?;
    let Some((word, behind)) = next(rest) else {
        return Err(unexpected(rest, end));
    };
    let Some(sort) = sort_of(word.word) else {
        return Err(unexpected(rest, end));
    };
    Ok((WrittenDeclaration::Cell { name, cells, sort }, behind))
}

/// A line of tags, after its first word.
fn tag_line(tokens: &[Token], end: usize) -> Result<(WrittenDeclaration, &[Token]), SyntaxFault>
    ensures run { ReadsDeclaration end TagName tokens.now (λ x. declaration_of x.0) (λ x. x.1.now) result }
    ensures shorter { IfOk result (λ x. length x.1.now < length tokens.now) }
{
    let (name, rest) = name(tokens, end)?;
    let (keyed, rest) = keyed(rest);
    let (item, rest) = item(rest, end)?;
    let Some((word, behind)) = next(rest) else {
        return Err(unexpected(rest, end));
    };
    let Some(has_value) = value_of(word.word) else {
        return Err(unexpected(rest, end));
    };
    Ok((
        WrittenDeclaration::Tag {
            name,
            keyed,
            item,
            has_value,
        },
        behind,
    ))
}

/// The texts of a list, with `,` between each two.
fn texts(
    alloc: Global,
    tokens: &[Token],
    end: usize,
) -> Result<(List<WrittenSpan>, &[Token]), SyntaxFault>
    ensures run { ReadsTexts end tokens.now (λ x. x.0) (λ x. x.1.now) result }
    ensures shorter { IfOk result (λ x. length x.1.now < length tokens.now) }
{
    let mut all = Vec::new(alloc);
    let mut rest = tokens;
    'each: loop {
        let (text, behind) = expect(rest, end, Word::Text)?;
        all.push(span_of(text)).map_err(|_| SyntaxFault::NoMemory)?;
        let Some((_, more)) = take(behind, Word::Mark(Mark::Comma)) else {
            return Ok((List::of(all), behind));
        };
        rest = more;
    }
}

/// A list of names, after its first word, which is at this place.
fn names_line(
    alloc: Global,
    at: usize,
    tokens: &[Token],
    end: usize,
) -> Result<(WrittenDeclaration, &[Token]), SyntaxFault>
    ensures run { ReadsDeclaration end (NamesName at) tokens.now (λ x. declaration_of x.0) (λ x. x.1.now) result }
    ensures shorter { IfOk result (λ x. length x.1.now < length tokens.now) }
{
    let (name, rest) = name(tokens, end)?;
    let (_, rest) = expect(rest, end, Word::Mark(Mark::Colon))?;
    let (texts, rest) = texts(alloc, rest, end)?;
    Ok((WrittenDeclaration::Names { at, name, texts }, rest))
}

/// The relation of two kinds, if one is written.
fn relation(tokens: &[Token]) -> (WrittenRelation, &[Token])
    ensures run { ReadsRelation tokens.now result.0 result.1.now }
    ensures shorter { length result.1.now ≤ length tokens.now }
{
    if let Some((word, rest)) = take(tokens, Word::Reserved(Reserved::Same)) {
        return (WrittenRelation::Same { at: word.from }, rest);
    }
    match take(tokens, Word::Reserved(Reserved::All)) {
        Some((_, rest)) => (WrittenRelation::All, rest),
        None => (WrittenRelation::None, tokens),
    }
}

/// A line of two kinds that depend on each other, after its first word.
fn depends_line(tokens: &[Token], end: usize) -> Result<(WrittenDeclaration, &[Token]), SyntaxFault>
    ensures run { ReadsDeclaration end DependsFirst tokens.now (λ x. declaration_of x.0) (λ x. x.1.now) result }
    ensures shorter { IfOk result (λ x. length x.1.now < length tokens.now) }
{
    let (a, rest) = name(tokens, end)?;
    let (b, rest) = name(rest, end)?;
    let (relation, rest) = relation(rest);
    Ok((WrittenDeclaration::Depends { a, b, relation }, rest))
}

/// An action that writes an amount to a cell, after its first word.
fn writing(
    alloc: Global,
    verb: Verb,
    tokens: &[Token],
    end: usize,
) -> Result<(WrittenAct, &[Token]), SyntaxFault>
    ensures run { ReadsWriting end verb tokens.now (λ x. deed_of x.0) (λ x. x.1.now) result }
    ensures shorter { IfOk result (λ x. length x.1.now < length tokens.now) }
{
    let (cell, rest) = cell(tokens, end)?;
    let (amount, rest) = expression(alloc, rest, end, 0, 0)?;
    Ok((written(verb, cell, amount), rest))
}

fn written(verb: Verb, cell: WrittenRef, amount: WrittenExpr) -> WrittenAct
    ensures { deed_of result ≡ Writes verb cell (view amount) }
{
    match verb {
        Verb::Add => WrittenAct::Add(cell, amount),
        Verb::Raise => WrittenAct::Raise(cell, amount),
        Verb::Set => WrittenAct::Set(cell, amount),
    }
}

/// What an action does.
fn act(alloc: Global, tokens: &[Token], end: usize) -> Result<(WrittenAct, &[Token]), SyntaxFault>
    ensures run { ReadsDeed end tokens.now (λ x. deed_of x.0) (λ x. x.1.now) result }
    ensures shorter { IfOk result (λ x. length x.1.now < length tokens.now) }
{
    let Some((token, rest)) = next(tokens) else {
        return Err(unexpected(tokens, end));
    };
    match doing_of(token.word) {
        Doing::Write(verb) => writing(alloc, verb, rest, end),
        Doing::Clear => {
            let (cell, rest) = cell(rest, end)?;
            Ok((WrittenAct::Clear(cell), rest))
        }
        Doing::Emit => {
            let (text, rest) = expect(rest, end, Word::Text)?;
            Ok((WrittenAct::Emit(span_of(text)), rest))
        }
        Doing::Flush => {
            let (family, rest) = name(rest, end)?;
            let (text, rest) = expect(rest, end, Word::Text)?;
            Ok((WrittenAct::Flush(family, span_of(text)), rest))
        }
        Doing::Other => Err(unexpected(tokens, end)),
    }
}

/// The guard of an action, if it has one.
fn guard(
    alloc: Global,
    tokens: &[Token],
    end: usize,
) -> Result<(Option<WrittenExpr>, &[Token]), SyntaxFault>
    ensures run { ReadsGuard end tokens.now (λ x. option_map view x.0) (λ x. x.1.now) result }
    ensures shorter { IfOk result (λ x. length x.1.now ≤ length tokens.now) }
{
    let Some((_, rest)) = take(tokens, Word::Reserved(Reserved::When)) else {
        return Ok((None, tokens));
    };
    let (guard, rest) = expression(alloc, rest, end, 0, 0)?;
    Ok((Some(guard), rest))
}

/// An action.
fn action(
    alloc: Global,
    tokens: &[Token],
    end: usize,
) -> Result<(WrittenAction, &[Token]), SyntaxFault>
    ensures run { ReadsAction end tokens.now (λ x. action_of x.0) (λ x. x.1.now) result }
    ensures shorter { IfOk result (λ x. length x.1.now < length tokens.now) }
{
    let at = place_of(tokens, end);
    let (act, rest) = act(alloc, tokens, end)?;
    let (guard, rest) = guard(alloc, rest, end)?;
    Ok((WrittenAction { at, act, guard }, rest))
}

/// Actions, with `;` between each two.
fn actions(
    alloc: Global,
    tokens: &[Token],
    end: usize,
) -> Result<(List<WrittenAction>, &[Token]), SyntaxFault>
    ensures run { ReadsActions end tokens.now (λ x. map action_of x.0) (λ x. x.1.now) result }
    ensures shorter { IfOk result (λ x. length x.1.now < length tokens.now) }
{
    let mut all = Vec::new(alloc);
    let mut rest = tokens;
    'each: loop {
        let (action, behind) = action(alloc, rest, end)?;
        all.push(action).map_err(|_| SyntaxFault::NoMemory)?;
        let Some((_, more)) = take(behind, Word::Mark(Mark::Semicolon)) else {
            return Ok((List::of(all), behind));
        };
        rest = more;
    }
}

/// The actions of a kind, after their first word.
fn on_line(
    alloc: Global,
    tokens: &[Token],
    end: usize,
) -> Result<(WrittenDeclaration, &[Token]), SyntaxFault>
    ensures run { ReadsDeclaration end OnKind tokens.now (λ x. declaration_of x.0) (λ x. x.1.now) result }
    ensures shorter { IfOk result (λ x. length x.1.now < length tokens.now) }
{
    let (kind, rest) = name(tokens, end)?;
    let (_, rest) = expect(rest, end, Word::Mark(Mark::Colon))?;
    let (actions, rest) = actions(alloc, rest, end)?;
    Ok((WrittenDeclaration::On { kind, actions }, rest))
}

/// One key, or after it `..` and the last key of a range.
fn range(
    low: WrittenNumber,
    tokens: &[Token],
    end: usize,
) -> Result<(WrittenKeys, &[Token]), SyntaxFault>
    ensures run { ReadsRange end low tokens.now (λ x. x.0) (λ x. x.1.now) result }
    ensures shorter { IfOk result (λ x. length x.1.now ≤ length tokens.now) }
{
    let Some((_, rest)) = take(tokens, Word::Mark(Mark::Dots)) else {
        return Ok((WrittenKeys::One(low), tokens));
    };
    let (high, rest) = number(rest, end)?;
    Ok((WrittenKeys::Range(low, high), rest))
}

/// What is in brackets after a kind, if anything.
fn keys(tokens: &[Token], end: usize) -> Result<(WrittenKeys, &[Token]), SyntaxFault>
    ensures run { ReadsKeys end tokens.now (λ x. x.0) (λ x. x.1.now) result }
    ensures shorter { IfOk result (λ x. length x.1.now ≤ length tokens.now) }
{
    let Some((_, rest)) = take(tokens, Word::Mark(Mark::OpenBracket)) else {
        return Ok((WrittenKeys::Alone, tokens));
    };
    let (low, rest) = number(rest, end)?;
    let (keys, rest) = range(low, rest, end)?;
    let (_, rest) = expect(rest, end, Word::Mark(Mark::CloseBracket))?;
    Ok((keys, rest))
}

/// The tags of one kind that a source lists.
fn tag(tokens: &[Token], end: usize) -> Result<(WrittenTag, &[Token]), SyntaxFault>
    ensures run { ReadsTag end tokens.now (λ x. x.0) (λ x. x.1.now) result }
    ensures shorter { IfOk result (λ x. length x.1.now < length tokens.now) }
{
    let (kind, rest) = name(tokens, end)?;
    let (keys, rest) = keys(rest, end)?;
    Ok((WrittenTag { kind, keys }, rest))
}

/// The tags of a source, with `,` between each two.
fn tags(
    alloc: Global,
    tokens: &[Token],
    end: usize,
) -> Result<(List<WrittenTag>, &[Token]), SyntaxFault>
    ensures run { ReadsTags end tokens.now (λ x. x.0) (λ x. x.1.now) result }
    ensures shorter { IfOk result (λ x. length x.1.now < length tokens.now) }
{
    let mut all = Vec::new(alloc);
    let mut rest = tokens;
    'each: loop {
        let (tag, behind) = tag(rest, end)?;
        all.push(tag).map_err(|_| SyntaxFault::NoMemory)?;
        let Some((_, more)) = take(behind, Word::Mark(Mark::Comma)) else {
            return Ok((List::of(all), behind));
        };
        rest = more;
    }
}

/// The rate of a source or a clock, if one is written.
fn rate(tokens: &[Token], end: usize) -> Result<(Option<WrittenNumber>, &[Token]), SyntaxFault>
    ensures sources { ReadsRate end tokens.now (λ x. x.0) (λ x. x.1.now) result }
    ensures clocks { ReadsClockRate end tokens.now (λ x. x.0) (λ x. x.1.now) result }
    ensures shorter { IfOk result (λ x. length x.1.now ≤ length tokens.now) }
{
    let Some((_, rest)) = take(tokens, Word::Reserved(Reserved::Rate)) else {
        return Ok((None, tokens));
    };
    let (rate, rest) = number(rest, end)?;
    Ok((Some(rate), rest))
}

/// The slack of a source, if one is written.
fn slack(tokens: &[Token], end: usize) -> Result<(Option<WrittenNumber>, &[Token]), SyntaxFault>
    ensures run { ReadsSlack end tokens.now (λ x. x.0) (λ x. x.1.now) result }
    ensures shorter { IfOk result (λ x. length x.1.now ≤ length tokens.now) }
{
    let Some((_, rest)) = take(tokens, Word::Reserved(Reserved::Slack)) else {
        return Ok((None, tokens));
    };
    let (slack, rest) = number(rest, end)?;
    Ok((Some(slack), rest))
}

/// A source, after its first word.
fn source_line(
    alloc: Global,
    tokens: &[Token],
    end: usize,
) -> Result<(WrittenDeclaration, &[Token]), SyntaxFault>
    ensures run { ReadsDeclaration end SourceName tokens.now (λ x. declaration_of x.0) (λ x. x.1.now) result }
    ensures shorter { IfOk result (λ x. length x.1.now < length tokens.now) }
{
    let (name, rest) = name(tokens, end)?;
    let (text, rest) = expect(rest, end, Word::Text)?;
    let (rate, rest) = rate(rest, end)?;
    let (slack, rest) = slack(rest, end)?;
    let (_, rest) = expect(rest, end, Word::Mark(Mark::Colon))?;
    let (tags, rest) = tags(alloc, rest, end)?;
    let file = span_of(text);
    Ok((
        WrittenDeclaration::Source {
            name,
            file,
            rate,
            slack,
            tags,
        },
        rest,
    ))
}

/// A clock, after its first word, which is at this place.
fn clock_line(
    at: usize,
    tokens: &[Token],
    end: usize,
) -> Result<(WrittenDeclaration, &[Token]), SyntaxFault>
    ensures run { ReadsDeclaration end (ClockName at) tokens.now (λ x. declaration_of x.0) (λ x. x.1.now) result }
    ensures shorter { IfOk result (λ x. length x.1.now < length tokens.now) }
{
    let (clock, rest) = name(tokens, end)?;
    let (_, rest) = expect(rest, end, Word::Name(Contextual::Every))?;
    let (every, rest) = number(rest, end)?;
    let (rate, rest) = rate(rest, end)?;
    let (_, rest) = expect(rest, end, Word::Mark(Mark::Colon))?;
    let (tag, rest) = name(rest, end)?;
    Ok((
        WrittenDeclaration::Clock {
            at,
            name: clock,
            every,
            rate,
            tag,
        },
        rest,
    ))
}

/// A declaration.
pub fn declaration(
    alloc: Global,
    tokens: &[Token],
    end: usize,
) -> Result<(WrittenDeclaration, &[Token]), SyntaxFault>
    requires { 0 < length tokens.now }
    ensures run { ReadsDeclaration end Start tokens.now (λ x. declaration_of x.0) (λ x. x.1.now) result }
    ensures shorter { IfOk result (λ x. length x.1.now < length tokens.now) }
{
    let Some((token, rest)) = next(tokens) else {
        return Err(unexpected(tokens, end));
    };
    match heading_of(token.word) {
        Heading::Cell => cell_line(rest, end),
        Heading::Tag => tag_line(rest, end),
        Heading::Names => names_line(alloc, token.from, rest, end),
        Heading::Depends => depends_line(rest, end),
        Heading::On => on_line(alloc, rest, end),
        Heading::Source => source_line(alloc, rest, end),
        Heading::Clock => clock_line(token.from, rest, end),
        Heading::Other => Err(unexpected(tokens, end)),
    }
}
