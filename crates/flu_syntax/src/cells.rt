//! The cells that actions and expressions name.

ghost use Rattle.std.specs.Prelude.{◌≡◌, ◌≤◌, ◌<◌, length, IfOk};
ghost use Rattle.flu_syntax.specs.Reading.{ReadsKey, ReadsInside, ReadsCell};

use crate::fault::SyntaxFault;
use crate::tokens::{expect, name, number, take};
use crate::tree::{WrittenKey, WrittenRef};
use flu_text::{Contextual, Mark, Reserved, Token, Word};

/// What is between the brackets after a family: `key`, `item`, or a number.
fn inside(tokens: &[Token], end: usize) -> Result<(WrittenKey, &[Token]), SyntaxFault>
    ensures run { ReadsInside end tokens.now (λ x. x.0) (λ x. x.1.now) result }
    ensures shorter { IfOk result (λ x. length x.1.now < length tokens.now) }
{
    if let Some((word, rest)) = take(tokens, Word::Reserved(Reserved::Key)) {
        return Ok((WrittenKey::OwnKey { at: word.from }, rest));
    }
    if let Some((word, rest)) = take(tokens, Word::Name(Contextual::Item)) {
        return Ok((WrittenKey::OwnItem { at: word.from }, rest));
    }
    let (number, rest) = number(tokens, end)?;
    Ok((WrittenKey::Fixed(number), rest))
}

/// What is in brackets after a family, if anything.
pub fn key(tokens: &[Token], end: usize) -> Result<(WrittenKey, &[Token]), SyntaxFault>
    ensures run { ReadsKey end tokens.now (λ x. x.0) (λ x. x.1.now) result }
    ensures shorter { IfOk result (λ x. length x.1.now ≤ length tokens.now) }
{
    let Some((_, rest)) = take(tokens, Word::Mark(Mark::OpenBracket)) else {
        return Ok((WrittenKey::Alone, tokens));
    };
    let (key, rest) = inside(rest, end)?;
    let (_, rest) = expect(rest, end, Word::Mark(Mark::CloseBracket))?;
    Ok((key, rest))
}

/// A cell: a family's name, and optional brackets.
pub fn cell(tokens: &[Token], end: usize) -> Result<(WrittenRef, &[Token]), SyntaxFault>
    ensures run { ReadsCell end tokens.now (λ x. x.0) (λ x. x.1.now) result }
    ensures shorter { IfOk result (λ x. length x.1.now < length tokens.now) }
{
    let (family, rest) = name(tokens, end)?;
    let (key, rest) = key(rest, end)?;
    Ok((WrittenRef { family, key }, rest))
}
