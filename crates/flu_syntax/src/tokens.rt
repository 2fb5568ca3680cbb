//! The first of some tokens: whether it is the expected one, and what it begins.

ghost use Rattle.std.specs.Prelude.{◌≡◌, ◌<◌, ◌∷◌, length, MatchOption, MatchResult, IfOk, IfSome, []};
ghost use Rattle.flu_text.specs.Signs.{place_of};
ghost use Rattle.flu_syntax.specs.Grammar.{op_level};
ghost use Rattle.flu_text.specs.Signs.{is_name_word, span_of};
ghost use Rattle.flu_syntax.specs.Machine.{operator_of, start_of, doing_of, heading_of, sort_of, value_of};
ghost use Rattle.flu_syntax.specs.Reading.{IsFirst, NotFirst, IsNumber, NotNumber, IsNamed, NotNamed};

use crate::fault::SyntaxFault;
use crate::tree::{WrittenNumber, WrittenSpan};
use flu_model::{Op, Sort};
use flu_text::{Contextual, Mark, Reserved, Token, Word};

/// The fault of a token that cannot follow, or of an end that comes too early.
pub fn unexpected(tokens: &[Token], end: usize) -> SyntaxFault
    ensures { result ≡ SyntaxFault.Unexpected (place_of end tokens.now) }
{
    SyntaxFault::Unexpected {
        at: tokens.first().map_or(end, |token| token.from),
    }
}

/// The place of the first token, or of the end.
pub fn place_of(tokens: &[Token], end: usize) -> usize
    ensures { result ≡ place_of end tokens.now }
{
    tokens.first().map_or(end, |token| token.from)
}

/// The bytes that a token takes.
pub fn span_of(token: Token) -> WrittenSpan
    ensures { result ≡ span_of token }
{
    WrittenSpan {
        from: token.from,
        to: token.to,
    }
}

/// The first token, and those after it.
pub fn next(tokens: &[Token]) -> Option<(Token, &[Token])>
    ensures { MatchOption result (tokens.now ≡ []) (λ p. tokens.now ≡ p.0 ∷ p.1.now) }
{
    let (first, rest) = tokens.split_first()?;
    Some((*first, rest))
}

/// The first token, if it is of this word, and those after it.
pub fn take(tokens: &[Token], word: Word) -> Option<(Token, &[Token])>
    ensures front { MatchOption result (NotFirst word tokens.now) (λ x. IsFirst word tokens.now x.0 x.1.now) }
    ensures shorter { IfSome result (λ x. length x.1.now < length tokens.now) }
{
    let (first, rest) = next(tokens)?;
    if first.word == word {
        Some((first, rest))
    } else {
        None
    }
}

/// The first token, which has to be of this word, and those after it.
pub fn expect(tokens: &[Token], end: usize, word: Word) -> Result<(Token, &[Token]), SyntaxFault>
    ensures front { MatchResult result (λ x. IsFirst word tokens.now x.0 x.1.now)
        (λ fault. (fault ≡ SyntaxFault.Unexpected (place_of end tokens.now)) × NotFirst word tokens.now) }
    ensures shorter { IfOk result (λ x. length x.1.now < length tokens.now) }
{
    match take(tokens, word) {
        Some(found) => Ok(found),
        None => Err(unexpected(tokens, end)),
    }
}

/// The first token, which has to be a number, and those after it.
pub fn number(tokens: &[Token], end: usize) -> Result<(WrittenNumber, &[Token]), SyntaxFault>
    ensures front { MatchResult result (λ x. IsNumber tokens.now x.0 x.1.now)
        (λ fault. (fault ≡ SyntaxFault.Unexpected (place_of end tokens.now)) × NotNumber tokens.now) }
    ensures shorter { IfOk result (λ x. length x.1.now < length tokens.now) }
{
    let Some((first, rest)) = next(tokens) else {
        return Err(unexpected(tokens, end));
    };
    match first.word {
        Word::Number(value) => {
            let at = first.from;
            Ok((WrittenNumber { value, at }, rest))
        }
        _ => Err(unexpected(tokens, end)),
    }
}

fn is_name(word: Word) -> bool
    ensures { result ≡ is_name_word word }
{
    matches!(word, Word::Name(_))
}

/// The bytes of the first token, which has to be a name, and the tokens after it.
pub fn name(tokens: &[Token], end: usize) -> Result<(WrittenSpan, &[Token]), SyntaxFault>
    ensures front { MatchResult result (λ x. IsNamed tokens.now x.0 x.1.now)
        (λ fault. (fault ≡ SyntaxFault.Unexpected (place_of end tokens.now)) × NotNamed tokens.now) }
    ensures shorter { IfOk result (λ x. length x.1.now < length tokens.now) }
{
    let Some((first, rest)) = next(tokens) else {
        return Err(unexpected(tokens, end));
    };
    if is_name(first.word) {
        Ok((span_of(first), rest))
    } else {
        Err(unexpected(tokens, end))
    }
}

/// The binary operator that a word is.
#[tactic(auto, unfolding(crate::specs::Machine::operator_of))]
pub fn operator_of(word: Word) -> Option<Op>
    ensures { result ≡ operator_of word }
{
    match word {
        Word::Mark(mark) => match mark {
            Mark::Plus => Some(Op::Plus),
            Mark::Minus => Some(Op::Minus),
            Mark::Times => Some(Op::Times),
            Mark::Divide => Some(Op::Divide),
            Mark::Remainder => Some(Op::Remainder),
            Mark::Less => Some(Op::Less),
            Mark::LessEq => Some(Op::LessEq),
            Mark::More => Some(Op::More),
            Mark::MoreEq => Some(Op::MoreEq),
            Mark::Same => Some(Op::Same),
            Mark::Differs => Some(Op::Differs),
            _ => None,
        },
        Word::Reserved(word) => match word {
            Reserved::Or => Some(Op::Either),
            Reserved::And => Some(Op::Both),
            _ => None,
        },
        _ => None,
    }
}

/// The level of an operator: the greater, the closer it binds.
pub fn level_of(op: Op) -> u32
    ensures level { result ≡ op_level op }
    ensures below { result < 6 }
{
    match op {
        Op::Either => 0,
        Op::Both => 1,
        Op::Less | Op::LessEq | Op::More | Op::MoreEq | Op::Same | Op::Differs => 3,
        Op::Plus | Op::Minus => 4,
        Op::Times | Op::Divide | Op::Remainder => 5,
    }
}

/// What a word begins at the front of an expression.
#[derive(Clone, Copy)]
pub enum Front {
    Number(i64),
    Value,
    Key,
    Time,
    Family,
    Has,
    Not,
    Minus,
    Open,
    Other,
}

/// What this word begins at the front of an expression.
#[tactic(auto, unfolding(crate::specs::Machine::start_of))]
pub fn start_of(word: Word) -> Front
    ensures { result ≡ start_of word }
{
    match word {
        Word::Number(number) => Front::Number(number),
        Word::Name(_) => Front::Family,
        Word::Reserved(word) => match word {
            Reserved::Value => Front::Value,
            Reserved::Key => Front::Key,
            Reserved::Time => Front::Time,
            Reserved::Has => Front::Has,
            Reserved::Not => Front::Not,
            _ => Front::Other,
        },
        Word::Mark(mark) => match mark {
            Mark::Minus => Front::Minus,
            Mark::OpenParen => Front::Open,
            _ => Front::Other,
        },
        Word::Text => Front::Other,
    }
}

/// How an action writes an amount to a cell.
#[derive(Clone, Copy)]
pub enum Verb {
    Add,
    Raise,
    Set,
}

/// What a word begins at the front of an action.
#[derive(Clone, Copy)]
pub enum Doing {
    Write(Verb),
    Clear,
    Emit,
    Flush,
    Other,
}

/// What this word begins at the front of an action.
#[tactic(auto, unfolding(crate::specs::Machine::doing_of))]
pub fn doing_of(word: Word) -> Doing
    ensures { result ≡ doing_of word }
{
    match word {
        Word::Reserved(word) => match word {
            Reserved::Add => Doing::Write(Verb::Add),
            Reserved::Raise => Doing::Write(Verb::Raise),
            Reserved::Set => Doing::Write(Verb::Set),
            Reserved::Clear => Doing::Clear,
            Reserved::Emit => Doing::Emit,
            Reserved::Flush => Doing::Flush,
            _ => Doing::Other,
        },
        _ => Doing::Other,
    }
}

/// What a word begins at the front of a declaration.
#[derive(Clone, Copy)]
pub enum Heading {
    Cell,
    Tag,
    Names,
    Depends,
    On,
    Source,
    Clock,
    Other,
}

/// What this word begins at the front of a declaration.
#[tactic(auto, unfolding(crate::specs::Machine::heading_of))]
pub fn heading_of(word: Word) -> Heading
    ensures { result ≡ heading_of word }
{
    match word {
        Word::Reserved(word) => match word {
            Reserved::Cell => Heading::Cell,
            Reserved::Tag => Heading::Tag,
            Reserved::Depends => Heading::Depends,
            Reserved::On => Heading::On,
            Reserved::Source => Heading::Source,
            _ => Heading::Other,
        },
        Word::Name(word) => match word {
            Contextual::Names => Heading::Names,
            Contextual::Clock => Heading::Clock,
            _ => Heading::Other,
        },
        _ => Heading::Other,
    }
}

/// The sort of cells that a word names.
#[tactic(auto, unfolding(crate::specs::Machine::sort_of))]
pub fn sort_of(word: Word) -> Option<Sort>
    ensures { result ≡ sort_of word }
{
    match word {
        Word::Reserved(word) => match word {
            Reserved::Sum => Some(Sort::Sum),
            Reserved::Max => Some(Sort::Max),
            Reserved::Last => Some(Sort::Last),
            _ => None,
        },
        _ => None,
    }
}

/// Whether a word says that the events of a kind have a value.
#[tactic(auto, unfolding(crate::specs::Machine::value_of))]
pub fn value_of(word: Word) -> Option<bool>
    ensures { result ≡ value_of word }
{
    match word {
        Word::Reserved(word) => match word {
            Reserved::Int => Some(true),
            Reserved::None => Some(false),
            _ => None,
        },
        _ => None,
    }
}
