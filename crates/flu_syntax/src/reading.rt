//! The job that all tokens of a text are.

ghost use Rattle.std.specs.Prelude.{◌≡◌, ℕ, map, IfOk, MatchResult};
ghost use Rattle.flu_syntax.specs.Tree.{job_of, declaration_of};
ghost use Rattle.flu_syntax.specs.Grammar.{IsJob};
ghost use Rattle.flu_syntax.specs.Continued.{IsFirstThatCannotFollow, IsTooDeep};
ghost use Rattle.flu_syntax.specs.Machine.{verdict, Found};
ghost use Rattle.flu_syntax.specs.Reading.{ReadsHead, ReadsTies, ReadsUnit, ReadsDeclarations, Tells};

use crate::declarations::declaration;
use crate::fault::SyntaxFault;
use crate::tokens::{name, number, take};
use crate::tree::{WrittenDeclaration, WrittenHead, WrittenJob, WrittenTies, WrittenUnit};
use flu_model::List;
use flu_text::{Contextual, Reserved, Token, Word};
use std::alloc::Global;

/// The unit of a job's times, if one is written.
fn unit(tokens: &[Token], end: usize) -> Result<(Option<WrittenUnit>, &[Token]), SyntaxFault>
    ensures run { ReadsUnit end tokens.now (λ x. x.0) (λ x. x.1.now) result }
{
    let Some((word, rest)) = take(tokens, Word::Name(Contextual::Iso)) else {
        return Ok((None, tokens));
    };
    let (name, rest) = name(rest, end)?;
    let at = word.from;
    Ok((Some(WrittenUnit { at, name }), rest))
}

/// How many rows a source may have at one time, if it is written.
fn ties(tokens: &[Token], end: usize) -> Result<(Option<WrittenTies>, &[Token]), SyntaxFault>
    ensures run { ReadsTies end tokens.now (λ x. x.0) (λ x. x.1.now) result }
{
    let Some((word, rest)) = take(tokens, Word::Name(Contextual::Ties)) else {
        return Ok((None, tokens));
    };
    let (number, rest) = number(rest, end)?;
    let ties = WrittenTies {
        at: word.from,
        number,
    };
    Ok((Some(ties), rest))
}

/// The head of a job, if one is written.
fn head(tokens: &[Token], end: usize) -> Result<(Option<WrittenHead>, &[Token]), SyntaxFault>
    ensures run { ReadsHead end tokens.now (λ x. x.0) (λ x. x.1.now) result }
{
    let Some((_, rest)) = take(tokens, Word::Reserved(Reserved::Version)) else {
        return Ok((None, tokens));
    };
    let (version, rest) = number(rest, end)?;
    let (ties, rest) = ties(rest, end)?;
    let (iso, rest) = unit(rest, end)?;
    Ok((Some(WrittenHead { version, ties, iso }), rest))
}

/// Declarations up to the end.
fn declarations(
    alloc: Global,
    tokens: &[Token],
    end: usize,
) -> Result<List<WrittenDeclaration>, SyntaxFault>
    ensures run { ReadsDeclarations end tokens.now (λ found. map declaration_of found) result }
{
    let mut all = Vec::new(alloc);
    let mut rest = tokens;
    'each: while !rest.is_empty() {
        let (declaration, behind) = declaration(alloc, rest, end)?;
        all.push(declaration).map_err(|_| SyntaxFault::NoMemory)?;
        rest = behind;
    }
    Ok(List::of(all))
}

/// The job that the tokens of a text are; `end` is the text's length in bytes. The grammar is the one of `docs/LANGUAGE.md`.
///
/// # Errors
///
/// [`SyntaxFault::Unexpected`] at the first token with which the tokens before it can no longer be continued to a job, however many
/// parentheses and unary operators may be open, or at `end` if all of them can and are none yet. [`SyntaxFault::TooDeep`] if, before
/// that, a token opens the 65th of them at once. [`SyntaxFault::NoMemory`] if memory runs out.
pub fn read_syntax(alloc: Global, tokens: &[Token], end: usize) -> Result<WrittenJob, SyntaxFault>
    // What is found is the job that the tokens are, and no other.
    ensures job { IfOk result (λ found. IsJob tokens.now (job_of found)) }
    // The place of the first token with which the tokens can no longer be continued.
    ensures unexpected { (at : ℕ) → result ≡ Err (SyntaxFault.Unexpected at) → IsFirstThatCannotFollow end tokens.now at }
    // A token that may follow opens the 65th.
    ensures too_deep { result ≡ Err SyntaxFault.TooDeep → IsTooDeep tokens.now }

    // Each answer, except for lack of memory, is the verdict on the tokens.
    ensures verdict { MatchResult result (λ found. verdict end tokens.now ≡ Found (job_of found)) (λ fault. Tells fault (verdict end tokens.now)) }
{
    let (head, rest) = head(tokens, end)?;
    let declarations = declarations(alloc, rest, end)?;
    Ok(WrittenJob { head, declarations })
}
