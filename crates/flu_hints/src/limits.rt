//! The place at which a text exceeds a limit.

use crate::jobs::{
    actions_place, height_place, itags_place, list_place, listed_name_place, nesting_place,
    source_place,
};
use crate::plans::{depth_place, predicates_place};
use flu_model::What;
use flu_syntax::{WrittenJob, read_syntax};
use flu_text::{Mark, Reserved, Token, Word, tokens};
use std::alloc::Global;
use std::str;

/// The place in a text, as a byte from 0, that is one too much for a limit, such as the 65th family; `count` is the first number above the
/// limit, or the key, the rate or the slack itself.
pub fn limit_place(alloc: Global, what: What, count: u64, text: &[u8]) -> Option<usize> {
    if what == What::Bytes {
        return usize::try_from(count).ok()?.checked_sub(1);
    }
    let text = str::from_utf8(text).ok()?;
    let found = tokens(alloc, text).ok()?;
    let found = found.as_slice();
    match what {
        What::Bytes => None,
        What::Itags => itags_place(&job_in(alloc, text, found)?),
        What::Actions => actions_place(&job_in(alloc, text, found)?),
        What::Height => height_place(&job_in(alloc, text, found)?),
        What::Nesting => nesting_place(alloc, found, text.len()),
        What::Depth => depth_place(alloc, text, found),
        What::Families => place_of_word(found, Reserved::Cell, count),
        What::Kinds => place_of_word(found, Reserved::Tag, count),
        What::Sources => place_before(found, source_place(&job_in(alloc, text, found)?, count)?),
        What::Depends => place_of_word(found, Reserved::Depends, count),
        What::Nodes => place_of_word(found, Reserved::Node, count),
        What::Predicates => predicates_place(found, count),
        What::Rate => place_behind(found, Reserved::Rate, count),
        What::Slack => place_behind(found, Reserved::Slack, count),
        What::Lists => list_place(&job_in(alloc, text, found)?, count),
        What::Names => listed_name_place(&job_in(alloc, text, found)?, count),
        What::Key => key_place(text, found, count),
    }
}

// A job as it is written.
fn job_in(alloc: Global, text: &str, found: &[Token]) -> Option<WrittenJob> {
    read_syntax(alloc, found, text.len()).ok()
}

// The place of the n-th occurrence of a reserved word.
fn place_of_word(found: &[Token], word: Reserved, count: u64) -> Option<usize> {
    let mut met = 0u64;
    for token in found {
        if token.word == Word::Reserved(word) {
            met = met.saturating_add(1);
            if met == count {
                return Some(token.from);
            }
        }
    }
    None
}

// The place of the token before the one at a place.
fn place_before(found: &[Token], place: usize) -> Option<usize> {
    let mut before = None;
    for token in found {
        if token.from == place {
            return before;
        }
        before = Some(token.from);
    }
    None
}

// The place of a number after a reserved word.
fn place_behind(found: &[Token], word: Reserved, number: u64) -> Option<usize> {
    let mut is_behind = false;
    for token in found {
        if is_behind && is_number(token.word, number) {
            return Some(token.from);
        }
        is_behind = token.word == Word::Reserved(word);
    }
    None
}

// The place of a key: a number in brackets, or a text with a field that has it.
fn key_place(text: &str, found: &[Token], key: u64) -> Option<usize> {
    let mut is_behind = false;
    for token in found {
        if is_behind && is_number(token.word, key) || has_field(text, token, key) {
            return Some(token.from);
        }
        is_behind = token.word == Word::Mark(Mark::OpenBracket)
            || token.word == Word::Mark(Mark::Dots);
    }
    None
}

fn is_number(word: Word, wanted: u64) -> bool {
    match word {
        Word::Number(number) => u64::try_from(number) == Ok(wanted),
        _ => false,
    }
}

// Whether a token is a text with a field such as `{NAME[key]}`.
fn has_field(text: &str, token: &Token, key: u64) -> bool {
    if token.word != Word::Text {
        return false;
    }
    match spelled(text, token) {
        Some(template) => template
            .split('{')
            .any(|piece| key_of_field(piece) == Some(key)),
        None => false,
    }
}

// The number in the brackets of a field that begins a piece of a template.
fn key_of_field(piece: &str) -> Option<u64> {
    let (field, _) = piece.split_once('}')?;
    let (_, behind) = field.split_once('[')?;
    let (digits, _) = behind.split_once(']')?;
    digits.parse::<u64>().ok()
}

/// The bytes of a token.
pub fn spelled<'t>(text: &'t str, token: &Token) -> Option<&'t str> {
    let bytes = text.as_bytes().get(token.from..token.to)?;
    str::from_utf8(bytes).ok()
}
