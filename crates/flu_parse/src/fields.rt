//! The form of a template's fields.

ghost use Rattle.std.specs.Prelude.{◌≡◌, ◌+◌, ◌<◌, ◌≤◌, length, position, option_map, pos, IfSome, IsTrue};
ghost use Rattle.std.specs.Char.{is_ascii_digit};
ghost use Rattle.std.specs.List.{list_all};
ghost use Rattle.flu_text.specs.Lexeme.{number_of};
ghost use Rattle.flu_parse.specs.Templates.{is_open_bracket, digits_at, key_at, ref_with, ref_at, family_at, field_at, braced};

use crate::pieces::WrittenPiece;
use flu_layout::spelled;
use flu_names::is_name;
use flu_syntax::{WrittenKey, WrittenNumber, WrittenRef, WrittenSpan};

fn are_digits(bytes: &[u8]) -> bool
    ensures { result ≡ list_all is_ascii_digit bytes.now }
{
    bytes.iter().all(|byte| byte.is_ascii_digit())
}

// The number that the digits write, if it is small enough.
#[tactic(auto, unfolding(flu_text::specs::Lexeme::number_of))]
fn number_of(digits: &[u8]) -> Option<i64>
    requires { IsTrue (list_all is_ascii_digit digits.now) }
    ensures { result ≡ option_map (λ n. pos n) (number_of digits.now) }
{
    let mut number = 0u64;
    for digit in digits {
        number = number
            .saturating_mul(10)
            .saturating_add(u64::from(*digit - b'0'));
    }
    i64::try_from(number).ok()
}

#[tactic(auto, unfolding(crate::specs::Templates::digits_at))]
fn digits_at(word: &[u8], at: usize) -> Option<WrittenKey>
    ensures { result ≡ digits_at word.now at }
{
    if word.is_empty() || !are_digits(word) {
        return None;
    }
    let value = number_of(word)?;
    Some(WrittenKey::Fixed(WrittenNumber { value, at }))
}

#[tactic(auto, unfolding(crate::specs::Templates::key_at))]
fn key_at(version: u32, word: &str, at: usize) -> Option<WrittenKey>
    ensures { result ≡ key_at version word.now at }
{
    if word == "key" {
        Some(WrittenKey::OwnKey { at })
    } else if version == 3 && word == "item" {
        Some(WrittenKey::OwnItem { at })
    } else {
        digits_at(word.as_bytes(), at)
    }
}

fn bracket_at(word: &[u8]) -> Option<usize>
    ensures value { result ≡ position is_open_bracket word.now }
    ensures within { IfSome result (λ i. i < length word.now) }
{
    word.iter().position(|byte| *byte == b'[')
}

#[tactic(auto, unfolding(crate::specs::Templates::ref_with))]
fn ref_alone(text: &str, version: u32, from: usize, to: usize) -> Option<WrittenPiece>
    ensures { result ≡ ref_with text.now version from to None }
{
    if is_name(spelled(text, from, to)) {
        Some(WrittenPiece::Read(WrittenRef {
            family: WrittenSpan { from, to },
            key: WrittenKey::Alone,
        }))
    } else {
        None
    }
}

#[tactic(auto, unfolding(crate::specs::Templates::ref_with))]
fn ref_with_key(
    text: &str,
    version: u32,
    from: usize,
    to: usize,
    bracket: usize,
) -> Option<WrittenPiece>
    requires { from + bracket < length text.now }
    ensures { result ≡ ref_with text.now version from to (Some bracket) }
{
    let end = from + bracket;
    if is_name(spelled(text, from, end)) && spelled(text, to.saturating_sub(1), to) == "]" {
        let key = key_at(
            version,
            spelled(text, end + 1, to.saturating_sub(1)),
            end + 1,
        )?;
        Some(WrittenPiece::Read(WrittenRef {
            family: WrittenSpan { from, to: end },
            key,
        }))
    } else {
        None
    }
}

fn ref_at(text: &str, version: u32, from: usize, to: usize) -> Option<WrittenPiece>
    ensures { result ≡ ref_at text.now version from to }
{
    let word = spelled(text, from, to);
    match bracket_at(word.as_bytes()) {
        None => ref_alone(text, version, from, to),
        Some(bracket) => ref_with_key(text, version, from, to, bracket),
    }
}

// A family's name alone, which a flush may have in version 3.
#[tactic(auto, unfolding(crate::specs::Templates::family_at))]
fn family_at(text: &str, version: u32, from: usize, to: usize) -> Option<WrittenPiece>
    ensures { result ≡ family_at text.now version from to }
{
    if version == 3 && is_name(spelled(text, from, to)) {
        Some(WrittenPiece::Family(WrittenSpan { from, to }))
    } else {
        None
    }
}

// What a field is, in an emit or in a flush, if it has the form of one.
#[tactic(auto, unfolding(crate::specs::Templates::field_at))]
fn field_at(
    text: &str,
    version: u32,
    in_flush: bool,
    from: usize,
    to: usize,
) -> Option<WrittenPiece>
    ensures { result ≡ field_at text.now version in_flush from to }
{
    let word = spelled(text, from, to);
    if word == "value" {
        Some(WrittenPiece::Value)
    } else if word == "key" {
        Some(WrittenPiece::Key)
    } else if word == "time" {
        Some(WrittenPiece::Time)
    } else if version == 3 && word == "item" {
        Some(WrittenPiece::Item)
    } else if in_flush {
        if word == "cell" {
            Some(WrittenPiece::CellValue)
        } else {
            family_at(text, version, from, to)
        }
    } else {
        ref_at(text, version, from, to)
    }
}

/// What is between two braces, in an emit or in a flush: a field, or something that has the form of none.
pub fn piece_between(
    text: &str,
    version: u32,
    in_flush: bool,
    from: usize,
    to: usize,
) -> WrittenPiece
    ensures { result ≡ braced (field_at text.now version in_flush from to) }
{
    match field_at(text, version, in_flush, from, to) {
        Some(field) => field,
        None => WrittenPiece::Formless,
    }
}
