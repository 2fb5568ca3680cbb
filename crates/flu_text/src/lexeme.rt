//! The word that begins some bytes: the longest run of its characters, looked at for its limit.

ghost use Rattle.std.specs.Prelude.{◌≡◌, option_map, pos};
ghost use Rattle.std.specs.Char.{is_ascii_digit};
ghost use Rattle.std.specs.List.{prefix_len, AllPass};
ghost use Rattle.flu_text.specs.Grammar.{is_blank};
ghost use Rattle.flu_names.specs.Names.{is_name_start, is_name_byte, is_text_byte, reserved_of};
ghost use Rattle.flu_text.specs.Lexeme.{name_at, number_of, number_at, text_at, mark_of, mark_at, word_at};

use crate::words::{Mark, Word, contextual_of};
use flu_names::{
    LONGEST_NAME, LONGEST_TEXT, is_name_byte, is_name_start, is_text_byte, reserved_of,
};

/// The marks, the longer ones first.
const MARKS: [Mark; 21] = [
    Mark::Dots,
    Mark::LessEq,
    Mark::MoreEq,
    Mark::Same,
    Mark::Differs,
    Mark::Arrow,
    Mark::Colon,
    Mark::Semicolon,
    Mark::Comma,
    Mark::OpenBracket,
    Mark::CloseBracket,
    Mark::OpenParen,
    Mark::CloseParen,
    Mark::Plus,
    Mark::Minus,
    Mark::Times,
    Mark::Divide,
    Mark::Remainder,
    Mark::Less,
    Mark::More,
    Mark::At,
];

pub fn is_blank(byte: u8) -> bool
    ensures { result ≡ is_blank byte }
{
    byte == b' ' || byte == b'\t' || byte == b'\r' || byte == b'\n'
}

fn name_len(bytes: &[u8]) -> usize
    ensures { result ≡ prefix_len is_name_byte bytes.now }
{
    bytes.iter().take_while(|byte| is_name_byte(**byte)).count()
}

/// The name or the reserved word at the front, of which the first byte is known to begin one.
#[tactic(auto, unfolding(crate::specs::Lexeme::name_at))]
fn name_at(bytes: &[u8]) -> Option<(Word, usize)>
    ensures { result ≡ name_at bytes.now }
{
    let len = name_len(bytes);
    if len > LONGEST_NAME {
        return None;
    }
    let found = &bytes[..len];
    let name = Word::Name(contextual_of(found));
    let word = reserved_of(found).map_or(name, Word::Reserved);
    Some((word, len))
}

fn digits_len(bytes: &[u8]) -> usize
    ensures { result ≡ prefix_len is_ascii_digit bytes.now }
{
    bytes
        .iter()
        .take_while(|byte| byte.is_ascii_digit())
        .count()
}

/// The number that the digits write, if it is small enough.
#[tactic(auto, unfolding(crate::specs::Lexeme::number_of))]
fn number_of(digits: &[u8]) -> Option<i64>
    requires { AllPass is_ascii_digit digits.now }
    ensures { result ≡ option_map (λ n. pos n) (number_of digits.now) }
{
    let mut number = 0u64;
    for digit in digits {
        number = number
            .saturating_mul(10)
            .saturating_add(u64::from(*digit - b'0'));
    }
    i64::try_from(number).ok()
}

/// The number at the front, of which the first byte is known to be a digit.
#[tactic(auto, unfolding(crate::specs::Lexeme::number_at))]
fn number_at(bytes: &[u8]) -> Option<(Word, usize)>
    ensures { result ≡ number_at bytes.now }
{
    let len = digits_len(bytes);
    let number = number_of(&bytes[..len])?;
    Some((Word::Number(number), len))
}

fn text_len(bytes: &[u8]) -> usize
    ensures { result ≡ prefix_len is_text_byte bytes.now }
{
    bytes.iter().take_while(|byte| is_text_byte(**byte)).count()
}

/// The text whose first quote is before these bytes.
#[tactic(auto, unfolding(crate::specs::Lexeme::text_at))]
fn text_at(bytes: &[u8]) -> Option<(Word, usize)>
    ensures { result ≡ text_at bytes.now }
{
    let len = text_len(bytes);
    if len <= LONGEST_TEXT && bytes.get(len) == Some(&b'"') {
        Some((Word::Text, len + 2))
    } else {
        None
    }
}

/// The longest mark that the bytes begin with.
#[tactic(auto, unfolding(crate::specs::Lexeme::mark_of))]
fn mark_of(bytes: &[u8]) -> Option<Mark>
    ensures { result ≡ mark_of bytes.now }
{
    MARKS
        .iter()
        .copied()
        .find(|mark| bytes.starts_with(mark.spelling()))
}

/// The mark at the front.
#[tactic(auto, unfolding(crate::specs::Lexeme::mark_at))]
fn mark_at(bytes: &[u8]) -> Option<(Word, usize)>
    ensures { result ≡ mark_at bytes.now }
{
    let mark = mark_of(bytes)?;
    Some((Word::Mark(mark), mark.spelling().len()))
}

/// The word at the front, and how many bytes it takes.
#[tactic(auto, unfolding(crate::specs::Lexeme::word_at))]
pub fn word_at(bytes: &[u8]) -> Option<(Word, usize)>
    ensures { result ≡ word_at bytes.now }
{
    let first = *bytes.first()?;
    if is_name_start(first) {
        name_at(bytes)
    } else if first.is_ascii_digit() {
        number_at(bytes)
    } else if first == b'"' {
        text_at(&bytes[1..])
    } else {
        mark_at(bytes)
    }
}
