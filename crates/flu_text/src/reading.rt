//! The tokens of a text.

ghost use Rattle.std.specs.Prelude.{◌≡◌, ◌≢◌, ◌<◌, ◌≤◌, ◌+◌, ◌↔◌, ℕ, List, length, false, All, IsOk, IfOk, IfSome};
ghost use Rattle.flu_text.specs.Grammar.{IsToken, IsGap, AreTokens, IsFirstBadPlace, IsSpan, IsInsideOfText, Rise};
ghost use Rattle.flu_text.specs.Reading.{gap_len, next_place, token_at, reading, Gives};

use crate::lexeme::{is_blank, word_at};
use crate::words::Token;
use std::alloc::Global;
use thiserror::Error;

/// Why a text has no tokens.
#[derive(Debug, Drop, Error)]
pub enum TextFault {
    /// No token begins at this byte, counted from 0, and no blank or comment either.
    #[error("no token begins here")]
    BadToken { at: usize },
    /// Out of memory.
    #[error("out of memory")]
    NoMemory,
}

/// How many bytes of blanks and comments there are at the front.
fn gap_len(bytes: &[u8]) -> usize
    ensures value { result ≡ gap_len false bytes.now }
    ensures within { result ≤ length bytes.now }
{
    let mut in_comment = false;
    for (i, byte) in bytes.iter().enumerate() {
        if in_comment {
            in_comment = *byte != b'\n';
        } else if *byte == b'#' {
            in_comment = true;
        } else if !is_blank(*byte) {
            return i;
        }
    }
    bytes.len()
}

/// The token that begins at a place.
#[tactic(auto, unfolding(crate::specs::Reading::token_at))]
fn token_at(text: &[u8], from: usize) -> Option<Token>
    requires { from ≤ length text.now }
    ensures value { result ≡ token_at text.now from }
    ensures within { IfSome result (λ t. (from < t.to) × (t.to ≤ length text.now)) }
{
    let (word, len) = word_at(&text[from..])?;
    Some(Token {
        word,
        from,
        to: from + len,
    })
}

/// The tokens of a text, in order, each with the bytes that it takes. Between them are only blanks, which are space, tab,
/// carriage return and line feed, and comments, from `#` to before the next line feed or the end. At each place the longest run
/// of a token's characters is taken first, and its limit is looked at then.
///
/// # Errors
///
/// [`TextFault::BadToken`] at the first place where no token begins: at a name of more than 32 bytes, a number above
/// 9223372036854775807, a text of more than 256 bytes or without its second quote, or any other character.
/// [`TextFault::NoMemory`] if memory runs out.
pub fn tokens(alloc: Global, text: &str) -> Result<Vec<Token>, TextFault>
    // The whole text is these tokens, with blanks and comments alone between them.
    ensures tokens { IfOk result (λ found. AreTokens text.now found.items) }
    ensures each { IfOk result (λ found. All (IsToken text.now) found.items) }
    ensures spans { IfOk result (λ found. All (IsSpan text.now) found.items) }
    ensures inside { IfOk result (λ found. All (IsInsideOfText text.now) found.items) }
    ensures rise { IfOk result (λ found. Rise found.items) }

    // Want of memory alone is free: all else is decided by the text.
    ensures whole { result ≢ Err TextFault.NoMemory
        → (IsOk result ↔ ((found : List Token) × AreTokens text.now found)) }
    ensures bad_token { result ≢ Err TextFault.NoMemory
        → (at : ℕ) → (result ≡ Err (TextFault.BadToken at)) ↔ IsFirstBadPlace text.now at }

    // The same, computed.
    ensures reading { Gives (reading text.now) result }
{
    let bytes = text.as_bytes();
    let mut found = Vec::new(alloc);
    let mut place = gap_len(bytes);
    while place < bytes.len() {
        let Some(token) = token_at(bytes, place) else {
            return Err(TextFault::BadToken { at: place });
        };
        place = token.to + gap_len(&bytes[token.to..]);
        found.push(token).map_err(|_| TextFault::NoMemory)?;
    }
    Ok(found)
}
