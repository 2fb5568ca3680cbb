//! A place in a text: its line and column, the line itself, and a mark below.

use std::alloc::{AllocError, Global};
use std::str;

/// A longer line is not shown.
const LONGEST_LINE: usize = 200;

/// Appends where a place of a text is: the file, the line and the column from 1, and the line with a mark below the column. Nothing for a
/// place that is not in the text.
pub fn push_place(
    alloc: Global,
    told: &mut String,
    name: &str,
    bytes: &[u8],
    at: usize,
) -> Result<(), AllocError> {
    if at > bytes.len() {
        return Ok(());
    }
    let (number, begin) = line_begin(bytes, at);
    let before = at.saturating_sub(begin);
    let column = before.saturating_add(1);
    let place = format!(in alloc; "{name}, line {number}, column {column}")?;
    push_line(told, place.as_str())?;
    let Some(shown) = line_from(bytes, begin) else {
        return Ok(());
    };
    push_line(told, shown)?;
    told.push_str("  ")?;
    for (i, _) in shown.char_indices() {
        if i < before {
            told.push(' ')?;
        }
    }
    told.push_str("^\n")
}

/// The number from 1 of the line in which a place is, and the place where that line begins.
pub fn line_begin(bytes: &[u8], at: usize) -> (u64, usize) {
    let mut number = 1u64;
    let mut begin = 0usize;
    for (i, byte) in bytes.iter().enumerate().take(at) {
        if *byte == b'\n' {
            number = number.saturating_add(1);
            begin = i.saturating_add(1);
        }
    }
    (number, begin)
}

// The line that begins at a place, if it is a short text.
fn line_from(bytes: &[u8], begin: usize) -> Option<&str> {
    let rest = bytes.get(begin..)?;
    let mut length = 0usize;
    for byte in rest {
        if *byte == b'\n' {
            break;
        }
        length = length.saturating_add(1);
    }
    short_text(rest.get(..length)?)
}

/// Bytes as a text, if they are one and not long.
pub fn short_text(bytes: &[u8]) -> Option<&str> {
    if bytes.len() > LONGEST_LINE {
        return None;
    }
    str::from_utf8(bytes).ok()
}

/// Appends a line to a text, with `?` for each character that would control a terminal.
pub fn push_line(told: &mut String, line: &str) -> Result<(), AllocError> {
    told.push_str("  ")?;
    for c in line.chars() {
        told.push(shown_char(c))?;
    }
    told.push('\n')
}

fn shown_char(c: char) -> char {
    match c {
        '\t' | '\r' => ' ',
        c if c.is_control() || is_unseen(c) => '?',
        c => c,
    }
}

// Whether a character is not visible itself, but may change the direction of others, join them or break their line.
fn is_unseen(c: char) -> bool {
    matches!(
        c,
        '\u{ad}'
            | '\u{61c}'
            | '\u{180e}'
            | '\u{200b}'..='\u{200f}'
            | '\u{2028}'..='\u{202e}'
            | '\u{2060}'..='\u{206f}'
            | '\u{feff}'
            | '\u{fff9}'..='\u{fffb}'
            | '\u{e0000}'..='\u{e007f}'
    )
}
