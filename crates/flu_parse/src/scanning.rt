//! The pieces of a template, byte by byte.

ghost use Rattle.std.specs.Prelude.{◌≡◌, ◌+◌, ◌<◌, ◌≤◌, length, OnOk, IfOk};
ghost use Rattle.flu_parse.specs.Templates.{with_plain, field_at, scan_byte, end_of_scan, scan, scan_start, template_at};
ghost use Rattle.flu_parse.specs.Scans.{scan_of, template_of_scan, Steps};

use crate::fields::piece_between;
use crate::pieces::{ScannedTemplate, Scanner, WrittenPiece};
use flu_layout::inside;
use flu_syntax::WrittenSpan;
use std::alloc::{AllocError, Global};

// The plain piece that ends at a place, if it is not empty.
fn end_plain(scanner: &mut Scanner, place: usize) -> Result<(), AllocError>
    ensures pieces { OnOk result (scanner.new.pieces.items ≡ with_plain (scan_of scanner.old) place) }
    ensures start { scanner.new.start ≡ scanner.old.start }
    ensures in_field { scanner.new.in_field ≡ scanner.old.in_field }
{
    if scanner.start < place {
        let from = scanner.start;
        scanner
            .pieces
            .push(WrittenPiece::Plain(WrittenSpan { from, to: place }))?;
    }
    Ok(())
}

// One more byte, at a place: false if a brace has no partner, this one or the one that opened the field.
#[tactic(auto, unfolding(crate::specs::Templates::scan_byte))]
fn scan_byte(
    scanner: &mut Scanner,
    text: &str,
    version: u32,
    in_flush: bool,
    place: usize,
    byte: u8,
) -> Result<bool, AllocError>
    requires { place < length text.now }
    ensures { IfOk result (λ goes_on. Steps goes_on (scan_of scanner.old) (scan_of scanner.new)
        (scan_byte (field_at text.now version in_flush) (scan_of scanner.old) place byte)) }
{
    if scanner.in_field {
        if byte != b'}' {
            return Ok(byte != b'{');
        }
        let piece = piece_between(text, version, in_flush, scanner.start, place);
        scanner.pieces.push(piece)?;
        scanner.start = place + 1;
        scanner.in_field = false;
        return Ok(true);
    }
    if byte == b'{' {
        end_plain(scanner, place)?;
        scanner.start = place + 1;
        scanner.in_field = true;
        return Ok(true);
    }
    Ok(byte != b'}')
}

// What is found where the text ends, at a place.
fn end_scan(scanner: Scanner, place: usize) -> Result<ScannedTemplate, AllocError>
    ensures { IfOk result (λ t. template_of_scan t ≡ end_of_scan (scan_of scanner) place) }
{
    let mut scanner = scanner;
    if scanner.in_field {
        return Ok(ScannedTemplate {
            pieces: scanner.pieces,
            whole: false,
        });
    }
    end_plain(&mut scanner, place)?;
    Ok(ScannedTemplate {
        pieces: scanner.pieces,
        whole: true,
    })
}

fn scan(
    alloc: Global,
    text: &str,
    version: u32,
    in_flush: bool,
    from: usize,
    bytes: &[u8],
) -> Result<ScannedTemplate, AllocError>
    requires { from + length bytes.now ≤ length text.now }
    ensures { IfOk result (λ t. template_of_scan t ≡ scan (field_at text.now version in_flush) (scan_start from) from bytes.now) }
{
    let mut scanner = Scanner {
        pieces: Vec::new(alloc),
        start: from,
        in_field: false,
    };
    for (i, byte) in bytes.iter().enumerate() {
        let goes_on = scan_byte(&mut scanner, text, version, in_flush, from + i, *byte)?;
        if !goes_on {
            return Ok(ScannedTemplate {
                pieces: scanner.pieces,
                whole: false,
            });
        }
    }
    let template = end_scan(scanner, from + bytes.len())?;
    Ok(template)
}

/// The template of a written text.
#[tactic(auto, unfolding(crate::specs::Templates::template_at, crate::specs::Templates::scan))]
pub fn template_at(
    alloc: Global,
    text: &str,
    version: u32,
    in_flush: bool,
    span: WrittenSpan,
) -> Result<ScannedTemplate, AllocError>
    ensures { IfOk result (λ t. template_of_scan t ≡ template_at text.now version in_flush span) }
{
    let bytes = inside(text, span).as_bytes();
    if bytes.is_empty() {
        return Ok(ScannedTemplate {
            pieces: Vec::new(alloc),
            whole: true,
        });
    }
    scan(alloc, text, version, in_flush, span.from + 1, bytes)
}
