//! Templates of texts.

ghost use Rattle.std.specs.Prelude.{◌≡◌, ◌+◌, ◌<◌, ◌≤◌, ◌^◌, length, slice_get};
ghost use Rattle.std.specs.Fmt.{decimal};
ghost use Rattle.std.specs.List.{list_all};
ghost use Rattle.flu_model.specs.Rules.{is_plain_byte, is_plain, emit_piece_fits, flush_piece_fits, are_apart, is_short, emit_template_fits};
ghost use Rattle.flu_model.specs.Rules.{flush_template_fits};
ghost use Rattle.flu_model.specs.Templates.{family_name, written_key, written_cell, written_piece, written_template};

use crate::expressions::{is_declared, ref_fits};
use flu_model::{At, CellRef, Family, Piece};
use flu_names::{LONGEST_TEXT, is_text_byte};

/// Whether the pieces make a template of an emit.
pub fn emit_template_fits(
    families: &[Family],
    keyed: bool,
    has_value: bool,
    pieces: &[Piece],
) -> bool
    ensures { result ≡ emit_template_fits families.now keyed has_value pieces.now }
{
    emit_pieces_fit(families, keyed, has_value, pieces)
        && are_apart(pieces)
        && is_short(families, pieces)
}

fn emit_pieces_fit(families: &[Family], keyed: bool, has_value: bool, pieces: &[Piece]) -> bool
    ensures { result ≡ list_all (emit_piece_fits families.now keyed has_value) pieces.now }
{
    pieces
        .iter()
        .all(|piece| emit_piece_fits(families, keyed, has_value, piece))
}

/// Whether the pieces make a template of a flush of the family with this number.
pub fn flush_template_fits(
    families: &[Family],
    flushed: u32,
    has_value: bool,
    pieces: &[Piece],
) -> bool
    ensures { result ≡ flush_template_fits families.now flushed has_value pieces.now }
{
    flush_pieces_fit(families, flushed, has_value, pieces)
        && are_apart(pieces)
        && is_short(families, pieces)
}

fn flush_pieces_fit(families: &[Family], flushed: u32, has_value: bool, pieces: &[Piece]) -> bool
    ensures { result ≡ list_all (flush_piece_fits families.now flushed has_value) pieces.now }
{
    pieces.iter().all(|piece| flush_piece_fits(families, flushed, has_value, piece))
}

fn emit_piece_fits(families: &[Family], keyed: bool, has_value: bool, piece: &Piece) -> bool
    ensures { result ≡ emit_piece_fits families.now keyed has_value piece.now }
{
    match piece {
        Piece::Plain(text) => is_plain(text.as_str()),
        Piece::Value => has_value,
        Piece::Key => keyed,
        Piece::Item | Piece::Time => true,
        Piece::Read(cell) => ref_fits(families, keyed, cell),
        Piece::CellValue | Piece::FamilyCell(_) => false,
    }
}

// Its own cell is `CellValue` alone, so that a template has one form.
fn flush_piece_fits(families: &[Family], flushed: u32, has_value: bool, piece: &Piece) -> bool
    ensures { result ≡ flush_piece_fits families.now flushed has_value piece.now }
{
    match piece {
        Piece::Plain(text) => is_plain(text.as_str()),
        Piece::Value => has_value,
        Piece::Key | Piece::Item | Piece::Time | Piece::CellValue => true,
        Piece::Read(_) => false,
        Piece::FamilyCell(family) => is_declared(families, *family) && *family != flushed,
    }
}

// Whether no plain piece follows another.
fn are_apart(pieces: &[Piece]) -> bool
    ensures { result ≡ are_apart pieces.now }
{
    let mut after_plain = false;
    for piece in pieces {
        let plain = matches!(piece, Piece::Plain(_));
        if plain && after_plain {
            return false;
        }
        after_plain = plain;
    }
    true
}

// Whether a text is a plain piece: not empty, of bytes that stand for themselves.
fn is_plain(text: &str) -> bool
    ensures { result ≡ is_plain text.now }
{
    text.len() > 0 && are_plain_bytes(text.as_bytes())
}

fn are_plain_bytes(bytes: &[u8]) -> bool
    ensures { result ≡ list_all is_plain_byte bytes.now }
{
    bytes.iter().all(|byte| is_plain_byte(*byte))
}

fn is_plain_byte(byte: u8) -> bool
    ensures { result ≡ is_plain_byte byte }
{
    is_text_byte(byte) && byte != b'{' && byte != b'}'
}

// Whether the template, as a job text writes it, fits between two quotes. It is measured and not written out, no further than
// needed.
fn is_short(families: &[Family], pieces: &[Piece]) -> bool
    ensures { result ≡ is_short (written_template families.now pieces.now) }
{
    let mut left = LONGEST_TEXT;
    for piece in pieces {
        let length = piece_length(families, piece);
        if left < length {
            return false;
        }
        left -= length;
    }
    true
}

// How many bytes a piece has as it is written.
fn piece_length(families: &[Family], piece: &Piece) -> usize
    ensures { result ≡ length (written_piece families.now piece.now) }
{
    match piece {
        Piece::Plain(text) => text.as_str().len(),
        Piece::Value => "{value}".len(),
        Piece::Key => "{key}".len(),
        Piece::Item => "{item}".len(),
        Piece::Time => "{time}".len(),
        Piece::Read(cell) => "{}".len() + cell_length(families, cell),
        Piece::CellValue => "{cell}".len(),
        Piece::FamilyCell(family) => "{}".len() + name_length(families, *family),
    }
}

fn cell_length(families: &[Family], cell: &CellRef) -> usize
    ensures length { result ≡ length (written_cell families.now cell.now) }
    ensures room { result < 2 ^ 63 + 12 }
{
    name_length(families, cell.family) + key_length(&cell.at)
}

fn name_length(families: &[Family], family: u32) -> usize
    ensures length { result ≡ length (family_name (slice_get families.now family)) }
    ensures room { result < 2 ^ 63 }
{
    match families.get(family as usize) {
        Some(family) => family.name.as_str().len(),
        None => 0,
    }
}

fn key_length(at: &At) -> usize
    ensures length { result ≡ length (written_key at.now) }
    ensures few { result ≤ 12 }
{
    match at {
        At::Alone => 0,
        At::OwnKey => "[key]".len(),
        At::OwnItem => "[item]".len(),
        At::Fixed(key) => "[]".len() + digit_count(*key),
    }
}

// How many digits a number is written with.
fn digit_count(number: u32) -> usize
    ensures count { result ≡ length (decimal number) }
    ensures few { result ≤ 10 }
{
    if number < 10 {
        1
    } else {
        digit_count(number / 10) + 1
    }
}
