//! What written templates mean.

ghost use Rattle.std.specs.Prelude.{◌≡◌, is_some, IfOk};
ghost use Rattle.std.specs.List.{list_all};
ghost use Rattle.flu_model.specs.Rules.{is_short};
ghost use Rattle.flu_model.specs.Templates.{written_template};
ghost use Rattle.flu_layout.specs.Spelling.{name_of};
ghost use Rattle.flu_parse.specs.Faults.{Gives};
ghost use Rattle.flu_parse.specs.Naming.{naming, families_of, look_up, known};
ghost use Rattle.flu_parse.specs.Templates.{known_name, known_names, own_key_fits, read_fits, piece_fits};
ghost use Rattle.flu_parse.specs.Templates.{family_piece, piece_of, pieces_of, may_be_printed, template_of};

use crate::cells::{at_of, brackets_fit};
use crate::faults::JobFault;
use crate::names::{FamilyHead, KindHead, Names};
use crate::naming::{families_of, find_family, takes_items};
use crate::pieces::WrittenPiece;
use crate::printing_actions::add_pieces;
use crate::scanning::template_at;
use flu_layout::name_of;
use flu_model::{CellRef, List, Piece, Text};
use flu_syntax::{WrittenKey, WrittenSpan};
use std::alloc::{AllocError, Global};

/// The most bytes between the quotes of a text.
const MOST_BYTES: usize = 256;

fn known_family(
    text: &str,
    names: &Names,
    place: usize,
    name: WrittenSpan,
) -> Result<FamilyHead, JobFault>
    ensures { Gives (λ head. head) result (known place (look_up (name_of text.now name) (naming names.now).families)) }
{
    find_family(names, name_of(text, name)).ok_or(JobFault::UnknownName { at: place })
}

#[tactic(auto, unfolding(crate::specs::Templates::known_name))]
fn known_name(text: &str, names: &Names, place: usize, piece: &WrittenPiece) -> Result<(), JobFault>
    ensures { Gives (λ done. done) result (known_name text.now (naming names.now) place piece.now) }
{
    match piece {
        WrittenPiece::Read(written) => {
            known_family(text, names, place, written.family)?;
            Ok(())
        }
        WrittenPiece::Family(name) => {
            known_family(text, names, place, *name)?;
            Ok(())
        }
        WrittenPiece::Plain(_)
        | WrittenPiece::Value
        | WrittenPiece::Key
        | WrittenPiece::Item
        | WrittenPiece::Time
        | WrittenPiece::CellValue
        | WrittenPiece::Formless => Ok(()),
    }
}

fn known_names(
    text: &str,
    names: &Names,
    place: usize,
    pieces: &[WrittenPiece],
) -> Result<(), JobFault>
    ensures { Gives (λ done. done) result (known_names text.now (naming names.now) place pieces.now) }
{
    for piece in pieces {
        match known_name(text, names, place, piece) {
            Ok(()) => {}
            Err(fault) => return Err(fault),
        }
    }
    Ok(())
}

fn own_key_fits(names: &Names, under: KindHead, key: &WrittenKey) -> bool
    ensures { result ≡ own_key_fits (naming names.now) under key.now }
{
    match key {
        WrittenKey::OwnKey { .. } => under.keyed,
        WrittenKey::OwnItem { .. } => takes_items(names, under),
        WrittenKey::Alone | WrittenKey::Fixed(_) => true,
    }
}

fn read_fits(names: &Names, under: KindHead, key: &WrittenKey, family: Option<FamilyHead>) -> bool
    ensures { result ≡ read_fits (naming names.now) under key.now family }
{
    match family {
        None => false,
        Some(family) => brackets_fit(family.keyed, key) && own_key_fits(names, under, key),
    }
}

fn piece_fits(
    text: &str,
    names: &Names,
    under: KindHead,
    in_flush: bool,
    piece: &WrittenPiece,
) -> bool
    ensures { result ≡ piece_fits text.now (naming names.now) under in_flush piece.now }
{
    match piece {
        WrittenPiece::Plain(_)
        | WrittenPiece::Time
        | WrittenPiece::CellValue
        | WrittenPiece::Family(_) => true,
        WrittenPiece::Value => under.has_value,
        WrittenPiece::Key => in_flush || under.keyed,
        WrittenPiece::Item => takes_items(names, under),
        WrittenPiece::Read(written) => read_fits(
            names,
            under,
            &written.key,
            find_family(names, name_of(text, written.family)),
        ),
        WrittenPiece::Formless => false,
    }
}

fn pieces_fit(
    text: &str,
    names: &Names,
    under: KindHead,
    in_flush: bool,
    pieces: &[WrittenPiece],
) -> bool
    ensures { result ≡ list_all (piece_fits text.now (naming names.now) under in_flush) pieces.now }
{
    pieces
        .iter()
        .all(|piece| piece_fits(text, names, under, in_flush, piece))
}

// The cell of a family in a flush.
fn family_piece(flushed: Option<u32>, number: u32) -> Piece
    ensures { result ≡ family_piece flushed number }
{
    match flushed {
        None => Piece::FamilyCell(number),
        Some(flushed) => {
            if number == flushed {
                Piece::CellValue
            } else {
                Piece::FamilyCell(number)
            }
        }
    }
}

#[tactic(auto, unfolding(crate::specs::Templates::piece_of))]
fn piece_of(
    alloc: Global,
    text: &str,
    names: &Names,
    under: KindHead,
    flushed: Option<u32>,
    place: usize,
    piece: &WrittenPiece,
) -> Result<Piece, JobFault>
    ensures { Gives (λ piece. piece) result (piece_of text.now (naming names.now) under flushed place piece.now) }
{
    match piece {
        WrittenPiece::Plain(span) => {
            let plain = String::from_str(alloc, name_of(text, *span))?;
            Ok(Piece::Plain(Text::of(plain)))
        }
        WrittenPiece::Value => Ok(Piece::Value),
        WrittenPiece::Key => Ok(Piece::Key),
        WrittenPiece::Item => Ok(Piece::Item),
        WrittenPiece::Time => Ok(Piece::Time),
        WrittenPiece::CellValue => Ok(Piece::CellValue),
        WrittenPiece::Read(written) => {
            let family = known_family(text, names, place, written.family)?;
            let at = at_of(names, under, &written.key)?;
            Ok(Piece::Read(CellRef {
                family: family.number,
                at,
            }))
        }
        WrittenPiece::Family(name) => {
            let family = known_family(text, names, place, *name)?;
            Ok(family_piece(flushed, family.number))
        }
        WrittenPiece::Formless => Err(JobFault::WrongShape { at: place }),
    }
}

fn pieces_of(
    alloc: Global,
    text: &str,
    names: &Names,
    under: KindHead,
    flushed: Option<u32>,
    place: usize,
    pieces: &[WrittenPiece],
) -> Result<Vec<Piece>, JobFault>
    ensures { Gives (λ found. found.items) result (pieces_of text.now (naming names.now) under flushed place pieces.now) }
{
    let mut found = Vec::new(alloc);
    for piece in pieces {
        match piece_of(alloc, text, names, under, flushed, place, piece) {
            Ok(piece) => found.push(piece)?,
            Err(fault) => return Err(fault),
        }
    }
    Ok(found)
}

// Whether what is printed for these pieces is a text of the language, too.
fn may_be_printed(
    alloc: Global,
    names: &Names,
    flushed: Option<u32>,
    pieces: &[Piece],
) -> Result<bool, AllocError>
    ensures { IfOk result (λ fits. fits ≡ may_be_printed (naming names.now) flushed pieces.now) }
{
    match flushed {
        None => Ok(true),
        Some(_) => is_short(alloc, names, pieces),
    }
}

fn is_short(alloc: Global, names: &Names, pieces: &[Piece]) -> Result<bool, AllocError>
    ensures { IfOk result (λ short. short ≡ is_short (written_template (families_of (naming names.now)) pieces.now)) }
{
    let families = families_of(alloc, names)?;
    let mut text = String::new(alloc);
    add_pieces(&mut text, families.as_slice(), pieces)?;
    Ok(text.len() <= MOST_BYTES)
}

/// What a template means under a kind, in an emit or in a flush of the family of this number, or the first fault in it.
#[tactic(auto, unfolding(crate::specs::Templates::template_of))]
pub fn template_of(
    alloc: Global,
    text: &str,
    names: &Names,
    under: KindHead,
    flushed: Option<u32>,
    span: WrittenSpan,
) -> Result<List<Piece>, JobFault>
    ensures { Gives (λ pieces. pieces) result (template_of text.now (naming names.now) under flushed span) }
{
    let in_flush = flushed.is_some();
    let template = template_at(alloc, text, names.version, in_flush, span)?;
    let pieces = template.pieces.as_slice();
    known_names(text, names, span.from, pieces)?;
    if !(template.whole && pieces_fit(text, names, under, in_flush, pieces)) {
        return Err(JobFault::WrongShape { at: span.from });
    }
    let found = pieces_of(alloc, text, names, under, flushed, span.from, pieces)?;
    if !may_be_printed(alloc, names, flushed, found.as_slice())? {
        return Err(JobFault::WrongShape { at: span.from });
    }
    Ok(List::of(found))
}
