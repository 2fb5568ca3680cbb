//! The texts that actions emit.

ghost use Rattle.std.specs.Prelude.{◌≡◌, ◌++◌, OnOk, IfOk, slice_get, option_map, option_and_then};
ghost use Rattle.std.specs.Fmt.{signed_decimal};
ghost use Rattle.std.specs.String.{string_bytes};
ghost use Rattle.flu_model.specs.Numberings.{list_at, shown_number, text_at};
ghost use Rattle.flu_model.specs.Texts as meaning;
ghost use Rattle.flu_cells.specs.Holding.{held};
ghost use Rattle.flu_step.specs.Shown.{showing};

use flu_cells::State;
use flu_model::{
    Cell, Event, Family, NameList, Piece, Sort, Text, Unit, Worth, cell_of, item_of,
    push_shown_time,
};
use std::alloc::{AllocError, Global};

/// How times and numbers are shown: the unit of times that are texts, the lists of names, and which of them names the items of the event's
/// kind, and which the keys of the family that is flushed; in an emit none names keys.
#[derive(Clone, Copy)]
pub struct Shown<'a> {
    pub iso: Option<Unit>,
    pub lists: &'a [NameList],
    pub items: Option<u32>,
    pub keys: Option<u32>,
}

/// What the fields of a template are filled from: how times and numbers are shown, the families of the job, a state, an event, the key
/// that `{key}` is, and what the cell that `{cell}` names holds, which is not neutral.
#[derive(Clone, Copy)]
pub struct Filling<'a> {
    pub show: Shown<'a>,
    pub families: &'a [Family],
    pub state: &'a State,
    pub event: &'a Event,
    pub key: u32,
    pub there: Option<Worth>,
}

/// The text of a template.
pub fn text_of(alloc: Global, pieces: &[Piece], at: &Filling<'_>) -> Result<Text, AllocError>
    ensures { IfOk result (λ t. t
        ≡ meaning.pieces_text (showing at.now.show) at.now.families.now pieces.now (held at.now.state.now) at.now.event.now at.now.key at.now.there) }
{
    let mut text = String::new(alloc);
    for piece in pieces {
        push_piece(&mut text, piece, at)?;
    }
    Ok(Text::of(text))
}

// One piece at the end of a text.
fn push_piece(text: &mut String, piece: &Piece, at: &Filling<'_>) -> Result<(), AllocError>
    ensures { OnOk result (string_bytes text.new ≡ string_bytes text.old
        ++ meaning.piece_text (showing at.now.show) at.now.families.now piece.now (held at.now.state.now) at.now.event.now at.now.key at.now.there) }
{
    match piece {
        Piece::Plain(plain) => text.push_str(plain.as_str()),
        Piece::Value => push_signed(text, at.event.value),
        Piece::Key => push_number(text, at.show.lists, at.show.keys, at.key),
        Piece::Item => {
            let item = u32::from(item_of(at.event));
            push_number(text, at.show.lists, at.show.items, item)
        }
        Piece::Time => push_shown_time(text, at.show.iso, at.event.time),
        Piece::Read(r) => {
            let neutral = neutral_of(at.families, r.family);
            let item = item_of(at.event);
            push_worth(text, neutral, at.state.get(cell_of(*r, at.key, item)))
        }
        Piece::CellValue => push_worth(text, "none", at.there),
        Piece::FamilyCell(number) => {
            let neutral = neutral_of(at.families, *number);
            let cell = Cell {
                family: *number,
                key: key_in(at.families, *number, at.key),
            };
            push_worth(text, neutral, at.state.get(cell))
        }
    }
}

// A neutral cell of the family with this number as a text.
fn neutral_of(families: &[Family], number: u32) -> &'static str
    ensures { result.now ≡ meaning.neutral_of (slice_get families.now number) }
{
    match families.get(number as usize) {
        Some(family) => neutral_text(family.sort),
        None => "none",
    }
}

// The key of the cell of the family with this number at a flush of this key: an unkeyed family has its only one.
fn key_in(families: &[Family], number: u32, key: u32) -> u32
    ensures { result ≡ meaning.key_in (slice_get families.now number) key }
{
    match families.get(number as usize) {
        Some(family) if family.keyed => key,
        _ => 0,
    }
}

fn neutral_text(sort: Sort) -> &'static str
    ensures { result.now ≡ meaning.neutral_text sort }
{
    match sort {
        Sort::Sum => "0",
        Sort::Max | Sort::Last => "none",
    }
}

// What a cell holds at the end of a text.
fn push_worth(text: &mut String, neutral: &str, there: Option<Worth>) -> Result<(), AllocError>
    ensures { OnOk result (string_bytes text.new ≡ string_bytes text.old ++ meaning.worth_text neutral.now there) }
{
    match there {
        None => text.push_str(neutral),
        Some(Worth::Sum(n)) => push_wide(text, n),
        Some(Worth::Max(v)) => push_signed(text, v),
        Some(Worth::Last(v)) => push_signed(text, v),
    }
}

// A number at the end of a text: by its name in the list that is meant, or as a number where there is none.
fn push_number(
    text: &mut String,
    lists: &[NameList],
    list: Option<u32>,
    n: u32,
) -> Result<(), AllocError>
    ensures { OnOk result (string_bytes text.new ≡ string_bytes text.old ++ shown_number lists.now list n) }
{
    match name_of(lists, list, n) {
        Some(name) => text.push_str(name),
        None => write!(text, "{n}"),
    }
}

// The name of a number in the list that is meant, if it has one.
fn name_of<'a>(lists: &'a [NameList], list: Option<u32>, n: u32) -> Option<&'a str>
    ensures { option_map (λ name. name.now) result ≡ option_and_then (λ l. text_at l n) (list_at lists.now list) }
{
    let list = lists.get(list? as usize)?;
    list.text(n as usize)
}

fn push_signed(text: &mut String, n: i64) -> Result<(), AllocError>
    ensures { OnOk result (string_bytes text.new ≡ string_bytes text.old ++ signed_decimal n) }
{
    write!(text, "{n}")
}

fn push_wide(text: &mut String, n: i128) -> Result<(), AllocError>
    ensures { OnOk result (string_bytes text.new ≡ string_bytes text.old ++ signed_decimal n) }
{
    write!(text, "{n}")
}
