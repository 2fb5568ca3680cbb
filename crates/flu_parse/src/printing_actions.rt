//! Templates and actions in normal form.

ghost use Rattle.std.specs.Prelude.{◌≡◌, ◌++◌, OnOk, map, option_map, codes};
ghost use Rattle.std.specs.String.{string_bytes};
ghost use Rattle.flu_model.specs.Erasure.{term_of, plain_action, plain_act};
ghost use Rattle.flu_model.specs.Templates.{written_cell, written_piece, written_template};
ghost use Rattle.flu_layout.specs.Laid.{quoted};
ghost use Rattle.flu_layout.specs.Lists.{separated};
ghost use Rattle.flu_parse.specs.Printing.{term_text, act_text, guard_text, action_text};

use crate::printing_terms::{add_cell, add_term, family_name};
use flu_model::{Act, Action, CellRef, Expr, Family, Piece};
use std::alloc::AllocError;

fn add_piece(text: &mut String, families: &[Family], piece: &Piece) -> Result<(), AllocError>
    ensures { OnOk result (string_bytes text.new ≡ string_bytes text.old ++ written_piece families.now piece.now) }
{
    match piece {
        Piece::Plain(plain) => text.push_str(plain.as_str()),
        Piece::Value => text.push_str("{value}"),
        Piece::Key => text.push_str("{key}"),
        Piece::Item => text.push_str("{item}"),
        Piece::Time => text.push_str("{time}"),
        Piece::CellValue => text.push_str("{cell}"),
        Piece::Read(cell) => {
            text.push_str("{")?;
            add_cell(text, families, *cell)?;
            text.push_str("}")
        }
        Piece::FamilyCell(family) => {
            let name = family_name(families, *family);
            text.push_str("{")?;
            text.push_str(name)?;
            text.push_str("}")
        }
    }
}

/// Adds the pieces of a template, as they stand between its quotes.
pub fn add_pieces(
    text: &mut String,
    families: &[Family],
    pieces: &[Piece],
) -> Result<(), AllocError>
    ensures { OnOk result (string_bytes text.new ≡ string_bytes text.old ++ written_template families.now pieces.now) }
{
    for piece in pieces {
        add_piece(text, families, piece)?;
    }
    Ok(())
}

fn add_template(text: &mut String, families: &[Family], pieces: &[Piece]) -> Result<(), AllocError>
    ensures { OnOk result (string_bytes text.new ≡ string_bytes text.old ++ quoted (written_template families.now pieces.now)) }
{
    text.push_str("\"")?;
    add_pieces(text, families, pieces)?;
    text.push_str("\"")
}

fn add_writing(
    text: &mut String,
    families: &[Family],
    verb: &str,
    cell: CellRef,
    amount: &Expr,
) -> Result<(), AllocError>
    ensures { OnOk result (string_bytes text.new ≡ string_bytes text.old ++ verb.now ++ written_cell families.now cell ++ codes " "
        ++ term_text families.now (term_of amount.now)) }
{
    text.push_str(verb)?;
    add_cell(text, families, cell)?;
    text.push_str(" ")?;
    add_term(text, families, amount)
}

fn add_act(text: &mut String, families: &[Family], act: &Act) -> Result<(), AllocError>
    ensures { OnOk result (string_bytes text.new ≡ string_bytes text.old ++ act_text families.now (plain_act act.now)) }
{
    match act {
        Act::Add(cell, amount) => add_writing(text, families, "add ", *cell, amount),
        Act::Raise(cell, amount) => add_writing(text, families, "raise ", *cell, amount),
        Act::Set(cell, amount) => add_writing(text, families, "set ", *cell, amount),
        Act::Clear(cell) => {
            text.push_str("clear ")?;
            add_cell(text, families, *cell)
        }
        Act::ClearFamily(family) => {
            text.push_str("clear ")?;
            text.push_str(family_name(families, *family))
        }
        Act::Emit(pieces) => {
            text.push_str("emit ")?;
            add_template(text, families, pieces.items())
        }
        Act::Flush(family, pieces) => {
            let name = family_name(families, *family);
            write!(text, "flush {name} ")?;
            add_template(text, families, pieces.items())
        }
    }
}

fn add_guard(text: &mut String, families: &[Family], guard: &Option<Expr>) -> Result<(), AllocError>
    ensures { OnOk result (string_bytes text.new ≡ string_bytes text.old ++ guard_text families.now (option_map term_of guard.now)) }
{
    match guard {
        Some(guard) => {
            text.push_str(" when ")?;
            add_term(text, families, guard)
        }
        None => Ok(()),
    }
}

fn add_action(text: &mut String, families: &[Family], action: &Action) -> Result<(), AllocError>
    ensures { OnOk result (string_bytes text.new ≡ string_bytes text.old ++ action_text families.now (plain_action action.now)) }
{
    add_act(text, families, &action.act)?;
    add_guard(text, families, &action.guard)
}

/// Adds actions, with `; ` between each two.
pub fn add_actions(
    text: &mut String,
    families: &[Family],
    actions: &[Action],
) -> Result<(), AllocError>
    ensures { OnOk result (string_bytes text.new ≡ string_bytes text.old ++ separated (codes "; ") (action_text families.now) (map plain_action actions.now)) }
{
    let [first, others @ ..] = actions else {
        return Ok(());
    };
    add_action(text, families, first)?;
    for action in others {
        text.push_str("; ")?;
        add_action(text, families, action)?;
    }
    Ok(())
}
