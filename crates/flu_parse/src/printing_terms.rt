//! Cells and expressions in normal form.

ghost use Rattle.std.specs.Prelude.{◌≡◌, ◌++◌, OnOk, slice_get};
ghost use Rattle.std.specs.String.{string_bytes};
ghost use Rattle.flu_model.specs.Erasure.{term_of};
ghost use Rattle.flu_model.specs.Templates.{family_name, written_key, written_cell};
ghost use Rattle.flu_parse.specs.Printing.{op_text, term_text};

use flu_model::{At, CellRef, Expr, Family, Op};
use std::alloc::AllocError;

/// The name of a family, or nothing if there is no such family.
pub fn family_name(families: &[Family], family: u32) -> &str
    ensures { result.now ≡ family_name (slice_get families.now family) }
{
    match families.get(family as usize) {
        Some(family) => family.name.as_str(),
        None => "",
    }
}

fn add_key(text: &mut String, at: At) -> Result<(), AllocError>
    ensures { OnOk result (string_bytes text.new ≡ string_bytes text.old ++ written_key at) }
{
    match at {
        At::Alone => Ok(()),
        At::OwnKey => text.push_str("[key]"),
        At::OwnItem => text.push_str("[item]"),
        At::Fixed(key) => write!(text, "[{key}]"),
    }
}

/// Adds a cell, `name`, `name[key]`, `name[item]` or `name[digits]`.
pub fn add_cell(text: &mut String, families: &[Family], cell: CellRef) -> Result<(), AllocError>
    ensures { OnOk result (string_bytes text.new ≡ string_bytes text.old ++ written_cell families.now cell) }
{
    text.push_str(family_name(families, cell.family))?;
    add_key(text, cell.at)
}

fn op_text(op: Op) -> &'static str
    ensures { result.now ≡ op_text op }
{
    match op {
        Op::Plus => "+",
        Op::Minus => "-",
        Op::Times => "*",
        Op::Divide => "/",
        Op::Remainder => "%",
        Op::Less => "<",
        Op::LessEq => "<=",
        Op::More => ">",
        Op::MoreEq => ">=",
        Op::Same => "==",
        Op::Differs => "!=",
        Op::Both => "and",
        Op::Either => "or",
    }
}

/// Adds an expression, with each operator in parentheses of its own.
pub fn add_term(text: &mut String, families: &[Family], expr: &Expr) -> Result<(), AllocError>
    ensures { OnOk result (string_bytes text.new ≡ string_bytes text.old ++ term_text families.now (term_of expr.now)) }
{
    match expr {
        Expr::Lit(number) => write!(text, "{number}"),
        Expr::Value => text.push_str("value"),
        Expr::Key => text.push_str("key"),
        Expr::Item => text.push_str("item"),
        Expr::Time => text.push_str("time"),
        Expr::Read(cell) => add_cell(text, families, *cell),
        Expr::Has(cell) => {
            text.push_str("has ")?;
            add_cell(text, families, *cell)
        }
        Expr::Neg(inner) => {
            text.push_str("(- ")?;
            add_term(text, families, inner)?;
            text.push_str(")")
        }
        Expr::Not(inner) => {
            text.push_str("(not ")?;
            add_term(text, families, inner)?;
            text.push_str(")")
        }
        Expr::Two(op, left, right) => {
            text.push_str("(")?;
            add_term(text, families, left)?;
            write!(text, " {} ", op_text(*op))?;
            add_term(text, families, right)?;
            text.push_str(")")
        }
    }
}
