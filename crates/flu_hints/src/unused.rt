//! What a job declares and does not use, and what it names and is not there.

use crate::places::push_line;
use flu_model::{Act, Action, Expr, Kind, Piece, Program};
use std::alloc::AllocError;
use std::{fs, rt};

/// What a person may want to know of a job though it is one: that it has no source or no output, kinds that no source lists, cells that
/// are never read, lists that name nothing, and files of its sources that are not there. Empty if there is nothing of the kind.
pub fn job_hint<R: rt::Files + AllocGlobal>(
    rt: &R,
    program: &Program,
) -> Result<String, AllocError> {
    let mut told = String::new(rt.alloc());
    push_emptiness(&mut told, program)?;
    push_unlisted(rt, &mut told, program)?;
    push_unread(rt, &mut told, program)?;
    push_idle_lists(rt, &mut told, program)?;
    push_absent(rt, &mut told, program)?;
    Ok(told)
}

/// Appends why a job can read nothing, or write nothing, if that is so.
pub fn push_emptiness(told: &mut String, program: &Program) -> Result<(), AllocError> {
    if program.sources.items().is_empty() {
        return push_line(
            told,
            "the job has no source: it reads nothing and writes nothing",
        );
    }
    if !program.kinds.items().iter().any(|kind| writes(kind)) {
        return push_line(told, "the job has no emit and no flush: it writes nothing");
    }
    Ok(())
}

/// Whether an event of a kind may write a line of the report.
pub fn writes(kind: &Kind) -> bool {
    kind.actions.items().iter().any(|action| matches!(&action.act, Act::Emit(_) | Act::Flush(..)))
}

// Appends the kinds that no source lists.
fn push_unlisted<R: rt::Files + AllocGlobal>(
    rt: &R,
    told: &mut String,
    program: &Program,
) -> Result<(), AllocError> {
    let mut number = 0u32;
    for kind in program.kinds.items() {
        if !is_listed(program, number) {
            let name = kind.name.as_str();
            let line = format!(in rt.alloc(); "no source lists {name}: no event is of that kind")?;
            push_line(told, line.as_str())?;
        }
        number = number.saturating_add(1);
    }
    Ok(())
}

fn is_listed(program: &Program, kind: u32) -> bool {
    program.sources.items().iter().any(|source| source
        .tags
        .items()
        .iter()
        .any(|tag| tag.kind == kind))
}

// Appends the families of cells that are never read.
fn push_unread<R: rt::Files + AllocGlobal>(
    rt: &R,
    told: &mut String,
    program: &Program,
) -> Result<(), AllocError> {
    let mut number = 0u32;
    for family in program.families.items() {
        if !is_read(program, number) {
            let name = family.name.as_str();
            let line = format!(in rt.alloc();
                "the cell {name} is never read: no expression, text or flush names it"
            )?;
            push_line(told, line.as_str())?;
        }
        number = number.saturating_add(1);
    }
    Ok(())
}

fn is_read(program: &Program, family: u32) -> bool {
    program.kinds.items().iter().any(|kind| kind
        .actions
        .items()
        .iter()
        .any(|action| action_reads(action, family)))
}

fn action_reads(action: &Action, family: u32) -> bool {
    let is_guarded = match &action.guard {
        Some(expr) => expr_reads(expr, family),
        None => false,
    };
    is_guarded || act_reads(&action.act, family)
}

fn act_reads(act: &Act, family: u32) -> bool {
    match act {
        Act::Add(_, expr) | Act::Raise(_, expr) | Act::Set(_, expr) => expr_reads(expr, family),
        Act::Clear(_) | Act::ClearFamily(_) => false,
        Act::Emit(pieces) => are_reading(pieces.items(), family),
        Act::Flush(flushed, pieces) => *flushed == family || are_reading(pieces.items(), family),
    }
}

fn are_reading(pieces: &[Piece], family: u32) -> bool {
    pieces.iter().any(|piece| match piece {
        Piece::Read(cell) => cell.family == family,
        Piece::FamilyCell(other) => *other == family,
        _ => false,
    })
}

fn expr_reads(expr: &Expr, family: u32) -> bool {
    match expr {
        Expr::Lit(_) | Expr::Value | Expr::Key | Expr::Item | Expr::Time => false,
        Expr::Read(cell) | Expr::Has(cell) => cell.family == family,
        Expr::Neg(inner) | Expr::Not(inner) => expr_reads(inner, family),
        Expr::Two(_, left, right) => expr_reads(left, family) || expr_reads(right, family),
    }
}

// Appends the lists that name neither keys nor items.
fn push_idle_lists<R: rt::Files + AllocGlobal>(
    rt: &R,
    told: &mut String,
    program: &Program,
) -> Result<(), AllocError> {
    let mut number = 0u32;
    for list in program.lists.items() {
        if !is_used(program, number) {
            let name = list.name();
            let line = format!(in rt.alloc();
                "the list {name} is never used: no cell is keyed by it, and no tag has items by it"
            )?;
            push_line(told, line.as_str())?;
        }
        number = number.saturating_add(1);
    }
    Ok(())
}

fn is_used(program: &Program, list: u32) -> bool {
    program
        .families
        .items()
        .iter()
        .any(|family| family.list == Some(list))
        || program
            .kinds
            .items()
            .iter()
            .any(|kind| kind.list == Some(list))
}

// Appends the files of sources that cannot be found (a clock has none), each with the system's reason.
fn push_absent<R: rt::Files + AllocGlobal>(
    rt: &R,
    told: &mut String,
    program: &Program,
) -> Result<(), AllocError> {
    for source in program.sources.items() {
        if source.every.is_some() {
            continue;
        }
        let file = source.file.as_str();
        if let Err(error) = fs::metadata(rt, file) {
            let name = source.name.as_str();
            let line = format!(in rt.alloc(); "{file}, the file of source {name}: {error}")?;
            push_line(told, line.as_str())?;
        }
    }
    Ok(())
}
