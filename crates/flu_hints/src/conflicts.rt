//! The declarations of two tags that conflict, and the `depends` lines that a job lacks.

use crate::hints::text_of;
use crate::missing::{Missing, missing_of};
use crate::places::push_line;
use flu_check::CheckFault;
use flu_model::{Cell, Program, tag_text};
use std::alloc::{AllocError, Global};
use std::{rt, str};

/// The most `depends` lines that are shown.
const MOST_SHOWN: usize = 64;

/// Where the kinds of two tags that conflict are declared in the text under the job's name, and the `depends` that makes the two dependent;
/// and, if the job has conflicts of other kinds too, all lines that it lacks.
pub fn conflict_hint<R: rt::Files + AllocGlobal>(
    rt: &R,
    name: &str,
    fault: &CheckFault,
) -> Result<String, AllocError> {
    let mut told = String::new(rt.alloc());
    let program = &fault.program;
    let kind = kind_name(program, fault.a.kind);
    let other = kind_name(program, fault.b.kind);
    push_declarations(rt, &mut told, name, kind, other)?;
    let missing = missing_of(rt.alloc(), program)?;
    let is_same = missing
        .iter()
        .any(|known| known.same && known.has_kinds_of(fault.a, fault.b));
    let same = if is_same { " same" } else { "" };
    let depends = format!(in rt.alloc();
        "  to make these two dependent: depends {kind} {other}{same}\n"
    )?;
    told.push_str(depends.as_str())?;
    push_missing(rt.alloc(), &mut told, program, missing.as_slice())?;
    Ok(told)
}

// Appends all lines that a job lacks, each with a comment that says why, if it lacks more than one.
fn push_missing(
    alloc: Global,
    told: &mut String,
    program: &Program,
    missing: &[Missing],
) -> Result<(), AllocError> {
    let count = missing.len();
    if count < 2 {
        return Ok(());
    }
    let head = format!(in alloc;
        "the job lacks {count} lines, one for each two kinds that conflict:"
    )?;
    push_line(told, head.as_str())?;
    for known in missing.iter().take(MOST_SHOWN) {
        push_depends(alloc, told, program, known)?;
    }
    if count > MOST_SHOWN {
        push_line(told, "and more, which are shown once these are there")?;
    }
    Ok(())
}

// Appends the line that two kinds lack.
fn push_depends(
    alloc: Global,
    told: &mut String,
    program: &Program,
    known: &Missing,
) -> Result<(), AllocError> {
    let kind = kind_name(program, known.a.kind);
    let other = kind_name(program, known.b.kind);
    let same = if known.same { " same" } else { "" };
    let a = tag_text(alloc, program, known.a)?;
    let b = tag_text(alloc, program, known.b)?;
    let cell = cell_text(alloc, program, known.cell)?;
    let (a, b, cell) = (a.as_str(), b.as_str(), cell.as_str());
    let line = format!(in alloc; "depends {kind} {other}{same}  # {a} and {b} on {cell}")?;
    push_line(told, line.as_str())
}

fn kind_name(program: &Program, kind: u32) -> &str {
    match program.kinds.items().get(kind as usize) {
        Some(kind) => kind.name.as_str(),
        None => "",
    }
}

fn cell_text(alloc: Global, program: &Program, cell: Cell) -> Result<String, AllocError> {
    let Some(family) = program.families.items().get(cell.family as usize) else {
        return Ok(String::new(alloc));
    };
    let name = family.name.as_str();
    if family.keyed {
        let key = cell.key;
        format!(in alloc; "{name}[{key}]")
    } else {
        String::from_str(alloc, name)
    }
}

// Appends the lines that declare two kinds to a text, one line if they are one kind.
fn push_declarations<R: rt::Files + AllocGlobal>(
    rt: &R,
    told: &mut String,
    name: &str,
    kind: &str,
    other: &str,
) -> Result<(), AllocError> {
    let Some(bytes) = text_of(rt, name) else {
        return Ok(());
    };
    let Ok(text) = str::from_utf8(bytes.as_slice()) else {
        return Ok(());
    };
    let mut number = 0u64;
    for line in text.lines() {
        number = number.saturating_add(1);
        if declares(line, kind) || declares(line, other) {
            let place = format!(in rt.alloc(); "{name}, line {number}")?;
            push_line(told, place.as_str())?;
            push_line(told, line)?;
        }
    }
    Ok(())
}

// Whether a line begins with the declaration of a kind.
fn declares(line: &str, kind: &str) -> bool {
    let Some(behind) = line.trim_start().strip_prefix("tag ") else {
        return false;
    };
    match behind.trim_start().split_once(' ') {
        Some((name, _)) => name == kind,
        None => false,
    }
}
