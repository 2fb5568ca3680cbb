//! The row of a source's defect, and the forms that rows have.

use crate::hints::text_of;
use crate::places::{push_line, short_text};
use crate::row_reasons::push_reason;
use flu_model::{Program, Source};
use flu_streams::SourceFault;
use std::alloc::{AllocError, Global};
use std::rt;

/// The four forms of a row.
const FORMS: &str = "  a row is TIME,TAG,VALUE or TIME,TAG or TIME,beat or end
";

/// Those of an event of a kind with items, which jobs of version 3 have.
const FORMS_WITH_ITEMS: &str =
    "  an event of a kind with items is TIME,TAG,ITEM,VALUE or TIME,TAG,ITEM
";

/// The text of the row that is a defect of a source of this job, in the source's file, why it is one, and the forms that rows have; of a clock, the
/// tick that is a defect and why.
pub fn row_hint<R: rt::Files + AllocGlobal>(
    rt: &R,
    program: &Program,
    fault: SourceFault,
) -> Result<String, AllocError> {
    let mut told = String::new(rt.alloc());
    if let Some(source) = program.sources.items().get(fault.source as usize) {
        if source.every.is_some() {
            push_tick(rt.alloc(), &mut told, program, source, fault)?;
            return Ok(told);
        }
        push_row(rt, &mut told, program, source, fault)?;
    }
    told.push_str(FORMS)?;
    if has_items(program) {
        told.push_str(FORMS_WITH_ITEMS)?;
    }
    Ok(told)
}

// Whether a kind of the job has items.
fn has_items(program: &Program) -> bool {
    program.kinds.items().iter().any(|kind| kind.has_item)
}

// Appends which tick of a clock is a defect, and why: a clock has no file, so that there is no row to show.
fn push_tick(
    alloc: Global,
    told: &mut String,
    program: &Program,
    clock: &Source,
    fault: SourceFault,
) -> Result<(), AllocError> {
    let name = clock.name.as_str();
    let row = fault.row;
    let head = format!(in alloc; "clock {name}, tick {row}")?;
    push_line(told, head.as_str())?;
    push_reason(alloc, told, program, clock, fault.why, None)
}

// Appends a row of a source's file to a text, with the file's name and its number, and why it is a defect.
fn push_row<R: rt::Files + AllocGlobal>(
    rt: &R,
    told: &mut String,
    program: &Program,
    source: &Source,
    fault: SourceFault,
) -> Result<(), AllocError> {
    let file = source.file.as_str();
    let row = fault.row;
    let head = format!(in rt.alloc(); "{file}, line {row}")?;
    push_line(told, head.as_str())?;
    let bytes = text_of(rt, file);
    let shown = match &bytes {
        Some(bytes) => row_in(bytes.as_slice(), row),
        None => None,
    };
    if let Some(shown) = shown {
        push_line(told, shown)?;
    }
    push_reason(rt.alloc(), told, program, source, fault.why, shown)
}

// The row with this number from 1, if it is a short text and not empty.
fn row_in(bytes: &[u8], row: u64) -> Option<&str> {
    let mut number = 0u64;
    for line in bytes.split(|byte| *byte == b'\n') {
        number = number.saturating_add(1);
        if number == row {
            return short_text(line).filter(|shown| !shown.is_empty());
        }
    }
    None
}
