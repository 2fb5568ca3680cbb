//! What a report does not show: events after its last line, and what the cells hold at the end.

use crate::places::push_line;
use crate::spans::{Chosen, span_of};
use crate::unused::{push_emptiness, writes};
use flu_lines::{Counts, Span};
use flu_model::Program;
use std::alloc::{AllocError, Global};

/// The most kinds or sources of which a line is shown.
const MOST_SHOWN: usize = 8;

/// How many times greater a time has to be than another before it seems to have another unit.
const OTHER_UNIT: u64 = 100;

/// What was read and is not in the report of a `fold` or a `run`: if no line was written, what could have written one; how many events
/// came after the last line; and which cells are not neutral at the end. If a line was written, it is said only if cells are left and
/// events came after the line, or if a word or the environment asks for hints.
pub fn report_hint(
    alloc: Global,
    program: &Program,
    counts: &Counts,
    is_asked: bool,
) -> Result<String, AllocError> {
    let mut told = String::new(alloc);
    let held = held_cells(alloc, program, counts.held.as_slice())?;
    let held = held.as_str();
    match counts.last_line {
        None => {
            push_emptiness(&mut told, program)?;
            if !told.is_empty() {
                return Ok(told);
            }
            push_writers(alloc, &mut told, program)?;
            push_sources(alloc, &mut told, program, counts.itags.as_slice())?;
            push_kinds(alloc, &mut told, program, counts.itags.as_slice())?;
        }
        Some(time) => {
            let after = counts.after;
            if held.is_empty() || after.events == 0 && !is_asked {
                return Ok(told);
            }
            push_after(alloc, &mut told, time, after)?;
        }
    }
    if !held.is_empty() {
        let line = format!(in alloc; "not empty at the end: {held}")?;
        push_line(&mut told, line.as_str())?;
    }
    push_units(alloc, &mut told, program, counts.itags.as_slice())?;
    Ok(told)
}

// Appends that the report is empty, and which kinds may write a line.
fn push_writers(alloc: Global, told: &mut String, program: &Program) -> Result<(), AllocError> {
    let mut line = String::from_str(
        alloc,
        "no line was written; only these kinds can write one: ",
    )?;
    let mut is_first = true;
    for kind in program.kinds.items() {
        if writes(kind) {
            line.push_str(if is_first { "" } else { ", " })?;
            line.push_str(kind.name.as_str())?;
            is_first = false;
        }
    }
    push_line(told, line.as_str())
}

// Appends how many events came after the time of the last line.
fn push_after(alloc: Global, told: &mut String, time: u64, after: Span) -> Result<(), AllocError> {
    let Span { events, last, .. } = after;
    let line = match events {
        0 => format!(in alloc; "no event came after the last line, at {time}")?,
        1 => format!(in alloc; "1 event came after the last line, at {time}: it is at {last}")?,
        _ => format!(in alloc;
            "{events} events came after the last line, at {time}; the last of them is at {last}"
        )?,
    };
    push_line(told, line.as_str())
}

// Appends how many events each source has, or ticks each clock, and from when to when.
fn push_sources(
    alloc: Global,
    told: &mut String,
    program: &Program,
    itags: &[Span],
) -> Result<(), AllocError> {
    let mut number = 0u32;
    for source in program.sources.items().iter().take(MOST_SHOWN) {
        let Span {
            events,
            first,
            last,
        } = span_of(program, itags, Chosen::Source(number));
        let name = source.name.as_str();
        let is_clock = source.every.is_some();
        let word = if is_clock { "clock" } else { "source" };
        let event = if is_clock { "tick" } else { "event" };
        let line = match events {
            0 => format!(in alloc; "{word} {name}: no {event}")?,
            1 => format!(in alloc; "{word} {name}: 1 {event}, at {first}")?,
            _ => format!(in alloc; "{word} {name}: {events} {event}s, at {first} to {last}")?,
        };
        push_line(told, line.as_str())?;
        number = number.saturating_add(1);
    }
    Ok(())
}

// Appends how often each kind came that may write a line, and when it came last.
fn push_kinds(
    alloc: Global,
    told: &mut String,
    program: &Program,
    itags: &[Span],
) -> Result<(), AllocError> {
    let mut number = 0u32;
    let mut shown = 0usize;
    for kind in program.kinds.items() {
        if writes(kind) && shown < MOST_SHOWN {
            let Span { events, last, .. } = span_of(program, itags, Chosen::Kind(number));
            let name = kind.name.as_str();
            let line = match events {
                0 => format!(in alloc; "no event of kind {name} came")?,
                1 => format!(in alloc; "kind {name} came once, at {last}")?,
                _ => format!(in alloc; "kind {name} came {events} times, the last at {last}")?,
            };
            push_line(told, line.as_str())?;
            shown = shown.saturating_add(1);
        }
        number = number.saturating_add(1);
    }
    Ok(())
}

// Appends that two sources may have different units of time, if all times of one are far below all times of the other. Clocks tick behind the rows of
// the others, whatever their units.
fn push_units(
    alloc: Global,
    told: &mut String,
    program: &Program,
    itags: &[Span],
) -> Result<(), AllocError> {
    let mut low = None;
    let mut high = None;
    let mut number = 0u32;
    for source in program.sources.items() {
        let span = span_of(program, itags, Chosen::Source(number));
        number = number.saturating_add(1);
        if span.first <= span.last && source.every.is_none() {
            let name = source.name.as_str();
            low = lower(low, name, span.last);
            high = higher(high, name, span.first);
        }
    }
    let (Some((below, last)), Some((above, first))) = (low, high) else {
        return Ok(());
    };
    if last == 0 || last.saturating_mul(OTHER_UNIT) > first {
        return Ok(());
    }
    let line = format!(in alloc;
        "the times of {below} end at {last}, those of {above} begin at {first}: are they in the same unit?"
    )?;
    push_line(told, line.as_str())
}

fn lower<'n>(known: Option<(&'n str, u64)>, name: &'n str, last: u64) -> Option<(&'n str, u64)> {
    match known {
        Some((_, least)) if least <= last => known,
        _ => Some((name, last)),
    }
}

fn higher<'n>(known: Option<(&'n str, u64)>, name: &'n str, first: u64) -> Option<(&'n str, u64)> {
    match known {
        Some((_, greatest)) if greatest >= first => known,
        _ => Some((name, first)),
    }
}

// The families with cells that are not neutral, and how many keys of each keyed one have such a cell.
fn held_cells(alloc: Global, program: &Program, counts: &[usize]) -> Result<String, AllocError> {
    let mut held = String::new(alloc);
    for (family, count) in program.families.items().iter().zip(counts) {
        let count = *count;
        if count > 0 {
            held.push_str(if held.is_empty() { "" } else { ", " })?;
            held.push_str(family.name.as_str())?;
            if family.keyed {
                let keys = match count {
                    1 => format!(in alloc; " at 1 key")?,
                    _ => format!(in alloc; " at {count} keys")?,
                };
                held.push_str(keys.as_str())?;
            }
        }
    }
    Ok(held)
}
