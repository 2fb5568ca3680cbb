//! Why a row is a defect of its source, and what helps.

use crate::places::push_line;
use flu_calendar::{read_time, times_end};
use flu_model::{Keys, NameList, Program, Source, TagRef, Unit, end_of_times};
use flu_streams::Why;
use std::alloc::{AllocError, Global};

/// The greatest slack of a source, in the unit of its times.
const GREATEST_SLACK: u64 = 60_000;

/// The bytes of a date and a time of day, as 2026-03-02 08:05:00.
const SECOND_LEN: usize = 19;

/// How many names of a list are shown.
const SHOWN_NAMES: usize = 8;

/// One more than the events and heartbeats that may be held.
const TOO_MANY_TO_HOLD: u64 = 16_777_217;

/// Appends why a row is a defect, as far as the answer, the source and the row itself show it. The row is none if it was not found, or is no
/// short text.
pub fn push_reason(
    alloc: Global,
    told: &mut String,
    program: &Program,
    source: &Source,
    why: Why,
    row: Option<&str>,
) -> Result<(), AllocError> {
    match why {
        Why::Disordered { last, got } => { push_lateness(alloc, told, program, last, got) }
        Why::Unclosed => push_line(told, "the last line of a source is: end"),
        Why::AfterEnd => push_line(told, "only blank lines may follow the line: end"),
        Why::UnknownTag => push_tags(alloc, told, program, source),
        Why::UnknownItem => match row.and_then(|row| list_of_row(program, row)) {
            Some(list) => push_names(alloc, told, list),
            None => Ok(()),
        },
        Why::BadRow => match row.and_then(|row| bad_row_reason(program, row)) {
            Some(reason) => push_line(told, reason),
            None => Ok(()),
        },
        Why::TooMany { count } if program.version == 3 && count == u64::from(program.ties) + 1 => {
            push_ties(alloc, told, program.ties)
        }
        Why::TooMany { count } if count == TOO_MANY_TO_HOLD => push_line(
            told,
            "at most 16777216 events and heartbeats fit into memory; flumina run reads in rounds and has no such limit",
        ),
        Why::TooMany { .. } => Ok(()),
    }
}

// Appends how late a row is after the greatest time so far, and the slack with which it would not be. Before version 3 a row that is late by the slack is
// `disordered`.
fn push_lateness(
    alloc: Global,
    told: &mut String,
    program: &Program,
    last: u64,
    got: u64,
) -> Result<(), AllocError> {
    let late = last.saturating_sub(got);
    if late == 0 {
        return push_line(
            told,
            "an earlier row of this source has the same time; times of a source are all different",
        );
    }
    let slack = if program.version == 3 {
        late
    } else {
        late.saturating_add(1)
    };
    let ties = program.ties;
    let advice = if slack <= GREATEST_SLACK && ties == 1 {
        format!(in alloc;
            "the row is late by {late}: slack {slack} on the source takes it, unless an earlier row has its time"
        )?
    } else if slack <= GREATEST_SLACK {
        format!(in alloc;
            "the row is late by {late}: slack {slack} on the source takes it, unless {ties} earlier rows have its time"
        )?
    } else {
        format!(in alloc;
            "the row is late by {late}, more than any slack takes: sort the file by time"
        )?
    };
    push_line(told, advice.as_str())
}

// Appends how many rows of a source may share a time, and where a job says so.
fn push_ties(alloc: Global, told: &mut String, ties: u32) -> Result<(), AllocError> {
    let rows = if ties == 1 { "row" } else { "rows" };
    let most = format!(in alloc;
        "at most {ties} {rows} of a source may share a time; the first line of the job sets the limit, for example: version 3 ties 1000"
    )?;
    push_line(told, most.as_str())
}

// Appends the tags that a source lists.
fn push_tags(
    alloc: Global,
    told: &mut String,
    program: &Program,
    source: &Source,
) -> Result<(), AllocError> {
    let name = source.name.as_str();
    let mut listed = format!(in alloc; "the source {name} lists")?;
    let mut is_first = true;
    for tag in source.tags.items() {
        listed.push_str(if is_first { " " } else { ", " })?;
        is_first = false;
        push_tag(alloc, &mut listed, program, tag)?;
    }
    push_line(told, listed.as_str())
}

fn push_tag(
    alloc: Global,
    listed: &mut String,
    program: &Program,
    tag: &TagRef,
) -> Result<(), AllocError> {
    let Some(place) = usize::try_from(tag.kind).ok() else {
        return Ok(());
    };
    let Some(kind) = program.kinds.items().get(place) else {
        return Ok(());
    };
    listed.push_str(kind.name.as_str())?;
    let keys = match tag.keys {
        Keys::Alone => return Ok(()),
        Keys::One(key) => format!(in alloc; "[{key}]")?,
        Keys::Range(low, high) => format!(in alloc; "[{low}..{high}]")?,
    };
    listed.push_str(keys.as_str())
}

// The list that names the items of a row's kind.
fn list_of_row<'p>(program: &'p Program, row: &str) -> Option<&'p NameList> {
    let tag = row.split(',').nth(1)?;
    let name = match tag.split_once('[') {
        Some((name, _)) => name,
        None => tag,
    };
    let kind = program
        .kinds
        .items()
        .iter()
        .find(|kind| kind.name.as_str() == name)?;
    program.lists.items().get(kind.list? as usize)
}

// Appends the first names of a list, as rows give items.
fn push_names(alloc: Global, told: &mut String, list: &NameList) -> Result<(), AllocError> {
    let name = list.name();
    let mut names = format!(in alloc; "an item is one of the names of the list {name}:")?;
    for number in 0..SHOWN_NAMES {
        let Some(text) = list.text(number) else {
            return push_line(told, names.as_str());
        };
        names.push_str(if number == 0 { " " } else { ", " })?;
        names.push_str(text)?;
    }
    if list.len() > SHOWN_NAMES {
        names.push_str(", ..")?;
    }
    push_line(told, names.as_str())
}

// What makes a row none, by its first field that has no form. Nothing where a quote may change what its fields are, or where each field
// has a form by itself.
fn bad_row_reason(program: &Program, row: &str) -> Option<&'static str> {
    let row = row.strip_suffix('\r').unwrap_or(row);
    if row.contains('"') {
        return None;
    }
    let Some((time, rest)) = row.split_once(',') else {
        return Some(if row.contains(';') || row.contains('\t') {
            "the fields of a row are separated by commas"
        } else {
            "a row has a time and a tag, separated by a comma"
        });
    };
    let reason = match program.iso {
        Some(unit) => time_reason_in(unit, time),
        None => time_reason(time),
    };
    if reason.is_none() && is_too_late(program, time) {
        return Some(if has_clocks(program) {
            "the time is too great: 2^63, divided by the sources and by ties, is the limit, and a tick of each clock has to come after it"
        } else {
            "the time is too great: 2^63, divided by the sources and by ties, is the limit; a smaller number of ties or a coarser unit raises it"
        });
    }
    reason.or_else(|| rest_reason(program.version, rest))
}

/// Whether a job has a clock.
pub(crate) fn has_clocks(program: &Program) -> bool {
    program
        .sources
        .items()
        .iter()
        .any(|source| source.every.is_some())
}

// Whether a time that has a form is no time of a row, which is where it has moments of 2^63 or more, or no tick of a clock can come after it.
fn is_too_late(program: &Program, time: &str) -> bool {
    let number = if is_digits(time) {
        time.parse::<u64>().ok()
    } else {
        program
            .iso
            .and_then(|unit| read_time(unit, time.as_bytes()))
    };
    match number {
        Some(number) => number >= end_of_times(program),
        None => false,
    }
}

// What makes a time none where it may be a text.
fn time_reason_in(unit: Unit, time: &str) -> Option<&'static str> {
    if is_digits(time) {
        return match time.parse::<u64>() {
            Ok(number) if number < times_end(unit) => None,
            _ => Some("the time is after the year 9999"),
        };
    }
    let bytes = time.as_bytes();
    if read_time(unit, bytes).is_some() {
        return None;
    }
    Some(if time.trim() != time {
        "there is a blank beside the time"
    } else if bytes.len() > SECOND_LEN && read_time(unit, &bytes[..SECOND_LEN]).is_some() {
        "behind the seconds of a time there may be a fraction of one to nine digits, and a Z: times are in UTC"
    } else {
        "a time is a whole number, or a date of the years 1970 to 9999 and a time of day, such as 2026-03-02 08:05:00"
    })
}

// What makes a time none where it is a number.
fn time_reason(time: &str) -> Option<&'static str> {
    if is_digits(time) {
        return match time.parse::<i64>() {
            Ok(_) => None,
            Err(_) => Some("the time is above 9223372036854775807"),
        };
    }
    Some(if time.trim() != time {
        "there is a blank beside the time"
    } else if time.contains(':') || time.contains('T') {
        "the time is a date: write it as a number, such as seconds since 1970"
    } else if time.contains('.') {
        "the time has a fraction: write it as a whole number of a smaller unit"
    } else if time.starts_with("-") {
        "the time is below 0"
    } else {
        "the time is not a whole number; a header is no row"
    })
}

// What makes the fields after the time none.
fn rest_reason(version: u32, rest: &str) -> Option<&'static str> {
    let most = if version >= 3 { 3 } else { 2 };
    if rest.split(',').count() > most {
        return Some("the row has too many fields");
    }
    let (tag, value) = match rest.split_once(',') {
        Some((tag, fields)) => (tag, last_field(fields)),
        None => (rest, None),
    };
    if tag.trim() != tag {
        return Some("there is a blank beside the tag");
    }
    match value {
        Some(value) => value_reason(value),
        None => Some(
            "the fields after the tag are not those of its kind: a kind with int has a value, one with none has none",
        ),
    }
}

fn last_field(fields: &str) -> Option<&str> {
    match fields.rsplit_once(',') {
        Some((_, last)) => Some(last),
        None => Some(fields),
    }
}

fn value_reason(value: &str) -> Option<&'static str> {
    let digits = value.strip_prefix("-").unwrap_or(value);
    if is_digits(digits) {
        return match value.parse::<i64>() {
            Ok(_) => Some("the fields after the tag are not those of its kind"),
            Err(_) => Some("the last field is not within 64 bits"),
        };
    }
    Some(if value.trim() != value {
        "there is a blank beside the last field"
    } else if value.contains('.') {
        "the last field has a fraction: write it as a whole number of a smaller unit"
    } else {
        "the last field is not a whole number"
    })
}

fn is_digits(text: &str) -> bool {
    !text.is_empty() && text.bytes().all(|byte| byte.is_ascii_digit())
}
