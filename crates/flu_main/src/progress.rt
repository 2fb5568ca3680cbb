//! How far a call is, on one line of a terminal, and on a closing line: the bytes and rows that it has read, and up to which time its report is
//! written.

use crate::watched::Watch;
use flu_adapt::HostSink;
use flu_outside::write_all;
use memchr::{memchr, memrchr};
use std::alloc::{AllocError, Global};
use std::cell::RefCell;
use std::io::Write;
use std::str;
use std::time::{Clock, Instant};

/// How many milliseconds a call takes before the line is written first.
const BEFORE_FIRST: u128 = 500;

/// How many milliseconds the line stays before it is written anew.
const BETWEEN: u128 = 200;

/// What takes the line away: as many blanks as a terminal of 80 columns has room for on one line.
const CLEARED: &str =
    "\r                                                                               \r";

/// From this number on a count is shown in millions.
const MILLION: u128 = 1_000_000;

/// The names of a call's job, of its plan, if it reads one, and of its partials: all other files have rows.
#[derive(Clone, Copy)]
pub(crate) struct Texts<'w> {
    pub job: &'w str,
    pub plan: Option<&'w str>,
    pub partials: &'w [String],
}

/// What is shown of a call's reading.
#[derive(Clone, Copy)]
pub(crate) struct Shown {
    /// Whether the line is written while the call reads.
    pub live: bool,
    /// Whether the report goes to a terminal too: the line is then not written any more once the report has begun.
    pub until_report: bool,
    /// Whether a closing line says what was read.
    pub closing: bool,
    /// The bytes that there are to read, if they are known.
    pub total: Option<u64>,
}

/// What a call has read so far, and standard error, on which this is shown.
#[derive(Drop)]
pub(crate) struct Progress<'r, 'w, R: Clock, E: Write + Drop> {
    clock: &'r R,
    alloc: Global,
    texts: Texts<'w>,
    line: RefCell<Line<E>>,
}

// The line, and what it is made of.
#[derive(Drop)]
struct Line<E: Write + Drop> {
    err: HostSink<E>,
    shown: Shown,
    begun: Option<Instant>,
    // The milliseconds from the beginning at which the line is due.
    due: u128,
    is_written: bool,
    taken: u64,
    rows: u64,
    // Whether what was written of the report ends with a whole line, and the time of the last line of which it is known.
    is_whole: bool,
    reported: Option<u64>,
}

impl<'r, 'w, R: Clock, E: Write + Drop> Progress<'r, 'w, R, E> {
    /// Nothing was read, and nothing is written on standard error.
    pub fn new(
        clock: &'r R,
        alloc: Global,
        err: E,
        shown: Shown,
        texts: Texts<'w>,
    ) -> Progress<'r, 'w, R, E> {
        Progress {
            clock,
            alloc,
            texts,
            line: RefCell::new(Line {
                err: HostSink::new(err),
                shown,
                begun: Instant::now(clock).ok(),
                due: BEFORE_FIRST,
                is_written: false,
                taken: 0,
                rows: 0,
                is_whole: true,
                reported: None,
            }),
        }
    }

    /// Takes the line away for good.
    pub fn end(&self) {
        if let Ok(mut line) = self.line.try_borrow_mut() {
            line.end();
        }
    }

    /// Writes bytes on standard error. A failure changes nothing else.
    pub fn say(&self, bytes: &[u8]) {
        if let Ok(mut line) = self.line.try_borrow_mut() {
            let _ = write_all(&mut line.err, bytes);
        }
    }

    /// Writes the closing line, if one is shown.
    pub fn close(&self) {
        if let Ok(mut line) = self.line.try_borrow_mut() {
            if line.shown.closing {
                let millis = line.millis(self.clock);
                if let Ok(text) = closing_text(self.alloc, line.taken, line.rows, millis) {
                    let _ = write_all(&mut line.err, text.as_bytes());
                }
            }
        }
    }
}

impl<'r, 'w, R: Clock, E: Write + Drop> Watch for Progress<'r, 'w, R, E> {
    fn took(&self, name: &str, bytes: &[u8]) {
        if let Ok(mut line) = self.line.try_borrow_mut() {
            line.taken = line.taken.saturating_add(bytes.len() as u64);
            if (line.shown.live || line.shown.closing) && self.texts.are_not(name) {
                line.rows = line.rows.saturating_add(row_count(bytes));
            }
            if line.shown.live {
                let millis = line.millis(self.clock);
                line.update(self.alloc, millis);
            }
        }
    }

    fn writes(&self) {
        if let Ok(mut line) = self.line.try_borrow_mut() {
            if line.shown.until_report {
                line.end();
            }
        }
    }

    fn wrote(&self, bytes: &[u8]) {
        if let Ok(mut line) = self.line.try_borrow_mut() {
            if line.shown.live {
                line.report(bytes);
            }
        }
    }
}

impl<'w> Texts<'w> {
    /// Those of a call that reads no sources.
    pub fn none() -> Texts<'w> {
        Texts {
            job: "",
            plan: None,
            partials: &[],
        }
    }

    // Whether the file of this name is neither the job nor the plan nor a partial.
    fn are_not(&self, name: &str) -> bool {
        name != self.job
            && self.plan != Some(name)
            && !self.partials.iter().any(|partial| partial.as_str() == name)
    }
}

impl<E: Write + Drop> Line<E> {
    // The milliseconds since the beginning; none where the clock fails.
    fn millis<R: Clock>(&self, clock: &R) -> u128 {
        match (self.begun, Instant::now(clock)) {
            (Some(begun), Ok(now)) => now.duration_since(begun).as_millis(),
            _ => 0,
        }
    }

    // Writes the line, if it is due.
    fn update(&mut self, alloc: Global, millis: u128) {
        if millis < self.due {
            return;
        }
        self.due = millis.saturating_add(BETWEEN);
        if let Ok(text) = self.text(alloc, millis) {
            self.is_written = true;
            let _ = write_all(&mut self.err, text.as_bytes());
        }
    }

    // Notes up to which time these bytes bring the report.
    fn report(&mut self, bytes: &[u8]) {
        if let Some(time) = last_time(bytes, self.is_whole) {
            self.reported = Some(time);
        }
        self.is_whole = bytes.last() == Some(&b'\n');
    }

    // The line in place of the one before.
    fn text(&self, alloc: Global, millis: u128) -> Result<String, AllocError> {
        let mut text = String::from_str(alloc, CLEARED)?;
        text.push_str(read_text(alloc, self.taken, self.shown.total)?.as_str())?;
        text.push_str(rows_text(alloc, self.rows, millis)?.as_str())?;
        if let Some(time) = self.reported {
            let report = format!(in alloc; ", report to {time}")?;
            text.push_str(report.as_str())?;
        }
        Ok(text)
    }

    fn end(&mut self) {
        self.shown.live = false;
        if self.is_written {
            self.is_written = false;
            let _ = write_all(&mut self.err, CLEARED.as_bytes());
        }
    }
}

// The bytes that were read, of those that there are.
fn read_text(alloc: Global, taken: u64, total: Option<u64>) -> Result<String, AllocError> {
    let read = megabytes(alloc, u128::from(taken))?;
    let read = read.as_str();
    match total {
        Some(total) if total > 0 => {
            let percent = percent_of(taken, total);
            let total = megabytes(alloc, u128::from(total))?;
            let total = total.as_str();
            format!(in alloc; "read {read} of {total} MB, {percent} %")
        }
        _ => format!(in alloc; "read {read} MB"),
    }
}

// The rows that were read, and those of a second.
fn rows_text(alloc: Global, rows: u64, millis: u128) -> Result<String, AllocError> {
    let rate = shortened(alloc, rate_of(rows, millis))?;
    let rows = shortened(alloc, u128::from(rows))?;
    let (rate, rows) = (rate.as_str(), rows.as_str());
    format!(in alloc; ", {rows} rows, {rate} rows/s")
}

// The closing line.
fn closing_text(alloc: Global, taken: u64, rows: u64, millis: u128) -> Result<String, AllocError> {
    let rate = megabytes(alloc, rate_of(taken, millis))?;
    let rate = rate.as_str();
    let rows_rate = rate_of(rows, millis);
    let seconds = millis / 1000;
    let tenth = millis / 100 % 10;
    format!(in alloc;
        "  read {taken} bytes, {rows} rows in {seconds}.{tenth} s, {rate} MB/s, {rows_rate} rows/s\n"
    )
}

// How many lines end in some bytes.
fn row_count(bytes: &[u8]) -> u64 {
    bytes.iter().filter(|byte| **byte == b'\n').count() as u64
}

// The time of the last line that begins in these bytes; they begin with a line only if what was written before them is whole.
fn last_time(bytes: &[u8], is_whole: bool) -> Option<u64> {
    let (_, before) = bytes.split_last()?;
    let begin = match memrchr(b'\n', before) {
        Some(place) => place.saturating_add(1),
        None if is_whole => 0,
        None => return None,
    };
    let line = before.get(begin..)?;
    let time = line.get(..memchr(b',', line)?)?;
    str::from_utf8(time).ok()?.parse::<u64>().ok()
}

// A number, in millions with a tenth if it has that many.
fn shortened(alloc: Global, number: u128) -> Result<String, AllocError> {
    if number < MILLION {
        return format!(in alloc; "{number}");
    }
    let whole = number / MILLION;
    let tenth = number / 100_000 % 10;
    format!(in alloc; "{whole}.{tenth} M")
}

// Bytes in megabytes, with a tenth.
fn megabytes(alloc: Global, bytes: u128) -> Result<String, AllocError> {
    let whole = bytes / 1_000_000;
    let tenth = bytes / 100_000 % 10;
    format!(in alloc; "{whole}.{tenth}")
}

// How many of a count there are for each second.
fn rate_of(count: u64, millis: u128) -> u128 {
    u128::from(count)
        .saturating_mul(1000)
        .checked_div(millis)
        .unwrap_or(0)
}

// How many hundredths of the bytes were read. Files that grow may have more than they had.
fn percent_of(taken: u64, total: u64) -> u128 {
    u128::from(taken)
        .saturating_mul(100)
        .checked_div(u128::from(total))
        .unwrap_or(0)
        .min(100)
}
