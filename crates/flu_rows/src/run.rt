//! Runs of lines that one reader of csv reads.

ghost use Rattle.std.specs.Prelude.{◌≡◌, ◌≤◌, ◌<◌, ◌++◌, [], drop, length, IfOk, OnOk, None};
ghost use Rattle.csv.specs.Records.{fields_of};
ghost use Rattle.flu_rows.specs.LoopRuns.{IsRun, ReadAlike, GivesNext, Stands, ReadsLine};

use crate::scan::{Kind, kind_of};
use csv::{ByteRecord, Reader, ReaderBuilder};
use flu_outside::{LineBuffer, line_len};
use std::alloc::{AllocError, Global};
use std::io::Cursor;
use std::marker::Model;

/// A blank line, as an empty one is, for which csv gives a record.
const BLANK_LINE: [u8; 2] = [b',', b'\n'];

/// The end of a line whose quotes are open.
const QUOTED_END: [u8; 2] = [b'"', b'\n'];

/// Whole lines that are still to be read, which contracts see as their bytes.
///
/// The reader is in a box, so that a run is small to move.
#[derive(Drop)]
pub(crate) struct Run {
    reader: Option<Box<Reader<Cursor<Vec<u8>>>>>,
}

impl Model for Run {
    ghost use Rattle.std.specs.Prelude.{List, ℕ};
    ghost use Rattle.flu_rows.specs.LoopRuns.{left_in_box, StandsInBox};

    ghost Value = { List ℕ };

    ghost view = { λ r. left_in_box r.reader };

    ghost invariant = { λ r. StandsInBox r.reader };
}

impl Run {
    /// No lines.
    pub(crate) fn none() -> Run
        ensures { result ≡ [] }
    {
        Run { reader: None }
    }

    // The run of these lines.
    fn of(alloc: Global, lines: Vec<u8>) -> Result<Run, AllocError>
        requires { IsRun lines.items }
        ensures { IfOk result (λ run. run ≡ lines.items) }
    {
        let reader = ReaderBuilder::new()
            .has_headers(false)
            .flexible(true)
            .from_reader(alloc, Cursor::new(lines));
        let reader = Box::new(alloc, reader)?;
        Ok(Run {
            reader: Some(reader),
        })
    }

    /// Takes the lines at the front that one reader may read.
    pub(crate) fn take(alloc: Global, held: &mut LineBuffer) -> Result<Run, AllocError>
        ensures alike { IfOk result (λ run. ReadAlike held.old (run ++ held.new)) }
        ensures none { IfOk result (λ run. run ≡ [] → held.new ≡ held.old) }
    {
        let mut lines = Vec::new(alloc);
        let end = copy_lines(held.bytes(), &mut lines)?;
        if end == 0 {
            return Ok(Run::none());
        }
        held.drop_front(end);
        Run::of(alloc, lines)
    }

    /// Reads the next line's record, if there is one more line.
    pub(crate) fn next(&mut self, row: &mut ByteRecord) -> Result<bool, AllocError>
        ensures { IfOk result (λ found. GivesNext found self.old self.new (fields_of row.new)) }
    {
        let Some(reader) = &mut self.reader else {
            return Ok(false);
        };
        match read_record(reader, row) {
            Ok(true) => Ok(true),
            Ok(false) => {
                close(&mut self.reader);
                Ok(false)
            }
            Err(e) => {
                close(&mut self.reader);
                Err(e)
            }
        }
    }
}

// Copies the lines at the front that one reader may read, with a blank line for which csv gives a record in place of each that is
// empty and with a quote that closes what is open, and says how many bytes they are.
fn copy_lines(bytes: &[u8], lines: &mut Vec<u8>) -> Result<usize, AllocError>
    requires { lines.old.items ≡ [] }
    ensures within { IfOk result (λ end. end ≤ length bytes.now) }
    ensures run { OnOk result (IsRun lines.new.items) }
    ensures some { IfOk result (λ end. 0 < end → 0 < length lines.new.items) }
    ensures alike { IfOk result (λ end. ReadAlike bytes.now (lines.new.items ++ drop end bytes.now)) }
{
    let mut end = 0;
    while end < bytes.len() {
        let rest = &bytes[end..];
        let len = line_len(rest);
        if len == rest.len() {
            return Ok(end);
        }
        match kind_of(&rest[..len]) {
            Kind::Empty => lines.extend_from_slice(&BLANK_LINE)?,
            Kind::Alike => lines.extend_from_slice(&rest[..len + 1])?,
            Kind::Open => {
                lines.extend_from_slice(&rest[..len])?;
                lines.extend_from_slice(&QUOTED_END)?;
            }
            Kind::Other => return Ok(end),
        }
        end += len + 1;
    }
    Ok(end)
}

// Reads the record of the line that the reader is at, if there is one.
fn read_record(
    reader: &mut Reader<Cursor<Vec<u8>>>,
    row: &mut ByteRecord,
) -> Result<bool, AllocError>
    requires { Stands reader.old }
    ensures { IfOk result (λ found. ReadsLine found reader.old reader.new (fields_of row.new)) }
{
    let Ok(found) = reader.read_byte_record(row) else {
        return Err(AllocError);
    };
    Ok(found)
}

// Drops a reader.
fn close(reader: &mut Option<Box<Reader<Cursor<Vec<u8>>>>>)
    ensures { reader.new ≡ None }
{
    *reader = None;
}
