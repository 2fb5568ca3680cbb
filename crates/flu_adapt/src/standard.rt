//! Standard output and standard error, written so that they do not end the program.

ghost use Rattle.std.specs.Io.KnownBytes.{WriteAppends, Keeps};
ghost use Rattle.std.specs.Io.{WritesAtMost};

use crate::told::{length_limit, position};
use std::fs::OpenFile;
use std::io::{ErrorKind, Write};
use std::sync::Wait;
use std::thread::Parker;
use std::time::Duration;
use std::{fs, io, rt};

/// What the system says if a file would be longer than the process may make one, `EFBIG` of Linux.
const FILE_TOO_LARGE: i32 = 27;

/// The longest pause between two tries of a write that finds a stream full, in milliseconds.
const LONGEST_PAUSE: u64 = 16;

/// One of the streams that a program writes.
#[derive(Clone, Copy)]
pub enum Standard {
    /// Standard output.
    Output,
    /// Standard error.
    Error,
}

impl Standard {
    // A name of its file.
    fn file(self) -> &'static str {
        match self {
            Standard::Output => "/proc/self/fd/1",
            Standard::Error => "/proc/self/fd/2",
        }
    }

    // The name of the file that says where its next write begins.
    fn position_file(self) -> &'static str {
        match self {
            Standard::Output => "/proc/self/fdinfo/1",
            Standard::Error => "/proc/self/fdinfo/2",
        }
    }
}

/// A standard stream. A write waits if the stream does not block and is full, and continues if a signal interrupts it. If a plain
/// file has no room left below the process's limit on a file's length, it fails: the system would end the process there.
#[derive(Drop)]
pub struct StandardStream<R: rt::Files + Wait, W: Write + Drop> {
    rt: R,
    which: Standard,
    writer: W,
    // The length of the file while nothing was written to it yet: a write that appends begins there.
    length: Option<u64>,
    // The greatest length of a plain file; none if the stream is no plain file, or there is no limit.
    limit: Option<u64>,
}

impl<R: rt::Files + Wait, W: Write + Drop> StandardStream<R, W> {
    /// The standard stream that `writer` writes.
    pub fn new(rt: R, which: Standard, writer: W) -> StandardStream<R, W> {
        let length = match rt.metadata(which.file()) {
            Ok(about) if about.is_file() => Some(about.len()),
            _ => None,
        };
        let limit = match length {
            Some(_) => length_limit(&rt),
            None => None,
        };
        StandardStream {
            rt,
            which,
            writer,
            length,
            limit,
        }
    }

    // How many bytes may be written before the file is as long as it may be. An error if there is a limit, and it is not known where
    // the next write begins.
    fn room(&self) -> io::Result<usize> {
        let Some(limit) = self.limit else {
            return Ok(usize::MAX);
        };
        let here = position(&self.rt, self.which.position_file())?;
        let begin = here.max(self.length.unwrap_or(0));
        Ok(usize::try_from(limit.saturating_sub(begin)).unwrap_or(usize::MAX))
    }
}

impl<R: rt::Files + Wait, W: Write + Drop> Write for StandardStream<R, W> {
    fn write(&mut self, buf: &[u8]) -> io::Result<usize> {
        let count = buf.len().min(self.room()?);
        if count == 0 && !buf.is_empty() {
            return Err(io::Error::from_raw_os_error(FILE_TOO_LARGE));
        }
        let written = write_waiting(&self.rt, &mut self.writer, &buf[..count])?;
        self.length = None;
        Ok(written)
    }

    fn flush(&mut self) -> io::Result<()> {
        self.writer.flush()
    }
}

// One write, retried if a signal interrupts it, and, if the stream is full and does not block, until it has room.
fn write_waiting<R: Wait, W: Write>(rt: &R, writer: &mut W, buf: &[u8]) -> io::Result<usize>
    ensures bound { WritesAtMost result buf.now }
{
    let mut pause = 1;
    for _ in 0..u64::MAX {
        match writer.write(buf) {
            Err(error) if error.kind() == ErrorKind::Interrupted => {}
            Err(error) if error.kind() == ErrorKind::WouldBlock => {
                Parker::new().park_timeout(rt, Duration::from_millis(pause));
                pause = pause.saturating_mul(2).min(LONGEST_PAUSE);
            }
            done => return done,
        }
    }
    Err(io::Error::from(ErrorKind::TimedOut))
}

/// The error if a plain file of this many bytes is longer than a limit.
pub(crate) fn check_length(length: usize, limit: Option<u64>) -> io::Result<()> {
    match limit {
        Some(limit) if limit < length as u64 => {
            Err(io::Error::from_raw_os_error(FILE_TOO_LARGE))
        }
        _ => Ok(()),
    }
}

/// Waits until what was written to standard output is on its device, if it is a plain file. Anything else, such as a pipe or a terminal, is
/// skipped, and so is a stream of which nothing can be found out, because it is closed or the system has no `/proc`.
pub(crate) fn flush_output<R: rt::Files>(rt: &R) -> io::Result<()> {
    let name = Standard::Output.file();
    match rt.metadata(name) {
        Ok(about) if about.is_file() => flush_file(rt, name),
        Err(error) if error.kind() != ErrorKind::NotFound => Err(error),
        _ => Ok(()),
    }
}

// Flushes a plain file, whoever wrote it: flushing any handle of a file flushes the bytes of the file.
fn flush_file<R: rt::Files>(rt: &R, name: &str) -> io::Result<()> {
    let file = open_to_flush(rt, name)?;
    for _ in 0..u64::MAX {
        match file.sync_all() {
            Err(error) if error.kind() == ErrorKind::Interrupted => {}
            Err(error) if has_no_device(error.kind()) => return Ok(()),
            done => return done,
        }
    }
    Err(io::Error::from(ErrorKind::TimedOut))
}

// Opens a plain file that is there: for reading if it may not be opened for writing, though the process was given it open for writing.
fn open_to_flush<R: rt::Files>(rt: &R, name: &str) -> io::Result<R::File> {
    match fs::OpenOptions::new().write(true).open(rt, name) {
        Err(error) if error.kind() == ErrorKind::PermissionDenied => fs::open(rt, name),
        opened => opened,
    }
}

// Whether a flush failed because there is no device to flush to.
fn has_no_device(kind: ErrorKind) -> bool {
    match kind {
        ErrorKind::InvalidInput | ErrorKind::ReadOnlyFilesystem => true,
        _ => false,
    }
}
