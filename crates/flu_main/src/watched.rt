//! Files and writers of which someone is told what is read and written.

use flu_outside::{Files, PutFault, TakeFault};
use std::io;
use std::io::Write;

/// Who is told what a call reads and writes, as it does.
pub(crate) trait Watch {
    /// These bytes were taken from the file of this name.
    fn took(&self, name: &str, bytes: &[u8]);

    /// Bytes are about to be written.
    fn writes(&self);

    /// These bytes were written.
    fn wrote(&self, bytes: &[u8]);
}

/// Files that tell which bytes each take gave.
#[derive(Drop)]
pub(crate) struct WatchedFiles<'w, F: Files + Drop, W: Watch> {
    files: F,
    watch: Option<&'w W>,
}

impl<'w, F: Files + Drop, W: Watch> WatchedFiles<'w, F, W> {
    /// The files, which tell this watch, if there is one.
    pub fn new(files: F, watch: Option<&'w W>) -> WatchedFiles<'w, F, W> {
        WatchedFiles { files, watch }
    }

    /// The files themselves.
    pub fn files(&self) -> &F {
        &self.files
    }
}

impl<'w, F: Files + Drop, W: Watch> Files for WatchedFiles<'w, F, W> {
    ghost left = { λ w. F.left w.files };

    ghost faults = { λ w. F.faults w.files };

    ghost put_faults = { λ w. F.put_faults w.files };

    fn take(&mut self, name: &str, buf: &mut [u8]) -> Result<usize, TakeFault> {
        let taken = self.files.take(name, buf);
        if let Some(watch) = self.watch {
            if let Ok(count) = taken {
                watch.took(name, buf.get(..count).unwrap_or(&[]));
            }
        }
        taken
    }

    fn put(&mut self, name: &str, bytes: Vec<u8>) -> Result<(), PutFault> {
        self.files.put(name, bytes)
    }

    ghost shared = { λ w. F.shared w.files };

    ghost shared_puts = { λ w. F.shared_puts w.files };
}

/// A writer that tells before each write, and what it wrote.
#[derive(Drop)]
pub(crate) struct WatchedWriter<'w, O: Write + Drop, W: Watch> {
    writer: O,
    watch: Option<&'w W>,
}

impl<'w, O: Write + Drop, W: Watch> WatchedWriter<'w, O, W> {
    /// The writer, which tells this watch, if there is one.
    pub fn new(writer: O, watch: Option<&'w W>) -> WatchedWriter<'w, O, W> {
        WatchedWriter { writer, watch }
    }
}

impl<'w, O: Write + Drop, W: Watch> Write for WatchedWriter<'w, O, W> {
    fn write(&mut self, buf: &[u8]) -> io::Result<usize> {
        if let Some(watch) = self.watch {
            watch.writes();
        }
        let written = self.writer.write(buf);
        if let Some(watch) = self.watch {
            if let Ok(count) = written {
                watch.wrote(buf.get(..count).unwrap_or(&[]));
            }
        }
        written
    }

    fn flush(&mut self) -> io::Result<()> {
        self.writer.flush()
    }
}
