//! Files of the system.

ghost use Rattle.std.specs.Prelude.{◌≡◌, ◌<◌, ◌≤◌, ◌+◌, ◌-◌, ◌^◌, length, min, None, refl, IfOk, IfErr, OnOk, OnErr, IsErrOf, IsSome};
ghost use Rattle.std.specs.BTreeMap.{get_by_text};
ghost use Rattle.flu_outside.specs.Outside.{Rose};
ghost use Rattle.std.specs.Io.KnownBytes.{ReadConsumes};

use crate::replacing::{Replacing, Unreplaced, replace};
use crate::same_file::{FileId, id_of};
use crate::standard::flush_output;
use crate::told::length_limit;
use flu_outside::{Files, PutFault, TakeFault};
use std::alloc::{AllocError, Global};
use std::collections::BTreeMap;
use std::fs::OpenFile;
use std::io::{ErrorKind, Read};
use std::{fs, io, rt};

/// The failure of a name, as the system reports it.
#[derive(Drop)]
pub struct FileFailure {
    /// The name that was to be opened, read or written.
    pub name: String,
    /// Why it was not.
    pub error: io::Error,
}

/// What a program that is called tells its files about the call.
#[derive(Drop)]
pub struct ProgramCall {
    /// The number of the process, which no other process on the machine has.
    pub process: u32,
    /// The name of a file that is taken from and may be replaced by another name too, such as the checkpoint that a run resumes from.
    pub resumed: Option<String>,
    /// Whether a put flushes nothing: it then flushes neither standard output nor what it writes, and waits for no device.
    pub unflushed: bool,
}

/// Files of the system, each opened when it is first taken from, and kept open until it is put. Nothing is known of what they hold.
///
/// Contracts see how often a take of a name failed (`count_of` of `specs/HostFiles.antt`) and how often a put failed (`put_count_of`); all
/// names share one count of each kind.
#[derive(Drop)]
pub struct HostFiles<R: rt::Files + AllocGlobal> {
    rt: R,
    opened: BTreeMap<String, R::File>,
    faults: u64,
    put_faults: u64,
    last: Option<FileFailure>,
    call: Option<ProgramCall>,
    // The greatest length of a plain file that is put.
    limit: Option<u64>,
}

impl<R: rt::Files + AllocGlobal> HostFiles<R> {
    ghost use Rattle.flu_adapt.specs.HostFiles.{count_of, put_count_of};

    /// No file is open, and none has failed.
    pub fn new(rt: R) -> HostFiles<R>
        ensures count { count_of result ≡ 0 }
        ensures put_count { put_count_of result ≡ 0 }
    {
        let opened = BTreeMap::new(rt.alloc());
        let limit = length_limit(&rt);
        HostFiles {
            rt,
            opened,
            faults: 0,
            put_faults: 0,
            last: None,
            call: None,
            limit,
        }
    }

    /// The files of a program that is called. They flush its standard output before each put, unless the call is unflushed; and none has
    /// failed.
    pub fn of_program(rt: R, call: ProgramCall) -> HostFiles<R>
        ensures count { count_of result ≡ 0 }
        ensures put_count { put_count_of result ≡ 0 }
    {
        let mut files = HostFiles::new(rt);
        files.call = Some(call);
        files
    }

    /// The last failure of a name. None if no name has failed, or if no memory was left to keep the name.
    pub fn last_failure(&self) -> Option<&FileFailure> {
        self.last.as_ref()
    }

    // Opens a name, and keeps it open.
    fn open(&mut self, name: &str) -> Result<(), TakeFault>
        ensures quiet { OnOk result (count_of self.new ≡ count_of self.old) }
        ensures raised { IsErrOf result TakeFault.Failed → count_of self.new ≡ min (count_of self.old + 1) (2 ^ 64 - 1) }
        ensures no_memory { IsErrOf result TakeFault.NoMemory → count_of self.new ≡ count_of self.old }
        ensures counts { count_of self.old ≤ count_of self.new }
        ensures puts { put_count_of self.new ≡ put_count_of self.old }
        ensures here { OnOk result (IsSome (get_by_text self.new.opened name.now)) }
    {
        let Ok(kept) = String::from_str(self.rt.alloc(), name) else {
            return Err(TakeFault::NoMemory);
        };
        let file = match fs::open(&self.rt, name) {
            Ok(file) => file,
            Err(error) => {
                self.last = Some(FileFailure { name: kept, error });
                return Err(counted(&mut self.faults));
            }
        };
        match self.opened.insert(kept, file) {
            Ok(_) => Ok(()),
            Err(_) => Err(TakeFault::NoMemory),
        }
    }

    // Puts the file of a name, after what was written to standard output.
    fn put_now(&self, name: &str, bytes: &[u8]) -> Result<(), Unput> {
        let open = self.open_files(name)?;
        if let Ok(there) = self.rt.metadata(name) {
            if there.is_file() && open.contains(&id_of(&there)) {
                let message = "the run reads or writes that file by another name";
                return Err(Unput::Failed(io::Error::new(ErrorKind::InvalidInput, message)));
            }
        }
        let (process, unflushed) = match &self.call {
            Some(call) => (call.process, call.unflushed),
            None => (0, false),
        };
        if self.call.is_some() && !unflushed {
            if let Err(error) = flush_output(&self.rt) {
                return Err(Unput::Unflushed(error));
            }
        }
        let new = Replacing {
            bytes,
            process,
            open: &open,
            limit: self.limit,
            unflushed,
        };
        replace(&self.rt, name, new)?;
        Ok(())
    }

    // The files that are open by other names than this one, and the file of standard output.
    fn open_files(&self, name: &str) -> Result<Vec<FileId>, AllocError> {
        let mut open = Vec::new(self.rt.alloc());
        for (other, file) in self.opened.iter() {
            if other.as_str() != name && !self.is_resumed(other.as_str()) {
                if let Ok(about) = file.metadata() {
                    open.push(id_of(&about))?;
                }
            }
        }
        if self.call.is_some() {
            if let Ok(about) = self.rt.metadata("/dev/stdout") {
                open.push(id_of(&about))?;
            }
        }
        Ok(open)
    }

    fn is_resumed(&self, name: &str) -> bool {
        match &self.call {
            Some(
                ProgramCall {
                    resumed: Some(resumed),
                    ..
                },
            ) => resumed.as_str() == name,
            _ => false,
        }
    }
}

impl<R: rt::Files + AllocGlobal> Files for HostFiles<R> {
    ghost use Rattle.flu_adapt.specs.HostFiles.{count_of, put_count_of};

    ghost left = { λ _. None };

    ghost faults = { λ f _. count_of f };

    ghost put_faults = { λ f _. put_count_of f };

    fn take(&mut self, name: &str, buf: &mut [u8]) -> Result<usize, TakeFault>
        requires { 0 < length buf.old }

        ensures bound { IfOk result (λ n. n ≤ length buf.old) }
        ensures quiet { OnOk result (count_of self.new ≡ count_of self.old) }
        ensures failed { IsErrOf result TakeFault.Failed → Rose (count_of self.old) (count_of self.new) }
        ensures counts { count_of self.old ≤ count_of self.new }
        ensures puts { put_count_of self.new ≡ put_count_of self.old }

        // Each failure is counted, up to the greatest number, and running out of memory is no failure.
        ensures raised { IsErrOf result TakeFault.Failed → count_of self.new ≡ min (count_of self.old + 1) (2 ^ 64 - 1) }
        ensures no_memory { IsErrOf result TakeFault.NoMemory → count_of self.new ≡ count_of self.old }
    {
        if !self.opened.contains_key(name) {
            self.open(name)?;
        }
        let alloc = self.rt.alloc();
        let mut error = None;
        let taken = match self.opened.get_mut(name) {
            Some(file) => read_some(file, buf, &mut self.faults, &mut error),
            None => unreachable!(),
        };
        if let Some(error) = error {
            self.last = failure_of(alloc, name, error);
        }
        taken
    }

    /// Writes the whole file, in place of the one that is there, so that if the process is stopped in the middle the old one or the new
    /// one is left, if it is a plain file (`replacing.rt`). The next take of it begins at its front. A plain file that another name was taken
    /// from, or that is standard output, is refused.
    fn put(&mut self, name: &str, bytes: Vec<u8>) -> Result<(), PutFault>
        ensures quiet { OnOk result (put_count_of self.new ≡ put_count_of self.old) }
        ensures counts { put_count_of self.old ≤ put_count_of self.new }
        ensures takes { count_of self.new ≡ count_of self.old }

        // Each failure is counted, up to the greatest number, and running out of memory is no failure.
        ensures raised { IsErrOf result PutFault.Failed → put_count_of self.new ≡ min (put_count_of self.old + 1) (2 ^ 64 - 1) }
        ensures no_memory { IsErrOf result PutFault.NoMemory → put_count_of self.new ≡ put_count_of self.old }
    {
        let (name_of_failure, error) = match self.put_now(name, &bytes) {
            Ok(()) => {
                self.opened.remove(name);
                return Ok(());
            }
            Err(Unput::NoMemory) => return Err(PutFault::NoMemory),
            Err(Unput::Unflushed(error)) => ("standard output", error),
            Err(Unput::Failed(error)) => (name, error),
        };
        self.opened.remove(name);
        self.last = failure_of(self.rt.alloc(), name_of_failure, error);
        self.put_faults = self.put_faults.saturating_add(1);
        Err(PutFault::Failed)
    }

    ghost shared = { λ f a b no_a no_b. refl };

    ghost shared_puts = { λ f a b no_a no_b. refl };
}

// Why a file was not put.
enum Unput {
    // There was no memory for a name, and nothing was done.
    NoMemory,
    // Standard output was not flushed, and nothing was done.
    Unflushed(io::Error),
    // The file was not replaced.
    Failed(io::Error),
}

impl From<AllocError> for Unput {
    fn from(_e: AllocError) -> Unput {
        Unput::NoMemory
    }
}

impl From<Unreplaced> for Unput {
    fn from(error: Unreplaced) -> Unput {
        match error {
            Unreplaced::NoMemory => Unput::NoMemory,
            Unreplaced::Failed(error) => Unput::Failed(error),
        }
    }
}

// A failure with its name, if there is memory for the name.
fn failure_of(alloc: Global, name: &str, error: io::Error) -> Option<FileFailure> {
    let name = String::from_str(alloc, name).ok()?;
    Some(FileFailure { name, error })
}

// Takes some bytes of a file, none only at its end; counts a failure, and keeps its error.
fn read_some<F: Read>(
    file: &mut F,
    buf: &mut [u8],
    faults: &mut u64,
    failed: &mut Option<io::Error>,
) -> Result<usize, TakeFault>
    ensures bytes { ReadConsumes (F.remaining file.old) (F.remaining file.new) result buf.new }
    ensures bound { IfOk result (λ n. n ≤ length buf.old) }
    ensures quiet { OnOk result (faults.new ≡ faults.old) }
    ensures fault { IfErr result (λ fault. fault ≡ TakeFault.Failed) }
    ensures raised { OnErr result (faults.new ≡ min (faults.old + 1) (2 ^ 64 - 1)) }
    ensures counts { faults.old ≤ faults.new }
{
    match read_once(file, buf) {
        Ok(n) => Ok(n),
        Err(error) => {
            *failed = Some(error);
            Err(counted(faults))
        }
    }
}

/// One read, retried if a signal interrupts it.
pub(crate) fn read_once<F: Read>(file: &mut F, buf: &mut [u8]) -> io::Result<usize>
    ensures bytes { ReadConsumes (F.remaining file.old) (F.remaining file.new) result buf.new }
    ensures bound { IfOk result (λ n. n ≤ length buf.old) }
{
    for _ in 0..u64::MAX {
        match file.read(buf) {
            Err(error) if error.kind() == ErrorKind::Interrupted => {}
            done => return done,
        }
    }
    Err(io::Error::from(ErrorKind::TimedOut))
}

// One more failure.
fn counted(faults: &mut u64) -> TakeFault
    ensures fault { result ≡ TakeFault.Failed }
    ensures raised { faults.new ≡ min (faults.old + 1) (2 ^ 64 - 1) }
    ensures counts { faults.old ≤ faults.new }
{
    *faults = faults.saturating_add(1);
    TakeFault::Failed
}
