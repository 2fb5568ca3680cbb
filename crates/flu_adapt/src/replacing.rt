//! Files that are replaced so that, if the process or the system is stopped in the middle, the old bytes or the new ones are left.

use crate::same_file::{FileId, id_of};
use crate::standard::check_length;
use std::alloc::AllocError;
use std::fs::{Metadata, OpenFile};
use std::io::{ErrorKind, Write};
use std::os::unix::fs::{MetadataExt, OpenOptionsExt};
use std::path::Path;
use std::{fs, io, rt};

/// The mode bits that say who may read, write and run a file.
const ACCESS_BITS: u32 = 0o777;

/// Who may read and write a file that was not there, before the process's mask is applied.
const USUAL_ACCESS: u32 = 0o666;

/// Why a file did not get its bytes.
pub(crate) enum Unreplaced {
    /// There was no memory for a name, and nothing was done.
    NoMemory,
    /// What the system said.
    Failed(io::Error),
}

impl From<AllocError> for Unreplaced {
    fn from(_e: AllocError) -> Unreplaced {
        Unreplaced::NoMemory
    }
}

impl From<io::Error> for Unreplaced {
    fn from(error: io::Error) -> Unreplaced {
        Unreplaced::Failed(error)
    }
}

/// What a file is replaced by: its new bytes, and how the file beside it relates to others.
#[derive(Clone, Copy)]
pub(crate) struct Replacing<'t> {
    /// The new bytes.
    pub bytes: &'t [u8],
    /// The number of the process, which is part of the name of the file beside.
    pub process: u32,
    /// The files that the process has open, none of which is removed.
    pub open: &'t [FileId],
    /// The greatest length of a plain file, in bytes.
    pub limit: Option<u64>,
    /// Whether nothing is flushed.
    pub unflushed: bool,
}

/// Gives the file of a name new bytes, in place of those that it has, and returns once they are on its device, unless it is unflushed.
///
/// A plain file is written beside the one that is there, under a name that no file has, `NAME.flumina-new-PROCESS`; it is flushed to
/// its device, and then takes that one's place, with its mode and its owner. If the name is a link, this is done to the file
/// that it leads to. What can't be replaced like this, a device or a pipe, is written in place, and so is a link's target that is not there.
pub(crate) fn replace<R: rt::Files + AllocGlobal>(
    rt: &R,
    name: &str,
    new: Replacing,
) -> Result<(), Unreplaced> {
    match rt.symlink_metadata(name) {
        Ok(there) if there.is_symlink() => replace_linked(rt, name, new),
        Ok(there) if there.is_file() => replace_plain(rt, name, Some(&there), new),
        Ok(_) => Ok(write_in_place(rt, name, new)?),
        Err(error) if error.kind() == ErrorKind::NotFound => replace_plain(rt, name, None, new),
        Err(error) => Err(Unreplaced::Failed(error)),
    }
}

// Replaces what a link leads to.
fn replace_linked<R: rt::Files + AllocGlobal>(
    rt: &R,
    name: &str,
    new: Replacing,
) -> Result<(), Unreplaced> {
    match rt.metadata(name) {
        Ok(there) if there.is_file() => {
            let target = fs::canonicalize(rt, name)?;
            replace_plain(rt, target.as_str(), Some(&there), new)
        }
        _ => Ok(write_in_place(rt, name, new)?),
    }
}

// Writes a device or a pipe, and flushes it if it can be flushed.
fn write_in_place<R: rt::Files>(rt: &R, name: &str, new: Replacing) -> io::Result<()> {
    let mut file = fs::create(rt, name)?;
    file.write_all(new.bytes)?;
    flush(&file, new.unflushed)
}

// Flushes a file to its device, unless it has to be left unflushed. What has no device to be flushed to, such as a pipe, is skipped.
fn flush<F: OpenFile>(file: &F, unflushed: bool) -> io::Result<()> {
    if unflushed {
        return Ok(());
    }
    match file.sync_all() {
        Err(error) if error.kind() != ErrorKind::InvalidInput => Err(error),
        _ => Ok(()),
    }
}

// Writes a file beside a plain one, or beside none, and puts it in its place.
fn replace_plain<R: rt::Files + AllocGlobal>(
    rt: &R,
    name: &str,
    there: Option<&Metadata>,
    new: Replacing,
) -> Result<(), Unreplaced> {
    let process = new.process;
    let beside = format!(in rt.alloc(); "{name}.flumina-new-{process}")?;
    let beside = beside.as_str();
    let folder = fs::open(rt, folder_of(name))?;
    let mut file = create_beside(rt, beside, there, new.open)?;
    let done = fill(rt, &mut file, beside, there, new).and_then(|_| take_place(
        rt, &file, beside, name,
    ));
    if let Err(error) = done {
        take_away(rt, &file, beside);
        return Err(Unreplaced::Failed(error));
    }
    Ok(flush(&folder, new.unflushed)?)
}

// The folder in which a file is.
fn folder_of(name: &str) -> &str {
    match Path::new(name).parent() {
        Some(folder) if !folder.as_str().is_empty() => folder.as_str(),
        Some(_) => ".",
        None => "/",
    }
}

// A new file, in place of one that an earlier process of the same number left under its name.
fn create_beside<R: rt::Files>(
    rt: &R,
    beside: &str,
    there: Option<&Metadata>,
    open: &[FileId],
) -> io::Result<R::File> {
    match create_new(rt, beside, there) {
        Err(error) if error.kind() == ErrorKind::AlreadyExists && is_left(rt, beside, open) => {
            fs::remove_file(rt, beside)?;
            create_new(rt, beside, there)
        }
        made => made,
    }
}

// A file of a name that no file has. No one may do with it what they may not do with the one that is there.
fn create_new<R: rt::Files>(rt: &R, name: &str, there: Option<&Metadata>) -> io::Result<R::File> {
    let access = match there {
        Some(there) => there.mode() & ACCESS_BITS,
        None => USUAL_ACCESS,
    };
    fs::OpenOptions::new()
        .write(true)
        .create_new(true)
        .mode(access)
        .open(rt, name)
}

// Whether a file is a plain one that has no other name, and that the process has not opened.
fn is_left<R: rt::Files>(rt: &R, name: &str, open: &[FileId]) -> bool {
    match rt.symlink_metadata(name) {
        Ok(there) => there.is_file() && there.nlink() == 1 && !open.contains(&id_of(&there)),
        Err(_) => false,
    }
}

// Gives a new file its owner, its mode and its bytes, and flushes it, unless it has to be left unflushed. What `close` would report,
// `sync_all` has reported before.
fn fill<R: rt::Files>(
    rt: &R,
    file: &mut R::File,
    name: &str,
    there: Option<&Metadata>,
    new: Replacing,
) -> io::Result<()> {
    if let Some(there) = there {
        let owner = Some(there.uid());
        let group = Some(there.gid());
        if rt.lchown(name, owner, group).is_err() {
            let _kept = rt.lchown(name, None, group);
        }
        let _kept = file.set_permissions(there.permissions());
    }
    check_length(new.bytes.len(), new.limit)?;
    file.write_all(new.bytes)?;
    if new.unflushed {
        Ok(())
    } else {
        file.sync_all()
    }
}

// Gives a file the name of another, if it still has its own.
fn take_place<R: rt::Files>(rt: &R, file: &R::File, beside: &str, name: &str) -> io::Result<()> {
    if !is_still(rt, file, beside) {
        return Err(io::Error::new(
            ErrorKind::AlreadyExists,
            "the file beside it was changed meanwhile",
        ));
    }
    fs::rename(rt, beside, name)
}

fn take_away<R: rt::Files>(rt: &R, file: &R::File, beside: &str) {
    if is_still(rt, file, beside) {
        let _gone = fs::remove_file(rt, beside);
    }
}

// Whether a name is still the name of an open file.
fn is_still<R: rt::Files>(rt: &R, file: &R::File, name: &str) -> bool {
    match (file.metadata(), rt.symlink_metadata(name)) {
        (Ok(own), Ok(there)) => id_of(&own) == id_of(&there),
        _ => false,
    }
}
