//! Which names are names of one file.

use std::fs::Metadata;
use std::os::unix::fs::MetadataExt;

/// What distinguishes a file from every other one, whatever its names: its device, and its number there.
#[derive(Clone, Copy, PartialEq, Eq, Drop)]
pub(crate) struct FileId {
    device: u64,
    number: u64,
}

/// Which file that is.
pub(crate) fn id_of(about: &Metadata) -> FileId {
    FileId {
        device: about.dev(),
        number: about.ino(),
    }
}
