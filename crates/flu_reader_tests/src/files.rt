//! Files in memory for these tests.

ghost use Rattle.std.specs.Prelude.{◌<◌};

use flu_outside::MemFiles;
use std::alloc::{AllocError, Global};

/// Files with these bytes, of which a take gives at most this many.
pub fn files_of(alloc: Global, named: &[(&str, &[u8])], most: usize) -> Result<MemFiles, AllocError>
    requires { 0 < most }
{
    let mut files = MemFiles::new(alloc);
    for (name, bytes) in named {
        add(alloc, &mut files, name, bytes)?;
    }
    files.piece(most);
    Ok(files)
}

fn add(alloc: Global, files: &mut MemFiles, name: &str, bytes: &[u8]) -> Result<(), AllocError> {
    files.add(name, bytes.to_vec(alloc)?)
}
