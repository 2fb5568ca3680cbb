//! How long the files of a call are.

use crate::hints::program_of;
use flu_model::Program;
use std::{fs, rt};

/// The bytes of the files that a call reads: its job's, its plan's if it names one, and those of the sources. None if one of them is no
/// regular file, or cannot be found.
pub fn bytes_to_read<R: rt::Files + AllocGlobal>(
    rt: &R,
    job: &str,
    plan: Option<&str>,
) -> Option<u64> {
    let program = program_of(rt, job)?;
    let mut bytes = source_bytes(rt, &program)?.saturating_add(length_of(rt, job)?);
    if let Some(plan) = plan {
        bytes = bytes.saturating_add(length_of(rt, plan)?);
    }
    Some(bytes)
}

// The bytes of the files of a job's sources, if these are all regular files; a clock has none.
fn source_bytes<R: rt::Files + AllocGlobal>(rt: &R, program: &Program) -> Option<u64> {
    let mut bytes = 0u64;
    for source in program.sources.items() {
        if source.every.is_none() {
            bytes = bytes.saturating_add(length_of(rt, source.file.as_str())?);
        }
    }
    Some(bytes)
}

// The length of a regular file.
fn length_of<R: rt::Files + AllocGlobal>(rt: &R, name: &str) -> Option<u64> {
    match fs::metadata(rt, name) {
        Ok(about) if about.is_file() => Some(about.len()),
        _ => None,
    }
}
