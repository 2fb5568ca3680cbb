//! What failed outside, in the system's words.

use crate::places::push_line;
use std::alloc::{AllocError, Global};
use std::io;

/// A file or a stream that failed.
#[derive(Clone, Copy)]
pub struct Failure<'t> {
    /// The name of the file, or what the stream is called.
    pub name: &'t str,
    /// What the system said of it.
    pub error: io::Error,
}

/// The name that failed and the reason, if a failure is known.
pub fn reason_hint(alloc: Global, failure: Option<Failure>) -> Result<String, AllocError> {
    let mut told = String::new(alloc);
    if let Some(Failure { name, error }) = failure {
        let reason = format!(in alloc; "{name}: {error}")?;
        push_line(&mut told, reason.as_str())?;
    }
    Ok(told)
}
