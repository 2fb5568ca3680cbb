//! What comes of a job and the bytes of its sources.

ghost use Rattle.std.specs.Prelude.{◌≡◌, length};
ghost use Rattle.flu_model.specs.Itags.{count_of_itags};
ghost use Rattle.flu_model.specs.Listed.{listed};

use crate::files::files_of;
use crate::gathering::told;
use flu_cells::State;
use flu_model::{Program, Streams};
use flu_report::report_text;
use flu_seq::fold;
use flu_streams::gather;
use std::alloc::{AllocError, Global};

/// The report of the fold of a job's streams, from the empty state.
pub fn report(alloc: Global, p: &Program, streams: &Streams) -> Result<String, AllocError>
    requires { length (listed streams.now) ≡ count_of_itags p.now }
{
    let (_, outs) = fold(alloc, p, State::new(alloc), streams)?;
    let text = report_text(alloc, p, outs)?;
    String::from_str(alloc, text.as_str())
}

/// The report of a job if its sources have these bytes, or the fault of the sources.
pub fn outcome(alloc: Global, p: &Program, named: &[(&str, &[u8])]) -> Result<String, AllocError> {
    let mut files = files_of(alloc, named, 4096)?;
    match gather(alloc, p, &mut files) {
        Ok(streams) => report(alloc, p, &streams),
        Err(fault) => told(alloc, fault),
    }
}
