//! The report of a run.

ghost use Rattle.std.specs.Prelude.{◌≡◌, IfOk, ℕ, List, IsPermutation};
ghost use Rattle.flu_model.specs.declared.events.Out.{Out};
ghost use Rattle.flu_model.specs.Reports.{IsReport, report};

use crate::lines::{entries_of, text_of};
use crate::tags::tags_of;
use flu_model::{Out, Outs, Program, Text};
use std::alloc::{AllocError, Global};

/// The report of some outputs: one line `time,tag,text` for each of them, sorted by time as a number, then by the
/// tag's bytes, then by the text's bytes; equal lines are kept. Times are shown by the job's unit, where it has one.
///
/// The order of the outputs does not matter.
pub fn report_text(alloc: Global, p: &Program, outs: Outs) -> Result<Text, AllocError>
    ensures report { IfOk result (λ t. t ≡ report p.now outs) }
    ensures sorted { IfOk result (λ t. IsReport p.now outs t) }
    ensures only { IfOk result (λ t. (bytes : List ℕ) → IsReport p.now outs bytes → bytes ≡ t) }
    ensures order { IfOk result (λ t. (others : List Out) → IsPermutation outs others → report p.now others ≡ t) }
{
    sorted_text(alloc, p, outs.items())
}

// The lines of some outputs, sorted, one after another.
fn sorted_text(alloc: Global, p: &Program, outs: &[Out]) -> Result<Text, AllocError>
    ensures { IfOk result (λ t. IsReport p.now outs.now t) }
{
    let tags = tags_of(alloc, p, outs)?;
    let mut entries = entries_of(alloc, &tags, outs, p)?;
    entries.sort()?;
    text_of(alloc, p.iso, &entries)
}
