//! `demo N SEED`: the summary of a run over events that a seed draws.

ghost use Rattle.std.specs.Prelude.{◌≡◌, ◌==◌, count_by, length, IfOk, IfErr};
ghost use Rattle.flu_outside.specs.Outside.{Contents};
ghost use Rattle.flu_words.specs.Words.{Demo};
ghost use Rattle.flu_lines.specs.declared.refusals.Refusal.{Refusal};
ghost use Rattle.flu_command.specs.Demos.{summary, lines_in};
ghost use Rattle.flu_command.specs.Wants.{want};
ghost use Rattle.flu_command.specs.Done.{IsWritten};
ghost use Rattle.flu_lines.specs.Products.{line_said};
ghost use Rattle.flu_top.specs.Products.{MaySay};

use crate::planned::planned_greedily;
use crate::products::Product;
use crate::running::tree_report;
use flu_command::demos::demo_jobs_are_accepted;
use flu_gen::{demo_job, demo_streams};
use flu_lines::{Done, Refusal};
use flu_model::Text;
use flu_seq::Gate;
use flu_words::{Draws, Seed, USUAL_DEPTH};
use std::alloc::{AllocError, Global};
use std::sync::Wait;
use std::thread::Threads;

/// The summary of a run of the demo job on the tree of threads, over the events that a seed draws.
pub fn demo<G: Gate, R: Threads + Wait + Sync>(
    rt: &R,
    alloc: Global,
    draws: Draws,
    seed: Seed,
    gate: &G,
) -> Result<Product, Refusal>
    ensures written { IfOk result (λ product. (left : Contents) → IsWritten (Demo draws.count seed.number) product.text (line_said product.says) left left) }
    ensures says { IfOk result (λ product. MaySay (want (Demo draws.count seed.number)).says product.says) }
    ensures refused { IfErr result (λ refusal. refusal ≡ Refusal.NoMemory) }
{
    demo_jobs_are_accepted();
    let program = demo_job(alloc)?;
    let planned = match planned_greedily(alloc, program, USUAL_DEPTH) {
        Ok(planned) => planned,
        Err(refusal) => return Err(refusal),
    };
    let streams = demo_streams(alloc, planned.checked.program(), draws.count, seed.number)?;
    let report = tree_report(rt, alloc, &planned, &streams, gate)?;
    let n = u64::from(draws.count);
    let text = summary(alloc, n + n / 1000 + 1, report.as_str())?;
    Ok(Product {
        text,
        says: Done::saying(None),
    })
}

// The summary of the report of this many events.
fn summary(alloc: Global, events: u64, report: &str) -> Result<Text, AllocError>
    ensures { IfOk result (λ text. text ≡ summary events report.now) }
{
    let bytes = report.len();
    let lines = lines_in(report.as_bytes());
    let text = format!(in alloc; "demo events {events} lines {lines} bytes {bytes}\n")?;
    Ok(Text::of(text))
}

// How many lines these bytes are: how many of them are line feeds.
fn lines_in(bytes: &[u8]) -> usize
    ensures { result ≡ lines_in bytes.now }
{
    let mut lines = 0;
    for byte in bytes {
        if *byte == b'\n' {
            lines += 1;
        }
    }
    lines
}
