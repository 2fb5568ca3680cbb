//! Runs commands.

ghost use Rattle.std.specs.Prelude.{◌≡◌, ◌≢◌, ◌⊎◌, Err};
ghost use Rattle.flu_outside.specs.Outside.{WhereTold, SameCounts};
ghost use Rattle.flu_words.specs.Words.{plain_command};
ghost use Rattle.flu_command.specs.Taking.{TookOnly, TookFrontsBut};
ghost use Rattle.flu_lines.specs.Answer.{code_after};
ghost use Rattle.flu_command.specs.Done.{IsReadName, IsPutAt};
ghost use Rattle.flu_top.specs.Ending.{call, IsEnding};
ghost use Rattle.flu_top.specs.Writing.{IsPut, as_product};

use crate::checking::check_job;
use crate::demo::demo;
use crate::folding::fold_job;
use crate::planning::plan_job;
use crate::products::{Printed, Product};
use crate::replaying::replay_planned;
use crate::running::run_job;
use crate::simulating::simulate_planned;
use crate::validating::valid_plan;
use flu_lines::{Done, Refusal};
use flu_model::Text;
use flu_outside::{Files, Sink};
use flu_report::write_all;
use flu_seq::Gate;
use flu_words::Command;
use std::alloc::Global;
use std::sync::Wait;
use std::thread::Threads;

/// Runs a command: writes what it produces to `out`, and answers what is to be said on err, if there is anything, with what was read.
pub fn run<F: Files, K: Sink, G: Gate, R: Threads + Wait + Sync>(
    rt: &R,
    alloc: Global,
    files: &mut F,
    out: &mut K,
    command: Command,
    gate: &G,
) -> Result<Done, Refusal>
    ensures ends { IsEnding (call (F.left files.old) (F.left files.new) (F.faults files.old) (F.faults files.new) (F.put_faults files.old)
        (F.put_faults files.new) (K.taken out.old) (K.taken out.new) (K.faults out.old) (K.faults out.new)) (plain_command command.entry) result }
    ensures fronts { WhereTold (F.left files.old) (F.left files.new) (TookFrontsBut (IsPutAt (plain_command command.entry) (code_after result))) }
    ensures only { WhereTold (F.left files.old) (F.left files.new) (TookOnly
        (λ name. IsReadName (F.left files.old) (plain_command command.entry) name ⊎ IsPutAt (plain_command command.entry) (code_after result) name)) }
    ensures quiet { result ≢ Err Refusal.ReadFault → SameCounts (F.faults files.old) (F.faults files.new) }
    ensures puts { result ≢ Err Refusal.PutFault → SameCounts (F.put_faults files.old) (F.put_faults files.new) }
    ensures written_quiet { result ≢ Err Refusal.WriteFault → K.faults out.new ≡ K.faults out.old }
{
    match command {
        Command::Fold { job } => put_printed(out, fold_job(alloc, files, job)),
        Command::Check { job } => put_printed(out, check_job(alloc, files, job)),
        Command::Valid { job, plan } => put_text(out, valid_plan(alloc, files, job, plan)),
        Command::Plan { job, depth } => put_text(out, plan_job(alloc, files, job, depth)),
        Command::Run { job, plan, options } => {
            run_job(rt, alloc, files, out, job, plan, options, gate)
        }
        Command::Simulate {
            job,
            plan,
            seed,
            trace,
        } => put(out, simulate_planned(alloc, files, job, plan, seed, trace)),
        Command::Replay { job, plan, trace } => {
            put_text(out, replay_planned(alloc, files, job, plan, trace))
        }
        Command::Demo { n, seed } => put(out, demo(rt, alloc, n, seed, gate)),
    }
}

// Writes a text, if nothing refused it.
fn put_text<K: Sink>(out: &mut K, text: Result<Text, Refusal>) -> Result<Done, Refusal>
    ensures put { IsPut (as_product text) (K.taken out.old) (K.taken out.new) (K.faults out.old) (K.faults out.new) result }
    ensures quiet { result ≢ Err Refusal.WriteFault → K.faults out.new ≡ K.faults out.old }
{
    match text {
        Ok(text) => put(
            out,
            Ok(Product {
                text,
                says: Done::saying(None),
            }),
        ),
        Err(refusal) => Err(refusal),
    }
}

// Writes a text, if nothing refused it, and answers what was read for it.
fn put_printed<K: Sink>(out: &mut K, printed: Result<Printed, Refusal>) -> Result<Done, Refusal>
    ensures put { IsPut (as_product printed) (K.taken out.old) (K.taken out.new) (K.faults out.old) (K.faults out.new) result }
    ensures quiet { result ≢ Err Refusal.WriteFault → K.faults out.new ≡ K.faults out.old }
{
    match printed {
        Ok(printed) => put(out, Ok(printed.product())),
        Err(refusal) => Err(refusal),
    }
}

// Writes the text of what a command produced, if nothing refused it.
fn put<K: Sink>(out: &mut K, produced: Result<Product, Refusal>) -> Result<Done, Refusal>
    ensures put { IsPut produced (K.taken out.old) (K.taken out.new) (K.faults out.old) (K.faults out.new) result }
    ensures quiet { result ≢ Err Refusal.WriteFault → K.faults out.new ≡ K.faults out.old }
{
    let product = match produced {
        Ok(product) => product,
        Err(refusal) => return Err(refusal),
    };
    match write_all(out, product.text.as_str().as_bytes()) {
        Ok(()) => Ok(product.says),
        Err(_) => Err(Refusal::WriteFault),
    }
}
