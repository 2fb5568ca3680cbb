//! The lines on err, which take no memory (`docs/LANGUAGE.md`).

ghost use Rattle.std.specs.Prelude.{◌≡◌, ◌++◌, OnOk, OnErr};
ghost use Rattle.std.specs.Fmt.{decimal};
ghost use Rattle.flu_outside.specs.Writing.{Writes};
ghost use Rattle.flu_lines.specs.Lines.{what_word, limit_text, bad_words_line, fault_line, job_fault_line, conflict_line, row_line, source_fault_line, save_line};
ghost use Rattle.flu_lines.specs.Lines.{save_fault_text, save_defect_line, trace_line, trace_fault_line, step_line, IsSaid};
ghost use Rattle.flu_streams.specs.declared.faults.Why.{Why};
ghost use Rattle.flu_lines.specs.Answer.{line_of};
ghost use Rattle.flu_lines.specs.Products.{line_of_said};

use crate::names::{source_name, write_cell, write_tag};
use crate::pieces::{digits_of, write_counts, write_pieces};
use crate::plan_lines::write_plan_defect;
use crate::products::{DrawnSteps, Said};
use crate::refusals::{Refusal, SaveDefect};
use flu_check::CheckFault;
use flu_model::What;
use flu_outside::{Failed, Sink};
use flu_parse::JobFault;
use flu_report::write_all;
use flu_save::SaveFault;
use flu_streams::{SourceFault, Why};
use flu_trace::ReplayFault;
use flu_words::BadWords;
use itoa::Buffer;

// What the line for a fault in a job text begins with.
const JOB: &[u8] = b"flumina: job: ";

// What the line for what keeps a run from starting begins with.
const SAVE: &[u8] = b"flumina: save: ";

/// Says a refusal on err, in a line that takes no memory.
pub fn say<E: Sink>(err: &mut E, refusal: &Refusal)
    ensures { IsSaid (line_of refusal.now) (E.taken err.old) (E.taken err.new) (E.faults err.old) (E.faults err.new) }
{
    match write_line(err, refusal) {
        Ok(()) => (),
        Err(_) => (),
    }
}

/// Says on err what a command says once it is done, which takes no memory.
pub fn say_done<E: Sink>(err: &mut E, said: &Said)
    ensures { IsSaid (line_of_said said.now) (E.taken err.old) (E.taken err.new) (E.faults err.old) (E.faults err.new) }
{
    match write_said(err, said) {
        Ok(()) => (),
        Err(_) => (),
    }
}

// Writes what a command says once it is done.
fn write_said<E: Sink>(err: &mut E, said: &Said) -> Result<(), Failed>
    ensures { Writes (line_of_said said.now) (E.taken err.old) (E.taken err.new) (E.faults err.old) (E.faults err.new) result }
{
    match said {
        Said::Steps(steps) => write_steps(err, *steps),
        Said::Plan(text) => write_all(err, text.as_str().as_bytes()),
    }
}

// Writes the line of the steps of a run.
fn write_steps<E: Sink>(err: &mut E, steps: DrawnSteps) -> Result<(), Failed>
    ensures { Writes (step_line steps) (E.taken err.old) (E.taken err.new) (E.faults err.old) (E.faults err.new) result }
{
    let counts = steps.counts;
    write_counts(
        err,
        &[
            ("steps arrive ", counts.arrive),
            (" handle ", counts.handle),
            (" ask ", counts.ask),
            (" take ", counts.take),
            (" give ", counts.give),
            (" hold ", counts.hold),
            (" lend ", counts.lend),
            (" mark ", u128::from(steps.mark)),
        ],
    )?;
    write_all(err, b"\n")
}

/// Writes the line of a refusal.
pub(crate) fn write_line<E: Sink>(err: &mut E, refusal: &Refusal) -> Result<(), Failed>
    ensures { Writes (line_of refusal.now) (E.taken err.old) (E.taken err.new) (E.faults err.old) (E.faults err.new) result }
{
    match refusal {
        Refusal::BadWords(bad) => write_bad_words(err, *bad),
        Refusal::JobFault(fault, _) => write_job_fault(err, fault),
        Refusal::Conflict(fault) => write_conflict(err, fault),
        Refusal::PlanDefect(defect) => write_plan_defect(err, defect),
        Refusal::SourceFault(job, fault) => {
            write_source_fault(
                err,
                source_name(job.program(), fault.source),
                fault.row,
                fault.why,
            )
        }
        Refusal::ReadFault => write_all(err, b"flumina: read fault\n"),
        Refusal::WriteFault => write_all(err, b"flumina: write fault\n"),
        Refusal::NoMemory => write_all(err, b"flumina: no memory\n"),
        Refusal::SaveDefect(defect) => write_save_defect(err, defect),
        Refusal::PutFault => write_all(err, b"flumina: save fault\n"),
        Refusal::TraceFault(fault) => write_trace_fault(err, *fault),
    }
}

// Writes the line of words that are not a command.
fn write_bad_words<E: Sink>(err: &mut E, bad: BadWords) -> Result<(), Failed>
    ensures { Writes (bad_words_line bad.at) (E.taken err.old) (E.taken err.new) (E.faults err.old) (E.faults err.new) result }
{
    let mut buffer = Buffer::new();
    let at = digits_of(&mut buffer, bad.at as u64);
    write_pieces(err, &[b"flumina: bad words at ", at, b"\n"])
}

// Writes the line of a fault in a job text.
fn write_job_fault<E: Sink>(err: &mut E, fault: &JobFault) -> Result<(), Failed>
    ensures { Writes (job_fault_line fault.now) (E.taken err.old) (E.taken err.new) (E.faults err.old) (E.faults err.new) result }
{
    match fault {
        JobFault::BadUtf8 { at } => write_place(err, JOB, b"bad utf8 at ", *at),
        JobFault::BadToken { at } => write_place(err, JOB, b"bad token at ", *at),
        JobFault::Unexpected { at } => write_place(err, JOB, b"unexpected at ", *at),
        JobFault::UnknownName { at } => write_place(err, JOB, b"unknown name at ", *at),
        JobFault::TwiceNamed { at } => write_place(err, JOB, b"twice named at ", *at),
        JobFault::WrongShape { at } => write_place(err, JOB, b"wrong shape at ", *at),
        JobFault::OverLimit { what, count } => write_over_limit(err, JOB, *what, *count),
        JobFault::NoMemory => write_all(err, b"flumina: job: no memory\n"),
    }
}

/// Writes the line of a fault at a place of a text.
pub fn write_place<E: Sink>(
    err: &mut E,
    head: &[u8],
    fault: &[u8],
    place: usize,
) -> Result<(), Failed>
    ensures { Writes (fault_line head.now (fault.now ++ decimal place)) (E.taken err.old) (E.taken err.new) (E.faults err.old) (E.faults err.new) result }
{
    let mut buffer = Buffer::new();
    let digits = digits_of(&mut buffer, place as u64);
    write_pieces(err, &[head, fault, digits, b"\n"])
}

/// Writes the line of a limit that a text exceeds.
pub fn write_over_limit<E: Sink>(
    err: &mut E,
    head: &'static [u8],
    what: What,
    count: u64,
) -> Result<(), Failed>
    ensures { Writes (fault_line head.now (limit_text what count)) (E.taken err.old) (E.taken err.new) (E.faults err.old) (E.faults err.new) result }
{
    let mut buffer = Buffer::new();
    let word = what_word(what);
    let digits = digits_of(&mut buffer, count);
    write_pieces(err, &[head, b"over limit ", word, b" ", digits, b"\n"])
}

// The word for what has a limit.
fn what_word(what: What) -> &'static [u8]
    ensures { result.now ≡ what_word what }
{
    match what {
        What::Bytes => b"bytes",
        What::Nesting => b"nesting",
        What::Families => b"families",
        What::Kinds => b"kinds",
        What::Sources => b"sources",
        What::Depends => b"depends",
        What::Key => b"key",
        What::Rate => b"rate",
        What::Itags => b"itags",
        What::Actions => b"actions",
        What::Height => b"height",
        What::Nodes => b"nodes",
        What::Predicates => b"predicates",
        What::Depth => b"depth",
        What::Slack => b"slack",
        What::Lists => b"lists",
        What::Names => b"names",
    }
}

// Writes the line of two independent tags that conflict.
fn write_conflict<E: Sink>(err: &mut E, fault: &CheckFault) -> Result<(), Failed>
    ensures { Writes (conflict_line fault.now) (E.taken err.old) (E.taken err.new) (E.faults err.old) (E.faults err.new) result }
{
    let program = &fault.program;
    write_all(err, b"flumina: conflict: ")?;
    write_tag(err, program, fault.a, b" and ")?;
    write_tag(err, program, fault.b, b" on ")?;
    write_cell(err, program, fault.cell, b"\n")
}

// Writes the line of a row that is a defect of its source.
fn write_source_fault<E: Sink>(err: &mut E, name: &str, row: u64, why: Why) -> Result<(), Failed>
    ensures { Writes (source_fault_line name.now row why) (E.taken err.old) (E.taken err.new) (E.faults err.old) (E.faults err.new) result }
{
    match why {
        Why::BadRow => write_row(err, name, row, b"bad row"),
        Why::UnknownTag => write_row(err, name, row, b"unknown tag"),
        Why::UnknownItem => write_row(err, name, row, b"unknown item"),
        Why::Disordered { last, got } => write_disordered(err, name, row, last, got),
        Why::Unclosed => write_row(err, name, row, b"unclosed"),
        Why::AfterEnd => write_row(err, name, row, b"after end"),
        Why::TooMany { count } => write_too_many(err, name, row, count),
    }
}

// Writes the line of a row with a defect that has no values.
fn write_row<E: Sink>(err: &mut E, name: &str, row: u64, why: &[u8]) -> Result<(), Failed>
    ensures { Writes (row_line name.now row why.now) (E.taken err.old) (E.taken err.new) (E.faults err.old) (E.faults err.new) result }
{
    let mut row_buffer = Buffer::new();
    let source = name.as_bytes();
    let digits = digits_of(&mut row_buffer, row);
    write_pieces(
        err,
        &[
            b"flumina: source ",
            source,
            b" row ",
            digits,
            b": ",
            why,
            b"\n",
        ],
    )
}

// Writes the line of a row that is late by more than it may be, or whose time an earlier row has.
fn write_disordered<E: Sink>(
    err: &mut E,
    name: &str,
    row: u64,
    last: u64,
    got: u64,
) -> Result<(), Failed>
    ensures { Writes (source_fault_line name.now row (Why.Disordered last got)) (E.taken err.old) (E.taken err.new) (E.faults err.old)
        (E.faults err.new) result }
{
    let mut row_buffer = Buffer::new();
    let mut last_buffer = Buffer::new();
    let mut got_buffer = Buffer::new();
    let source = name.as_bytes();
    let row_digits = digits_of(&mut row_buffer, row);
    let last_digits = digits_of(&mut last_buffer, last);
    let got_digits = digits_of(&mut got_buffer, got);
    write_pieces(
        err,
        &[
            b"flumina: source ",
            source,
            b" row ",
            row_digits,
            b": disordered, last ",
            last_digits,
            b", got ",
            got_digits,
            b"\n",
        ],
    )
}

// Writes the line of a row that is one too many.
fn write_too_many<E: Sink>(err: &mut E, name: &str, row: u64, count: u64) -> Result<(), Failed>
    ensures { Writes (source_fault_line name.now row (Why.TooMany count)) (E.taken err.old) (E.taken err.new) (E.faults err.old) (E.faults err.new) result }
{
    let mut row_buffer = Buffer::new();
    let mut count_buffer = Buffer::new();
    let source = name.as_bytes();
    let row_digits = digits_of(&mut row_buffer, row);
    let count_digits = digits_of(&mut count_buffer, count);
    write_pieces(
        err,
        &[
            b"flumina: source ",
            source,
            b" row ",
            row_digits,
            b": too many, ",
            count_digits,
            b"\n",
        ],
    )
}

// Writes the line of what keeps a run from starting.
fn write_save_defect<E: Sink>(err: &mut E, defect: &SaveDefect) -> Result<(), Failed>
    ensures { Writes (save_defect_line defect.now) (E.taken err.old) (E.taken err.new) (E.faults err.old) (E.faults err.new) result }
{
    match defect {
        SaveDefect::SameName(checked, number) => {
            let name = source_name(checked.program(), *number).as_bytes();
            write_pieces(err, &[SAVE, b"same as source ", name, b"\n"])
        }
        SaveDefect::Checkpoint(fault) => write_save_fault(err, *fault),
    }
}

// Writes the line of a fault in a checkpoint.
fn write_save_fault<E: Sink>(err: &mut E, fault: SaveFault) -> Result<(), Failed>
    ensures { Writes (save_line (save_fault_text fault)) (E.taken err.old) (E.taken err.new) (E.faults err.old) (E.faults err.new) result }
{
    match fault {
        SaveFault::OverLimit { count } => write_over_limit(err, SAVE, What::Bytes, count),
        SaveFault::NotJson => write_all(err, b"flumina: save: not json\n"),
        SaveFault::WrongForm => write_all(err, b"flumina: save: wrong form\n"),
        SaveFault::OtherJob => write_all(err, b"flumina: save: other job\n"),
        SaveFault::NoMemory => write_all(err, b"flumina: save: no memory\n"),
    }
}

// Writes the line of what stops the replay of a trace.
fn write_trace_fault<E: Sink>(err: &mut E, fault: ReplayFault) -> Result<(), Failed>
    ensures { Writes (trace_fault_line fault) (E.taken err.old) (E.taken err.new) (E.faults err.old) (E.faults err.new) result }
{
    match fault {
        ReplayFault::Bad { line } => write_trace_line(err, line, b"bad line"),
        ReplayFault::NotEnabled { line } => write_trace_line(err, line, b"not enabled"),
        ReplayFault::Incomplete { line } => write_trace_line(err, line, b"incomplete"),
        ReplayFault::ReadFault => write_all(err, b"flumina: read fault\n"),
        ReplayFault::NoMemory => write_all(err, b"flumina: no memory\n"),
    }
}

// Writes the line of a trace's line.
fn write_trace_line<E: Sink>(err: &mut E, line: u64, why: &[u8]) -> Result<(), Failed>
    ensures { Writes (trace_line line why.now) (E.taken err.old) (E.taken err.new) (E.faults err.old) (E.faults err.new) result }
{
    let mut buffer = Buffer::new();
    let digits = digits_of(&mut buffer, line);
    write_pieces(err, &[b"flumina: trace line ", digits, b": ", why, b"\n"])
}
