//! Which hint belongs to which answer.

use crate::conflicts::conflict_hint;
use crate::endings::report_hint;
use crate::reasons::{Failure, reason_hint};
use crate::rows::row_hint;
use crate::texts::{job_fault_hint, plan_fault_hint};
use crate::traces::trace_hint;
use crate::unused::job_hint;
use crate::words::{word_at, words_hint};
use flu_check::CheckFault;
use flu_lines::{Done, PlanDefect, ReadIn, Refusal};
use flu_model::Program;
use flu_parse::read_job;
use flu_words::{Command, read_words};
use std::alloc::AllocError;
use std::{fs, rt};

/// A file that is longer is not read again for a hint.
const LONGEST_READ: u64 = 67_108_864;

/// The place of a job's name in the words of each command that has one.
const JOB: usize = 1;

/// The place of a plan's name in the words of each command that has one.
const PLAN: usize = 2;

/// What helps a person who sees what a call of these words answered; empty if nothing is known.
///
/// `failure` is what failed, if a file or a stream did, and `is_asked` is true if a word or the environment asks for hints. What was
/// refused says where it is and why, and what was done says what it read; files are read again only to show a line of them: regular ones
/// alone, and no long ones. What such a line shows may have changed since the call.
pub fn hint<R: rt::Files + AllocGlobal>(
    rt: &R,
    words: &[String],
    ended: &Result<Done, Refusal>,
    failure: Option<Failure>,
    is_asked: bool,
) -> Result<String, AllocError> {
    match ended {
        Ok(done) => match (done.said(), done.read()) {
            (None, Some(read)) => done_hint(rt, words, read, is_asked),
            _ => Ok(String::new(rt.alloc())),
        },
        Err(refusal) => refusal_hint(rt, words, refusal, failure),
    }
}

// What a command that says nothing on err leaves to be said once it is done.
fn done_hint<R: rt::Files + AllocGlobal>(
    rt: &R,
    words: &[String],
    read: &ReadIn,
    is_asked: bool,
) -> Result<String, AllocError> {
    let program = read.job.program();
    match (&read.counts, read_words(words)) {
        (Some(counts), _) => report_hint(rt.alloc(), program, counts, is_asked),
        (None, Ok(Command::Check { .. })) => job_hint(rt, program),
        _ => Ok(String::new(rt.alloc())),
    }
}

/// What helps with a refusal.
pub fn refusal_hint<R: rt::Files + AllocGlobal>(
    rt: &R,
    words: &[String],
    refusal: &Refusal,
    failure: Option<Failure>,
) -> Result<String, AllocError> {
    let alloc = rt.alloc();
    match refusal {
        Refusal::BadWords(bad) => words_hint(alloc, words, *bad),
        Refusal::JobFault(fault, text) => {
            job_fault_hint(alloc, word_at(words, JOB), fault, text.as_slice())
        }
        Refusal::Conflict(fault) => job_conflict_hint(rt, words, fault),
        Refusal::PlanDefect(PlanDefect::Text(fault, text)) => {
            plan_fault_hint(alloc, word_at(words, PLAN), fault, text.as_slice())
        }
        Refusal::SourceFault(job, fault) => row_hint(rt, job.program(), *fault),
        Refusal::ReadFault | Refusal::WriteFault | Refusal::PutFault => reason_hint(alloc, failure),
        Refusal::TraceFault(fault) => trace_hint(alloc, *fault),
        Refusal::PlanDefect(PlanDefect::Invalid(_, _))
        | Refusal::SaveDefect(_)
        | Refusal::NoMemory => Ok(String::new(alloc)),
    }
}

// What helps with a conflict, and what `check` says of the job besides.
fn job_conflict_hint<R: rt::Files + AllocGlobal>(
    rt: &R,
    words: &[String],
    fault: &CheckFault,
) -> Result<String, AllocError> {
    let mut told = conflict_hint(rt, word_at(words, JOB), fault)?;
    if let Ok(Command::Check { .. }) = read_words(words) {
        told.push_str(job_hint(rt, &fault.program)?.as_str())?;
    }
    Ok(told)
}

/// The contents of a regular file that is not too long.
pub fn text_of<R: rt::Files + AllocGlobal>(rt: &R, name: &str) -> Option<Vec<u8>> {
    let Ok(about) = fs::metadata(rt, name) else {
        return None;
    };
    if !about.is_file() || about.len() > LONGEST_READ {
        return None;
    }
    fs::read(rt, name).ok()
}

/// The job in a file, if it can be read again.
pub fn program_of<R: rt::Files + AllocGlobal>(rt: &R, job: &str) -> Option<Program> {
    let bytes = text_of(rt, job)?;
    read_job(rt.alloc(), bytes.as_slice()).ok()
}
