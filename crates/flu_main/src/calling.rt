//! The call of the program.

use crate::asking::{Asked, environment_asks, take_asking_words};
use crate::help;
use crate::progress::{Progress, Shown, Texts};
use crate::watched::{WatchedFiles, WatchedWriter};
use crate::words::{call_of, texts_of, words_of};
use flu_adapt::{FileFailure, HostFiles, HostSink, Standard, StandardStream};
use flu_calls::{Answer, answer_words};
use flu_hints::{Failure, bytes_to_read, hint, part_hint};
use flu_lines::Status;
use flu_outside::{Files, MemSink, Sink};
use flu_seq::OpenGate;
use flu_words::is_part_call;
use std::alloc::AllocError;
use std::env::Env;
use std::io::{IsTerminal, Write};
use std::process::ExitCode;
use std::sync::Wait;
use std::thread::Threads;
use std::time::Clock;
use std::{io, rt};

/// More than the length of the longest line of an answer, which may have a word of the call, of less than 131,072 bytes, and of the text of a
/// plan that follows the counts: at most 256 itags of at most 81 bytes, in at most 15 nodes.
const LINE_ROOM: usize = 163_840;

/// Whether hints are written.
#[derive(Clone, Copy)]
struct Hints {
    /// Whether they are wanted.
    are_wanted: bool,
    /// Whether a word or the environment asks for them.
    are_asked: bool,
}

/// What a person sees besides the report and the line of the answer.
#[derive(Clone, Copy)]
struct Seen<'t> {
    hints: Hints,
    /// What is shown of the reading.
    shown: Shown,
    /// The texts that the call reads besides sources.
    texts: Texts<'t>,
}

/// Does what the words of the call say with the files of the system, as `flu_calls` has it, and answers the status. `out` and `err` are
/// standard output and standard error, and `process` is the number of the process. Hints are written if a word before the command asks
/// for them, or the environment, or, if neither says anything, if standard error is a terminal; and if it is one, a line there says how
/// much was read, unless a word asks for none.
pub fn answer_call<
    R: rt::Files + Env + Clock + AllocGlobal + Threads + Wait + Sync,
    O: Write + IsTerminal + Drop,
    E: Write + IsTerminal + Drop,
>(rt: &R, out: O, err: E, process: u32) -> ExitCode {
    let Some(words) = words_of(rt) else {
        return ExitCode::from(Status::NoMemory.code());
    };
    let asked = take_asking_words(words.as_slice());
    let command = asked.command;
    let environment = environment_asks(rt);
    let hints = Hints {
        are_wanted: asked.hints.unwrap_or(environment || err.is_terminal()),
        are_asked: asked.hints.unwrap_or(environment),
    };
    let seen = Seen {
        hints,
        shown: shown_of(rt, asked, out.is_terminal(), err.is_terminal()),
        texts: texts_of(command).unwrap_or(Texts::none()),
    };
    let files = HostFiles::of_program(rt, call_of(rt.alloc(), command, process));
    let out = StandardStream::new(rt, Standard::Output, out);
    let err = StandardStream::new(rt, Standard::Error, err);
    let ended = if hints.are_wanted || seen.shown.live || seen.shown.closing {
        answer_watched(rt, command, files, out, err, seen)
    } else {
        answer_plainly(rt, command, files, out, err)
    };
    ExitCode::from(ended.status().code())
}

// What is shown of the reading: nothing for a command that does not read sources. How many bytes there are to read is known beforehand where a
// command reads all sources, and nothing else but its job and its plan: a part command reads some sources, or partials too.
fn shown_of<R: rt::Files + AllocGlobal>(
    rt: &R,
    asked: Asked<'_>,
    is_out_seen: bool,
    is_err_seen: bool,
) -> Shown {
    let Some(texts) = texts_of(asked.command) else {
        return Shown {
            live: false,
            until_report: false,
            closing: false,
            total: None,
        };
    };
    let live = is_err_seen && asked.progress.unwrap_or(true);
    Shown {
        live,
        until_report: is_out_seen,
        closing: asked.progress.unwrap_or(false),
        total: if live && !is_part_call(asked.command) {
            bytes_to_read(rt, texts.job, texts.plan)
        } else {
            None
        },
    }
}

// Answers with the line on err alone. The files have the same type with a watch and without, here and below: what reads them is then
// compiled once, and as well as if there were no watch.
fn answer_plainly<
    'w,
    R: rt::Files + Clock + AllocGlobal + Threads + Wait + Sync,
    O: Write + Drop,
    E: Write + Drop,
>(rt: &R, words: &'w [String], files: HostFiles<&R>, out: O, err: E) -> Answer<'w> {
    let watch: Option<&Progress<'_, '_, R, E>> = None;
    let mut files = WatchedFiles::new(files, watch);
    let mut out = HostSink::new(WatchedWriter::new(out, watch));
    let mut err = HostSink::new(err);
    answer(rt, words, &mut files, &mut out, &mut err)
}

// Answers with a line on what is read meanwhile, and a hint after the line on err. A failure to make or write these changes nothing else.
fn answer_watched<
    'w,
    R: rt::Files + Clock + AllocGlobal + Threads + Wait + Sync,
    O: Write + Drop,
    E: Write + Drop,
>(rt: &R, words: &'w [String], files: HostFiles<&R>, out: O, err: E, seen: Seen<'_>) -> Answer<'w> {
    let Ok(mut line) = MemSink::with_room(rt.alloc(), LINE_ROOM) else {
        return answer_plainly(rt, words, files, out, err);
    };
    let Seen {
        hints,
        shown,
        texts,
    } = seen;
    let progress = Progress::new(rt, rt.alloc(), err, shown, texts);
    let mut files = WatchedFiles::new(files, Some(&progress));
    let mut out = HostSink::new(WatchedWriter::new(out, Some(&progress)));
    let ended = answer(rt, words, &mut files, &mut out, &mut line);
    progress.end();
    progress.say(line.bytes());
    if hints.are_wanted {
        let failure = failure_of(&ended, files.files().last_failure(), out.last_failure());
        if let Ok(hint) = hint_of(rt, words, &ended, failure, hints.are_asked) {
            progress.say(hint.as_str().as_bytes());
        }
    }
    progress.close();
    ended
}

// What helps a person who sees the answer.
fn hint_of<R: rt::Files + AllocGlobal>(
    rt: &R,
    words: &[String],
    ended: &Answer<'_>,
    failure: Option<Failure>,
    is_asked: bool,
) -> Result<String, AllocError> {
    match ended {
        Answer::Command(ended) => hint(rt, words, ended, failure, is_asked),
        Answer::Part(Ok(())) => Ok(String::new(rt.alloc())),
        Answer::Part(Err(refusal)) => part_hint(rt, words, refusal, failure),
    }
}

// What failed, if the answer is that a file or standard output did.
fn failure_of<'f>(
    ended: &Answer<'_>,
    file: Option<&'f FileFailure>,
    out: Option<io::Error>,
) -> Option<Failure<'f>> {
    match ended.status() {
        Status::ReadFault | Status::PutFault => {
            let failure = file?;
            Some(Failure {
                name: failure.name.as_str(),
                error: failure.error,
            })
        }
        Status::WriteFault => {
            let error = out?;
            Some(Failure {
                name: "standard output",
                error,
            })
        }
        _ => None,
    }
}

/// Answers words over any files and sinks: those that ask for help or for the version here; all others go to the proved call as they are.
pub fn answer<'w, R: rt::Files + AllocGlobal + Threads + Wait + Sync, F: Files, O: Sink, E: Sink>(
    rt: &R,
    words: &'w [String],
    files: &mut F,
    out: &mut O,
    err: &mut E,
) -> Answer<'w> {
    if let Some(text) = help::told(words) {
        return Answer::Command(help::tell(text, out, err));
    }
    answer_words(rt, rt.alloc(), words, files, out, err, &OpenGate)
}
