//! The words of a call.

use crate::progress::Texts;
use flu_adapt::ProgramCall;
use flu_words::{Command, PartCommand, is_part_call, read_part_words, read_words};
use std::alloc::{AllocError, Global};
use std::env::{Env, FillError};
use std::io::ErrorKind;
use std::{env, str};

/// More bytes than the system allows for a word.
const WORD_ROOM: usize = 131_072;

/// The words of the call, in order, without the program's name; none if there is no memory for them. A word that is no text comes as an
/// empty one, which is part of no command (`docs/LANGUAGE.md`, "Words").
pub(crate) fn words_of<R: Env + AllocGlobal>(rt: &R) -> Option<Vec<String>> {
    match env::args(rt) {
        Ok(arguments) => arguments.skip(1).collect::<Vec<String>>(rt.alloc()).ok(),
        Err(error) if error.kind() == ErrorKind::InvalidData => words_and_gaps(rt),
        Err(_) => None,
    }
}

// The same, word by word.
fn words_and_gaps<R: Env + AllocGlobal>(rt: &R) -> Option<Vec<String>> {
    let mut words = Vec::new(rt.alloc());
    let mut bytes = vec![in rt.alloc(); 0u8; WORD_ROOM].ok()?;
    for place in 1..usize::MAX {
        match word_at(rt, place, &mut bytes) {
            Ok(Some(word)) => {
                if words.push(word).is_err() {
                    return None;
                }
            }
            Ok(None) => return Some(words),
            Err(AllocError) => return None,
        }
    }
    None
}

// The word at a place, an empty one if it is no text, and none after the last.
fn word_at<R: Env + AllocGlobal>(
    rt: &R,
    place: usize,
    bytes: &mut [u8],
) -> Result<Option<String>, AllocError> {
    let count = match rt.arg(place, bytes) {
        Ok(count) => count,
        Err(FillError::TooLong) => 0,
        Err(FillError::NotPresent) => return Ok(None),
    };
    let word = String::from_str(rt.alloc(), text_in(bytes, count))?;
    Ok(Some(word))
}

// The text that the first bytes are, this many, or an empty one.
fn text_in(bytes: &[u8], count: usize) -> &str {
    match bytes.get(..count) {
        Some(front) => str::from_utf8(front).unwrap_or(""),
        None => "",
    }
}

/// What the files of the system have to know about the call: the number of its process, and of a run the name of the checkpoint that it
/// resumes from and whether it leaves the flushes out. If there is no memory for the name, the name is left out.
pub(crate) fn call_of(alloc: Global, words: &[String], process: u32) -> ProgramCall {
    let (resume, unflushed) = match read_words(words) {
        Ok(Command::Run { options, .. }) => (options.resume, options.unflushed),
        _ => (None, false),
    };
    ProgramCall {
        process,
        resumed: resume.and_then(|name| String::from_str(alloc, name).ok()),
        unflushed,
    }
}

/// The files without rows that a command reads which reads sources; none for any other words.
pub(crate) fn texts_of(words: &[String]) -> Option<Texts<'_>> {
    if is_part_call(words) {
        return texts_of_part(words);
    }
    let (job, plan) = match read_words(words) {
        Ok(Command::Fold { job }) => (job, None),
        Ok(Command::Run { job, plan, .. }) => (job, plan),
        Ok(Command::Simulate { job, plan, .. }) => (job, Some(plan)),
        _ => return None,
    };
    Some(Texts {
        job,
        plan,
        partials: &[],
    })
}

// The same of a part command.
fn texts_of_part(words: &[String]) -> Option<Texts<'_>> {
    match read_part_words(words) {
        Ok(PartCommand::Partial { job, plan, .. }) => Some(Texts {
            job,
            plan: Some(plan),
            partials: &[],
        }),
        Ok(
            PartCommand::Combine {
                job,
                plan,
                partials,
            },
        ) => Some(Texts {
            job,
            plan: Some(plan),
            partials,
        }),
        Err(_) => None,
    }
}
