//! The word of a call that does not fit, and why.

use crate::places::push_line;
use flu_words::BadWords;
use std::alloc::{AllocError, Global};

/// The commands, if the words are no command.
const USAGE: &str = "  flumina fold JOB
  flumina check JOB
  flumina valid JOB PLAN
  flumina plan JOB [--depth D]
  flumina run JOB [PLAN | --depth D] [--round ROWS] [--adapt] [--save FILE [--unflushed]] [--resume FILE]
  flumina simulate JOB PLAN SEED [--trace]
  flumina replay JOB PLAN TRACE
  flumina partial JOB PLAN NODE
  flumina combine JOB PLAN FILE ..
  flumina demo N SEED
  flumina --help
";

/// Why a word that should name a file does not fit.
const NO_NAME: &str =
    "the name of a file is expected here; one that begins with - is written ./-name";

/// Why an option that exists does not fit.
const MISPLACED: &str =
    "this option is not possible here: each stands at most once, in the order shown below";

/// The place of a 65th file in the words of `combine`.
const BEHIND_PARTIALS: usize = 67;

/// The word that does not fit, why it does not, and the commands.
pub fn words_hint(alloc: Global, words: &[String], bad: BadWords) -> Result<String, AllocError> {
    let mut told = String::new(alloc);
    let at = bad.at;
    let reason = reason_of(words, at);
    let shown = match words.get(at) {
        Some(word) => format!(in alloc; "word {at}, {word}: {reason}")?,
        None => format!(in alloc; "after the last word: {reason}")?,
    };
    push_line(&mut told, shown.as_str())?;
    told.push_str(USAGE)?;
    Ok(told)
}

// Why the word at a place, or that none is there, makes the words no command.
fn reason_of(words: &[String], at: usize) -> &'static str {
    let Some(before) = at.checked_sub(1) else {
        return "the first word is the name of a command";
    };
    match word_at(words, before) {
        "--depth" => return "a depth is a number from 0 to 6",
        "--round" => return "the number of rows in a round is from 1 to 4096",
        "--save" | "--resume" => {
            return "the name of a file is expected here, which is neither JOB nor PLAN";
        }
        _ => {}
    }
    let command = word_at(words, 0);
    if at <= names_of(command) {
        return NO_NAME;
    }
    match (command, at) {
        ("demo", 1) => "N is a number from 0 to 1000000",
        ("demo", 2) | ("simulate", 3) => "a seed is a number from 0 to 2147483647",
        ("partial", 3) => "the name of a node of the plan is expected here",
        ("combine", _) => partial_reason(words, at),
        _ => option_reason(word_at(words, at)),
    }
}

// Why a word after the plan of `combine`, or that none is there, does not fit.
fn partial_reason(words: &[String], at: usize) -> &'static str {
    let Some(word) = words.get(at) else {
        return NO_NAME;
    };
    if at >= BEHIND_PARTIALS {
        "at most 64 FILEs can be combined"
    } else if words
        .iter()
        .skip(1)
        .take(at.saturating_sub(1))
        .any(|known| known.as_str() == word.as_str())
    {
        "this name is there already: JOB, PLAN and each FILE have names of their own"
    } else {
        NO_NAME
    }
}

// Why a word after the names and numbers of a command does not fit.
fn option_reason(word: &str) -> &'static str {
    match word {
        "--depth" => "a depth is possible where no PLAN is named, and as the first option",
        "--round" | "--adapt" | "--save" | "--resume" | "--trace" => MISPLACED,
        "--unflushed" => "this option is possible only right after --save FILE",
        word if word.starts_with("-") => "there is no such option",
        _ => "this word is one too many",
    }
}

// How many names of files come after a command's name.
fn names_of(command: &str) -> usize {
    match command {
        "fold" | "check" | "plan" | "run" => 1,
        "valid" | "simulate" | "partial" | "combine" => 2,
        "replay" => 3,
        _ => 0,
    }
}

/// The word at a place, or an empty one.
pub fn word_at(words: &[String], at: usize) -> &str {
    match words.get(at) {
        Some(word) => word.as_str(),
        None => "",
    }
}
