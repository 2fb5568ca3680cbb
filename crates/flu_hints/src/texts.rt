//! The fault of a text, of a job or of a plan: where it is, and what a person may want to know beside that.

use crate::limits::{limit_place, spelled};
use crate::places::{line_begin, push_line, push_place};
use flu_model::What;
use flu_parse::JobFault;
use flu_plan::PlanFault;
use flu_text::{Contextual, Mark, Reserved, Token, Word, tokens};
use std::alloc::{AllocError, Global};
use std::str;

/// What a text ought to be.
#[derive(Clone, Copy, PartialEq, Eq)]
enum Language {
    Job,
    Plan,
}

/// What is wrong with a text, as far as hints tell faults apart. Places are bytes from 0.
#[derive(Clone, Copy)]
enum Fault {
    /// The word here can't follow.
    Unexpected(usize),
    /// The name here was declared before.
    TwiceNamed(usize),
    /// Something else is wrong here.
    At(usize),
    /// There is more of this than the language allows: the first count above the limit, or the number itself.
    OverLimit(What, u64),
    /// What is wrong has no place.
    Nowhere,
}

/// The place of a fault in the text under a job's name, and what helps there.
pub fn job_fault_hint(
    alloc: Global,
    name: &str,
    fault: &JobFault,
    text: &[u8],
) -> Result<String, AllocError> {
    let fault = match fault {
        JobFault::Unexpected { at } => Fault::Unexpected(*at),
        JobFault::TwiceNamed { at } => Fault::TwiceNamed(*at),
        JobFault::BadUtf8 { at }
        | JobFault::BadToken { at }
        | JobFault::UnknownName { at }
        | JobFault::WrongShape { at } => Fault::At(*at),
        JobFault::OverLimit { what, count } => Fault::OverLimit(*what, *count),
        JobFault::NoMemory => Fault::Nowhere,
    };
    fault_hint(alloc, Language::Job, name, fault, text)
}

/// The place of a fault in the text under a plan's name, and what helps there.
pub fn plan_fault_hint(
    alloc: Global,
    name: &str,
    fault: &PlanFault,
    text: &[u8],
) -> Result<String, AllocError> {
    let fault = match fault {
        PlanFault::Unexpected { at } => Fault::Unexpected(*at),
        PlanFault::BadToken { at } | PlanFault::UnknownName { at } => Fault::At(*at),
        PlanFault::OverLimit { what, count } => Fault::OverLimit(*what, *count),
        PlanFault::NotATree { .. } | PlanFault::NoMemory => Fault::Nowhere,
    };
    fault_hint(alloc, Language::Plan, name, fault, text)
}

fn fault_hint(
    alloc: Global,
    language: Language,
    name: &str,
    fault: Fault,
    text: &[u8],
) -> Result<String, AllocError> {
    let mut told = String::new(alloc);
    let place = match fault {
        Fault::Unexpected(at) | Fault::TwiceNamed(at) | Fault::At(at) => Some(at),
        Fault::OverLimit(what, count) => limit_place(alloc, what, count, text),
        Fault::Nowhere => None,
    };
    if let Some(at) = place {
        push_place(alloc, &mut told, name, text, at)?;
    }
    if let Some(advice) = encoding_advice(text) {
        push_line(&mut told, advice)?;
    } else {
        push_advice(alloc, &mut told, language, fault, text)?;
    }
    Ok(told)
}

// Appends what helps with a fault of a text that is encoded as it should be.
fn push_advice(
    alloc: Global,
    told: &mut String,
    language: Language,
    fault: Fault,
    text: &[u8],
) -> Result<(), AllocError> {
    let advice = match fault {
        Fault::Unexpected(at) => word_advice(alloc, language, text, at),
        Fault::OverLimit(what, _) => limit_advice(what),
        Fault::TwiceNamed(at) => return push_first_name(alloc, told, text, at),
        Fault::At(_) | Fault::Nowhere => None,
    };
    match advice {
        Some(advice) => push_line(told, advice),
        None => Ok(()),
    }
}

// What the first bytes of a text show of how it is encoded, if it is not UTF-8 without a byte order mark.
fn encoding_advice(bytes: &[u8]) -> Option<&'static str> {
    if bytes.starts_with(b"\xef\xbb\xbf") {
        Some("the text begins with a byte order mark: save it as UTF-8 without one")
    } else if bytes.starts_with(b"\xff\xfe") || bytes.starts_with(b"\xfe\xff") {
        Some("the text is UTF-16: save it as UTF-8")
    } else {
        None
    }
}

// What a limit counts, where its name alone may not say so.
fn limit_advice(what: What) -> Option<&'static str> {
    match what {
        What::Itags => Some(
            "each tag of each source counts, with each of its keys: at most 256; a kind with items (version 3) counts once for each source",
        ),
        What::Bytes => Some("a text has at most 1048576 bytes"),
        What::Nesting => Some("at most 64 parentheses and operators may be open at once"),
        What::Actions => Some("a kind has at most 32 actions"),
        What::Height => Some("an expression is at most 32 operators deep"),
        What::Slack => Some("a slack is at most 60000, in the unit of the times"),
        What::Key => Some("a key is at most 65535"),
        What::Families | What::Kinds | What::Sources | What::Lists => {
            Some("at most 64 of these may be declared")
        }
        What::Names => Some("a list has at most 65536 names"),
        What::Depends => Some("at most 4096 dependencies may be declared"),
        What::Rate | What::Nodes | What::Predicates | What::Depth => None,
    }
}

// Appends the line that has the name at a place first.
fn push_first_name(
    alloc: Global,
    told: &mut String,
    text: &[u8],
    at: usize,
) -> Result<(), AllocError> {
    let Ok(text) = str::from_utf8(text) else {
        return Ok(());
    };
    let Ok(found) = tokens(alloc, text) else {
        return Ok(());
    };
    let Some(name) = found.iter().find(|token| token.from == at) else {
        return Ok(());
    };
    let Some(wanted) = spelled(text, name) else {
        return Ok(());
    };
    let mut is_declared = false;
    for (place, token) in found.iter().enumerate() {
        let is_declared_here = is_declared || is_named_here(found.as_slice(), place);
        if is_declared_here && spelled(text, token) == Some(wanted) {
            let (number, _) = line_begin(text.as_bytes(), token.from);
            let advice = format!(in alloc;
                "{wanted} is named first on line {number}; cells, tags, lists and sources share one set of names"
            )?;
            return push_line(told, advice.as_str());
        }
        is_declared = is_declaring(token.word);
    }
    Ok(())
}

// What the word at a place is, where no such word can be.
fn word_advice(alloc: Global, language: Language, text: &[u8], at: usize) -> Option<&'static str> {
    let text = str::from_utf8(text).ok()?;
    let found = tokens(alloc, text).ok()?;
    let is_plan = language == Language::Plan;
    let mut before = None;
    for token in found.as_slice() {
        if token.from == at {
            return match (before, token.word) {
                (None, Word::Reserved(Reserved::Node)) if !is_plan => {
                    Some("this is the text of a plan; the name of the job's comes first")
                }
                (None, Word::Reserved(word)) if is_plan && word != Reserved::Node => {
                    Some("this is the text of a job; the name of the plan's comes second")
                }
                (Some(word), Word::Reserved(_)) if is_declaring(word) => {
                    Some("that is a reserved word, which cannot be a name")
                }
                _ => None,
            };
        }
        before = Some(token.word);
    }
    None
}

// Whether the token at this place is the name of a list or a clock: it stands between `names` and a colon, or between `clock` and `every`.
fn is_named_here(found: &[Token], place: usize) -> bool {
    let Some(before) = place.checked_sub(1).and_then(|place| found.get(place)) else {
        return false;
    };
    let Some(behind) = found.get(place.saturating_add(1)) else {
        return false;
    };
    match before.word {
        Word::Name(Contextual::Names) => behind.word == Word::Mark(Mark::Colon),
        Word::Name(Contextual::Clock) => behind.word == Word::Name(Contextual::Every),
        _ => false,
    }
}

// Whether a name is declared by the word before it.
fn is_declaring(word: Word) -> bool {
    match word {
        Word::Reserved(word) => matches!(
            word,
            Reserved::Cell | Reserved::Tag | Reserved::Source | Reserved::Node
        ),
        _ => false,
    }
}
