//! The places at which a job exceeds the limits that its tree shows.

use flu_syntax::{
    SyntaxFault, WrittenAct, WrittenAction, WrittenDeclaration, WrittenExpr, WrittenJob,
    WrittenKeys, WrittenTag, read_syntax,
};
use flu_text::Token;
use std::alloc::Global;

/// The most itags of a job.
const MOST_ITAGS: i64 = 256;

/// The most actions of a kind.
const MOST_ACTIONS: usize = 32;

/// The greatest height of an expression.
const MOST_LEVELS: u32 = 32;

/// More than the number of halvings of any text's tokens.
const HALVINGS: u32 = 32;

/// The tags of a source, or the tag of a clock, with which there are too many itags.
pub fn itags_place(job: &WrittenJob) -> Option<usize> {
    let mut itags = 0i64;
    for declaration in job.declarations.items() {
        let place = match declaration {
            WrittenDeclaration::Source { tags, .. } => place_in_tags(tags.items(), &mut itags),
            WrittenDeclaration::Clock { tag, .. } => {
                itags = itags.saturating_add(1);
                if itags > MOST_ITAGS {
                    Some(tag.from)
                } else {
                    None
                }
            }
            _ => None,
        };
        if place.is_some() {
            return place;
        }
    }
    None
}

/// The name of the n-th of the sources, clocks among them.
pub fn source_place(job: &WrittenJob, count: u64) -> Option<usize> {
    let mut met = 0u64;
    for declaration in job.declarations.items() {
        let name = match declaration {
            WrittenDeclaration::Source { name, .. } => Some(name.from),
            WrittenDeclaration::Clock { name, .. } => Some(name.from),
            _ => None,
        };
        if name.is_some() {
            met = met.saturating_add(1);
            if met == count {
                return name;
            }
        }
    }
    None
}

// The first of some tags with which there are too many itags, with those before counted.
fn place_in_tags(tags: &[WrittenTag], itags: &mut i64) -> Option<usize> {
    for tag in tags {
        *itags = itags.saturating_add(itag_count(&tag.keys));
        if *itags > MOST_ITAGS {
            return Some(tag.kind.from);
        }
    }
    None
}

fn itag_count(keys: &WrittenKeys) -> i64 {
    match keys {
        WrittenKeys::Alone | WrittenKeys::One(_) => 1,
        WrittenKeys::Range(low, high) => high.value.saturating_sub(low.value).saturating_add(1),
    }
}

/// The n-th list of names.
pub fn list_place(job: &WrittenJob, count: u64) -> Option<usize> {
    let mut met = 0u64;
    for declaration in job.declarations.items() {
        if let WrittenDeclaration::Names { at, .. } = declaration {
            met = met.saturating_add(1);
            if met == count {
                return Some(*at);
            }
        }
    }
    None
}

/// The n-th name of the first list that has so many.
pub fn listed_name_place(job: &WrittenJob, count: u64) -> Option<usize> {
    let place = usize::try_from(count).ok()?.checked_sub(1)?;
    for declaration in job.declarations.items() {
        if let WrittenDeclaration::Names { texts, .. } = declaration {
            if let Some(text) = texts.items().get(place) {
                return Some(text.from);
            }
        }
    }
    None
}

/// The first action that is one too many of its kind.
pub fn actions_place(job: &WrittenJob) -> Option<usize> {
    for declaration in job.declarations.items() {
        if let WrittenDeclaration::On { actions, .. } = declaration {
            if let Some(action) = actions.items().get(MOST_ACTIONS) {
                return Some(action.at);
            }
        }
    }
    None
}

/// The first action with an expression that is too high.
pub fn height_place(job: &WrittenJob) -> Option<usize> {
    for declaration in job.declarations.items() {
        if let WrittenDeclaration::On { actions, .. } = declaration {
            let high = actions.items().iter().find(|action| is_high(*action));
            if let Some(action) = high {
                return Some(action.at);
            }
        }
    }
    None
}

fn is_high(action: &WrittenAction) -> bool {
    let is_acting_low = match &action.act {
        WrittenAct::Add(_, expr) | WrittenAct::Raise(_, expr) | WrittenAct::Set(_, expr) => {
            is_within(expr, MOST_LEVELS)
        }
        WrittenAct::Clear(_) | WrittenAct::Emit(_) | WrittenAct::Flush(..) => true,
    };
    let is_guard_low = match &action.guard {
        Some(expr) => is_within(expr, MOST_LEVELS),
        None => true,
    };
    !is_acting_low || !is_guard_low
}

// Whether an expression is at most this many levels high. It goes down no further than these.
fn is_within(expr: &WrittenExpr, levels: u32) -> bool {
    if levels == 0 {
        return false;
    }
    match expr {
        WrittenExpr::Number(_)
        | WrittenExpr::Value { .. }
        | WrittenExpr::Key { .. }
        | WrittenExpr::Time { .. }
        | WrittenExpr::Read(_)
        | WrittenExpr::Has { .. } => true,
        WrittenExpr::Paren { inner, .. } => is_within(inner, levels),
        WrittenExpr::Neg { inner, .. } | WrittenExpr::Not { inner, .. } => is_within(
            inner,
            levels - 1,
        ),
        WrittenExpr::Two { left, right, .. } => {
            is_within(left, levels - 1) && is_within(right, levels - 1)
        }
    }
}

/// The token that opens one parenthesis or unary operator too many: the first with which the tokens are too deep.
pub fn nesting_place(alloc: Global, found: &[Token], end: usize) -> Option<usize> {
    let mut low = 0usize;
    let mut high = found.len();
    for _ in 0..HALVINGS {
        let middle = low.saturating_add(high.saturating_sub(low) / 2);
        if is_too_deep(alloc, found.get(..middle)?, end) {
            high = middle;
        } else {
            low = middle;
        }
    }
    Some(found.get(low)?.from)
}

fn is_too_deep(alloc: Global, found: &[Token], end: usize) -> bool {
    match read_syntax(alloc, found, end) {
        Err(SyntaxFault::TooDeep) => true,
        _ => false,
    }
}
