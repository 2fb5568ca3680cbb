//! The pairs of kinds that a job has to declare dependent.

ghost use Rattle.std.specs.Prelude.{◌≡◌, ◌<◌};
ghost use Rattle.flu_model.specs.Itags.{count_of_itags};
ghost use Rattle.flu_deps.specs.LoopClashes.{FindsClashes};

use flu_deps::{Clashes, conflict, dep};
use flu_model::{Cell, Itag, Program, Tag, itag_count, tag_of};
use std::alloc::{AllocError, Global};

/// Two kinds of which some tags conflict, though they are independent.
#[derive(Clone, Copy)]
pub struct Missing {
    /// The first tags of the two kinds that conflict.
    pub a: Tag,
    pub b: Tag,
    /// The first cell on which these two do.
    pub cell: Cell,
    /// Whether only tags with equal keys conflict.
    pub same: bool,
}

impl Missing {
    /// Whether these are the kinds of two tags, in either order.
    pub fn has_kinds_of(&self, a: Tag, b: Tag) -> bool {
        self.a.kind == a.kind && self.b.kind == b.kind
            || self.a.kind == b.kind && self.b.kind == a.kind
    }
}

/// All pairs of kinds that a job lacks before it is accepted, each once.
pub fn missing_of(alloc: Global, p: &Program) -> Result<Vec<Missing>, AllocError> {
    let clashes = Clashes::of(p);
    let count = itag_count(p);
    let mut missing = Vec::new(alloc);
    for i in 0..count {
        note_tag(p, &clashes, Itag(i), count, &mut missing)?;
    }
    Ok(missing)
}

// Notes the kinds of a tag's conflicts with the tags that are not before it.
fn note_tag(
    p: &Program,
    clashes: &Clashes,
    i: Itag,
    count: u32,
    missing: &mut Vec<Missing>,
) -> Result<(), AllocError>
    requires clashes { FindsClashes p.now clashes.now }
    requires in_range { i.0 < count_of_itags p.now }
    requires all { count ≡ count_of_itags p.now }
{
    for j in i.0..count {
        note_pair(p, clashes, i, Itag(j), missing)?;
    }
    Ok(())
}

// Notes the kinds of two tags, if these are independent and conflict, and their kinds are not noted yet.
fn note_pair(
    p: &Program,
    clashes: &Clashes,
    i: Itag,
    j: Itag,
    missing: &mut Vec<Missing>,
) -> Result<(), AllocError>
    requires clashes { FindsClashes p.now clashes.now }
    requires i { i.0 < count_of_itags p.now }
    requires j { j.0 < count_of_itags p.now }
{
    let a = tag_of(p, i);
    let b = tag_of(p, j);
    if clashes.never_conflict(p, i, a, j, b) {
        return Ok(());
    }
    let same = is_keyed(p, a.kind) && is_keyed(p, b.kind) && a.key == b.key;
    if dep(p, a, b) || is_noted(missing.as_slice(), a, b, same) {
        return Ok(());
    }
    match conflict(p, a, b) {
        Some(cell) => note(missing, Missing { a, b, cell, same }),
        None => Ok(()),
    }
}

fn is_keyed(p: &Program, kind: u32) -> bool {
    match p.kinds.items().get(kind as usize) {
        Some(kind) => kind.keyed,
        None => false,
    }
}

// Whether what is noted makes two tags dependent, which have the same key or not.
fn is_noted(missing: &[Missing], a: Tag, b: Tag, same: bool) -> bool {
    missing
        .iter()
        .any(|known| known.has_kinds_of(a, b) && (same || !known.same))
}

// Adds two kinds; or, if these are there for tags with equal keys, lets them stand for all keys.
fn note(missing: &mut Vec<Missing>, new: Missing) -> Result<(), AllocError> {
    for known in missing.iter_mut() {
        if known.has_kinds_of(new.a, new.b) {
            *known = new;
            return Ok(());
        }
    }
    missing.push(new)?;
    Ok(())
}
