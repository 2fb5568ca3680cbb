//! The tags of a job's itags, by their texts.

ghost use Rattle.std.specs.Prelude.{◌≡◌, ◌<◌, false, length, position, IfOk, IfSome, IfNone, IsTrue};
ghost use Rattle.std.specs.List.{list_any};
ghost use Rattle.flu_handover.specs.Parts.{named_tags, has_text, IsNamedAt};

use flu_model::{Itag, Program, Tag, Text, itag_count, tag_of, tag_text};
use std::alloc::{AllocError, Global};

// A tag with its text in a report.
#[derive(Drop)]
pub(crate) struct NamedTag {
    pub(crate) tag: Tag,
    pub(crate) text: Text,
}

// The tags of a job's itags with their texts, by the itags' numbers.
pub(crate) fn named_tags(alloc: Global, p: &Program) -> Result<Vec<NamedTag>, AllocError>
    ensures { IfOk result (λ v. v.items ≡ named_tags p.now) }
{
    let mut tags = Vec::new(alloc);
    for i in 0..itag_count(p) {
        let tag = tag_of(p, Itag(i));
        let text = tag_text(alloc, p, tag)?;
        tags.push(NamedTag { tag, text })?;
    }
    Ok(tags)
}

// The first place of a tag with a text.
fn first_place(tags: &[NamedTag], text: &str) -> Option<usize>
    ensures value { result ≡ position (has_text text.now) tags.now }
    ensures within { IfSome result (λ place. place < length tags.now) }
{
    tags.iter().position(|named| named.text.as_str() == text)
}

// Whether the tag at a place has a text.
fn is_named_at(tags: &[NamedTag], place: usize, text: &str) -> bool
    ensures { IsTrue result → IsNamedAt tags.now text.now place }
{
    place < tags.len() && tags[place].text.as_str() == text
}

// A place of a tag with a text. One place is looked at first, and the others only if its tag has another text.
pub(crate) fn place_of(tags: &[NamedTag], first: usize, text: &str) -> Option<usize>
    ensures some { IfSome result (IsNamedAt tags.now text.now) }
    ensures none { IfNone result (list_any (has_text text.now) tags.now ≡ false) }
{
    if is_named_at(tags, first, text) {
        Some(first)
    } else {
        first_place(tags, text)
    }
}
