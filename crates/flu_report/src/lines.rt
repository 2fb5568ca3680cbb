//! The lines of a report, whose tags and texts are elsewhere.

ghost use Rattle.std.specs.Prelude.{◌≡◌, ◌++◌, IfOk, OnOk, map};
ghost use Rattle.std.specs.List.{flat_map};
ghost use Rattle.std.specs.String.{string_bytes};
ghost use Rattle.flu_model.specs.Reports.{line_bytes, line_of};
ghost use Rattle.flu_report.specs.Tagging.{IsTagged};
ghost use Rattle.flu_report.specs.Entries.{line_at};

use crate::tags::text_in;
use flu_model::{Out, Program, Tag, Text, Unit, push_shown_time};
use std::alloc::{AllocError, Global};
use std::collections::BTreeMap;

/// A line of a report.
#[derive(Clone, Copy, PartialEq, Eq, PartialOrd, Ord)]
pub struct Entry<'a> {
    pub time: u64,
    pub tag: &'a str,
    pub text: &'a str,
}

/// The line of each output, in order, where the tags' texts are known.
pub fn entries_of<'a>(
    alloc: Global,
    tags: &'a BTreeMap<Tag, Text>,
    outs: &'a [Out],
    p: &Program,
) -> Result<Vec<Entry<'a>>, AllocError>
    requires { IsTagged p.now tags.now outs.now }
    ensures { IfOk result (λ v. map line_at v.items ≡ map (line_of p.now) outs.now) }
{
    let mut entries = Vec::new(alloc);
    for out in outs {
        entries.push(Entry {
            time: out.time,
            tag: text_in(tags, p, out.tag),
            text: out.text.as_str(),
        })?;
    }
    Ok(entries)
}

/// The lines, one after another, with their times as this unit shows them.
pub fn text_of(alloc: Global, iso: Option<Unit>, entries: &[Entry]) -> Result<Text, AllocError>
    ensures { IfOk result (λ t. t ≡ flat_map (line_bytes iso) (map line_at entries.now)) }
{
    let mut text = String::new(alloc);
    for entry in entries {
        push_line(&mut text, iso, entry)?;
    }
    Ok(Text::of(text))
}

// One line at the end of a text. Where times are numbers, it is written at once.
#[inline]
fn push_line(text: &mut String, iso: Option<Unit>, entry: &Entry<'_>) -> Result<(), AllocError>
    ensures { OnOk result (string_bytes text.new ≡ string_bytes text.old ++ line_bytes iso (line_at entry.now)) }
{
    let Entry {
        time,
        tag,
        text: words,
    } = entry;
    if iso.is_none() {
        write!(text, "{time},{tag},{words}\n")
    } else {
        push_shown_time(text, iso, *time)?;
        write!(text, ",{tag},{words}\n")
    }
}
