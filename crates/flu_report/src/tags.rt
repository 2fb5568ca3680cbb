//! The texts of tags, each made once.

ghost use Rattle.std.specs.Prelude.{◌≡◌, IfOk, OnOk, IsSome};
ghost use Rattle.std.specs.BTreeMap.{get};
ghost use Rattle.flu_model.specs.Reports.{text_of_tag};
ghost use Rattle.flu_report.specs.Tagging.{tag_cmp, HasTexts, IsTagged};

use flu_model::{Out, Program, Tag, Text, tag_text};
use std::alloc::{AllocError, Global};
use std::collections::BTreeMap;

/// The text of each tag of some outputs.
pub fn tags_of(alloc: Global, p: &Program, outs: &[Out]) -> Result<BTreeMap<Tag, Text>, AllocError>
    ensures { IfOk result (λ tags. IsTagged p.now tags outs.now) }
{
    let mut tags = BTreeMap::new(alloc);
    for out in outs {
        add_tag(alloc, p, &mut tags, out.tag)?;
    }
    Ok(tags)
}

// Puts a tag and its text into the map, if it is not there.
fn add_tag(
    alloc: Global,
    p: &Program,
    tags: &mut BTreeMap<Tag, Text>,
    tag: Tag,
) -> Result<(), AllocError>
    requires { HasTexts p.now tags.old }
    ensures texts { OnOk result (HasTexts p.now tags.new) }
    ensures here { OnOk result (IsSome (get tag_cmp tags.new tag)) }
    ensures stay { OnOk result ((q : Tag) → IsSome (get tag_cmp tags.old q) → IsSome (get tag_cmp tags.new q)) }
{
    if tags.contains_key(&tag) {
        return Ok(());
    }
    let text = tag_text(alloc, p, tag)?;
    tags.insert(tag, text)?;
    Ok(())
}

/// The text of a tag that is in the map.
pub fn text_in<'a>(tags: &'a BTreeMap<Tag, Text>, p: &Program, tag: Tag) -> &'a str
    requires texts { HasTexts p.now tags.now }
    requires here { IsSome (get tag_cmp tags.now tag) }
    ensures { result.now ≡ text_of_tag p.now tag }
{
    match tags.get(&tag) {
        Some(text) => text.as_str(),
        None => unreachable!(),
    }
}
