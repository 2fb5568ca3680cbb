//! Outputs, and those that were emitted as a line says.

ghost use Rattle.std.specs.Prelude.{◌≡◌, List, map, IfOk, IfSome};
ghost use Rattle.std.specs.List.{AllByRecursion};
ghost use Rattle.flu_model.specs.declared.events.Out.{Out};
ghost use Rattle.flu_handover.specs.Handing.{emitted_of, IsListed};
ghost use Rattle.flu_handover.specs.Parts.{HaveLines};

use crate::tags::{named_tags, place_of};
use flu_model::{Out, Outs, Program, Text, tag_text};
use flu_partial::Emitted;
use std::alloc::{AllocError, Global};

// A text of its own.
fn copy_of(alloc: Global, text: &Text) -> Result<Text, AllocError>
    ensures { IfOk result (λ t. t ≡ text.now) }
{
    let own = String::from_str(alloc, text.as_str())?;
    Ok(Text::of(own))
}

// An output with its tag's text.
fn emitted_of(alloc: Global, p: &Program, out: &Out) -> Result<Emitted, AllocError>
    ensures { IfOk result (λ e. e ≡ emitted_of p.now out.now) }
{
    let tag = tag_text(alloc, p, out.tag)?;
    let text = copy_of(alloc, &out.text)?;
    Ok(Emitted {
        time: out.time,
        tag,
        text,
    })
}

// Outputs with the texts of their tags.
pub(crate) fn all_emitted(
    alloc: Global,
    p: &Program,
    outputs: &[Out],
) -> Result<Vec<Emitted>, AllocError>
    ensures { IfOk result (λ v. v.items ≡ map (emitted_of p.now) outputs.now) }
{
    let mut emitted = Vec::new(alloc);
    for out in outputs {
        let one = emitted_of(alloc, p, out)?;
        emitted.push(one)?;
    }
    Ok(emitted)
}

// The outputs that are emitted so, with tags of the job's itags; none where an itag of the job has no such tag. The tag of the output
// before is tried first.
pub(crate) fn outputs_of(
    alloc: Global,
    p: &Program,
    emitted: &[Emitted],
) -> Result<Option<Outs>, AllocError>
    ensures listed { IfOk result (λ o. IfSome o (AllByRecursion (λ (x : Out). IsListed p.now x.tag))) }
    ensures same { IfOk result (λ o. IfSome o (λ outs. emitted.now ≡ map (emitted_of p.now) outs)) }
    ensures found { (xs : List Out) → AllByRecursion (λ (x : Out). IsListed p.now x.tag) xs → emitted.now ≡ map (emitted_of p.now) xs
        → IfOk result (HaveLines p.now xs) }
{
    let mut outs = Vec::new(alloc);
    // without outputs the tags of the job are not needed
    if emitted.is_empty() {
        return Ok(Some(Outs::of(outs)));
    }
    let tags = named_tags(alloc, p)?;
    let mut last = 0;
    for one in emitted {
        let Some(place) = place_of(tags.as_slice(), last, one.tag.as_str()) else {
            return Ok(None);
        };
        let text = copy_of(alloc, &one.text)?;
        outs.push(Out {
            time: one.time,
            tag: tags[place].tag,
            text,
        })?;
        last = place;
    }
    Ok(Some(Outs::of(outs)))
}
