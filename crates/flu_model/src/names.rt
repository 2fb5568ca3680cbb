//! How reports name tags.

ghost use Rattle.std.specs.Prelude.{◌≡◌, ◌++◌, OnOk, IfOk};
ghost use Rattle.std.specs.String.{string_bytes};
ghost use Rattle.flu_model.specs.Reports.{text_of_tag, name_with_key};

use crate::events::Tag;
use crate::jobs::Program;
use crate::words::Text;
use std::alloc::{AllocError, Global};

/// A tag as a text: `kind`, or `kind[key]` where the kind is keyed.
pub fn tag_text(alloc: Global, p: &Program, t: Tag) -> Result<Text, AllocError>
    ensures { IfOk result (λ text. text ≡ text_of_tag p.now t) }
{
    match p.kinds.items().get(t.kind as usize) {
        Some(kind) => keyed_name(alloc, kind.name.as_str(), kind.keyed, t.key),
        None => Ok(Text::of(String::new(alloc))),
    }
}

// A name, with its key in brackets where it has one.
fn keyed_name(alloc: Global, name: &str, keyed: bool, key: u32) -> Result<Text, AllocError>
    ensures { IfOk result (λ text. text ≡ name_with_key name.now keyed key) }
{
    let text = if keyed {
        format!(in alloc; "{name}[{key}]")?
    } else {
        String::from_str(alloc, name)?
    };
    Ok(Text::of(text))
}
