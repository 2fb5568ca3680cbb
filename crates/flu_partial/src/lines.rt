//! JSON objects as texts, member by member.

ghost use Rattle.std.specs.Prelude.{◌≡◌, ◌++◌, false, OnOk, IfOk};
ghost use Rattle.std.specs.String.{string_bytes};
ghost use Rattle.json.specs.Print.{quoted};
ghost use Rattle.serde_json.specs.Data.{number, string, unsigned};
ghost use Rattle.serde_json.specs.View.{view};
ghost use Rattle.serde_json.specs.Written.{has_float};
ghost use Rattle.flu_partial.specs.Partial.{time_or_null};
ghost use Rattle.flu_partial.specs.Pieces.{piece};

use serde_json::{Value, json};
use std::alloc::{AllocError, Global};

// A text between quotes, as JSON writes it.
fn quoted(alloc: Global, text: &str) -> Result<String, AllocError>
    ensures { IfOk result (λ s. string_bytes s ≡ quoted text.now) }
{
    let value = json!(in alloc; text)?;
    value.to_string(alloc)
}

// Appends a member of an object, after what stands before it: the opening brace, or a comma.
#[tactic(auto, unfolding(crate::specs::Pieces::piece))]
pub(crate) fn push_member(
    out: &mut String,
    alloc: Global,
    before: &str,
    name: &str,
    value: &Value,
) -> Result<(), AllocError>
    requires { has_float (view value.now) ≡ false }
    ensures { OnOk result (string_bytes out.new ≡ string_bytes out.old ++ piece before.now name.now (view value.now)) }
{
    let key = quoted(alloc, name)?;
    let text = value.to_string(alloc)?;
    out.push_str(before)?;
    out.push_str(key.as_str())?;
    out.push_str(":")?;
    out.push_str(text.as_str())
}

// A member that is a number.
pub(crate) fn push_number(
    out: &mut String,
    alloc: Global,
    before: &str,
    name: &str,
    count: u64,
) -> Result<(), AllocError>
    ensures { OnOk result (string_bytes out.new ≡ string_bytes out.old ++ piece before.now name.now (number (unsigned count))) }
{
    let value = json!(in alloc; count)?;
    push_member(out, alloc, before, name, &value)
}

// A member that is a time, or null where there is none.
pub(crate) fn push_time(
    out: &mut String,
    alloc: Global,
    before: &str,
    name: &str,
    time: Option<u64>,
) -> Result<(), AllocError>
    ensures { OnOk result (string_bytes out.new ≡ string_bytes out.old ++ piece before.now name.now (time_or_null time)) }
{
    match time {
        None => push_member(out, alloc, before, name, &Value::Null),
        Some(time) => push_number(out, alloc, before, name, time),
    }
}

// A member that is a text.
pub(crate) fn push_text(
    out: &mut String,
    alloc: Global,
    before: &str,
    name: &str,
    text: &str,
) -> Result<(), AllocError>
    ensures { OnOk result (string_bytes out.new ≡ string_bytes out.old ++ piece before.now name.now (string text.now)) }
{
    let value = json!(in alloc; text)?;
    push_member(out, alloc, before, name, &value)
}
