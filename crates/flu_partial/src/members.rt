//! The members of a JSON value.

ghost use Rattle.std.specs.Prelude.{◌≡◌, ◌⊎◌, ◌↔◌, ℕ, Option, option_map, option_and_then, Some, IfOk, IfErr, IfSome, IsTrue};
ghost use Rattle.std.specs.String.{string_bytes};
ghost use Rattle.serde_json.specs.Data.{Data};
ghost use Rattle.serde_json.specs.Find.{get, as_str, as_number, as_u64};
ghost use Rattle.serde_json.specs.View.{view};
ghost use Rattle.flu_partial.specs.declared.fault.LineFault.{LineFault};
ghost use Rattle.flu_partial.specs.Partial.{time_or_null, IsTimeOrNone};
ghost use Rattle.flu_partial.specs.Forms.{IsJsonOf};

use crate::fault::LineFault;
use flu_model::{Name, Text};
use serde_json::Value;
use std::alloc::{AllocError, Global};

// How many bytes a line may have.
pub(crate) const MOST_BYTES: usize = 536_870_912;

pub(crate) const MOST_TIME: u64 = i64::MAX as u64;

// The JSON value of bytes.
pub(crate) fn value_of(alloc: Global, bytes: &[u8]) -> Result<Value, LineFault>
    ensures json { IfOk result (λ v. IsJsonOf bytes.now (view v)) }
    ensures fault { IfErr result (λ e. (e ≡ LineFault.NoMemory) ⊎ ((e ≡ LineFault.NotJson) × ((d : Data) → IsJsonOf bytes.now d → ⊥))) }
{
    match Value::from_slice(alloc, bytes) {
        Ok(value) => Ok(value),
        Err(e) if e.is_memory() => Err(LineFault::NoMemory),
        Err(_) => Err(LineFault::NotJson),
    }
}

// The text of a member.
pub(crate) fn text_in<'v>(value: &'v Value, name: &str) -> Option<&'v str>
    ensures { option_map (λ s. s.now) result ≡ option_and_then as_str (get name.now (view value.now)) }
{
    value.get(name).and_then(Value::as_str)
}

// The number of a member.
pub(crate) fn number_in(value: &Value, name: &str) -> Option<u64>
    ensures { result ≡ option_and_then as_u64 (option_and_then as_number (get name.now (view value.now))) }
{
    value.get(name).and_then(Value::as_u64)
}

// A time from 0 to 2^63 - 1, or null.
pub(crate) fn time_in(value: &Value) -> Option<Option<u64>>
    ensures fits { IfSome result IsTimeOrNone }
    ensures found { (t : Option ℕ) → IsTimeOrNone t → view value.now ≡ time_or_null t → result ≡ Some t }
{
    if value.is_null() {
        return Some(None);
    }
    let time = value.as_u64()?;
    if time <= MOST_TIME {
        Some(Some(time))
    } else {
        None
    }
}

// A member that is a time from 0 to 2^63 - 1, or null.
pub(crate) fn time_of(value: &Value, name: &str) -> Option<Option<u64>>
    ensures fits { IfSome result IsTimeOrNone }
    ensures found { (t : Option ℕ) → IsTimeOrNone t → get name.now (view value.now) ≡ Some (time_or_null t) → result ≡ Some t }
{
    time_in(value.get(name)?)
}

// A text of its own.
pub(crate) fn text_of(alloc: Global, text: &str) -> Result<Text, AllocError>
    ensures { IfOk result (λ t. t ≡ text.now) }
{
    let own = String::from_str(alloc, text)?;
    Ok(Text::of(own))
}

// A name of its own.
pub(crate) fn name_of(alloc: Global, text: &str) -> Result<Name, AllocError>
    ensures { IfOk result (λ n. n ≡ text.now) }
{
    let own = String::from_str(alloc, text)?;
    Ok(Name::of(own))
}

// Whether bytes are just a text.
pub(crate) fn is_text(text: &String, bytes: &[u8]) -> bool
    ensures { IsTrue result ↔ (bytes.now ≡ string_bytes text.now) }
{
    text.as_bytes() == bytes
}
