//! The keys that are listed of a kind, as they are printed.

ghost use Rattle.std.specs.Prelude.{◌≡◌, ◌++◌, OnOk};
ghost use Rattle.std.specs.String.{string_bytes};
ghost use Rattle.flu_layout.specs.Lists.{keys_text};

use flu_model::Keys;
use std::alloc::AllocError;

/// Appends the keys that are listed of a kind to a text: nothing, a number in brackets, or two of them with `..` between.
///
/// # Errors
///
/// Only if memory runs out.
pub fn add_keys(text: &mut String, keys: Keys) -> Result<(), AllocError>
    ensures { OnOk result (string_bytes text.new ≡ string_bytes text.old ++ keys_text keys) }
{
    match keys {
        Keys::Alone => Ok(()),
        Keys::One(key) => write!(text, "[{key}]"),
        Keys::Range(low, high) => write!(text, "[{low}..{high}]"),
    }
}
