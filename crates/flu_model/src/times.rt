//! How times are shown.

ghost use Rattle.std.specs.Prelude.{◌≡◌, ◌++◌, OnOk};
ghost use Rattle.std.specs.Fmt.{decimal};
ghost use Rattle.std.specs.String.{string_bytes};
ghost use Rattle.flu_model.specs.Texts.{shown_time};

use flu_calendar::{Unit, push_time, times_end};
use std::alloc::AllocError;

/// Appends a time as the report and `{time}` show it: with a unit as text, and otherwise as a number, as also past the year 9999. Where
/// memory is refused, the text may have got a part of it.
#[inline]
pub fn push_shown_time(text: &mut String, iso: Option<Unit>, time: u64) -> Result<(), AllocError>
    ensures ok { OnOk result (string_bytes text.new ≡ string_bytes text.old ++ shown_time iso time) }
{
    match iso {
        Some(unit) if time < times_end(unit) => push_time(text, unit, time),
        _ => push_number(text, time),
    }
}

fn push_number(text: &mut String, n: u64) -> Result<(), AllocError>
    ensures ok { OnOk result (string_bytes text.new ≡ string_bytes text.old ++ decimal n) }
{
    write!(text, "{n}")
}
