//! What holds of the times of rows, stated as the contract of a function that does nothing.

ghost use Rattle.flu_rows.specs.Laws.{TimesAreInRange};

use flu_calendar::{computed_times_have_an_end, ends_are_in_range};

/// A time that a row gives is below 2^63.
pub fn times_are_in_range()
    ensures { TimesAreInRange }
{
    computed_times_have_an_end();
    ends_are_in_range();
}
