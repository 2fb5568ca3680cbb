//! Laws of what is read of files, each a clause of the contract of a function that does nothing.

ghost use Rattle.flu_readable.specs.Laws.{WhatIsReadIsReadable, WhatIsReadTellsItsRows};

/// The lists of items that good sources give have moments below 2^63, values of 64 bits, and fewer than 2^64 events: rows keep these bounds, what is
/// read of a file has fewer than 2^32 rows, and clocks tick below the end of times. And where the job has a clock, the first and the last time of the rows
/// tell where the first and the last row stand.
pub fn what_is_read_is_readable()
    ensures readable { WhatIsReadIsReadable }
    ensures tells { WhatIsReadTellsItsRows }
{
    flu_rows::times_are_in_range();
    flu_selected::selected_sources_are_read();
}
