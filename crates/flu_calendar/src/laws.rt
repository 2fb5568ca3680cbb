//! What holds of dates and of times as text, each stated as the contract of a function that does nothing.

ghost use Rattle.flu_calendar.specs.Agreement.{DaysHaveOneDate, TextsSayOneTime, ComputedTimesAreSaid, ComputedTimesHaveAnEnd};
ghost use Rattle.flu_calendar.specs.Agreement.{EndsAreInRange, PrintedTextsSayTheirTimes, PrintedTextsAreInOrder};

/// Each day before the year 10000 has exactly one date.
pub fn days_have_one_date()
    ensures { DaysHaveOneDate }
{}

/// A text says one time.
pub fn texts_say_one_time()
    ensures { TextsSayOneTime }
{}

/// What is computed from a text is the time that it says, and nothing where it says none.
pub fn computed_times_are_said()
    ensures { ComputedTimesAreSaid }
{}

/// Every time that is computed from a text is before the year 10000.
pub fn computed_times_have_an_end()
    ensures { ComputedTimesHaveAnEnd }
{}

/// The first time after the year 9999 is below 2^63 in each unit.
pub fn ends_are_in_range()
    ensures { EndsAreInRange }
{}

/// What a time is printed as says that time.
pub fn printed_texts_say_their_times()
    ensures { PrintedTextsSayTheirTimes }
{}

/// What times of one unit are printed as is in the order of the times, byte by byte.
pub fn printed_texts_are_in_order()
    ensures { PrintedTextsAreInOrder }
{}
