//! Times as text: a time counted in seconds, milliseconds or microseconds from 1970-01-01T00:00:00 UTC on, and the texts that say it.
//!
//! A text that says a time is a date `YYYY-MM-DD`, a `T` or one blank, a time of day `HH:MM:SS`, and then, each if wanted, a fraction of
//! a second, which is a dot and one to nine digits, and a `Z`. Each number has exactly as many digits as there are letters here. The
//! years are 1970 to 9999 of the Gregorian calendar, in UTC and with no leap seconds: a day has the hours 0 to 23, an hour the minutes
//! 0 to 59, and a minute the seconds 0 to 59. What a fraction has beyond the unit is cut off, and not rounded. No other text says a time.
//!
//! A time is printed as `YYYY-MM-DDTHH:MM:SSZ`, with `.` and three digits before the `Z` in milliseconds, and six in microseconds.
#![tactic(auto)]

mod date;
mod laws;
mod print;
mod read;
mod unit;

pub use laws::{
    computed_times_are_said, computed_times_have_an_end, days_have_one_date, ends_are_in_range,
    printed_texts_are_in_order, printed_texts_say_their_times, texts_say_one_time,
};
pub use print::push_time;
pub use read::read_time;
pub use unit::{Unit, times_end};
