//! Dates of the calendar, and the days that they are from 1970-01-01 on.

ghost use Rattle.std.specs.Prelude.{◌≡◌, ◌+◌, ◌-◌, ◌*◌, ◌/◌, ◌<◌, ◌≤◌, ◌↔◌, IsTrue};
ghost use Rattle.flu_calendar.specs.Calendar as Calendar;
ghost use Rattle.flu_calendar.specs.Calendar.{IsDate, MonthFound};

/// The days of 400 years, of the 100 years that one of these begins with, and of the 4 years that one of those begins with.
const DAYS_IN_400_YEARS: u32 = 365 * 400 + 97;

const DAYS_IN_100_YEARS: u32 = 365 * 100 + 24;

const DAYS_IN_4_YEARS: u32 = 365 * 4 + 1;

/// From 1601-01-01, where a cycle of 400 years begins that ends in a leap year, to 1970-01-01.
const DAYS_BEFORE_1970: u32 = 134_774;

/// A date of the calendar.
#[derive(Clone, Copy)]
pub(crate) struct Date {
    pub year: u32,
    pub month: u32,
    pub day: u32,
}

fn is_leap(year: u32) -> bool
    ensures { result ≡ Calendar.is_leap year }
{
    year % 4 == 0 && (year % 100 != 0 || year % 400 == 0)
}

fn days_in_month(year: u32, month: u32) -> u32
    ensures { result ≡ Calendar.days_in_month year month }
{
    match month {
        2 => { if is_leap(year) { 29 } else { 28 } }
        4 | 6 | 9 | 11 => 30,
        _ => 31,
    }
}

/// Whether the calendar has a date in the years 1970 to 9999.
#[inline]
pub(crate) fn is_date(year: u32, month: u32, day: u32) -> bool
    ensures { IsTrue result ↔ IsDate year month day }
{
    let known = 1970 <= year && year <= 9999 && 1 <= month && month <= 12;
    known && 1 <= day && day <= days_in_month(year, month)
}

// A line gives the days before March and each later month of a year that has no leap day; the days before March are made of it by what
// February lacks of thirty days.
fn days_before_month(year: u32, month: u32) -> u32
    requires low { 1 ≤ month }
    requires high { month ≤ 12 }
    ensures value { result ≡ Calendar.days_of_months year (month - 1) }
    ensures bound { result < 366 }
{
    let by_line = (367 * month - 362) / 12;
    if month <= 2 {
        by_line
    } else if is_leap(year) {
        by_line - 1
    } else {
        by_line - 2
    }
}

/// How many days a date is after 1970-01-01.
#[inline]
pub(crate) fn day_of(year: u32, month: u32, day: u32) -> u32
    requires { IsDate year month day }
    ensures value { result ≡ Calendar.day_of year month day }
    ensures below_end { result < 2932897 }
{
    let past = year - 1601;
    let since_1601 = past * 365 + past / 4 - past / 100 + past / 400;
    since_1601 - DAYS_BEFORE_1970 + days_before_month(year, month) + (day - 1)
}

// The year of a day, and how many days of that year are over before it.
fn year_at(day: u32) -> (u32, u32)
    requires { day < 2932897 }
    ensures low { 1970 ≤ result.0 }
    ensures high { result.0 ≤ 9999 }
    ensures within { result.1 < Calendar.days_in_year result.0 }
    ensures sum { Calendar.days_of_years (result.0 - 1970) + result.1 ≡ day }
{
    let since_1601 = day + DAYS_BEFORE_1970;
    let cycles = since_1601 / DAYS_IN_400_YEARS;
    let in_cycle = since_1601 % DAYS_IN_400_YEARS;
    // The last day of 400 years belongs to the last century, and that of four years to the last year.
    let centuries = (in_cycle / DAYS_IN_100_YEARS).min(3);
    let in_century = in_cycle - centuries * DAYS_IN_100_YEARS;
    let fours = in_century / DAYS_IN_4_YEARS;
    let in_four = in_century - fours * DAYS_IN_4_YEARS;
    let ones = (in_four / 365).min(3);
    let year = 1601 + 400 * cycles + 100 * centuries + 4 * fours + ones;
    (year, in_four - ones * 365)
}

// What February lacks of thirty days.
fn lacks(year: u32) -> u32
    ensures { result ≡ Calendar.lacks year }
{
    if is_leap(year) { 1 } else { 2 }
}

// The month and the day of the month of a day of a year, of which so many days are over before it.
fn month_at(year: u32, over: u32) -> (u32, u32)
    requires { over < Calendar.days_in_year year }
    ensures { MonthFound year over result.0 result.1 }
{
    let late = over + lacks(year);
    if late < 61 {
        month_on_line(over)
    } else {
        month_on_line(late)
    }
}

// The same, if February has thirty days: the line is that of `days_before_month`.
fn month_on_line(over: u32) -> (u32, u32)
    requires { over < 367 }
    ensures month { result.0 ≡ (over * 12 + 373) / 367 }
    ensures day { result.1 ≡ over - (367 * result.0 - 362) / 12 + 1 }
{
    let month = (over * 12 + 373) / 367;
    (month, over - (367 * month - 362) / 12 + 1)
}

/// The date of a day from 1970-01-01 on.
#[inline]
pub(crate) fn date_of(day: u32) -> Date
    requires { day < 2932897 }
    ensures year { result.year ≡ Calendar.year_of day }
    ensures month { result.month ≡ Calendar.month_of day }
    ensures day { result.day ≡ Calendar.day_in_month day }
    ensures a_date { IsDate result.year result.month result.day }
{
    let (year, over) = year_at(day);
    let (month, day_in_month) = month_at(year, over);
    Date {
        year,
        month,
        day: day_in_month,
    }
}
