//! Times as text, with the seconds that `date -u` gives.

use flu_calendar::{Unit, push_time, read_time, times_end};
use std::test::Fail;

#[test]
fn texts_say_the_seconds_that_date_gives(rt: HostRuntime) -> Result<(), Fail> {
    let cases: [(&str, u64); 10] = [
        ("1970-01-01T00:00:00Z", 0),
        ("1972-02-29T23:59:59Z", 68_255_999),
        ("2000-02-29 00:00:00", 951_782_400),
        ("2024-12-31T12:34:56Z", 1_735_648_496),
        ("2026-03-02T08:05:00Z", 1_772_438_700),
        ("2026-03-02 08:05:00Z", 1_772_438_700),
        ("2100-02-28T23:59:59Z", 4_107_542_399),
        ("2100-03-01T00:00:00Z", 4_107_542_400),
        ("9999-12-31T23:59:59Z", 253_402_300_799),
        ("9999-12-31T23:59:59.999999999", 253_402_300_799),
    ];
    for (text, seconds) in cases {
        assert_eq!(rt;
            read_time(Unit::Seconds, text.as_bytes()),
            Some(seconds),
            "{text}"
        );
    }
    Ok(())
}

#[test]
fn fractions_are_cut_to_the_unit(rt: HostRuntime) -> Result<(), Fail> {
    let cases: [(&str, u64, u64); 6] = [
        ("1970-01-01T00:00:01", 1_000, 1_000_000),
        ("1970-01-01T00:00:01.5", 1_500, 1_500_000),
        ("1970-01-01T00:00:01.5Z", 1_500, 1_500_000),
        ("1970-01-01T00:00:01.025Z", 1_025, 1_025_000),
        ("1970-01-01T00:00:01.000999Z", 1_000, 1_000_999),
        ("1970-01-01T00:00:01.123456789", 1_123, 1_123_456),
    ];
    for (text, milliseconds, microseconds) in cases {
        assert_eq!(rt;
            read_time(Unit::Milliseconds, text.as_bytes()),
            Some(milliseconds),
            "{text}"
        );
        assert_eq!(rt;
            read_time(Unit::Microseconds, text.as_bytes()),
            Some(microseconds),
            "{text}"
        );
    }
    Ok(())
}

#[test]
fn other_texts_say_no_time(rt: HostRuntime) -> Result<(), Fail> {
    let texts: [&str; 20] = [
        "",
        "2026-03-02",
        "2026-03-02T08:05",
        "2026-3-2T08:05:00Z",
        "1969-12-31T23:59:59Z",
        "2026-00-02T08:05:00Z",
        "2026-13-02T08:05:00Z",
        "2026-03-00T08:05:00Z",
        "2023-02-29T08:05:00Z",
        "2024-02-30T08:05:00Z",
        "2100-02-29T08:05:00Z",
        "2026-04-31T08:05:00Z",
        "2026-03-02T24:00:00Z",
        "2026-03-02T23:60:00Z",
        "2026-06-30T23:59:60Z",
        "2026-03-02t08:05:00Z",
        "2026-03-02T08:05:00z",
        "2026-03-02T08:05:00.Z",
        "2026-03-02T08:05:00.1234567890Z",
        "2026-03-02T08:05:00+01:00",
    ];
    for text in texts {
        assert_eq!(rt; read_time(Unit::Seconds, text.as_bytes()), None, "{text}");
    }
    Ok(())
}

#[test]
fn times_are_printed_as_date_prints_them(rt: HostRuntime) -> Result<(), Fail> {
    let cases: [(Unit, u64, &str); 8] = [
        (Unit::Seconds, 0, "at 1970-01-01T00:00:00Z"),
        (Unit::Seconds, 951_782_400, "at 2000-02-29T00:00:00Z"),
        (Unit::Seconds, 1_735_648_496, "at 2024-12-31T12:34:56Z"),
        (Unit::Seconds, 4_107_542_400, "at 2100-03-01T00:00:00Z"),
        (Unit::Seconds, 253_402_300_799, "at 9999-12-31T23:59:59Z"),
        (
            Unit::Milliseconds,
            68_255_999_007,
            "at 1972-02-29T23:59:59.007Z",
        ),
        (
            Unit::Microseconds,
            68_255_999_000_070,
            "at 1972-02-29T23:59:59.000070Z",
        ),
        (
            Unit::Microseconds,
            253_402_300_799_999_999,
            "at 9999-12-31T23:59:59.999999Z",
        ),
    ];
    for (unit, time, printed) in cases {
        let mut text = String::new(rt.alloc());
        text.push_str("at ")?;
        if time < times_end(unit) {
            push_time(&mut text, unit, time)?;
        }
        assert_eq!(rt; text.as_str(), printed);
    }
    Ok(())
}
