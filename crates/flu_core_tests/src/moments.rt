//! Moments and ticks, by a table of calls.

use flu_moments::{Moments, Ticks};
use std::alloc::{AllocError, Global};
use std::test::Fail;

/// The sources and the ties of a numbering, a call with its numbers, and behind an arrow what it gives, which is nothing where the call is
/// not allowed or gives none. Moments are told by time, source and place; ticks and their count by the period, the clock, and the first and the
/// last moment. With two sources and two rows at a time, the row at 3 of source 0 has the moment 12, its second one at 10 has 41, and the
/// rows at 3 and 10 of source 1 have 14 and 42.
const CALLS: &str = "0 1 greatest =>
1 0 greatest =>
1 1 greatest => 9223372036854775807
3 2 greatest => 1537228672809129300
4294967296 2147483648 greatest => 0
4294967296 2147483649 greatest =>
18446744073709551615 18446744073709551615 greatest =>
3 2 moment 0 0 0 => 0
3 2 moment 0 0 1 => 1
3 2 moment 0 1 0 => 2
3 2 moment 0 2 1 => 5
3 2 moment 1 0 0 => 6
3 2 moment 5 1 1 => 33
3 2 moment 1537228672809129300 2 1 => 9223372036854775805
3 2 moment 5 3 0 =>
3 2 moment 5 0 2 =>
1 1 moment 7 0 0 => 7
3 2 time 33 => 5
3 2 source 33 => 1
3 2 place 33 => 1
3 2 border 0 => 5
3 2 border 5 => 35
1 1 border 7 => 7
2 2 next 1 1 9223372036854775804 => 2305843009213693951
2 2 next 10 1 9223372036854775804 =>
2 2 next 1 1 9223372036854775807 =>
2 2 next 18446744073709551615 1 0 => 0
2 2 next 18446744073709551615 1 4 =>
2 2 count 10 1 12 41 => 1
2 2 count 10 0 14 42 => 2
2 2 count 10 1 0 100 => 4
2 2 count 10 1 0 9223372036854775804 =>
2 2 ticks 10 1 12 41 => 10
2 2 ticks 10 0 14 42 => 10 20
2 2 ticks 10 1 0 100 => 0 10 20 30
2 2 between 10 1 0 100 => 0 10 20
2 2 between 10 1 2 42 => 10
2 2 between 10 1 42 41 =>
1 1 between 18446744073709551615 0 5 9223372036854775807 =>
2 2 inside 10 1 0 100 5 25 => 10 20
2 2 inside 10 1 0 100 0 30 => 10 20 30
2 2 inside 10 1 0 100 29 18446744073709551615 => 30
2 2 inside 10 1 0 100 30 99 =>
2 2 inside 10 1 0 100 11 19 =>
2 2 at 10 1 0 100 3 => 30
2 2 at 10 1 0 100 4 =>";

/// The numbers of a call, and 0 behind the last one.
fn numbers(words: &str) -> [u64; 6] {
    let mut numbers = [0; 6];
    let mut count = 0;
    for word in words.split(' ') {
        if count < 6 {
            numbers[count] = word.parse::<u64>().unwrap_or(0);
            count += 1;
        }
    }
    numbers
}

fn number_of(m: Moments, call: &str, numbers: [u64; 6]) -> Option<u64> {
    let [a, b, c, d, e, _] = numbers;
    match call {
        "greatest" => Some(m.greatest_time()),
        "moment" if a <= m.greatest_time() && b < m.sources && c < m.ties => Some(m.moment(
            a, b, c,
        )),
        "time" => Some(m.time_of(a)),
        "source" => Some(m.source_of(a)),
        "place" => Some(m.place_of(a)),
        "border" if a <= m.greatest_time() => Some(m.border(a)),
        "next" if a > 0 && b < m.sources && c < 1 << 63 => m.next_tick(a, b, c),
        "count" if a > 0 && b < m.sources && c <= d && d < 1 << 63 => m.count_of_ticks(a, b, c, d),
        "at" if a > 0 && b < m.sources && c <= d && d < 1 << 63 => m.ticks(a, b, c, d)?.get(e),
        _ => None,
    }
}

fn ticks_of(m: Moments, call: &str, numbers: [u64; 6]) -> Option<Ticks> {
    let [a, b, c, d, e, f] = numbers;
    if a == 0 || b >= m.sources || c >= 1 << 63 || d >= 1 << 63 {
        return None;
    }
    match call {
        "ticks" if c <= d => m.ticks(a, b, c, d),
        "between" => Some(m.ticks_between(a, b, c, d)),
        "inside" if c <= d => m.ticks_inside(a, b, c, d, Some(e), Some(f)),
        _ => None,
    }
}

/// What a call gives: a number, or the first ticks with blanks between them.
fn told(alloc: Global, m: Moments, call: &str, numbers: [u64; 6]) -> Result<String, AllocError> {
    let mut text = String::new(alloc);
    if let Some(number) = number_of(m, call, numbers) {
        write!(text, "{number}")?;
    }
    if let Some(mut ticks) = ticks_of(m, call, numbers) {
        for place in 0..7 {
            let Some(time) = ticks.next() else {
                return Ok(text);
            };
            let blank = if place > 0 { " " } else { "" };
            write!(text, "{blank}{time}")?;
        }
    }
    Ok(text)
}

#[test]
fn moments_and_ticks_are_those_of_the_table(rt: HostRuntime) -> Result<(), Fail> {
    for line in CALLS.split('\n') {
        let (left, wanted) = line.split_once(" =>").unwrap_or((line, ""));
        let (sources, rest) = left.split_once(' ').unwrap_or((left, ""));
        let (ties, rest) = rest.split_once(' ').unwrap_or((rest, ""));
        let (call, words) = rest.split_once(' ').unwrap_or((rest, ""));
        let made = Moments::new(sources.parse::<u64>()?, ties.parse::<u64>()?);
        let text = match made {
            Some(m) => told(rt.alloc(), m, call, numbers(words))?,
            None => String::new(rt.alloc()),
        };
        assert_eq!(rt; text.as_str(), wanted.trim(), "{line}");
    }
    Ok(())
}
