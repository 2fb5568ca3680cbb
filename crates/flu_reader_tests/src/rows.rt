//! The rows of a file.

ghost use Rattle.std.specs.Prelude.{◌<◌};

use crate::files::files_of;
use crate::tables::case_of;
use flu_model::{Text, Unit};
use flu_outside::{MemFiles, TakeFault};
use flu_parse::read_job;
use flu_rows::{Fields, ItemLists, Next, Row, RowForm, Rows, form_of};
use std::alloc::{AllocError, Global};
use std::process::Abort;
use std::test::Fail;

/// What is read of the file `f`, in short: `LINE: TIME NAME KEY FIELDS`, `LINE: beat TIME`, `LINE: end`, and then how
/// the reading ended. Each take gives at most this many bytes.
fn read_all(alloc: Global, form: &RowForm, bytes: &[u8], piece: usize) -> Result<String, Fail>
    requires { 0 < piece }
{
    let mut files = files_of(alloc, &[("f", bytes)], piece)?;
    let mut rows = rows_of(alloc, form, "f")?;
    let mut text = String::new(alloc);
    for _ in 0..20u8 {
        if !add_next(alloc, &mut rows, &mut files, &mut text)? {
            return Ok(text);
        }
    }
    Ok(text)
}

/// Rows with items that no list names, whose times may be texts under this unit.
fn with_items(alloc: Global, iso: Option<Unit>) -> Result<RowForm, AllocError> {
    Ok(RowForm::WithItems(iso, ItemLists::of(alloc, &[], &[])?))
}

fn rows_of(alloc: Global, form: &RowForm, name: &str) -> Result<Rows, AllocError> {
    Rows::new(alloc, form, &Text::of(String::from_str(alloc, name)?))
}

/// Adds what is read next; whether that is a row.
fn add_next(
    alloc: Global,
    rows: &mut Rows,
    files: &mut MemFiles,
    text: &mut String,
) -> Result<bool, Fail> {
    let next = rows.next_row(files)?;
    text.push_str(&shown(alloc, &next)?)?;
    Ok(matches!(next, Next::Row { .. }))
}

fn shown(alloc: Global, next: &Next) -> Result<String, AllocError> {
    match next {
        Next::Row { line, row } => match row {
            Row::Event {
                time,
                name,
                key,
                fields,
            } => {
                let name = name.as_str();
                let fields = shown_fields(alloc, *fields)?;
                format!(in alloc; "{line}: {time} {name} {key:?} {fields}, ")
            }
            Row::Beat(time) => format!(in alloc; "{line}: beat {time}, "),
            Row::End => format!(in alloc; "{line}: end, "),
        },
        Next::Bad { line } => format!(in alloc; "bad {line}"),
        Next::TooManyLines => format!(in alloc; "too many"),
        Next::Done { lines } => format!(in alloc; "done {lines}"),
    }
}

/// What stands behind the tag: nothing, a number as a value and perhaps as an item, an item and a value, an item by its name, the same and a value, or
/// other fields.
fn shown_fields(alloc: Global, fields: Fields) -> Result<String, AllocError> {
    match fields {
        Fields::Nothing => String::from_str(alloc, "None"),
        Fields::One { item: None, value } => format!(in alloc; "Some({value})"),
        Fields::One {
            item: Some(item),
            value,
        } => format!(in alloc; "{item} or {value}"),
        Fields::Two { item, value } => format!(in alloc; "{item} and {value}"),
        Fields::Named { item } => format!(in alloc; "named {item:?}"),
        Fields::NamedWith { item, value } => format!(in alloc; "named {item:?} and {value}"),
        Fields::Other => String::from_str(alloc, "others"),
    }
}

/// Whether the file of each line of a table is read as the line says, however many bytes a take gives. In the file a slash stands for a
/// line feed, and a percent sign for a carriage return.
fn expect_all(rt: &impl Abort, alloc: Global, form: &RowForm, table: &str) -> Result<(), Fail> {
    for line in table.split('\n') {
        let (text, wanted) = case_of(line);
        let text = text.replace(alloc, "/", "\n")?.replace(alloc, "%", "\r")?;
        for piece in [1usize, 3, 100_000] {
            let got = read_all(alloc, form, text.as_bytes(), piece)?;
            assert_eq!(rt; got.as_str(), wanted, "{piece}");
        }
    }
    Ok(())
}

/// Files with what is read of them: empty lines, rows, keys and values; names and numbers; byte order marks and line ends.
const FILES: &str = " => done 0
/ => done 1
%// => done 2
1,inc,5/\"1\",inc,5//4,inc,2,/end,,/ => 1: 1 inc None Some(5), 2: 1 inc None Some(5), 4: 4 inc None Some(2), 5: end, done 5
1,inc%/2,beat%/%/,,%/end%/ => 1: 1 inc None None, 2: beat 2, 5: end, done 5
007,inc[65535],-3/7,_a9[007] => 1: 7 inc Some(65535) Some(-3), 2: 7 _a9 Some(7) None, done 2
7,inc[65536]/ => bad 1
7,inc[]/ => bad 1
7,inc[1/ => bad 1
1,inc/x,inc,1/2,inc => 1: 1 inc None None, bad 2
1,inc,+1/ => bad 1
1,9inc/ => bad 1
1,sum/ => bad 1
1,end/ => bad 1
1,beat,5/ => bad 1
1,inc,5,6/ => bad 1
end,1,, => bad 1
9223372036854775807,beat/ => 1: beat 9223372036854775807, done 1
9223372036854775808,beat/ => bad 1
1,a,-9223372036854775808 => 1: 1 a None Some(-9223372036854775808), done 1
1,a,-9223372036854775809 => bad 1
1,a,9223372036854775807 => 1: 1 a None Some(9223372036854775807), done 1
1,a,9223372036854775808 => bad 1
1,abcdefghijklmnopqrstuvwxyz012345 => 1: 1 abcdefghijklmnopqrstuvwxyz012345 None None, done 1
1,abcdefghijklmnopqrstuvwxyz0123456 => bad 1
\u{feff}end/end/ => 1: end, 2: end, done 2
\u{feff}\u{feff}end/ => bad 1
end/\u{feff}end/ => 1: end, bad 2
1,\"inc/2,inc\"/ => 1: 1 inc None None, bad 2
1,inc%2,inc/ => bad 1
1,inc/2,inc[5],-1/3,incs/4,inc/5,in/6,in[7]/7,inc => 1: 1 inc None None, 2: 2 inc Some(5) Some(-1), 3: 3 incs None None, 4: 4 inc None None, 5: 5 in None None, 6: 6 in Some(7) None, 7: 7 inc None None, done 7
1,inc/2,\"inc\"/3,inc-/4,inc => 1: 1 inc None None, 2: 2 inc None None, bad 3
1,inc/2,inc[/3,inc => 1: 1 inc None None, bad 2
1,su/2,sum => 1: 1 su None None, bad 2
1,abcdefghijklmnopqrstuvwxyz012345/2,abcdefghijklmnopqrstuvwxyz012345/3,abcdefghijklmnopqrstuvwxyz0123456 => 1: 1 abcdefghijklmnopqrstuvwxyz012345 None None, 2: 2 abcdefghijklmnopqrstuvwxyz012345 None None, bad 3
1,inc%%/%%/end => 1: 1 inc None None, 3: end, done 3
\"1\",\"in\"c/1,in\"c/ => 1: 1 inc None None, bad 2";

#[test]
fn reads_rows(rt: HostRuntime) -> Result<(), Fail> {
    expect_all(&rt, rt.alloc(), &RowForm::Older, FILES)
}

/// Files of rows with items: those that are read as before, those of three and four fields, and lines that are none.
const ITEMS: &str = "1,inc/2,beat/end/ => 1: 1 inc None None, 2: beat 2, 3: end, done 3
1,inc,5/2,inc,-5/3,inc,65535/4,inc,65536/5,inc,007 => 1: 1 inc None 5 or 5, 2: 2 inc None Some(-5), 3: 3 inc None 65535 or 65535, 4: 4 inc None Some(65536), 5: 5 inc None 7 or 7, done 5
1,inc[3],5,-6/2,inc,\"65535\",7/3,inc,5,6%/ => 1: 1 inc Some(3) 5 and -6, 2: 2 inc None 65535 and 7, 3: 3 inc None 5 and 6, done 3
1,inc,x/2,inc,65536,1/3,inc,-1,1/4,inc,1,x/5,inc,,1 => 1: 1 inc None others, 2: 2 inc None others, 3: 3 inc None others, 4: 4 inc None others, 5: 5 inc None others, done 5
1,inc,9223372036854775808/2,inc,1,-9223372036854775808 => 1: 1 inc None others, 2: 2 inc None 1 and -9223372036854775808, done 2
1,inc,1,2,3 => bad 1
1,inc,1,2,,/1,inc,,, => 1: 1 inc None 1 and 2, 2: 1 inc None None, done 2
1,beat,5 => bad 1
1,beat,5,6 => bad 1
x,inc,1,2 => bad 1
1,sum,1,2 => bad 1
end,1 => bad 1";

#[test]
fn reads_rows_with_items(rt: HostRuntime) -> Result<(), Fail> {
    let form = with_items(rt.alloc(), None)?;
    expect_all(&rt, rt.alloc(), &form, ITEMS)
}

/// A job of which one kind's items have names.
const NAMED: &str =
    "version 3 names towns: \"mill\", \"market hall\", \"7\", \"\u{e9}\" tag ride item by towns int tag hit item int";

/// Files of rows of its kinds: names with quotes and without, as the csv fields that they are, and numbers of the other kind.
const NAMES: &str =
    "1,ride,mill/2,ride,market hall,-5/3,ride,7,7/4,hit,7,7/5,hit,mill => 1: 1 ride None named Some(0), 2: 2 ride None named Some(1) and -5, 3: 3 ride None named Some(2) and 7, 4: 4 hit None 7 and 7, 5: 5 hit None others, done 5
1,ride,\"mill\",1%/2,ride,\"7\"/3,\"ride\",\"\u{e9}\",\"4\"/4,ride,\u{e9},5 => 1: 1 ride None named Some(0) and 1, 2: 2 ride None named Some(2), 3: 3 ride None named Some(3) and 4, 4: 4 ride None named Some(3) and 5, done 4
1,ride,Mill,1/2,ride,07/3,ride, mill,1/4,ride,,1/5,ride,\"\",1/6,ride,mill,x/7,ride,/8,ride[2],mill => 1: 1 ride None named None and 1, 2: 2 ride None named None, 3: 3 ride None named None and 1, 4: 4 ride None named None and 1, 5: 5 ride None named None and 1, 6: 6 ride None others, 7: 7 ride None None, 8: 8 ride Some(2) named Some(0), done 8
1,ride,mi\"ll/2,ride,\"mi\"\"ll\",4/3,other,mill => 1: 1 ride None named None, 2: 2 ride None named None and 4, 3: 3 other None others, done 3
1,ride,mill,1,2 => bad 1";

#[test]
fn reads_rows_with_names(rt: HostRuntime) -> Result<(), Fail> {
    let p = read_job(rt.alloc(), NAMED.as_bytes())?;
    let form = form_of(rt.alloc(), &p)?;
    expect_all(&rt, rt.alloc(), &form, NAMES)
}

/// Files of rows without a unit, in which a text is no time.
const TEXTS_WITHOUT_A_UNIT: &str = "1,inc/2026-03-02T08:05:00Z,inc => 1: 1 inc None None, bad 2
2026-03-02 08:05:00,inc => bad 1
253402300800,inc => 1: 253402300800 inc None None, done 1";

#[test]
fn texts_are_no_times_without_a_unit(rt: HostRuntime) -> Result<(), Fail> {
    expect_all(&rt, rt.alloc(), &RowForm::Older, TEXTS_WITHOUT_A_UNIT)?;
    let form = with_items(rt.alloc(), None)?;
    expect_all(&rt, rt.alloc(), &form, TEXTS_WITHOUT_A_UNIT)
}

/// Files of rows whose times count seconds, which are those that `date -u` gives: each form of a time and of a row, quotes, the first and the
/// last time, leap days, and texts and numbers that are no time.
const SECONDS: &str =
    "2026-03-02T08:05:00Z,inc/2026-03-02 08:05:01,inc/2026-03-02T08:05:02.999,inc/1772438703,inc/end/ => 1: 1772438700 inc None None, 2: 1772438701 inc None None, 3: 1772438702 inc None None, 4: 1772438703 inc None None, 5: end, done 5
2026-03-02 08:05:00,inc,-5/2026-03-02 08:05:01,inc[3],5,-6%/2026-03-02 08:05:02Z,beat%/2026-03-02T08:05:03,inc,x,,/ => 1: 1772438700 inc None Some(-5), 2: 1772438701 inc Some(3) 5 and -6, 3: beat 1772438702, 4: 1772438703 inc None others, done 4
\"2026-03-02 08:05:00\",inc/\"2026-03-02T08:05:01Z\",\"beat\"/\"2026-03-02T08:05:02.5\",inc,7/\"1772438703\",inc => 1: 1772438700 inc None None, 2: beat 1772438701, 3: 1772438702 inc None 7 or 7, 4: 1772438703 inc None None, done 4
\u{feff}1970-01-01T00:00:00Z,inc/9999-12-31T23:59:59.999999999Z,inc => 1: 0 inc None None, 2: 253402300799 inc None None, done 2
0,inc/00253402300799,inc/253402300799,beat => 1: 0 inc None None, 2: 253402300799 inc None None, 3: beat 253402300799, done 3
253402300800,inc => bad 1
253402300800,beat => bad 1
253402300800,inc,5 => bad 1
253402300800,inc,5,6 => bad 1
\"253402300800\",inc => bad 1
9223372036854775807,inc => bad 1
2024-02-29 00:00:00,inc/2000-02-29T23:59:59,inc => 1: 1709164800 inc None None, 2: 951868799 inc None None, done 2
2026-02-29 00:00:00,inc => bad 1
2100-02-29 00:00:00,beat => bad 1
1969-12-31T23:59:59Z,inc => bad 1
10000-01-01T00:00:00Z,inc => bad 1
2026-13-01 00:00:00,inc => bad 1
2026-03-02 24:00:00,inc,1 => bad 1
2026-03-02 23:59:60,inc,1,2 => bad 1
2026-03-02  08:05:00,inc => bad 1
2026-03-02T08:05:00+01:00,inc => bad 1
2026-03-02T08:05:00.,inc => bad 1
2026-03-02T08:05:00.1234567890,inc => bad 1
2026-03-02T08:05:00ZZ,inc => bad 1
2026-03-02 08:05,inc => bad 1
2026-03-02,inc => bad 1
-1,inc => bad 1
 2026-03-02 08:05:00,inc => bad 1
2026-03-02 08:05:00,sum => bad 1
2026-03-02 08:05:00,beat,5 => bad 1
2026-03-02 08:05:00 => bad 1
2026-03-02T08:05:00,inc/2026-03-02T08:05:xx,inc/end => 1: 1772438700 inc None None, bad 2
end => 1: end, done 1";

/// The same where times count milliseconds, and where they count microseconds.
const MILLISECONDS: &str =
    "2026-03-02T08:05:00Z,inc/2026-03-02 08:05:00.25,beat/2026-03-02 08:05:00.0019,inc => 1: 1772438700000 inc None None, 2: beat 1772438700250, 3: 1772438700001 inc None None, done 3
9999-12-31T23:59:59.999999999Z,inc/253402300799999,inc => 1: 253402300799999 inc None None, 2: 253402300799999 inc None None, done 2
253402300800000,inc => bad 1";

const MICROSECONDS: &str =
    "2026-03-02T08:05:00Z,inc/2026-03-02 08:05:00.25,beat/2026-03-02 08:05:00.0000019,inc => 1: 1772438700000000 inc None None, 2: beat 1772438700250000, 3: 1772438700000001 inc None None, done 3
9999-12-31T23:59:59.999999999Z,inc/253402300799999999,inc => 1: 253402300799999999 inc None None, 2: 253402300799999999 inc None None, done 2
253402300800000000,inc => bad 1";

#[test]
fn reads_times_as_text(rt: HostRuntime) -> Result<(), Fail> {
    for (unit, table) in [
        (Unit::Seconds, SECONDS),
        (Unit::Milliseconds, MILLISECONDS),
        (Unit::Microseconds, MICROSECONDS),
    ] {
        let form = with_items(rt.alloc(), Some(unit))?;
        expect_all(&rt, rt.alloc(), &form, table)?;
    }
    Ok(())
}

/// A line of this many bytes that is a row, with a line feed or without one.
fn long_line(alloc: Global, len: u16, fed: bool) -> Result<Vec<u8>, AllocError> {
    let mut line = Vec::new(alloc);
    for _ in 6..len {
        line.push(b'0')?;
    }
    line.extend_from_slice(b"1,beat")?;
    if fed {
        line.push(b'\n')?;
    }
    Ok(line)
}

#[test]
fn reads_lines_of_4096_bytes(rt: HostRuntime) -> Result<(), Fail> {
    for (len, wanted) in [(4096, "1: beat 1, done 1"), (4097, "bad 1")] {
        for fed in [true, false] {
            for piece in [1usize, 5000] {
                let line = long_line(rt.alloc(), len, fed)?;
                let got = read_all(rt.alloc(), &RowForm::Older, &line, piece)?;
                assert_eq!(rt; got.as_str(), wanted, "{fed} {piece}");
            }
        }
    }
    Ok(())
}

#[test]
fn tells_a_fault(rt: HostRuntime) -> Result<(), Fail> {
    let mut files = files_of(rt.alloc(), &[("f", b"1,inc\n2,inc\n")], 3)?;
    files.fail_at(4)?;
    let mut rows = rows_of(rt.alloc(), &RowForm::Older, "f")?;
    assert_eq!(rt; rows.next_row(&mut files).is_ok(), true);
    assert_eq!(rt; rows.next_row(&mut files).err(), Some(TakeFault::Failed));
    Ok(())
}

#[test]
fn a_missing_file_is_a_fault(rt: HostRuntime) -> Result<(), Fail> {
    let mut files = files_of(rt.alloc(), &[], 3)?;
    let mut rows = rows_of(rt.alloc(), &RowForm::Older, "missing")?;
    assert_eq!(rt; rows.next_row(&mut files).err(), Some(TakeFault::Failed));
    Ok(())
}
