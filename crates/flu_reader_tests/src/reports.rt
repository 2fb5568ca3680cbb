//! The lines of a report.

use flu_model::{Out, Outs, Tag, Text};
use flu_parse::read_job;
use flu_report::report_text;
use std::alloc::{AllocError, Global};
use std::test::Fail;

/// Three kinds, the first of which is keyed.
const JOB: &str = "tag view keyed int tag tick int tag tic int";

#[test]
fn lines_are_sorted(rt: HostRuntime) -> Result<(), Fail> {
    // time, kind, key, text
    let cases: [&[(u64, u32, u32, &str)]; 5] = [
        &[],
        &[(10, 1, 0, "b"), (9, 1, 0, "a"), (100, 2, 0, "")],
        &[
            (5, 0, 3, "x"),
            (5, 0, 10, "x"),
            (5, 1, 0, "x"),
            (5, 2, 0, "x"),
        ],
        &[
            (7, 1, 0, "b"),
            (7, 1, 0, "ab"),
            (7, 1, 0, "a,b"),
            (7, 1, 0, "b"),
        ],
        &[
            (3, 1, 0, "z"),
            (3, 2, 0, "zz"),
            (18446744073709551615, 0, 0, "z"),
        ],
    ];
    let wanted = [
        "",
        "9,tick,a\n10,tick,b\n100,tic,\n",
        "5,tic,x\n5,tick,x\n5,view[10],x\n5,view[3],x\n",
        "7,tick,a,b\n7,tick,ab\n7,tick,b\n7,tick,b\n",
        "3,tic,zz\n3,tick,z\n18446744073709551615,view[0],z\n",
    ];
    let p = read_job(rt.alloc(), JOB.as_bytes())?;
    for (rows, wanted) in cases.into_iter().zip(wanted) {
        let report = report_text(rt.alloc(), &p, outs_of(rt.alloc(), rows)?)?;
        assert_eq!(rt; report.as_str(), wanted);
    }
    Ok(())
}

fn outs_of(alloc: Global, rows: &[(u64, u32, u32, &str)]) -> Result<Outs, AllocError> {
    let mut outs = Outs::of(Vec::new(alloc));
    for (time, kind, key, text) in rows {
        outs.push(Out {
            time: *time,
            tag: Tag {
                kind: *kind,
                key: *key,
            },
            text: Text::of(String::from_str(alloc, text)?),
        })?;
    }
    Ok(outs)
}

#[test]
fn times_are_shown_by_the_unit(rt: HostRuntime) -> Result<(), Fail> {
    // what the job begins with, and the report
    let cases = [
        (
            "",
            "1772438700,tick,x\n1772438700,view[3],x\n253402300800,tick,z\n1709210096007,tick,y\n",
        ),
        (
            "version 3 ",
            "1772438700,tick,x\n1772438700,view[3],x\n253402300800,tick,z\n1709210096007,tick,y\n",
        ),
        (
            "version 3 iso seconds ",
            "2026-03-02T08:05:00Z,tick,x\n2026-03-02T08:05:00Z,view[3],x\n253402300800,tick,z\n1709210096007,tick,y\n",
        ),
        (
            "version 3 iso milliseconds ",
            "1970-01-21T12:20:38.700Z,tick,x\n1970-01-21T12:20:38.700Z,view[3],x\n1978-01-11T21:31:40.800Z,tick,z\n\
             2024-02-29T12:34:56.007Z,tick,y\n",
        ),
        (
            "version 3 iso microseconds ",
            "1970-01-01T00:29:32.438700Z,tick,x\n1970-01-01T00:29:32.438700Z,view[3],x\n1970-01-03T22:23:22.300800Z,tick,z\n\
             1970-01-20T18:46:50.096007Z,tick,y\n",
        ),
    ];
    let rows = [
        (253_402_300_800, 1, 0, "z"),
        (1_709_210_096_007, 1, 0, "y"),
        (1_772_438_700, 0, 3, "x"),
        (1_772_438_700, 1, 0, "x"),
    ];
    for (head, wanted) in cases {
        let text = format!(in rt.alloc(); "{head}{JOB}")?;
        let p = read_job(rt.alloc(), text.as_bytes())?;
        let report = report_text(rt.alloc(), &p, outs_of(rt.alloc(), &rows)?)?;
        assert_eq!(rt; report.as_str(), wanted);
    }
    Ok(())
}
