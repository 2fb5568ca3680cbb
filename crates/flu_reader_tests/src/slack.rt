//! Sources whose rows may be late.

use crate::outcomes::outcome;
use crate::tables::case_of;
use flu_model::Program;
use flu_parse::read_job;
use std::alloc::{AllocError, Global};
use std::test::Fail;

/// A count that two sources add to, the first of which has this slack, and a third reads.
fn job(alloc: Global, slack: &str) -> Result<String, AllocError> {
    format!(in alloc;
        "cell count sum\ntag inc int\ntag read none\ndepends inc read\ndepends read read\non inc: add count value\non read: emit \"count {{count}}\"; clear count\nsource a \"a.csv\" rate 1 slack {slack}: inc\nsource b \"b.csv\": inc\nsource c \"c.csv\": read\n"
    )
}

/// The report of the job if these rows are in the file of the first source, or the fault of its sources.
fn outcome_of(alloc: Global, p: &Program, rows: &str) -> Result<String, AllocError> {
    let named: [(&str, &[u8]); 3] = [
        ("a.csv", rows.as_bytes()),
        ("b.csv", b"2,inc,7\nend\n"),
        ("c.csv", b"3,read\n5,read\nend\n"),
    ];
    outcome(alloc, p, &named)
}

/// The same on one line, with a slash for each line feed, in the rows and in the answer.
fn told_of(alloc: Global, slack: &str, rows: &str) -> Result<String, Fail> {
    let p = read_job(alloc, job(alloc, slack)?.as_bytes())?;
    let rows = rows.replace(alloc, "/", "\n")?;
    let got = outcome_of(alloc, &p, rows.as_str())?;
    let told = got.replace(alloc, "\n", "/")?;
    Ok(told)
}

/// A slack, the rows of the source that has it, with a slash for each line feed, and the report or the fault. A late row is compared
/// with all times above the settled one, and not only with the last; and there are late heartbeats, and what is settled by one.
const CASES: &str = "4: 4,inc,2/1,inc,5/end/ => 3,read,count 12/5,read,count 2/
3: 4,inc,2/1,inc,5/end/ => 0 2 Disordered { last: 4, got: 1 }
4: 4,inc,2/4,inc,5/end/ => 0 2 Disordered { last: 4, got: 4 }
0: 4,inc,2/3,inc,5/end/ => 0 2 Disordered { last: 4, got: 3 }
9: 4,inc,2/1,inc,5/8,beat/1,inc,3/end/ => 0 4 Disordered { last: 8, got: 1 }
60000: 9,beat/4,inc,1/0,inc,5/7,beat/2,inc,0/5,inc,3/6,beat/end/ => 3,read,count 12/5,read,count 4/
2: 4,beat/3,beat/4,inc,1/end/ => 0 3 Disordered { last: 4, got: 4 }
2: 4,beat/2,inc,1/end/ => 0 2 Disordered { last: 4, got: 2 }";

#[test]
fn late_rows_are_sorted(rt: HostRuntime) -> Result<(), Fail> {
    let alloc = rt.alloc();
    for line in CASES.split('\n') {
        let (case, wanted) = case_of(line);
        let (slack, rows) = case.split_once(": ").unwrap_or((case, ""));
        let got = told_of(alloc, slack, rows)?;
        assert_eq!(rt; got.as_str(), wanted, "{rows}");
    }
    Ok(())
}

/// A job whose report has a line for each row of its source.
const SHOWN: &str = "tag inc int on inc: emit \"{value}\" source a \"a.csv\" slack 60: inc";

/// Rows whose times fall within each of some blocks of this many, and rise from block to block, and then others.
fn falling(alloc: Global, blocks: u32, size: u32, then: &str) -> Result<String, AllocError> {
    let mut rows = String::new(alloc);
    let mut end: u32 = 0;
    for _ in 0..blocks {
        end = end.saturating_add(size);
        for back in 0..size {
            let time = end.saturating_sub(1).saturating_sub(back);
            let row = format!(in alloc; "{time},inc,{value}\n", value = time % 7)?;
            rows.push_str(row.as_str())?;
        }
    }
    rows.push_str(then)?;
    rows.push_str("end\n")?;
    Ok(rows)
}

/// Blocks of falling rows give the report of the same rows in order; and one that falls too low, and a time that was read before, are
/// refused where they are.
#[test]
fn falling_rows_are_sorted(rt: HostRuntime) -> Result<(), Fail> {
    let alloc = rt.alloc();
    let p = read_job(alloc, SHOWN.as_bytes())?;
    let ordered = outcome_of(alloc, &p, falling(alloc, 300, 1, "")?.as_str())?;
    assert!(rt; ordered.starts_with("0,inc,0\n1,inc,1\n"), "{ordered}");
    for (blocks, size) in [(150, 2), (100, 3), (6, 50), (5, 60)] {
        let got = outcome_of(alloc, &p, falling(alloc, blocks, size, "")?.as_str())?;
        assert_eq!(rt; got.as_str(), ordered.as_str(), "{size}");
    }
    let low = outcome_of(alloc, &p, falling(alloc, 3, 100, "")?.as_str())?;
    assert_eq!(rt; low.as_str(), "0 61 Disordered { last: 99, got: 39 }");
    let again = outcome_of(alloc, &p, falling(alloc, 5, 60, "270,inc,1\n")?.as_str())?;
    assert_eq!(rt; again.as_str(), "0 301 Disordered { last: 299, got: 270 }");
    Ok(())
}
