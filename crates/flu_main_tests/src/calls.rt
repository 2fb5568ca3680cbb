//! Calls over real files: a fold, partials and what is combined of them, help and the version.

use flu_adapt::{HostFiles, HostSink};
use flu_main::{HELP, VERSION, answer};
use std::io::Write;
use std::process::Abort;
use std::sync::Wait;
use std::test::Fail;
use std::thread::Threads;
use std::{fs, rt};

/// Answers words over the files of the system, and writers of any kind.
pub fn run<R: rt::Files + AllocGlobal + Threads + Wait + Sync, O: Write + Drop, E: Write + Drop>(
    rt: &R,
    words: &[String],
    out: O,
    err: E,
) -> u8 {
    let ended = answer(
        rt,
        words,
        &mut HostFiles::new(rt),
        &mut HostSink::new(out),
        &mut HostSink::new(err),
    );
    ended.status().code()
}

/// What a call answers, and what it writes.
fn call<R: rt::Files + AllocGlobal + Threads + Wait + Sync>(
    rt: &R,
    words: &[&str],
) -> Result<(u8, Vec<u8>, Vec<u8>), Fail> {
    let mut owned = Vec::new(rt.alloc());
    for word in words {
        owned.push(String::from_str(rt.alloc(), word)?)?;
    }
    let mut out = Vec::new(rt.alloc());
    let mut err = Vec::new(rt.alloc());
    let status = run(rt, &owned, &mut out, &mut err);
    Ok((status, out, err))
}

/// Compares the status of a call, and what it writes to out and err.
fn expect<R: rt::Files + AllocGlobal + Threads + Wait + Sync + Abort>(
    rt: &R,
    words: &[&str],
    report: &str,
    line: &str,
    wanted: u8,
) -> Result<(), Fail> {
    let (status, out, err) = call(rt, words)?;
    assert_eq!(rt; status, wanted, "{words:?}");
    assert_eq!(rt; out.as_slice(), report.as_bytes());
    assert_eq!(rt; err.as_slice(), line.as_bytes());
    Ok(())
}

/// Writes a call's report to a file.
fn keep<R: rt::Files + AllocGlobal + Threads + Wait + Sync + Abort>(
    rt: &R,
    words: &[&str],
    name: &str,
) -> Result<(), Fail> {
    let (status, out, err) = call(rt, words)?;
    assert_eq!(rt; status, 0, "{words:?}");
    assert!(rt; err.is_empty());
    fs::write(rt, name, out.as_slice())?;
    Ok(())
}

fn write_files<R: rt::Files + AllocGlobal>(rt: &R, files: &[(&str, &str)]) -> Result<(), Fail> {
    for (name, text) in files {
        fs::write(rt, name, *text)?;
    }
    Ok(())
}

const COUNTS: &str = "cell count sum\n\
    tag inc int\n\
    tag read none\n\
    depends inc read\n\
    depends read read\n\
    on inc: add count value\n\
    on read: emit \"count {count}\"; clear count\n\
    source a \"a.csv\" rate 1000: inc\n\
    source b \"b.csv\" rate 1000: inc\n\
    source c \"c.csv\" rate 1: read\n";

const PLAN: &str = "node root: read -> left right\nnode left: inc@a\nnode right: inc@b\n";

const FILES: [(&str, &str); 5] = [
    ("counts.job", COUNTS),
    ("parted.plan", PLAN),
    ("a.csv", "1,inc,5\n4,inc,2\nend\n"),
    ("b.csv", "2,inc,7\nend\n"),
    ("c.csv", "3,read\n5,read\nend\n"),
];

const REPORT: &str = "3,read,count 12\n5,read,count 2\n";

#[test]
fn two_sources_add_and_a_third_reads(rt: HostRuntime) -> Result<(), Fail> {
    write_files(&rt, &FILES)?;
    expect(&rt, &["fold", "counts.job"], REPORT, "", 0)
}

#[test]
fn partials_of_two_nodes_are_combined(rt: HostRuntime) -> Result<(), Fail> {
    write_files(&rt, &FILES)?;
    for node in ["left", "right"] {
        keep(&rt, &["partial", "counts.job", "parted.plan", node], node)?;
    }
    // the command, its last two words, and what it writes to out and err
    let bad = "flumina: bad words at 4\n";
    let same = "flumina: partial a.csv: same as source a\n";
    let cases = [
        ("combine", "left", "right", REPORT, "", 0),
        ("combine", "right", "a.csv", "", same, 14),
        ("combine", "right", "right", "", bad, 2),
        ("partial", "left", "right", "", bad, 2),
    ];
    for (command, first, second, report, line, wanted) in cases {
        let words = [command, "counts.job", "parted.plan", first, second];
        expect(&rt, &words, report, line, wanted)?;
    }
    Ok(())
}

#[test]
fn help_and_version_are_words_of_their_own(rt: HostRuntime) -> Result<(), Fail> {
    let cases = [
        ("--help", HELP, "", 0),
        ("--version", VERSION, "", 0),
        ("-h", HELP, "", 0),
        ("-v", "", "flumina: bad words at 0\n", 2),
    ];
    for (word, text, line, wanted) in cases {
        expect(&rt, &[word], text, line, wanted)?;
    }
    Ok(())
}
