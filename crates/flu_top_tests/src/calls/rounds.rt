//! Runs of a source with more rows than a round takes: what out has if a later round fails.

use super::jobs::{COUNTED, END};
use super::{SOUND, Settings, Words, assert_left, call_with, files_of, put, set_takes};
use flu_outside::MemFiles;
use flu_seq::OpenGate;
use std::alloc::{AllocError, Global};
use std::process::Abort;
use std::sync::Wait;
use std::test::Fail;
use std::thread::Threads;

/// How many rows the first source has, at the times from 1 on, each of which adds 1.
const ROWS: u64 = 5000;

/// The report of the first round, whose border is the time of the first source's 4,096th row.
pub const FIRST: &str = "4000,read,count 4000\n";

/// The report of the second round.
pub const SECOND: &str = "5000,read,count 1000\n";

/// The report of all rounds.
pub const ALL: &str = "4000,read,count 4000\n5000,read,count 1000\n";

/// The rows of the source that reads.
pub const READS: &str = "4000,read\n5000,read\nend\n";

/// Calls over a first source with that many rows: what comes after them, the rows of the source that reads, the take and the write
/// to out that fail, how many bytes each moves at most, and what each call answers and leaves.
#[derive(Clone, Copy)]
struct Case {
    calls: &'static [Words],
    behind: &'static str,
    reads: &'static str,
    failing_take: u64,
    failing_write: u64,
    first: usize,
    status: u8,
    out: &'static str,
    err: &'static str,
}

/// The calls that read all sources before an event is run.
const AT_ONCE: &[Words] = &["fold J", "simulate J P 1"];

const ROUNDS: &[Words] = &["run J P", "run J"];

pub const SAME_TIME: &str = "5000,inc,1\n";

pub const DISORDERED: &str = "flumina: source a row 5001: disordered, last 5000, got 5000";

const CASES: &[Case] = &[
    Case {
        calls: &["fold J", "run J P", "run J"],
        behind: END,
        reads: READS,
        failing_take: 0,
        failing_write: 0,
        first: usize::MAX,
        status: 0,
        out: ALL,
        err: "",
    },
    // a defect that the second round meets
    Case {
        calls: ROUNDS,
        behind: SAME_TIME,
        reads: "4000,read\nend\n",
        failing_take: 0,
        failing_write: 0,
        first: usize::MAX,
        status: 6,
        out: FIRST,
        err: DISORDERED,
    },
    Case {
        calls: AT_ONCE,
        behind: SAME_TIME,
        reads: "4000,read\nend\n",
        failing_take: 0,
        failing_write: 0,
        first: usize::MAX,
        status: 6,
        out: "",
        err: DISORDERED,
    },
    Case {
        calls: ROUNDS,
        behind: "x\n",
        reads: READS,
        failing_take: 0,
        failing_write: 0,
        first: usize::MAX,
        status: 6,
        out: FIRST,
        err: "flumina: source a row 5001: bad row",
    },
    Case {
        calls: ROUNDS,
        behind: "",
        reads: READS,
        failing_take: 0,
        failing_write: 0,
        first: usize::MAX,
        status: 6,
        out: FIRST,
        err: "flumina: source a row 5001: unclosed",
    },
    // of two defects the one of the first round, though its source is declared last
    Case {
        calls: ROUNDS,
        behind: SAME_TIME,
        reads: "4000,read\n",
        failing_take: 0,
        failing_write: 0,
        first: usize::MAX,
        status: 6,
        out: "",
        err: "flumina: source c row 2: unclosed",
    },
    Case {
        calls: AT_ONCE,
        behind: SAME_TIME,
        reads: "4000,read\n",
        failing_take: 0,
        failing_write: 0,
        first: usize::MAX,
        status: 6,
        out: "",
        err: DISORDERED,
    },
    // the second round takes twice from the first source: its last bytes, and the end; a run that saves does not read ahead, so the first
    // round was written
    Case {
        calls: &["run J P"],
        behind: END,
        reads: READS,
        failing_take: 11,
        failing_write: 0,
        first: usize::MAX,
        status: 7,
        out: "",
        err: "flumina: read fault",
    },
    Case {
        calls: &["run J P --save S"],
        behind: END,
        reads: READS,
        failing_take: 12,
        failing_write: 0,
        first: usize::MAX,
        status: 7,
        out: FIRST,
        err: "flumina: read fault",
    },
    Case {
        calls: &["run J P --save S"],
        behind: END,
        reads: READS,
        failing_take: 13,
        failing_write: 0,
        first: usize::MAX,
        status: 7,
        out: FIRST,
        err: "flumina: read fault",
    },
    Case {
        calls: &["run J P"],
        behind: END,
        reads: READS,
        failing_take: 14,
        failing_write: 0,
        first: usize::MAX,
        status: 0,
        out: ALL,
        err: "",
    },
    // each report of a round takes six writes of at most four bytes
    Case {
        calls: &["run J P"],
        behind: END,
        reads: READS,
        failing_take: 0,
        failing_write: 6,
        first: 4,
        status: 8,
        out: "4000,read,count 4000",
        err: "flumina: write fault",
    },
    Case {
        calls: &["run J P"],
        behind: END,
        reads: READS,
        failing_take: 0,
        failing_write: 7,
        first: 4,
        status: 8,
        out: FIRST,
        err: "flumina: write fault",
    },
    Case {
        calls: &["run J P"],
        behind: END,
        reads: READS,
        failing_take: 0,
        failing_write: 8,
        first: 4,
        status: 8,
        out: "4000,read,count 4000\n5000",
        err: "flumina: write fault",
    },
    Case {
        calls: &["run J P"],
        behind: END,
        reads: READS,
        failing_take: 0,
        failing_write: 13,
        first: 4,
        status: 0,
        out: ALL,
        err: "",
    },
];

/// The first source's rows.
pub fn adds(alloc: Global) -> Result<String, AllocError> {
    let mut text = String::new(alloc);
    for time in 1..=ROWS {
        text.push_str(&format!(in alloc; "{time},inc,1\n")?)?;
    }
    Ok(text)
}

/// The files of a case.
fn files_for(alloc: Global, adds: &str, case: &Case) -> Result<MemFiles, AllocError> {
    let mut source = adds.as_bytes().to_vec(alloc)?;
    source.extend_from_slice(case.behind.as_bytes())?;
    let mut files = files_of(alloc, COUNTED)?;
    put(alloc, &mut files, "b.csv", END)?;
    put(alloc, &mut files, "c.csv", case.reads)?;
    files.add("a.csv", source)?;
    Ok(files)
}

fn check_case<R: Abort + Threads + Wait + Sync>(
    rt: &R,
    alloc: Global,
    adds: &str,
    case: &Case,
) -> Result<(), Fail> {
    let settings = Settings {
        failing_take: case.failing_take,
        failing_write: case.failing_write,
        first: case.first,
        ..SOUND
    };
    for words in case.calls {
        let mut files = files_for(alloc, adds, case)?;
        set_takes(&mut files, &settings)?;
        let left = call_with(rt, alloc, words, &mut files, &settings, &OpenGate)?;
        assert_left(rt, &left, case.status, case.out.as_bytes(), case.err);
    }
    Ok(())
}

fn cases() -> &'static [Case] {
    CASES
}

#[test]
fn a_later_round_fails(rt: HostRuntime) -> Result<(), Fail> {
    let adds = adds(rt.alloc())?;
    for case in cases() {
        check_case(&rt, rt.alloc(), &adds, case)?;
    }
    Ok(())
}

/// A run that reads ahead has not written the first round if a take for the second one fails; on a single processor it does not read
/// ahead, and has.
fn check_front<R: Abort + Threads + Wait + Sync>(
    rt: &R,
    alloc: Global,
    adds: &str,
    words: Words,
    failing_take: u64,
) -> Result<(), Fail> {
    let case = Case {
        calls: &[],
        behind: END,
        reads: READS,
        failing_take,
        failing_write: 0,
        first: usize::MAX,
        status: 7,
        out: FIRST,
        err: "flumina: read fault",
    };
    let settings = Settings {
        failing_take,
        ..SOUND
    };
    let mut files = files_for(alloc, adds, &case)?;
    set_takes(&mut files, &settings)?;
    let left = call_with(rt, alloc, words, &mut files, &settings, &OpenGate)?;
    let out = if left.out.bytes().is_empty() {
        ""
    } else {
        FIRST
    };
    assert_left(rt, &left, case.status, out.as_bytes(), case.err);
    Ok(())
}

#[test]
fn a_take_for_the_next_round_fails(rt: HostRuntime) -> Result<(), Fail> {
    let adds = adds(rt.alloc())?;
    for take in 12..14 {
        check_front(&rt, rt.alloc(), &adds, "run J P", take)?;
    }
    Ok(())
}
