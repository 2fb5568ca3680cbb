//! Runs in rounds of few rows: what they write and when, what they take by then, and one that is resumed with another number.

use super::jobs::{COUNTED, REPORT};
use super::saves::saved_by;
use super::scripts::{Wanted, play};
use super::{SOUND, Settings, Words, assert_left, call_with, files_of, put, set_takes};
use flu_seq::OpenGate;
use std::alloc::Global;
use std::process::Abort;
use std::sync::Wait;
use std::test::Fail;
use std::thread::Threads;

/// Rounds of any number of rows write the report of the fold; a heartbeat lets the other sources go on, and a source without rows is
/// closed.
const REPORTS: &str = "@ $ fold J
@ $ run J P --round 1
@ $ run J P --round 2
@ $ run J P --round 7
@ $ run J P --round 4096
@ $ run J --round 1
@ $ run J --depth 1 --round 2
@ $ run J --round 7 --save s --unflushed
@ = 0
3,read,count 12
5,read,count 2
@ a.csv
1,inc,5
3,beat
4,inc,2
6,beat
end
@ b.csv
1,beat
2,inc,7
9,beat
end
@ $ fold J
@ $ run J P --round 1
@ $ run J P --round 2
@ $ run J --round 7
@ = 0
3,read,count 12
5,read,count 2
@ a.csv
end
@ $ fold J
@ $ run J P --round 1
@ $ run J --round 2
@ = 0
3,read,count 7
5,read,count 0
@ c.csv
3,read
5,read
4,read
end
@ $ run J P --round 1
@ $ run J --round 1
@ = 6 flumina: source c row 3: disordered, last 5, got 4
3,read,count 12
5,read,count 2
@ c.csv
3,read
5,read
4,read
end
@ $ run J P --round 3
@ $ run J
@ = 6 flumina: source c row 3: disordered, last 5, got 4
@ $ run J P --round 0
@ $ run J P --round 4097
@ = 2 flumina: bad words at 4
";

#[test]
fn small_rounds_write_the_report(rt: HostRuntime) -> Result<(), Fail> {
    play(&rt, rt.alloc(), REPORTS)
}

/// A run over the files of the count, each take of which moves one row at most, if the pieces are those of the rows in the order in
/// which they are needed; and the first take that fails, which shows how many takes there are before each line.
#[derive(Clone, Copy)]
struct Case {
    words: Words,
    pieces: &'static [usize],
    failing_take: u64,
    status: u8,
    out: &'static str,
}

const ALL: usize = usize::MAX;

/// The job and the plan are taken whole, and each text ends with a take that finds nothing. Rounds of one row take the first row of each
/// source, then 4 of `a`, then the end of `b`, and 3 is settled; then 5 of `c`, the end of `a`, and 5 is settled; then the end of `c`.
const BY_ONE: &[usize] = &[ALL, ALL, ALL, 8, 8, 7, 8, 4, 4, 7, 4, 4, 4];

/// Rounds of two rows take both of `a`, all of `b` and both of `c`, and 4 is settled; then the ends of `a` and `c`.
const BY_TWO: &[usize] = &[ALL, ALL, ALL, 8, 8, 8, 4, 4, 7, 7, 4, 4, 4];

/// The report of the first read.
const FIRST: &str = "3,read,count 12\n";

const CASES: &[Case] = &[
    Case {
        words: "run J P --round 1",
        pieces: BY_ONE,
        failing_take: 10,
        status: 7,
        out: "",
    },
    Case {
        words: "run J P --round 1",
        pieces: BY_ONE,
        failing_take: 11,
        status: 7,
        out: FIRST,
    },
    Case {
        words: "run J P --round 1",
        pieces: BY_ONE,
        failing_take: 13,
        status: 7,
        out: FIRST,
    },
    Case {
        words: "run J P --round 1",
        pieces: BY_ONE,
        failing_take: 14,
        status: 7,
        out: REPORT,
    },
    Case {
        words: "run J P --round 1",
        pieces: BY_ONE,
        failing_take: 16,
        status: 0,
        out: REPORT,
    },
    Case {
        words: "run J P --round 2",
        pieces: BY_TWO,
        failing_take: 11,
        status: 7,
        out: "",
    },
    Case {
        words: "run J P --round 2",
        pieces: BY_TWO,
        failing_take: 12,
        status: 7,
        out: FIRST,
    },
    Case {
        words: "run J P --round 2",
        pieces: BY_TWO,
        failing_take: 15,
        status: 7,
        out: FIRST,
    },
    Case {
        words: "run J P --round 2",
        pieces: BY_TWO,
        failing_take: 16,
        status: 0,
        out: REPORT,
    },
];

fn cases() -> &'static [Case] {
    CASES
}

fn check_case<R: Abort + Threads + Wait + Sync>(
    rt: &R,
    alloc: Global,
    case: &Case,
) -> Result<(), Fail> {
    let mut files = files_of(alloc, COUNTED)?;
    let takes = Settings {
        failing_take: case.failing_take,
        later: case.pieces,
        ..SOUND
    };
    set_takes(&mut files, &takes)?;
    let left = call_with(rt, alloc, case.words, &mut files, &SOUND, &OpenGate)?;
    let err = if case.status == 7 {
        "flumina: read fault"
    } else {
        ""
    };
    assert_left(rt, &left, case.status, case.out.as_bytes(), err);
    Ok(())
}

/// A round takes nothing of a source that has enough rows for it, and its lines are written before anything else is taken.
#[test]
fn rounds_take_what_they_need(rt: HostRuntime) -> Result<(), Fail> {
    for case in cases() {
        check_case(&rt, rt.alloc(), case)?;
    }
    Ok(())
}

/// What a run saves with this number of rows in a round, before it meets a defect.
fn saved_in_rounds<R: Abort + Threads + Wait + Sync>(
    rt: &R,
    alloc: Global,
    words: Words,
) -> Result<Vec<u8>, Fail> {
    let mut files = files_of(alloc, COUNTED)?;
    put(alloc, &mut files, "c.csv", "3,read\n3,read\n")?;
    let wanted = Wanted {
        status: 6,
        out: FIRST,
        err: "flumina: source c row 2: disordered, last 3, got 3",
    };
    saved_by(rt, alloc, words, files, wanted)
}

/// Resumes a run with this number of rows from what another one saved.
fn resume_with<R: Abort + Threads + Wait + Sync>(
    rt: &R,
    alloc: Global,
    words: Words,
    saved: Vec<u8>,
) -> Result<(), Fail> {
    let mut files = files_of(alloc, COUNTED)?;
    files.add("s", saved)?;
    let wanted = Wanted {
        status: 0,
        out: "5,read,count 2\n",
        err: "",
    };
    saved_by(rt, alloc, words, files, wanted)?;
    Ok(())
}

#[test]
fn a_run_is_resumed_with_other_rounds(rt: HostRuntime) -> Result<(), Fail> {
    for words in [
        "run J P --round 7 --resume s",
        "run J P --round 1 --resume s",
        "run J --resume s",
    ] {
        let saved = saved_in_rounds(&rt, rt.alloc(), "run J P --round 1 --save s")?;
        assert!(&rt; saved.starts_with(b"{\"border\":3,\"cells\":[],\"job\":"));
        resume_with(&rt, rt.alloc(), words, saved)?;
    }
    Ok(())
}
