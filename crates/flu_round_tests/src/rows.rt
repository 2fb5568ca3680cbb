//! Rounds over small files: their borders, what each of them writes, and the defect that one meets.

ghost use Rattle.std.specs.Prelude.{◌≤◌};

use crate::inputs::{Input, job};
use crate::runs::Marks;
use crate::writing::{resumes, writes};
use std::alloc::{AllocError, Global};
use std::process::Abort;
use std::sync::Wait;
use std::test::Fail;
use std::thread::Threads;

const A: &str = "1,inc,5\n4,inc,2\nend\n";

const A_LATE: &str = "4,inc,2\n1,inc,5\nend\n";

const B: &str = "2,inc,7\nend\n";

const C: &str = "3,read\n5,read\nend\n";

const END: &str = "end\n";

const IN_FIVE: &str = "at 1\nat 2\n3,read,count 12\nat 3\nat 4\n5,read,count 2\nat 5\nclosed\n";

const IN_ONE: &str = "3,read,count 12\n5,read,count 2\nclosed\n";

/// Compares what the rounds write with the texts, if the first source has this slack.
fn check<R: Abort + Threads + Wait + Sync>(
    rt: &R,
    alloc: Global,
    slack: u64,
    rows: u32,
    texts: [&str; 3],
    wanted: &str,
) -> Result<(), Fail>
    requires some { 1 ≤ rows }
    requires few { rows ≤ 4096 }
{
    let job = job(alloc, [slack, 0, 0])?;
    let [a, b, c] = texts;
    let job = job.as_str();
    writes(
        rt,
        alloc,
        Input { job, a, b, c },
        rows,
        Marks::Each,
        wanted.as_bytes(),
    )
}

#[test]
fn rounds_have_their_borders(rt: HostRuntime) -> Result<(), Fail> {
    let cases = [
        (0, 1, [A, B, C], IN_FIVE),
        (0, 4096, [A, B, C], IN_ONE),
        (4, 4096, [A_LATE, B, C], IN_ONE),
        (
            4,
            1,
            [A_LATE, B, C],
            "at 2\n3,read,count 12\nat 3\n5,read,count 2\nat 5\nclosed\n",
        ),
        (0, 1, [END, END, END], "closed\n"),
    ];
    for (slack, rows, texts, wanted) in cases {
        check(&rt, rt.alloc(), slack, rows, texts, wanted)?;
    }
    Ok(())
}

#[test]
fn rounds_meet_defects(rt: HostRuntime) -> Result<(), Fail> {
    let cases = [
        (
            0,
            1,
            [A, B, "3,read\nend\n4,read\n"],
            "at 1\nat 2\n3,read,count 12\nat 3\nsource 2 row 3 AfterEnd\n",
        ),
        (
            3,
            4096,
            [A_LATE, B, C],
            "source 0 row 2 Disordered { last: 4, got: 1 }\n",
        ),
        (
            3,
            1,
            [A_LATE, B, C],
            "source 0 row 2 Disordered { last: 4, got: 1 }\n",
        ),
        (
            4,
            4096,
            ["4,inc,2\n4,inc,5\nend\n", B, C],
            "source 0 row 2 Disordered { last: 4, got: 4 }\n",
        ),
        (
            0,
            1,
            ["1,inc,5\n1,inc,6\nend\n", END, "3,read\nend\n"],
            "at 1\nsource 0 row 2 Disordered { last: 1, got: 1 }\n",
        ),
    ];
    for (slack, rows, texts, wanted) in cases {
        check(&rt, rt.alloc(), slack, rows, texts, wanted)?;
    }
    Ok(())
}

/// Rows with the times from 1 to 5000, and the last one again.
fn five_thousand(alloc: Global) -> Result<String, AllocError> {
    let mut text = String::new(alloc);
    for time in 1..5001u32 {
        text.push_str(&format!(in alloc; "{time},inc,1\n")?)?;
    }
    text.push_str("5000,inc,1\n")?;
    Ok(text)
}

#[test]
fn a_defect_is_met_behind_a_round(rt: HostRuntime) -> Result<(), Fail> {
    let alloc = rt.alloc();
    let text = five_thousand(alloc)?;
    let wanted =
        "4000,read,count 4000\nat 4096\nsource 0 row 5001 Disordered { last: 5000, got: 5000 }\n";
    check(
        &rt,
        alloc,
        0,
        4096,
        [text.as_str(), END, "4000,read\nend\n"],
        wanted,
    )
}

#[test]
fn a_run_is_resumed_from_a_border(rt: HostRuntime) -> Result<(), Fail> {
    let alloc = rt.alloc();
    let job = job(alloc, [0, 0, 0])?;
    let input = Input {
        job: job.as_str(),
        a: A,
        b: B,
        c: C,
    };
    // The state after this many rounds, which is {count: 12} after two of them, and from which border the run continues.
    let cases = [
        (
            2,
            2,
            "3,read,count 12\nat 3\nat 4\n5,read,count 2\nat 5\nclosed\n",
        ),
        (3, 3, "at 4\n5,read,count 2\nat 5\nclosed\n"),
        (0, 3, "at 4\n5,read,count 2\nat 5\nclosed\n"),
        (
            0,
            2,
            "3,read,count 0\nat 3\nat 4\n5,read,count 2\nat 5\nclosed\n",
        ),
    ];
    for (rounds, border, wanted) in cases {
        resumes(&rt, alloc, input, rounds, border, wanted.as_bytes())?;
    }
    Ok(())
}
