//! Plans that follow the counts of what was run: which one is in force after each round.

ghost use Rattle.std.specs.Prelude.{◌≤◌};

use crate::inputs::{Input, accepted, job, planned};
use crate::runs::Marks;
use crate::writing::follows;
use std::alloc::Global;
use std::process::Abort;
use std::sync::Wait;
use std::test::Fail;
use std::thread::Threads;

/// One worker for all.
const LEAF: &str = "node n0: inc@a, inc@b, read@c\n";

/// Two sources in parallel, below the reads.
const TREE: &str = "node n0: read@c -> n1 n2\nnode n1: inc@a\nnode n2: inc@b\n";

/// Compares the texts with what the rounds write and the plans after them.
fn check<R: Abort + Threads + Wait + Sync>(
    rt: &R,
    alloc: Global,
    rows: u32,
    texts: [&str; 3],
    wanted: &str,
) -> Result<(), Fail>
    requires some { 1 ≤ rows }
    requires few { rows ≤ 4096 }
{
    let job = job(alloc, [0, 0, 0])?;
    let [a, b, c] = texts;
    let job = job.as_str();
    let checked = accepted(alloc, job)?;
    assert!(rt; checked.is_some());
    let checked = checked.unwrap();
    let valid = planned(alloc, &checked)?;
    assert!(rt; valid.is_some());
    follows(
        rt,
        alloc,
        &checked,
        &valid.unwrap(),
        Input { job, a, b, c },
        rows,
        Marks::Plans,
        wanted.as_bytes(),
    )
}

#[test]
fn plans_follow_the_counts(rt: HostRuntime) -> Result<(), Fail> {
    let alloc = rt.alloc();

    // After the rounds the counts of the three itags are 1 0 0, 1 1 0, 1 1 1, 2 1 1 and, twice, 2 1 2.
    let by_round = format!(in alloc;
        "at 1\n{LEAF}at 2\n{TREE}3,read,count 12\nat 3\n{LEAF}at 4\n{LEAF}5,read,count 2\nat 5\n{LEAF}closed\n{LEAF}"
    )?;
    check(
        &rt,
        alloc,
        1,
        [
            "1,inc,5\n4,inc,2\nend\n",
            "2,inc,7\nend\n",
            "3,read\n5,read\nend\n",
        ],
        by_round.as_str(),
    )?;

    // All rows in one round: the counts are 3 2 1.
    let in_one = format!(in alloc; "9,read,count 5\nclosed\n{TREE}")?;
    check(
        &rt,
        alloc,
        4096,
        [
            "1,inc,1\n2,inc,1\n3,inc,1\nend\n",
            "1,inc,1\n2,inc,1\nend\n",
            "9,read\nend\n",
        ],
        in_one.as_str(),
    )
}
