//! Runs: the report is the fold's for every seed, and the steps and the mark are those of the schedule.

ghost use Rattle.std.specs.Prelude.{◌^◌, ◌<◌};

use crate::jobs::Wanted;
use crate::stages::{Input, Rows, Sources, Task, tries};
use crate::texts::{
    ABOVE, COUNT, EMPTY, FOUR, LARGE, LAST, ONE, ONE_TIME, READS_FIRST, SHARED, SHARED_PLAN, THREE,
    TRADES, TWICE, TWO_READS, VALUES,
};
use std::alloc::Global;
use std::process::Abort;

/// Runs a job with a plan over some files.
fn ran(
    rt: &impl Abort,
    alloc: Global,
    job: &'static str,
    plan: &'static str,
    files: Sources,
    seed: u32,
    wanted: Wanted,
)
    requires { seed < 2 ^ 31 }
{
    let rows = Rows::Written(files);
    tries(
        rt,
        alloc,
        Input { job, plan, rows },
        seed,
        Task::Run(wanted),
    );
}

#[test]
fn every_seed_gives_the_report(rt: HostRuntime) {
    let cases = [
        (COUNT, THREE, EMPTY, "", [3, 0, 0, 0, 0, 2, 2]),
        (COUNT, ONE, EMPTY, "", [3, 0, 0, 0, 0, 0, 0]),
        (
            COUNT,
            THREE,
            TWO_READS,
            "3,read,count 12\n5,read,count 2\n",
            [8, 5, 4, 4, 4, 6, 6],
        ),
        (
            COUNT,
            ONE,
            TWO_READS,
            "3,read,count 12\n5,read,count 2\n",
            [8, 5, 0, 0, 0, 0, 0],
        ),
        (
            COUNT,
            THREE,
            ONE_TIME,
            "3,read,count 1\n",
            [5, 2, 2, 2, 2, 4, 4],
        ),
        (
            READS_FIRST,
            THREE,
            ONE_TIME,
            "3,read,count 0\n",
            [5, 2, 2, 2, 2, 4, 4],
        ),
        (
            COUNT,
            THREE,
            LARGE,
            "3,read,count 18446744073709551614\n",
            [6, 3, 2, 2, 2, 4, 4],
        ),
        (
            FOUR,
            THREE,
            TWICE,
            "3,read,count 0\n3,read,count 0\n",
            [6, 2, 4, 4, 4, 6, 6],
        ),
        (
            LAST,
            ABOVE,
            VALUES,
            "4,r2,q 7\n5,z,z none 7\n10,r,p 9\n",
            [6, 3, 4, 4, 4, 6, 6],
        ),
    ];
    for (job, plan, files, report, steps) in cases {
        let wanted = Wanted {
            report,
            steps: Some(steps),
            mark: None,
        };
        for seed in 0..4 {
            ran(&rt, rt.alloc(), job, plan, files, seed, wanted);
        }
    }
}

#[test]
fn a_hundred_seeds_have_as_many_steps(rt: HostRuntime) {
    let wanted = Wanted {
        report: "3,read,count 12\n5,read,count 2\n",
        steps: Some([8, 5, 4, 4, 4, 6, 6]),
        mark: None,
    };
    for seed in 0..100 {
        ran(&rt, rt.alloc(), COUNT, THREE, TWO_READS, seed, wanted);
    }
}

#[test]
fn marks_are_those_of_the_schedule(rt: HostRuntime) {
    let counted = "3,read,count 12\n5,read,count 2\n";
    let cases = [
        (THREE, EMPTY, "", [3, 0, 0, 0, 0, 2, 2], 3_995_476_782, 27),
        (ONE, EMPTY, "", [3, 0, 0, 0, 0, 0, 0], 2178, 11),
        (
            THREE,
            TWO_READS,
            counted,
            [8, 5, 4, 4, 4, 6, 6],
            2_121_232_296,
            157,
        ),
    ];
    for (plan, files, report, steps, mark, most) in cases {
        let wanted = Wanted {
            report,
            steps: Some(steps),
            mark: Some((mark, most)),
        };
        ran(&rt, rt.alloc(), COUNT, plan, files, 1, wanted);
    }
}

#[test]
fn shared_reads_give_the_fold(rt: HostRuntime) {
    let wanted = Wanted {
        report: "2,trade,at 3\n3,trade,at 3\n5,shut,vol 41\n5,trade,at 5\n6,trade,at 5\n8,trade,at 2\n9,shut,vol 43\n",
        steps: None,
        mark: None,
    };
    for seed in 0..10 {
        ran(&rt, rt.alloc(), SHARED, SHARED_PLAN, TRADES, seed, wanted);
    }
}
