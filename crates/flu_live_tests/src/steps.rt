//! Steps of a net by hand.

use crate::nets::Walk;
use crate::stages::{Input, Rows, Task, tries};
use crate::texts::{ABOVE, COUNT, EMPTY, LAST, ONE, THREE, TWO_READS, VALUES};
use flu_model::Itag;
use flu_net::Step;
use flu_worker::Side;

/// The report of the job with two last values, and what the state holds.
const VALUES_TOLD: &str = "4,r2,q 7\n5,z,z none 7\n10,r,p 9\nSome(Last(9))\nSome(Last(7))\n";

/// A whole run of the job with two last values, in which the later one of the events at the root is seen before all others. It has to wait:
/// the earlier one may still come, and no part is asked for before it has.
const LATER_ONE_FIRST: [Step; 33] = [
    Step::Arrive(Itag(0)),
    Step::Lend(0, Side::Left),
    Step::Lend(0, Side::Right),
    Step::Hold(1),
    Step::Hold(2),
    Step::Arrive(Itag(1)),
    Step::Ask(0, Side::Left),
    Step::Ask(0, Side::Right),
    Step::Arrive(Itag(2)),
    Step::Give(1),
    Step::Give(2),
    Step::Take(0, Side::Left),
    Step::Take(0, Side::Right),
    Step::Handle(0),
    Step::Lend(0, Side::Right),
    Step::Lend(0, Side::Left),
    Step::Hold(2),
    Step::Hold(1),
    Step::Arrive(Itag(1)),
    Step::Ask(0, Side::Right),
    Step::Give(2),
    Step::Handle(1),
    Step::Take(0, Side::Right),
    Step::Ask(0, Side::Left),
    Step::Arrive(Itag(2)),
    Step::Give(1),
    Step::Take(0, Side::Left),
    Step::Handle(0),
    Step::Arrive(Itag(0)),
    Step::Lend(0, Side::Left),
    Step::Hold(1),
    Step::Lend(0, Side::Right),
    Step::Hold(2),
];

/// Steps that no net of that job has: of an itag or a node that is not there, at a side of a leaf, and over the edge above the root.
const NEVER: [Step; 14] = [
    Step::Arrive(Itag(3)),
    Step::Arrive(Itag(4_294_967_295)),
    Step::Handle(3),
    Step::Ask(3, Side::Left),
    Step::Take(4, Side::Right),
    Step::Give(3),
    Step::Hold(4_294_967_295),
    Step::Lend(3, Side::Right),
    Step::Ask(1, Side::Left),
    Step::Take(2, Side::Right),
    Step::Lend(1, Side::Right),
    Step::Lend(2, Side::Left),
    Step::Give(0),
    Step::Hold(0),
];

/// The job with two last values and its rows.
const TWO_VALUES: Input = Input {
    job: LAST,
    plan: ABOVE,
    rows: Rows::Written(VALUES),
};

#[test]
fn the_later_event_may_come_first(rt: HostRuntime) {
    let walk = Walk {
        steps: &LATER_ONE_FIRST,
        others: &[],
        made: true,
        ended: true,
        report: VALUES_TOLD,
    };
    tries(&rt, rt.alloc(), TWO_VALUES, 0, Task::Walk(walk));
}

#[test]
fn steps_that_are_not_there_change_nothing(rt: HostRuntime) {
    let walk = Walk {
        steps: &LATER_ONE_FIRST,
        others: &NEVER,
        made: true,
        ended: true,
        report: VALUES_TOLD,
    };
    tries(&rt, rt.alloc(), TWO_VALUES, 0, Task::Walk(walk));
}

#[test]
fn steps_that_are_made_twice_are_refused(rt: HostRuntime) {
    let walk = Walk {
        steps: &[Step::Lend(0, Side::Left), Step::Lend(0, Side::Left)],
        others: &[],
        made: false,
        ended: false,
        report: VALUES_TOLD,
    };
    tries(&rt, rt.alloc(), TWO_VALUES, 0, Task::Walk(walk));
}

#[test]
fn a_step_is_enabled_until_the_net_is_final(rt: HostRuntime) {
    let counted = "3,read,count 12\n5,read,count 2\nNone\nNone\n";
    let cases = [
        (COUNT, ONE, EMPTY, "None\nNone\n"),
        (COUNT, THREE, EMPTY, "None\nNone\n"),
        (COUNT, THREE, TWO_READS, counted),
        (LAST, ABOVE, VALUES, VALUES_TOLD),
    ];
    for (job, plan, files, report) in cases {
        let rows = Rows::Written(files);
        let walk = Walk {
            steps: &[Step::Arrive(Itag(0))],
            others: &[],
            made: true,
            ended: false,
            report,
        };
        tries(
            &rt,
            rt.alloc(),
            Input { job, plan, rows },
            0,
            Task::Walk(walk),
        );
    }
}
