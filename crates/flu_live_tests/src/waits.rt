//! What the nodes of a plan wait for: a count that two sources add to and a third reads, with a node for each.

use crate::nets::Walk;
use crate::stages::{Input, Rows, Sources, Task, tries};
use crate::texts::{COUNT, ONE_TIME, THREE, TWO_READS};
use flu_model::Itag;
use flu_net::Step;
use flu_worker::Side;
use std::alloc::Global;
use std::process::Abort;

const INC_A: Step = Step::Arrive(Itag(0));

const READ: Step = Step::Arrive(Itag(2));

/// What the run over two reads comes to, and over one.
const TWO_READS_TOLD: &str = "3,read,count 12\n5,read,count 2\nNone\nNone\n";

const ONE_TIME_TOLD: &str = "3,read,count 1\nNone\nNone\n";

/// The last of these steps is refused before each of those before it, and enabled after them.
fn awaits(rt: &impl Abort, alloc: Global, files: Sources, report: &str, whole: &[Step]) {
    let rows = Rows::Written(files);
    let input = Input {
        job: COUNT,
        plan: THREE,
        rows,
    };
    let (awaited, before) = whole.split_last().expect(rt, "a step is awaited");
    let early = Walk {
        steps: before,
        others: &[*awaited],
        made: true,
        ended: false,
        report,
    };
    tries(rt, alloc, input, 0, Task::Walk(early));
    let in_time = Walk {
        steps: whole,
        others: &[],
        made: true,
        ended: false,
        report,
    };
    tries(rt, alloc, input, 0, Task::Walk(in_time));
}

#[test]
fn a_node_waits_for_what_is_before_its_step(rt: HostRuntime) {
    // the event at 1 is to be handled, and nothing says that the next one is later until it is there
    let read_behind_events = [
        Step::Lend(0, Side::Left),
        Step::Lend(0, Side::Right),
        Step::Hold(1),
        READ,
        Step::Ask(0, Side::Left),
        INC_A,
        Step::Handle(1),
        INC_A,
        Step::Give(1),
    ];
    awaits(
        &rt,
        rt.alloc(),
        TWO_READS,
        TWO_READS_TOLD,
        &read_behind_events,
    );
    // the event and the read are at one time: the last item that was seen is as late as the read
    let read_at_one_time = [
        Step::Lend(0, Side::Left),
        Step::Hold(1),
        Step::Lend(0, Side::Right),
        READ,
        Step::Ask(0, Side::Left),
        INC_A,
        Step::Handle(1),
        Step::Give(1),
    ];
    awaits(&rt, rt.alloc(), ONE_TIME, ONE_TIME_TOLD, &read_at_one_time);
    let event_behind_reads = [
        Step::Lend(0, Side::Left),
        Step::Hold(1),
        INC_A,
        READ,
        Step::Handle(1),
    ];
    awaits(
        &rt,
        rt.alloc(),
        TWO_READS,
        TWO_READS_TOLD,
        &event_behind_reads,
    );
}
