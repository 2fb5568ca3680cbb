//! Runs with a gate at which workers wait for each other, and which notes what each update finds and leaves.

use super::jobs::{COUNTED, REPORT};
use super::{Named, assert_left, call, files_of};
use flu_cells::State;
use flu_model::{Cell, Itag, Worth};
use flu_seq::Gate;
use std::alloc::{AllocError, Global};
use std::process::Abort;
use std::sync::Wait;
use std::sync::atomic::{AtomicU64, Ordering};
use std::test::Fail;
use std::thread::{Threads, yield_now};

/// At most how often a worker looks for the others.
const MOST_TURNS: u64 = 200_000_000;

/// No state is handed in: this is so after the update of a node with children, since its lot is forked again.
const NO_STATE: i128 = -1;

/// The state that is handed in holds no value of `count`.
const NO_VALUE: i128 = -2;

/// An event that a node handles: its itag and its index; the group of workers that wait for each other before it; and the count that
/// its update finds and leaves.
#[derive(Clone, Copy)]
struct Pass {
    node: u32,
    itag: u32,
    index: u64,
    group: usize,
    found: i128,
    left: i128,
}

/// The group of those that wait for nobody.
const ALONE: usize = 9;

/// How many workers of each group have come, how often each pass was made as wanted before its update and after it, and how often
/// there was another pass or a wait that ran out.
#[derive(Drop)]
struct Meeting {
    passes: &'static [Pass],
    sizes: &'static [u64],
    come: Vec<AtomicU64>,
    before: Vec<AtomicU64>,
    after: Vec<AtomicU64>,
    faults: AtomicU64,
}

fn zeros(alloc: Global, count: usize) -> Result<Vec<AtomicU64>, AllocError> {
    let mut numbers = Vec::new(alloc);
    for _ in 0..count {
        numbers.push(AtomicU64::new(0))?;
    }
    Ok(numbers)
}

impl Meeting {
    fn new(
        alloc: Global,
        passes: &'static [Pass],
        sizes: &'static [u64],
    ) -> Result<Meeting, AllocError> {
        Ok(Meeting {
            passes,
            sizes,
            come: zeros(alloc, sizes.len())?,
            before: zeros(alloc, passes.len())?,
            after: zeros(alloc, passes.len())?,
            faults: AtomicU64::new(0),
        })
    }

    // Waits until all workers of a group are here.
    fn await_group(&self, group: usize) {
        let Some(come) = self.come.get(group) else {
            return;
        };
        let Some(size) = self.sizes.get(group) else {
            return;
        };
        come.fetch_add(1, Ordering::SeqCst);
        for _ in 0..MOST_TURNS {
            if come.load(Ordering::SeqCst) >= *size {
                return;
            }
            yield_now();
        }
        self.faults.fetch_add(1, Ordering::SeqCst);
    }
}

fn count_in(held: Option<&State>) -> i128 {
    let Some(state) = held else {
        return NO_STATE;
    };
    match state.get(Cell { family: 0, key: 0 }) {
        Some(Worth::Sum(n)) => n,
        _ => NO_VALUE,
    }
}

impl Meeting {
    // The place of an event among the passes.
    fn place_of(&self, node: u32, itag: u32, index: u64) -> Option<usize> {
        for (place, pass) in self.passes.iter().enumerate() {
            if pass.node == node && pass.itag == itag && pass.index == index {
                return Some(place);
            }
        }
        None
    }

    // Whether each pass was made once before its update and once after it, no other was, and all that waited met.
    fn is_kept(&self) -> bool {
        for note in self.before.iter().chain(self.after.iter()) {
            if note.load(Ordering::SeqCst) != 1 {
                return false;
            }
        }
        self.faults.load(Ordering::SeqCst) == 0
    }

    // Notes that a pass was made, if it found or left the wanted count.
    fn note(&self, place: usize, point: u32, count: i128) {
        let Some(pass) = self.passes.get(place) else {
            return;
        };
        let (notes, wanted) = if point == 1 {
            (&self.before, pass.found)
        } else {
            (&self.after, pass.left)
        };
        if count == wanted {
            if let Some(note) = notes.get(place) {
                note.fetch_add(1, Ordering::SeqCst);
            }
        }
        if point == 1 {
            self.await_group(pass.group);
        }
    }
}

impl Gate for Meeting {
    fn pass(&self, node: u32, point: u32, itag: Itag, index: u64, held: Option<&State>) {
        match self.place_of(node, itag.0, index) {
            Some(place) => self.note(place, point, count_in(held)),
            None => {
                self.faults.fetch_add(1, Ordering::SeqCst);
            }
        }
    }
}

/// Runs a job by its plan with a gate: each event passes once before its update and once after it, with the wanted counts, nothing
/// else does, and all workers of a group meet.
fn check_meeting<R: Abort + Threads + Wait + Sync>(
    rt: &R,
    alloc: Global,
    files: Named,
    report: &'static str,
    meeting: &Meeting,
) -> Result<(), Fail> {
    let mut files = files_of(alloc, files)?;
    let left = call(rt, alloc, "run J P", &mut files, meeting)?;
    assert_left(rt, &left, 0, report.as_bytes(), "");
    assert!(rt; meeting.is_kept());
    Ok(())
}

/// The adds of the left leaf, that of the right one, and the reads of the root.
const TWO_LEAVES: &[Pass] = &[
    Pass {
        node: 1,
        itag: 0,
        index: 0,
        group: 0,
        found: NO_VALUE,
        left: 5,
    },
    Pass {
        node: 1,
        itag: 0,
        index: 1,
        group: ALONE,
        found: NO_VALUE,
        left: 2,
    },
    Pass {
        node: 2,
        itag: 1,
        index: 0,
        group: 0,
        found: NO_VALUE,
        left: 7,
    },
    Pass {
        node: 0,
        itag: 2,
        index: 0,
        group: ALONE,
        found: 12,
        left: NO_STATE,
    },
    Pass {
        node: 0,
        itag: 2,
        index: 1,
        group: ALONE,
        found: 2,
        left: NO_STATE,
    },
];

#[test]
fn two_workers_meet_in_their_updates(rt: HostRuntime) -> Result<(), Fail> {
    let meeting = Meeting::new(rt.alloc(), TWO_LEAVES, &[2])?;
    check_meeting(&rt, rt.alloc(), COUNTED, REPORT, &meeting)
}

/// Each node has one event, which adds a number of its own to the count, and at the root emits it. An event depends on the events of
/// the nodes below its own.
const LEVELS_JOB: &str = "cell count sum
tag left_one keyed int
tag left_two keyed int
tag left_four int
tag right_one keyed int
tag right_two keyed int
tag right_four int
tag read none
depends left_one left_two same
depends left_one left_four
depends left_two left_four
depends right_one right_two same
depends right_one right_four
depends right_two right_four
depends left_one read
depends left_two read
depends left_four read
depends right_one read
depends right_two read
depends right_four read
depends read read
on left_one: add count value
on left_two: add count value
on left_four: add count value
on right_one: add count value
on right_two: add count value
on right_four: add count value
on read: emit \"count {count}\"; clear count
source a \"a.csv\": left_one[0..1], right_one[0..1]
source b \"b.csv\": left_one[0..1], right_one[0..1]
source c \"c.csv\": left_two[0..1], right_two[0..1]
source d \"d.csv\": left_four, right_four
source e \"e.csv\": read
";

const LEVELS_PLAN: &str = "node root: read -> left right
node left: left_four -> l0 l1
node l0: left_two[0] -> l0a l0b
node l0a: left_one[0]@a
node l0b: left_one[0]@b
node l1: left_two[1] -> l1a l1b
node l1a: left_one[1]@a
node l1b: left_one[1]@b
node right: right_four -> r0 r1
node r0: right_two[0] -> r0a r0b
node r0a: right_one[0]@a
node r0b: right_one[0]@b
node r1: right_two[1] -> r1a r1b
node r1a: right_one[1]@a
node r1b: right_one[1]@b
";

const LEVELS_FILES: Named = &[
    ("J", LEVELS_JOB),
    ("P", LEVELS_PLAN),
    (
        "a.csv",
        "1,left_one[0],1\n2,left_one[1],4\n3,right_one[0],16\n4,right_one[1],64\nend\n",
    ),
    (
        "b.csv",
        "1,left_one[0],2\n2,left_one[1],8\n3,right_one[0],32\n4,right_one[1],128\nend\n",
    ),
    (
        "c.csv",
        "11,left_two[0],256\n12,left_two[1],512\n13,right_two[0],1024\n14,right_two[1],2048\nend\n",
    ),
    ("d.csv", "21,left_four,4096\n22,right_four,8192\nend\n"),
    ("e.csv", "31,read\nend\n"),
];

/// The event of each node, which waits for those of its level. A leaf finds nothing, and another node what was added below it.
const LEVELS: &[Pass] = &[
    Pass {
        node: 0,
        itag: 14,
        index: 0,
        group: 0,
        found: 16383,
        left: NO_STATE,
    },
    Pass {
        node: 1,
        itag: 12,
        index: 0,
        group: 1,
        found: 783,
        left: NO_STATE,
    },
    Pass {
        node: 2,
        itag: 8,
        index: 0,
        group: 2,
        found: 3,
        left: NO_STATE,
    },
    Pass {
        node: 3,
        itag: 0,
        index: 0,
        group: 3,
        found: NO_VALUE,
        left: 1,
    },
    Pass {
        node: 4,
        itag: 4,
        index: 0,
        group: 3,
        found: NO_VALUE,
        left: 2,
    },
    Pass {
        node: 5,
        itag: 9,
        index: 0,
        group: 2,
        found: 12,
        left: NO_STATE,
    },
    Pass {
        node: 6,
        itag: 1,
        index: 0,
        group: 3,
        found: NO_VALUE,
        left: 4,
    },
    Pass {
        node: 7,
        itag: 5,
        index: 0,
        group: 3,
        found: NO_VALUE,
        left: 8,
    },
    Pass {
        node: 8,
        itag: 13,
        index: 0,
        group: 1,
        found: 3312,
        left: NO_STATE,
    },
    Pass {
        node: 9,
        itag: 10,
        index: 0,
        group: 2,
        found: 48,
        left: NO_STATE,
    },
    Pass {
        node: 10,
        itag: 2,
        index: 0,
        group: 3,
        found: NO_VALUE,
        left: 16,
    },
    Pass {
        node: 11,
        itag: 6,
        index: 0,
        group: 3,
        found: NO_VALUE,
        left: 32,
    },
    Pass {
        node: 12,
        itag: 11,
        index: 0,
        group: 2,
        found: 192,
        left: NO_STATE,
    },
    Pass {
        node: 13,
        itag: 3,
        index: 0,
        group: 3,
        found: NO_VALUE,
        left: 64,
    },
    Pass {
        node: 14,
        itag: 7,
        index: 0,
        group: 3,
        found: NO_VALUE,
        left: 128,
    },
];

#[test]
fn all_workers_of_a_level_meet_in_their_updates(rt: HostRuntime) -> Result<(), Fail> {
    let meeting = Meeting::new(rt.alloc(), LEVELS, &[1, 2, 4, 8])?;
    let report = "31,read,count 16383\n";
    check_meeting(&rt, rt.alloc(), LEVELS_FILES, report, &meeting)
}
