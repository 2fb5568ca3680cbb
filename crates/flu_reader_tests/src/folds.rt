//! Merged lists, updates and folds of one small job.

ghost use Rattle.std.specs.Prelude.{◌≡◌, length, IfOk};
ghost use Rattle.flu_model.specs.Itags.{count_of_itags};
ghost use Rattle.flu_model.specs.Listed.{listed};

use crate::files::files_of;
use flu_cells::{Cell, State, Worth};
use flu_model::{Event, Itag, Outs, Program, Streams, itag_count};
use flu_parse::read_job;
use flu_seq::{fold, merge};
use flu_step::update;
use flu_streams::gather;
use std::alloc::{AllocError, Global};
use std::process::Abort;
use std::test::Fail;

const COUNT: Cell = Cell { family: 0, key: 0 };

/// Three sources add to the count, and the fourth reads it.
const JOB: &str = "cell count sum
tag inc int
tag read none
on inc: add count value
on read: emit \"count {count}\"; clear count
source a \"a\": inc
source b \"b\": inc
source c \"c\": inc
source d \"d\": read
";

/// Events of one time in different itags, beats between, and an itag without events.
const ROWS: [(&str, &[u8]); 4] = [
    ("a", b"1,inc,5\n4,inc,2\nend\n"),
    ("b", b"3,beat\nend\n"),
    ("c", b"2,beat\n4,inc,7\n9,beat\nend\n"),
    ("d", b"4,read\nend\n"),
];

/// The streams of the rows.
fn streams(alloc: Global, p: &Program) -> Result<Streams, Fail>
    ensures { IfOk result (λ s. length (listed s) ≡ count_of_itags p.now) }
{
    let mut files = files_of(alloc, &ROWS, 4096)?;
    Ok(gather(alloc, p, &mut files)?)
}

/// A state in which the count is a sum.
fn counted(alloc: Global, sum: i128) -> Result<State, AllocError> {
    let mut state = State::new(alloc);
    state.add(COUNT, sum)?;
    Ok(state)
}

#[test]
fn events_of_one_time_go_by_their_itags(rt: HostRuntime) -> Result<(), Fail> {
    let p = read_job(rt.alloc(), JOB.as_bytes())?;
    let s = streams(rt.alloc(), &p)?;
    let events = merge(rt.alloc(), &p, &s)?;
    let wants = [(1, 0, 5), (4, 0, 2), (4, 2, 7), (4, 3, 0)];
    assert_eq!(rt; events.len(), wants.len());
    for (got, (time, itag, value)) in events.iter().zip(wants) {
        assert_eq!(rt; (got.time, got.itag.0, got.value), (time, itag, value));
    }
    Ok(())
}

/// The one output is this text at time 4.
fn expect_one(rt: &impl Abort, outs: &Outs, wanted: &str) {
    assert_eq!(rt; outs.items().len(), 1);
    for out in outs.items() {
        assert_eq!(rt; out.text.as_str(), wanted);
        assert_eq!(rt; out.time, 4);
    }
}

#[test]
fn a_fold_goes_on_from_the_opening_state(rt: HostRuntime) -> Result<(), Fail> {
    let p = read_job(rt.alloc(), JOB.as_bytes())?;
    let s = streams(rt.alloc(), &p)?;
    for (sum, wanted) in [(0, "count 14"), (-20, "count -6"), (100, "count 114")] {
        let (state, outs) = fold(rt.alloc(), &p, counted(rt.alloc(), sum)?, &s)?;
        assert_eq!(rt; state.get(COUNT), None);
        expect_one(&rt, &outs, wanted);
    }
    Ok(())
}

#[test]
fn updates_add_read_and_clear(rt: HostRuntime) -> Result<(), Fail> {
    let p = read_job(rt.alloc(), JOB.as_bytes())?;
    let mut state = State::new(rt.alloc());
    let mut outs = Outs::of(Vec::new(rt.alloc()));
    // the itag, the value, what the count is after it, and how many outputs there are then
    let cases = [
        (0, 5, Some(Worth::Sum(5)), 0),
        (2, -7, Some(Worth::Sum(-2)), 0),
        (3, 0, None, 1),
        (1, 4, Some(Worth::Sum(4)), 1),
        (3, 0, None, 2),
    ];
    for (itag, value, wanted, count) in cases {
        let x = Event {
            time: 8,
            itag: Itag(itag),
            item: 0,
            value,
        };
        assert!(rt; itag < itag_count(&p));
        update(rt.alloc(), &p, &mut state, &x, &mut outs)?;
        assert_eq!(rt; state.get(COUNT), wanted);
        assert_eq!(rt; outs.items().len(), count);
    }
    for (out, wanted) in outs.items().iter().zip(["count -2", "count 4"]) {
        assert_eq!(rt; out.text.as_str(), wanted);
        assert_eq!(rt; out.tag.kind, 1);
    }
    Ok(())
}
