//! Batches that are run by their own counts: on the tree of threads if it pays, and else by the backup.

ghost use Rattle.std.specs.Prelude.{◌≡◌, ◌<◌, ◌^◌, length, IfOk};
ghost use Rattle.flu_model.specs.Itags.{count_of_itags};
ghost use Rattle.flu_model.specs.Listed.{listed};
ghost use Rattle.flu_deps.specs.Checking.{program_of};

use crate::inputs::{Input, accepted, files_of, planned};
use flu_adaptive::Adaptive;
use flu_cells::State;
use flu_deps::Checked;
use flu_live::NetEngine;
use flu_model::{Itag, Program, Streams};
use flu_report::report_text;
use flu_seq::Gate;
use flu_streams::gather;
use std::alloc::{AllocError, Global};
use std::process::Abort;
use std::sync::Wait;
use std::sync::atomic::{AtomicU64, Ordering};
use std::test::Fail;
use std::thread::{Threads, available_parallelism};

/// How many actions an event of `inc` has, each of which adds its value.
const ACTIONS: u32 = 32;

/// A count to which two sources add, by many actions, and that a third emits.
fn long_job(alloc: Global) -> Result<String, AllocError> {
    let mut text = String::from_str(
        alloc,
        "cell count sum\ntag inc int\ntag read none\ndepends inc read\ndepends read read\non read: emit \"count {count}\"\n",
    )?;
    text.push_str(
        "source a \"a\": inc\nsource b \"b\": inc\nsource c \"c\": read\non inc: add count value",
    )?;
    for _ in 1..ACTIONS {
        text.push_str("; add count value")?;
    }
    text.push_str("\n")?;
    Ok(text)
}

/// This many rows that add one each.
fn rows(alloc: Global, events: u32) -> Result<String, AllocError> {
    let mut text = String::new(alloc);
    for time in 1..=events {
        let row = format!(in alloc; "{time},inc,1\n")?;
        text.push_str(row.as_str())?;
    }
    text.push_str("end\n")?;
    Ok(text)
}

/// Counts how often workers pass. The backup runs without workers.
#[derive(Drop)]
struct Counter {
    count: AtomicU64,
}

impl Gate for Counter {
    fn pass(&self, _node: u32, _point: u32, _itag: Itag, _index: u64, _held: Option<&State>) {
        self.count.fetch_add(1, Ordering::SeqCst);
    }
}

/// The streams of this many rows of the first two sources, and of a read after them.
fn streams(alloc: Global, p: &Program, events: u32) -> Result<Streams, Fail>
    ensures { IfOk result (λ s. length (listed s) ≡ count_of_itags p.now) }
{
    let rows = rows(alloc, events)?;
    let input = Input {
        job: "",
        a: rows.as_str(),
        b: rows.as_str(),
        c: "9999999,read\nend\n",
    };
    Ok(gather(alloc, p, &mut files_of(alloc, input)?)?)
}

/// How often workers pass if these streams are run by their own counts; the report is the one that is wanted.
fn passes<R: Abort + Threads + Wait + Sync>(
    rt: &R,
    alloc: Global,
    checked: &Checked,
    s: &Streams,
    wanted: &str,
) -> Result<u64, Fail>
    requires { length (listed s.now) ≡ count_of_itags (program_of checked.now) }
{
    let valid = planned(alloc, checked)?;
    assert!(rt; valid.is_some());
    let first = planned(alloc, checked)?;
    assert!(rt; first.is_some());
    let backup = NetEngine {
        checked,
        valid: &valid.unwrap(),
        seed: 0,
    };
    let gate = Counter {
        count: AtomicU64::new(0),
    };
    let engine = Adaptive::new(alloc, checked, first.unwrap(), &gate, backup, false)?;
    let mut engine = engine.choosing(rt, alloc, 3)?;
    let (_, outs) = engine.batch(rt, alloc, State::new(alloc), s)?;
    let report = report_text(alloc, checked.program(), outs)?;
    assert_eq!(rt; report.as_str(), wanted);
    Ok(gate.count.load(Ordering::SeqCst))
}

#[test]
fn the_tree_runs_what_it_pays_for(rt: HostRuntime) -> Result<(), Fail> {
    let alloc = rt.alloc();
    let checked = accepted(alloc, long_job(alloc)?.as_str())?;
    assert!(&rt; checked.is_some());
    let checked = checked.unwrap();

    // Few events are never worth a thread.
    let few = streams(alloc, checked.program(), 2)?;
    let passed = passes(&rt, alloc, &checked, &few, "9999999,read,count 128\n")?;
    assert_eq!(&rt; passed, 0);

    // Many long ones are, if there are processors for both sources: then each event passes twice.
    let many = streams(alloc, checked.program(), 3000)?;
    let passed = passes(&rt, alloc, &checked, &many, "9999999,read,count 192000\n")?;
    let processors = available_parallelism(&rt).map_or(1, |count| count.get());
    assert!(&rt; passed == 12_002 || passed == 0 && processors < 4);
    Ok(())
}
