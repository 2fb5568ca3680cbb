//! What nodes apart send as text, read again and joined, gives the report of the fold.

ghost use Rattle.std.specs.Prelude.{◌<◌, ◌^◌};
ghost use Rattle.flu_deps.specs.Checking.{program_of};
ghost use Rattle.flu_deps.specs.Validated.{IsValidFor};

use crate::cases::{Case, ITEMS, PAGES, STATIONS, judged};
use crate::parts::{Drawn, folded, joined, partial};
use flu_apart::apart;
use flu_deps::{Checked, Valid};
use flu_joining::Queue;
use flu_receiving::read_partial;
use std::alloc::Global;
use std::process::Abort;
use std::test::Fail;

/// How many times rows are drawn for each case.
const SEEDS: u32 = 12;

/// What these nodes send, each as text that is read again.
fn queues<R: Abort>(
    rt: &R,
    alloc: Global,
    drawn: Drawn,
    checked: &Checked,
    valid: &Valid,
    nodes: &[u32],
) -> Result<Vec<Queue>, Fail>
    requires valid { IsValidFor (program_of checked.now) valid.now }
{
    let mut queues = Vec::new(alloc);
    for w in nodes {
        let w = *w;
        assert!(rt; w < valid.count(), "{w}");
        assert!(rt; apart(checked, valid, w).is_ok(), "node {w} may be apart");
        let text = partial(alloc, drawn, checked, valid, w)?;
        let received = read_partial(alloc, checked.program(), text.as_slice())?;
        queues.push(Queue::of(received.sent))?;
    }
    Ok(queues)
}

/// Compares the reports of one drawing.
fn compare<R: Abort>(
    rt: &R,
    alloc: Global,
    drawn: Drawn,
    checked: &Checked,
    valid: &Valid,
) -> Result<(), Fail>
    requires valid { IsValidFor (program_of checked.now) valid.now }
{
    let wanted = folded(alloc, drawn, checked.program())?;
    for nodes in drawn.case.apart {
        let queues = queues(rt, alloc, drawn, checked, valid, nodes)?;
        let found = joined(alloc, drawn, checked, valid, nodes, queues)?;
        assert!(rt; found.is_ok(), "{nodes:?}, seed {}", drawn.seed);
        assert_eq!(rt;
            found.unwrap().as_str(),
            wanted.as_str(),
            "{nodes:?}, seed {}",
            drawn.seed
        );
    }
    Ok(())
}

fn each_seed<R: Abort>(rt: &R, alloc: Global, case: Case) -> Result<(), Fail> {
    let both = judged(alloc, case)?;
    assert!(rt; both.is_some());
    let (checked, valid) = both.unwrap();
    for seed in 0..SEEDS {
        compare(rt, alloc, Drawn { case, seed }, &checked, &valid)?;
    }
    Ok(())
}

#[test]
fn partials_of_stations(rt: HostRuntime) -> Result<(), Fail> {
    each_seed(&rt, rt.alloc(), STATIONS)
}

#[test]
fn partials_of_items(rt: HostRuntime) -> Result<(), Fail> {
    each_seed(&rt, rt.alloc(), ITEMS)
}

#[test]
fn partials_of_pages(rt: HostRuntime) -> Result<(), Fail> {
    each_seed(&rt, rt.alloc(), PAGES)
}
