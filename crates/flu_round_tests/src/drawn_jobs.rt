//! Jobs of version 3 that are drawn, over rows that are drawn: what the net and the tree of threads write, in rounds or in one, is the
//! report of the fold.

ghost use Rattle.std.specs.Prelude.{◌≡◌, ◌≤◌, ◌<◌, ◌^◌, length, All, IfOk};
ghost use Rattle.flu_deps.specs.Checking.{program_of};
ghost use Rattle.flu_deps.specs.Validated.{IsValidFor};

use crate::draws::{Drawn, Draws, times};
use crate::inputs::{Input, accepted};
use crate::pieces::{accept, drawn_job};
use crate::runs::Marks;
use crate::writing::{folds, nets, trees, whole};
use flu_deps::{Checked, Valid};
use flu_model::itag_count;
use flu_planner::plan;
use std::alloc::{AllocError, Global};
use std::process::Abort;
use std::sync::Wait;
use std::test::Fail;
use std::thread::Threads;

/// The tags of each source, with how many fields follow them in a row.
const A: &str = "hit 2
trip[0] 2
trip[1] 2";

const B: &str = "hit 2
trip[1] 2
trip[2] 2
mark 1";

const C: &str = "tick 0
tick 0
mark 1";

/// A row after all others, which prints all cells.
const LAST: &str = "299,done\n";

/// Items below the size of a table, above it, and the greatest one.
const ITEMS: &str = "0
1
2
3
3
63
64
5000
65535";

/// Small values, zero, and those at both ends.
const VALUES: &str = "0
1
-1
3
7
-7
50
9223372036854775807
-9223372036854775808";

/// How many jobs are drawn.
const SEEDS: u32 = 50;

fn draw_input(alloc: Global, seed: u32) -> Result<Drawn, Fail>
    requires { seed < 2 ^ 31 }
{
    let mut draws = Draws::of(seed);
    let slacks = [draws.below(4), draws.below(4), draws.below(4)];
    let mut job = drawn_job(alloc, &mut draws, slacks)?;
    accept(alloc, &mut job)?;
    let tied = job.as_str().starts_with("version 3 ties ");
    let [a, b, c] = slacks;
    let a = rows(alloc, &mut draws, a, tied, A, "")?;
    let b = rows(alloc, &mut draws, b, tied, B, "")?;
    let c = rows(alloc, &mut draws, c, tied, C, LAST)?;
    Ok(Drawn { job, a, b, c })
}

/// The rows of a source with these tags, with this one after them; where rows may be tied, there are two at some times.
fn rows(
    alloc: Global,
    draws: &mut Draws,
    slack: u32,
    tied: bool,
    tags: &str,
    last: &str,
) -> Result<String, AllocError> {
    let mut text = String::new(alloc);
    let stretches = draws.below(16);
    for at in times(alloc, draws, stretches, slack)? {
        text.push_str(&row(alloc, draws, at, tags)?)?;
        if tied && draws.below(3) == 0 {
            text.push_str(&row(alloc, draws, at, tags)?)?;
        }
    }
    write!(text, "{last}end\n")?;
    Ok(text)
}

fn row(alloc: Global, draws: &mut Draws, at: u32, tags: &str) -> Result<String, AllocError> {
    let line = draws.line(tags);
    let (tag, fields) = line.split_once(' ').unwrap_or((line, ""));
    let item = draws.line(ITEMS);
    let value = draws.line(VALUES);
    match fields {
        _ if draws.below(8) == 0 => format!(in alloc; "{at},beat\n"),
        "2" => format!(in alloc; "{at},{tag},{item},{value}\n"),
        "1" => format!(in alloc; "{at},{tag},{item}\n"),
        _ => format!(in alloc; "{at},{tag}\n"),
    }
}

/// Rates of this many itags.
fn rates(alloc: Global, draws: &mut Draws, itags: u32) -> Result<Vec<u64>, AllocError>
    ensures one_each { IfOk result (λ rates. length rates.items ≡ itags) }
    ensures small { IfOk result (λ rates. All (λ rate. rate ≤ 2 ^ 40) rates.items) }
{
    let mut rates = Vec::new(alloc);
    for _ in 0..itags {
        rates.push(u64::from(draws.below(100)))?;
    }
    Ok(rates)
}

/// The greedy plan of an accepted job by drawn rates.
fn drawn_plan(alloc: Global, draws: &mut Draws, checked: &Checked) -> Result<Valid, AllocError>
    ensures { IfOk result (IsValidFor (program_of checked.now)) }
{
    let rates = rates(alloc, draws, itag_count(checked.program()))?;
    plan(alloc, checked, rates.as_slice(), 3)
}

/// Compares what the fold, the net and the tree of threads write, if rounds read this many rows of each source.
fn works<R: Abort + Threads + Wait + Sync>(
    rt: &R,
    alloc: Global,
    checked: &Checked,
    valid: &Valid,
    input: Input,
    rows: u32,
    wanted: &[u8],
) -> Result<(), Fail>
    requires valid { IsValidFor (program_of checked.now) valid.now }
    requires some { 1 ≤ rows }
    requires few { rows ≤ 4096 }
{
    folds(rt, alloc, input, rows, Marks::Last, wanted)?;
    nets(rt, alloc, checked, valid, input, rows, Marks::Last, wanted)?;
    trees(rt, alloc, checked, valid, input, rows, Marks::Last, wanted)
}

/// Compares the runs of a job by a drawn plan, in several rounds and in one, and answers whether the plan has more than one node.
fn shares<R: Abort + Threads + Wait + Sync>(
    rt: &R,
    alloc: Global,
    checked: &Checked,
    input: Input,
    seed: u32,
    wanted: &[u8],
) -> Result<bool, Fail>
    requires { seed < 2 ^ 31 }
{
    let valid = drawn_plan(alloc, &mut Draws::of(seed), checked)?;
    works(rt, alloc, checked, &valid, input, 1 + seed % 7, wanted)?;
    works(rt, alloc, checked, &valid, input, 4096, wanted)?;
    Ok(valid.plan().nodes.items().len() > 1)
}

/// Compares the runs of a job that a seed draws with the report of its fold, and answers whether its plan has more than one node.
fn compare<R: Abort + Threads + Wait + Sync>(rt: &R, alloc: Global, seed: u32) -> Result<bool, Fail>
    requires { seed < 2 ^ 31 }
{
    let drawn = draw_input(alloc, seed)?;
    let whole = whole(alloc, drawn.input())?;
    let checked = accepted(alloc, drawn.job.as_str())?;
    assert!(rt; checked.is_some());
    shares(
        rt,
        alloc,
        &checked.unwrap(),
        drawn.input(),
        seed,
        whole.bytes(),
    )
}

#[test]
fn drawn_jobs_have_one_report(rt: HostRuntime) -> Result<(), Fail> {
    let mut shared = 0u32;
    for seed in 0..SEEDS {
        if compare(&rt, rt.alloc(), seed)? {
            shared = shared.saturating_add(1);
        }
    }
    assert!(&rt; shared >= 15, "{shared} plans share events");
    Ok(())
}
