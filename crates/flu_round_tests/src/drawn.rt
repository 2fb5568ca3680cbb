//! Sources with slack that are drawn: what their rounds write, put together, is the report of the fold of all rows.

ghost use Rattle.std.specs.Prelude.{◌<◌, ◌^◌};

use crate::draws::{Drawn, Draws, times};
use crate::inputs::job;
use crate::runs::Marks;
use crate::writing::{whole, writes};
use std::alloc::{AllocError, Global};
use std::process::Abort;
use std::sync::Wait;
use std::test::Fail;
use std::thread::Threads;

/// The job with drawn slacks, and drawn rows of its sources.
fn draw_input(alloc: Global, seed: u32) -> Result<Drawn, AllocError>
    requires { seed < 2 ^ 31 }
{
    let mut draws = Draws::of(seed);
    let slacks = [draws.below(6), draws.below(6), draws.below(6)];
    let [a, b, c] = slacks;
    Ok(Drawn {
        job: job(alloc, [u64::from(a), u64::from(b), u64::from(c)])?,
        a: rows(alloc, &mut draws, a, false)?,
        b: rows(alloc, &mut draws, b, false)?,
        c: rows(alloc, &mut draws, c, true)?,
    })
}

/// The rows of a source.
fn rows(alloc: Global, draws: &mut Draws, slack: u32, reads: bool) -> Result<String, AllocError> {
    let mut text = String::new(alloc);
    let stretches = draws.below(20);
    for at in times(alloc, draws, stretches, slack)? {
        text.push_str(&row(alloc, draws, at, reads)?)?;
    }
    text.push_str("end\n")?;
    Ok(text)
}

fn row(alloc: Global, draws: &mut Draws, at: u32, reads: bool) -> Result<String, AllocError> {
    let value = draws.below(100);
    match draws.below(5) {
        0 => format!(in alloc; "{at},beat\n"),
        _ if reads => format!(in alloc; "{at},read\n"),
        _ => format!(in alloc; "{at},inc,{value}\n"),
    }
}

/// Compares the rounds over the sources that a seed draws with the whole.
fn compare<R: Abort + Threads + Wait + Sync>(rt: &R, alloc: Global, seed: u32) -> Result<(), Fail>
    requires { seed < 2 ^ 31 }
{
    let drawn = draw_input(alloc, seed)?;
    let whole = whole(alloc, drawn.input())?;
    for rows in 1..8 {
        writes(rt, alloc, drawn.input(), rows, Marks::Last, whole.bytes())?;
    }
    Ok(())
}

#[test]
fn rounds_put_together_are_the_fold(rt: HostRuntime) -> Result<(), Fail> {
    for seed in 0..10 {
        compare(&rt, rt.alloc(), seed)?;
    }
    Ok(())
}
