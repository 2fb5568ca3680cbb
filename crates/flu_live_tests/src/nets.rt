//! Nets that are run step by step.

ghost use Rattle.std.specs.Prelude.{◌≡◌, OnOk};

use crate::jobs::ended;
use crate::stages::{MEMORY, Stage};
use flu_fork::Case;
use flu_live::some_enabled;
use flu_net::{Net, Step, StepFault};
use std::alloc::{AllocError, Global};
use std::process::Abort;

/// More steps than a net of these tests makes.
const MANY: u32 = 1000;

/// A walk over a net: the steps of a list, before each of which all of others are tried and refused, and then whatever is enabled, which
/// there is exactly until the net is final. Whether each step of the list is made, whether the net is final after them, and what the run
/// comes to.
#[derive(Clone, Copy)]
pub struct Walk<'a> {
    pub steps: &'a [Step],
    pub others: &'a [Step],
    pub made: bool,
    pub ended: bool,
    pub report: &'a str,
}

/// Makes a step; whether it was enabled.
pub fn made(alloc: Global, case: &Case, net: &mut Net, step: Step) -> Result<bool, AllocError>
    requires { case.now ≡ net.old.case }
    ensures { OnOk result (net.new.case ≡ net.old.case) }
{
    match net.step(alloc, case, step) {
        Ok(()) => Ok(true),
        Err(StepFault::NotEnabled) => Ok(false),
        Err(StepFault::NoMemory) => Err(AllocError),
    }
}

/// Tries some steps; whether none was enabled.
fn none_made(alloc: Global, case: &Case, net: &mut Net, steps: &[Step]) -> Result<bool, AllocError>
    requires { case.now ≡ net.old.case }
    ensures { OnOk result (net.new.case ≡ net.old.case) }
{
    let mut none = true;
    for step in steps {
        if made(alloc, case, net, *step)? {
            none = false;
        }
    }
    Ok(none)
}

/// Makes the steps of a list, and tries others before each; whether all of the list were enabled, and none of the others.
fn all_made(
    alloc: Global,
    case: &Case,
    net: &mut Net,
    steps: &[Step],
    others: &[Step],
) -> Result<(bool, bool), AllocError>
    requires { case.now ≡ net.old.case }
    ensures { OnOk result (net.new.case ≡ net.old.case) }
{
    let mut all = true;
    let mut none = true;
    for step in steps {
        if !none_made(alloc, case, net, others)? {
            none = false;
        }
        if !made(alloc, case, net, *step)? {
            all = false;
        }
    }
    Ok((all, none))
}

/// Makes enabled steps until there is none; whether there is none exactly if the net is final.
fn run_out(alloc: Global, case: &Case, net: &mut Net) -> Result<bool, AllocError>
    requires { case.now ≡ net.old.case }
    ensures { OnOk result (net.new.case ≡ net.old.case) }
{
    for _turn in 0..MANY {
        let Some(step) = some_enabled(net, case) else {
            return Ok(net.is_final(case));
        };
        if net.is_final(case) || !made(alloc, case, net, step)? {
            return Ok(false);
        }
    }
    Ok(false)
}

/// The report of a final net, and what its state holds.
pub fn told(rt: &impl Abort, alloc: Global, case: &Case, net: Net) -> String
    requires { case.now ≡ net.case }
{
    assert!(rt; net.is_final(case));
    let (state, outs) = net.joined(alloc, case).expect(rt, MEMORY);
    ended(rt, alloc, case.checked(), &state, outs)
}

/// Walks over the net of a case.
fn over(rt: &impl Abort, alloc: Global, case: &Case, walk: Walk) {
    let mut net = Net::new(alloc, case).expect(rt, MEMORY);
    let (made, refused) = all_made(alloc, case, &mut net, walk.steps, walk.others).expect(
        rt, MEMORY,
    );
    assert!(rt; refused);
    assert_eq!(rt; made, walk.made);
    assert_eq!(rt; net.is_final(case), walk.ended);
    assert!(rt; run_out(alloc, case, &mut net).expect(rt, MEMORY));
    let report = told(rt, alloc, case, net);
    assert_eq!(rt; report.as_str(), walk.report);
}

/// Walks over the net of a stage.
pub fn walks(rt: &impl Abort, alloc: Global, stage: &Stage, walk: Walk) {
    let case = stage.case(alloc).expect(rt, MEMORY);
    over(rt, alloc, &case, walk);
}
