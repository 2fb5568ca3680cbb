//! The steps that a net may make, and which of them are enabled.

ghost use Rattle.std.specs.Prelude.{◌≡◌, [], ◌∷◌, ◌++◌, map, true, false, length, IfOk, OnOk, IfSome, IfNone, IsNone, ◌↔◌};
ghost use Rattle.std.specs.Bool.{OnTrue, OnFalse};
ghost use Rattle.std.specs.List.{range_with_len, flat_map};
ghost use Rattle.flu_model.specs.Itags.{count_of_itags};
ghost use Rattle.flu_fork.specs.Lots.{job};
ghost use Rattle.flu_net.specs.Enabled.{is_enabled};
ghost use Rattle.flu_net.specs.Final.{IsFinal};
ghost use Rattle.flu_live.specs.Possible.{arrival, steps_of, all_steps, enabled_among, enabled_steps};

use flu_fork::Case;
use flu_model::{Itag, itag_count};
use flu_net::{Net, Step};
use flu_worker::Side;
use std::alloc::{AllocError, Global};

/// What a worker may do, in the order of the seeded schedule.
fn steps_of(w: u32) -> [Step; 9]
    ensures { result ≡ steps_of w }
{
    [
        Step::Handle(w),
        Step::Ask(w, Side::Left),
        Step::Ask(w, Side::Right),
        Step::Take(w, Side::Left),
        Step::Take(w, Side::Right),
        Step::Give(w),
        Step::Hold(w),
        Step::Lend(w, Side::Left),
        Step::Lend(w, Side::Right),
    ]
}

/// The arrivals of this many itags.
fn arrivals(alloc: Global, itags: u32) -> Result<Vec<Step>, AllocError>
    ensures { IfOk result (λ v. v.items ≡ map arrival (range_with_len 0 itags)) }
{
    let mut steps = Vec::new(alloc);
    for i in 0..itags {
        steps.push(Step::Arrive(Itag(i)))?;
    }
    Ok(steps)
}

/// Appends some steps to a list.
fn push_each(steps: &mut Vec<Step>, more: &[Step]) -> Result<(), AllocError>
    ensures { OnOk result (steps.new.items ≡ steps.old.items ++ more.now) }
{
    for s in more {
        steps.push(*s)?;
    }
    Ok(())
}

/// All steps that a net of the case may make, in the order of the seeded schedule.
pub fn all_steps(alloc: Global, case: &Case) -> Result<Vec<Step>, AllocError>
    ensures { IfOk result (λ v. v.items ≡ all_steps case.now) }
{
    let mut steps = arrivals(alloc, itag_count(case.checked().program()))?;
    for w in 0..case.valid().count() {
        push_each(&mut steps, &steps_of(w))?;
    }
    Ok(steps)
}

// Whether a step may be made. The contract says it by the list of the step: unchanged if it is enabled, and else empty.
#[tactic(none)]
fn is_one(net: &Net, case: &Case, step: Step) -> bool
    requires { case.now ≡ net.now.case }
    ensures on { OnTrue result (enabled_among net.now (step ∷ []) ≡ step ∷ []) }
    ensures off { OnFalse result (enabled_among net.now (step ∷ []) ≡ []) }
{
    net.enabled(case, step)
}

/// Replaces the content of a list by the enabled ones of some steps.
#[tactic(auto, using(crate::proofs::Chosen::among_none))]
pub fn put_enabled(
    enabled: &mut Vec<Step>,
    net: &Net,
    case: &Case,
    steps: &[Step],
) -> Result<(), AllocError>
    requires { case.now ≡ net.now.case }
    ensures { OnOk result (enabled.new.items ≡ enabled_among net.now steps.now) }
{
    enabled.clear();
    for s in steps {
        put_one(enabled, net, case, *s)?;
    }
    Ok(())
}

// Appends a step to a list, if it is enabled.
fn put_one(enabled: &mut Vec<Step>, net: &Net, case: &Case, step: Step) -> Result<(), AllocError>
    requires { case.now ≡ net.now.case }
    ensures { OnOk result (enabled.new.items ≡ enabled.old.items ++ enabled_among net.now (step ∷ [])) }
{
    if is_one(net, case, step) {
        enabled.push(step)?;
    }
    Ok(())
}

// The first enabled one of some steps.
#[tactic(auto, using(crate::proofs::Chosen::among_none))]
fn first_enabled(net: &Net, case: &Case, steps: &[Step]) -> Option<Step>
    requires { case.now ≡ net.now.case }
    ensures some { IfSome result (λ s. enabled_among net.now (s ∷ []) ≡ s ∷ []) }
    ensures none { IfNone result (enabled_among net.now steps.now ≡ []) }
{
    for s in steps {
        if is_one(net, case, *s) {
            return Some(*s);
        }
    }
    None
}

/// A step that is enabled; none exactly if the net is final, except for a net that ran out of memory in a step: there nothing is
/// enabled any more. It takes no memory.
pub fn some_enabled(net: &Net, case: &Case) -> Option<Step>
    requires { case.now ≡ net.now.case }
    ensures enabled { IfSome result (λ s. is_enabled net.now s ≡ true) }
    ensures none { net.now.gone ≡ false → (IsNone result ↔ IsFinal net.now) }
{
    let found = first_possible(net, case);
    net.never_blocks();
    net.rule();
    found
}

// The first step that is enabled.
fn first_possible(net: &Net, case: &Case) -> Option<Step>
    requires { case.now ≡ net.now.case }
    ensures some { IfSome result (λ s. enabled_among net.now (s ∷ []) ≡ s ∷ []) }
    ensures none { IfNone result (enabled_steps net.now ≡ []) }
{
    match first_arrival(net, case) {
        Some(step) => Some(step),
        None => first_doing(net, case),
    }
}

// The first arrival that is enabled.
#[tactic(auto, using(crate::proofs::Chosen::among_none))]
fn first_arrival(net: &Net, case: &Case) -> Option<Step>
    requires { case.now ≡ net.now.case }
    ensures some { IfSome result (λ s. enabled_among net.now (s ∷ []) ≡ s ∷ []) }
    ensures none { IfNone result (enabled_among net.now (map arrival (range_with_len 0 (count_of_itags (job net.now.case)))) ≡ []) }
{
    for i in 0..itag_count(case.checked().program()) {
        let step = Step::Arrive(Itag(i));
        if is_one(net, case, step) {
            return Some(step);
        }
    }
    None
}

// The first step of a worker that is enabled, if no arrival is.
#[tactic(auto, using(crate::proofs::Chosen::among_none))]
fn first_doing(net: &Net, case: &Case) -> Option<Step>
    requires case { case.now ≡ net.now.case }
    requires arrivals { enabled_among net.now (map arrival (range_with_len 0 (count_of_itags (job net.now.case)))) ≡ [] }
    ensures some { IfSome result (λ s. enabled_among net.now (s ∷ []) ≡ s ∷ []) }
    ensures none { IfNone result (enabled_steps net.now ≡ []) }
{
    for w in 0..case.valid().count() {
        match first_enabled(net, case, &steps_of(w)) {
            Some(step) => return Some(step),
            None => {}
        }
    }
    None
}
