//! Written actions.

ghost use Rattle.std.specs.Prelude.{◌≡◌, map, option_map};
ghost use Rattle.flu_model.specs.Erasure.{term_of as plain_term, plain_act, plain_action};
ghost use Rattle.flu_syntax.specs.Tree.{view, deed_of as act_seen, action_of as action_seen};
ghost use Rattle.flu_parse.specs.Faults.{Gives};
ghost use Rattle.flu_parse.specs.Naming.{naming};
ghost use Rattle.flu_parse.specs.Actions.{clears_whole, resolved_act, guard_of, action_of, with_action, resolved_actions};

use crate::cells::resolved_cell;
use crate::faults::JobFault;
use crate::names::{FamilyHead, KindHead, Names};
use crate::naming::{family_of, is_version_3};
use crate::templates::template_of;
use crate::terms::{expression_of, is_alone, shape_at};
use flu_model::{Act, Action, Expr, List, Sort, What};
use flu_syntax::{WrittenAct, WrittenAction, WrittenExpr, WrittenKey};
use std::alloc::Global;

/// The most actions that a kind has.
const MOST_ACTIONS: usize = 32;

// Whether a keyed family is cleared whole.
fn clears_whole(names: &Names, family: FamilyHead, key: &WrittenKey) -> bool
    ensures { result ≡ clears_whole (naming names.now) family key.now }
{
    is_version_3(names) && family.keyed && is_alone(key)
}

#[tactic(auto, unfolding(crate::specs::Actions::resolved_act))]
fn resolved_act(
    alloc: Global,
    text: &str,
    names: &Names,
    under: KindHead,
    act: &WrittenAct,
) -> Result<Act, JobFault>
    ensures { Gives plain_act result (resolved_act text.now (naming names.now) under (act_seen act.now)) }
{
    match act {
        WrittenAct::Add(cell, written) => {
            let cell = resolved_cell(text, names, under, Some(Sort::Sum), cell)?;
            let term = expression_of(alloc, text, names, under, written)?;
            Ok(Act::Add(cell, term))
        }
        WrittenAct::Raise(cell, written) => {
            let cell = resolved_cell(text, names, under, Some(Sort::Max), cell)?;
            let term = expression_of(alloc, text, names, under, written)?;
            Ok(Act::Raise(cell, term))
        }
        WrittenAct::Set(cell, written) => {
            let cell = resolved_cell(text, names, under, Some(Sort::Last), cell)?;
            let term = expression_of(alloc, text, names, under, written)?;
            Ok(Act::Set(cell, term))
        }
        WrittenAct::Clear(cell) => {
            let family = family_of(names, text, cell.family)?;
            if clears_whole(names, family, &cell.key) {
                return Ok(Act::ClearFamily(family.number));
            }
            let cell = resolved_cell(text, names, under, None, cell)?;
            Ok(Act::Clear(cell))
        }
        WrittenAct::Emit(template) => {
            let pieces = template_of(alloc, text, names, under, None, *template)?;
            Ok(Act::Emit(pieces))
        }
        WrittenAct::Flush(name, template) => {
            let family = family_of(names, text, *name)?;
            shape_at(family.keyed, name.from)?;
            let pieces = template_of(alloc, text, names, under, Some(family.number), *template)?;
            Ok(Act::Flush(family.number, pieces))
        }
    }
}

#[tactic(auto, unfolding(crate::specs::Actions::guard_of))]
fn guard_of(
    alloc: Global,
    text: &str,
    names: &Names,
    under: KindHead,
    guard: &Option<WrittenExpr>,
) -> Result<Option<Expr>, JobFault>
    ensures { Gives (option_map plain_term) result (guard_of text.now (naming names.now) under (option_map view guard.now)) }
{
    match guard {
        None => Ok(None),
        Some(written) => {
            let term = expression_of(alloc, text, names, under, written)?;
            Ok(Some(term))
        }
    }
}

#[tactic(auto, unfolding(crate::specs::Actions::action_of))]
fn action_of(
    alloc: Global,
    text: &str,
    names: &Names,
    under: KindHead,
    written: &WrittenAction,
) -> Result<Action, JobFault>
    ensures { Gives plain_action result (action_of text.now (naming names.now) under (action_seen written.now)) }
{
    let act = resolved_act(alloc, text, names, under, &written.act)?;
    let guard = guard_of(alloc, text, names, under, &written.guard)?;
    Ok(Action { act, guard })
}

#[tactic(auto, unfolding(crate::specs::Actions::with_action))]
fn add_action(
    alloc: Global,
    text: &str,
    names: &Names,
    under: KindHead,
    done: &mut Vec<Action>,
    written: &WrittenAction,
) -> Result<(), JobFault>
    ensures { Gives (λ unit. map plain_action done.new.items) result
        (with_action text.now (naming names.now) under (map plain_action done.old.items) (action_seen written.now)) }
{
    if done.len() >= MOST_ACTIONS {
        return Err(JobFault::OverLimit {
            what: What::Actions,
            count: 33,
        });
    }
    let action = action_of(alloc, text, names, under, written)?;
    done.push(action)?;
    Ok(())
}

/// What the actions of a kind mean, or the first fault in them.
pub fn resolved_actions(
    alloc: Global,
    text: &str,
    names: &Names,
    under: KindHead,
    written: &[WrittenAction],
) -> Result<List<Action>, JobFault>
    ensures { Gives (map plain_action) result (resolved_actions text.now (naming names.now) under (map action_seen written.now)) }
{
    let mut done = Vec::new(alloc);
    for action in written {
        match add_action(alloc, text, names, under, &mut done, action) {
            Ok(()) => {}
            Err(fault) => return Err(fault),
        }
    }
    Ok(List::of(done))
}
