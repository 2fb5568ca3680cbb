//! What an event does to a state: the actions of its tag's kind, in order (`docs/MODEL.md`).

ghost use Rattle.std.specs.Prelude.{◌≡◌, ◌<◌, [], ◌∷◌, ◌++◌, map, Some, None, OnOk, IsTrue, slice_get};
ghost use Rattle.std.specs.List.{list_all};
ghost use Rattle.flu_model.specs.Contents.{key_count, cell, held_keys, without_family};
ghost use Rattle.flu_model.specs.Expressions as expressions;
ghost use Rattle.flu_model.specs.Folding.{outputs_at, outputs_with};
ghost use Rattle.flu_model.specs.Itags.{count_of_itags};
ghost use Rattle.flu_model.specs.Rules.{act_fits, action_fits};
ghost use Rattle.flu_model.specs.Texts.{pieces_text};
ghost use Rattle.flu_model.specs.Updates.{actions_of, effect_of, effect_of_act, effect_of_action, effect_of_actions, passes_guard};
ghost use Rattle.flu_model.specs.Updates.{with_keys};
ghost use Rattle.flu_model.specs.Updates as updates;
ghost use Rattle.flu_cells.specs.Holding.{held};
ghost use Rattle.flu_step.specs.Shown.{showing};
ghost use Rattle.flu_step.specs.Targets.{has_target_in_range};

use crate::expressions::{is_true, value_of};
use crate::texts::{Filling, Shown, text_of};
use flu_cells::State;
use flu_model::{
    Act, Action, Cell, Event, Expr, Family, Kind, Out, Outs, Piece, Program, Tag, Text, actions_of,
    at_its_time, cell_of, item_of, tag_of,
};
use std::alloc::{AllocError, Global};

/// What actions are done at: an event with its tag, beside the families of the job and how times and numbers are shown.
#[derive(Clone, Copy)]
struct Moment<'a> {
    show: Shown<'a>,
    families: &'a [Family],
    event: &'a Event,
    tag: Tag,
}

/// Updates a state by an event, whose itag is one of the job's, and appends its outputs in the order in which its actions
/// put them out. Nothing else of the outputs changes.
///
/// Where memory is refused, the state and the outputs are of no further use.
pub fn update(
    alloc: Global,
    p: &Program,
    s: &mut State,
    x: &Event,
    outs: &mut Outs,
) -> Result<(), AllocError>
    requires { x.now.itag.0 < count_of_itags p.now }
    ensures cells { OnOk result (held s.new ≡ (effect_of p.now (held s.old) x.now).cells) }
    ensures outputs { OnOk result (outs.new ≡ outs.old ++ outputs_with p.now x.now (effect_of p.now (held s.old) x.now).texts) }
{
    let tag = tag_of(p, x.itag);
    let shown = at_its_time(p, x);
    let moment = Moment {
        show: shown_at(p, tag.kind),
        families: p.families.items(),
        event: &shown,
        tag,
    };
    do_actions(alloc, &moment, actions_of(p, tag), s, outs)
}

// How times and numbers are shown at an event of the kind with this number.
fn shown_at(p: &Program, kind: u32) -> Shown<'_>
    ensures { showing result ≡ updates.showing_of p.now kind }
{
    Shown {
        iso: p.iso,
        lists: p.lists.items(),
        items: list_of_kind(p.kinds.items(), kind),
        keys: None,
    }
}

// The list that names the items of the kind with this number, if one does.
fn list_of_kind(kinds: &[Kind], number: u32) -> Option<u32>
    ensures { result ≡ updates.list_of_kind (slice_get kinds.now number) }
{
    match kinds.get(number as usize) {
        Some(kind) => kind.list,
        None => None,
    }
}

// The list that names the keys of the family with this number, if one does.
fn list_of_family(families: &[Family], number: u32) -> Option<u32>
    ensures { result ≡ updates.list_of_family (slice_get families.now number) }
{
    match families.get(number as usize) {
        Some(family) => family.list,
        None => None,
    }
}

// Does actions in order.
fn do_actions(
    alloc: Global,
    at: &Moment<'_>,
    actions: &[Action],
    s: &mut State,
    outs: &mut Outs,
) -> Result<(), AllocError>
    requires { IsTrue (list_all (λ a. has_target_in_range a.act at.now.tag.key (expressions.item_of at.now.event.now)) actions.now) }
    ensures cells { OnOk result (held s.new
        ≡ (effect_of_actions (showing at.now.show) at.now.families.now actions.now (held s.old) at.now.event.now at.now.tag.key).cells) }
    ensures outputs { OnOk result (outs.new ≡ outs.old ++ outputs_at at.now.event.now.time at.now.tag
        (effect_of_actions (showing at.now.show) at.now.families.now actions.now (held s.old) at.now.event.now at.now.tag.key).texts) }
{
    for action in actions {
        do_action(alloc, at, action, s, outs)?;
    }
    Ok(())
}

// Does an action whose guard holds.
fn do_action(
    alloc: Global,
    at: &Moment<'_>,
    action: &Action,
    s: &mut State,
    outs: &mut Outs,
) -> Result<(), AllocError>
    requires { IsTrue (has_target_in_range action.now.act at.now.tag.key (expressions.item_of at.now.event.now)) }
    ensures cells { OnOk result (held s.new
        ≡ (effect_of_action (showing at.now.show) at.now.families.now action.now (held s.old) at.now.event.now at.now.tag.key).cells) }
    ensures outputs { OnOk result (outs.new ≡ outs.old ++ outputs_at at.now.event.now.time at.now.tag
        (effect_of_action (showing at.now.show) at.now.families.now action.now (held s.old) at.now.event.now at.now.tag.key).texts) }
{
    if guard_holds(&action.guard, s, at.event, at.tag.key) {
        do_act(alloc, at, &action.act, s, outs)
    } else {
        Ok(())
    }
}

// A guard holds where its value is not 0.
fn guard_holds(guard: &Option<Expr>, s: &State, x: &Event, key: u32) -> bool
    ensures { result ≡ passes_guard guard.now (held s.now) x.now key }
{
    match guard {
        None => true,
        Some(e) => is_true(value_of(e, s, x, key)),
    }
}

// Does an act.
fn do_act(
    alloc: Global,
    at: &Moment<'_>,
    act: &Act,
    s: &mut State,
    outs: &mut Outs,
) -> Result<(), AllocError>
    requires { IsTrue (has_target_in_range act.now at.now.tag.key (expressions.item_of at.now.event.now)) }
    ensures cells { OnOk result (held s.new
        ≡ (effect_of_act (showing at.now.show) at.now.families.now act.now (held s.old) at.now.event.now at.now.tag.key).cells) }
    ensures outputs { OnOk result (outs.new ≡ outs.old ++ outputs_at at.now.event.now.time at.now.tag
        (effect_of_act (showing at.now.show) at.now.families.now act.now (held s.old) at.now.event.now at.now.tag.key).texts) }
{
    let key = at.tag.key;
    let item = item_of(at.event);
    match act {
        Act::Add(r, e) => {
            let amount = value_of(e, s, at.event, key);
            s.add(cell_of(*r, key, item), i128::from(amount))
        }
        Act::Raise(r, e) => {
            let amount = value_of(e, s, at.event, key);
            s.raise(cell_of(*r, key, item), amount)
        }
        Act::Set(r, e) => {
            let amount = value_of(e, s, at.event, key);
            s.put(cell_of(*r, key, item), amount)
        }
        Act::Clear(r) => {
            s.clear(cell_of(*r, key, item));
            Ok(())
        }
        Act::ClearFamily(family) => {
            s.clear_family(*family);
            Ok(())
        }
        Act::Emit(pieces) => {
            let filling = Filling {
                show: at.show,
                families: at.families,
                state: &*s,
                event: at.event,
                key,
                there: None,
            };
            let text = text_of(alloc, pieces.items(), &filling)?;
            put_out(outs, at, text)
        }
        Act::Flush(family, pieces) => flush(alloc, at, *family, pieces.items(), s, outs),
    }
}

// One output.
fn put_out(outs: &mut Outs, at: &Moment<'_>, text: Text) -> Result<(), AllocError>
    ensures { OnOk result (outs.new ≡ outs.old ++ outputs_at at.now.event.now.time at.now.tag (text ∷ [])) }
{
    outs.push(Out {
        time: at.event.time,
        tag: at.tag,
        text,
    })
}

// One output for each key of a family whose cell is not neutral, and then all its cells become neutral.
fn flush(
    alloc: Global,
    at: &Moment<'_>,
    family: u32,
    pieces: &[Piece],
    s: &mut State,
    outs: &mut Outs,
) -> Result<(), AllocError>
    ensures cells { OnOk result (held s.new ≡ without_family (held s.old) family) }
    ensures outputs { OnOk result (outs.new ≡ outs.old ++ outputs_at at.now.event.now.time at.now.tag
        (let show = with_keys (showing at.now.show) (slice_get at.now.families.now family) in
        map (λ k. pieces_text show at.now.families.now pieces.now (held s.old) at.now.event.now k (held s.old (cell family k)))
        (held_keys (held s.old) family))) }
{
    let show = Shown {
        keys: list_of_family(at.families, family),
        ..at.show
    };
    let keys = s.keys(family)?;
    for key in &keys {
        let filling = Filling {
            show,
            families: at.families,
            state: &*s,
            event: at.event,
            key: *key,
            there: s.get(Cell { family, key: *key }),
        };
        let text = text_of(alloc, pieces, &filling)?;
        put_out(outs, at, text)?;
    }
    s.clear_family(family);
    Ok(())
}
