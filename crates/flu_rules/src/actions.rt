//! Actions and kinds.

ghost use Rattle.std.specs.Prelude.{◌≡◌};
ghost use Rattle.std.specs.List.{list_all};
ghost use Rattle.flu_model.specs.Rules.{act_fits, guard_fits, action_fits, kind_fits};

use crate::expressions::{is_good_expr, is_keyed, ref_fits, ref_has_sort};
use crate::templates::{emit_template_fits, flush_template_fits};
use flu_model::{Act, Action, Expr, Family, Kind, Sort};
use flu_names::is_name;

/// The most actions that a kind has.
const MOST_ACTIONS: usize = 32;

/// Whether a kind has a name and at most 32 actions, and its actions fit it.
pub fn kind_fits(families: &[Family], kind: &Kind) -> bool
    ensures { result ≡ kind_fits families.now kind.now }
{
    let actions = kind.actions.items();
    is_name(kind.name.as_str())
        && actions.len() <= MOST_ACTIONS
        && actions_fit(families, kind.keyed, kind.has_value, actions)
}

fn actions_fit(families: &[Family], keyed: bool, has_value: bool, actions: &[Action]) -> bool
    ensures { result ≡ list_all (action_fits families.now keyed has_value) actions.now }
{
    actions
        .iter()
        .all(|action| action_fits(families, keyed, has_value, action))
}

fn action_fits(families: &[Family], keyed: bool, has_value: bool, action: &Action) -> bool
    ensures { result ≡ action_fits families.now keyed has_value action.now }
{
    act_fits(families, keyed, has_value, &action.act)
        && guard_fits(families, keyed, has_value, &action.guard)
}

fn guard_fits(families: &[Family], keyed: bool, has_value: bool, guard: &Option<Expr>) -> bool
    ensures { result ≡ guard_fits families.now keyed has_value guard.now }
{
    match guard {
        Some(expr) => is_good_expr(families, keyed, has_value, expr),
        None => true,
    }
}

fn act_fits(families: &[Family], keyed: bool, has_value: bool, act: &Act) -> bool
    ensures { result ≡ act_fits families.now keyed has_value act.now }
{
    match act {
        Act::Add(cell, expr) => {
            ref_fits(families, keyed, cell)
                && ref_has_sort(families, Sort::Sum, cell)
                && is_good_expr(families, keyed, has_value, expr)
        }
        Act::Raise(cell, expr) => {
            ref_fits(families, keyed, cell)
                && ref_has_sort(families, Sort::Max, cell)
                && is_good_expr(families, keyed, has_value, expr)
        }
        Act::Set(cell, expr) => {
            ref_fits(families, keyed, cell)
                && ref_has_sort(families, Sort::Last, cell)
                && is_good_expr(families, keyed, has_value, expr)
        }
        Act::Clear(cell) => ref_fits(families, keyed, cell),
        Act::ClearFamily(family) => is_keyed(families, *family),
        Act::Emit(pieces) => emit_template_fits(families, keyed, has_value, pieces.items()),
        Act::Flush(family, pieces) => is_keyed(families, *family)
            && flush_template_fits(families, *family, has_value, pieces.items()),
    }
}
