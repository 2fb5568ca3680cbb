//! What the versions of the language have (`docs/LANGUAGE.md`): items, division, families that are cleared whole and fields of a flush
//! that name a family came with version 3. What asks for an item stands under kinds that have items alone.

ghost use Rattle.std.specs.Prelude.{◌≡◌};
ghost use Rattle.std.specs.List.{list_all, list_any};
ghost use Rattle.flu_model.specs.Versions.{at_takes_item, expr_takes_item, piece_takes_item, act_takes_item, guard_takes_item, action_takes_item};
ghost use Rattle.flu_model.specs.Versions.{items_fit, op_divides, expr_divides, piece_names_family, act_is_newer, guard_divides, action_is_newer};
ghost use Rattle.flu_model.specs.Versions.{is_older_kind, is_named_item, fit_version};

use flu_model::{Act, Action, At, Expr, Family, Kind, Op, Piece};

/// The version with items.
const VERSION_WITH_ITEMS: u32 = 3;

/// Whether the actions of a job ask for items only where their kinds have such, and families and kinds are as this version of the
/// language has them.
pub fn fit_version(version: u32, families: &[Family], kinds: &[Kind]) -> bool
    ensures { result ≡ fit_version version families.now kinds.now }
{
    have_items(kinds)
        && if version == VERSION_WITH_ITEMS {
            !has_name_of_item(families)
        } else {
            are_older_kinds(kinds)
        }
}

fn have_items(kinds: &[Kind]) -> bool
    ensures { result ≡ list_all items_fit kinds.now }
{
    kinds.iter().all(|kind| items_fit(kind))
}

fn are_older_kinds(kinds: &[Kind]) -> bool
    ensures { result ≡ list_all is_older_kind kinds.now }
{
    kinds.iter().all(|kind| is_older_kind(kind))
}

fn has_name_of_item(families: &[Family]) -> bool
    ensures { result ≡ list_any is_named_item families.now }
{
    families.iter().any(|family| is_named_item(family))
}

// In version 3 `item` is the event's item wherever a cell's name may be, so no family has this name.
fn is_named_item(family: &Family) -> bool
    ensures { result ≡ is_named_item family.now }
{
    family.name.as_str() == "item"
}

// Whether only the actions of a kind that has items ask for one.
fn items_fit(kind: &Kind) -> bool
    ensures { result ≡ items_fit kind.now }
{
    kind.has_item || !take_items(kind.actions.items())
}

fn take_items(actions: &[Action]) -> bool
    ensures { result ≡ list_any action_takes_item actions.now }
{
    actions.iter().any(|action| action_takes_item(action))
}

fn action_takes_item(action: &Action) -> bool
    ensures { result ≡ action_takes_item action.now }
{
    act_takes_item(&action.act) || guard_takes_item(&action.guard)
}

fn guard_takes_item(guard: &Option<Expr>) -> bool
    ensures { result ≡ guard_takes_item guard.now }
{
    match guard {
        Some(expr) => expr_takes_item(expr),
        None => false,
    }
}

fn act_takes_item(act: &Act) -> bool
    ensures { result ≡ act_takes_item act.now }
{
    match act {
        Act::Add(cell, expr) | Act::Raise(cell, expr) | Act::Set(cell, expr) => {
            at_takes_item(&cell.at) || expr_takes_item(expr)
        }
        Act::Clear(cell) => at_takes_item(&cell.at),
        Act::ClearFamily(_) => false,
        Act::Emit(pieces) => template_takes_item(pieces.items()),
        Act::Flush(_, pieces) => template_takes_item(pieces.items()),
    }
}

fn template_takes_item(pieces: &[Piece]) -> bool
    ensures { result ≡ list_any piece_takes_item pieces.now }
{
    pieces.iter().any(|piece| piece_takes_item(piece))
}

fn piece_takes_item(piece: &Piece) -> bool
    ensures { result ≡ piece_takes_item piece.now }
{
    match piece {
        Piece::Item => true,
        Piece::Read(cell) => at_takes_item(&cell.at),
        Piece::Plain(_)
        | Piece::Value
        | Piece::Key
        | Piece::Time
        | Piece::CellValue
        | Piece::FamilyCell(_) => false,
    }
}

fn expr_takes_item(expr: &Expr) -> bool
    ensures { result ≡ expr_takes_item expr.now }
{
    match expr {
        Expr::Item => true,
        Expr::Read(cell) | Expr::Has(cell) => at_takes_item(&cell.at),
        Expr::Lit(_) | Expr::Value | Expr::Key | Expr::Time => false,
        Expr::Neg(inner) | Expr::Not(inner) => expr_takes_item(inner),
        Expr::Two(_, left, right) => expr_takes_item(left) || expr_takes_item(right),
    }
}

fn at_takes_item(at: &At) -> bool
    ensures { result ≡ at_takes_item at.now }
{
    match at {
        At::OwnItem => true,
        At::Alone | At::OwnKey | At::Fixed(_) => false,
    }
}

// Whether a kind is as the versions before version 3 have it.
fn is_older_kind(kind: &Kind) -> bool
    ensures { result ≡ is_older_kind kind.now }
{
    !kind.has_item && !are_newer(kind.actions.items())
}

fn are_newer(actions: &[Action]) -> bool
    ensures { result ≡ list_any action_is_newer actions.now }
{
    actions.iter().any(|action| action_is_newer(action))
}

fn action_is_newer(action: &Action) -> bool
    ensures { result ≡ action_is_newer action.now }
{
    act_is_newer(&action.act) || guard_divides(&action.guard)
}

fn guard_divides(guard: &Option<Expr>) -> bool
    ensures { result ≡ guard_divides guard.now }
{
    match guard {
        Some(expr) => expr_divides(expr),
        None => false,
    }
}

fn act_is_newer(act: &Act) -> bool
    ensures { result ≡ act_is_newer act.now }
{
    match act {
        Act::Add(_, expr) | Act::Raise(_, expr) | Act::Set(_, expr) => expr_divides(expr),
        Act::Clear(_) | Act::Emit(_) => false,
        Act::ClearFamily(_) => true,
        Act::Flush(_, pieces) => template_names_family(pieces.items()),
    }
}

fn template_names_family(pieces: &[Piece]) -> bool
    ensures { result ≡ list_any piece_names_family pieces.now }
{
    pieces.iter().any(|piece| piece_names_family(piece))
}

fn piece_names_family(piece: &Piece) -> bool
    ensures { result ≡ piece_names_family piece.now }
{
    matches!(piece, Piece::FamilyCell(_))
}

fn expr_divides(expr: &Expr) -> bool
    ensures { result ≡ expr_divides expr.now }
{
    match expr {
        Expr::Lit(_)
        | Expr::Value
        | Expr::Key
        | Expr::Item
        | Expr::Time
        | Expr::Read(_)
        | Expr::Has(_) => false,
        Expr::Neg(inner) | Expr::Not(inner) => expr_divides(inner),
        Expr::Two(op, left, right) => {
            op_divides(*op) || expr_divides(left) || expr_divides(right)
        }
    }
}

fn op_divides(op: Op) -> bool
    ensures { result ≡ op_divides op }
{
    matches!(op, Op::Divide | Op::Remainder)
}
