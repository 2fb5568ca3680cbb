//! The cells that tags read, overwrite and mix into, gathered from the text of their kinds' actions.

ghost use Rattle.std.specs.Prelude.{◌≡◌, ◌==◌, ◌&&◌, ◌||◌, slice_get, OnOk};
ghost use Rattle.std.specs.List.{list_any};
ghost use Rattle.flu_model.specs.Contents.{is_same_cell};
ghost use Rattle.flu_model.specs.Modes as modes;
ghost use Rattle.flu_model.specs.Updates as updates;
ghost use Rattle.flu_fork.specs.Gathering.{GrowsBy, GrowsBut, IsMeant, is_target};

use flu_cells::CellSet;
use flu_model::{Act, Action, At, Cell, CellRef, Expr, Piece, Program, Tag, actions_of, cell_of};
use std::alloc::AllocError;

/// Adds the cells that a tag's actions read, but those of another set. A family that they read as a whole is put in as a whole: where
/// it is used it counts without the cells of the other set.
pub fn add_reads(set: &mut CellSet, unless: &CellSet, p: &Program, t: Tag) -> Result<(), AllocError>
    ensures { OnOk result (GrowsBut unless.now set.old set.new
        (λ c. list_any (modes.action_reads t.key c) (updates.actions_of (slice_get p.now.kinds t.kind)))) }
{
    read_by_actions(set, unless, actions_of(p, t), t.key)
}

/// Adds the cells that a tag's actions overwrite, and where `mixed` is true those that they add to and raise.
pub fn add_targets(set: &mut CellSet, mixed: bool, p: &Program, t: Tag) -> Result<(), AllocError>
    ensures { OnOk result (GrowsBy set.old set.new (λ c. list_any (λ a. is_target mixed t.key c a.act) (updates.actions_of (slice_get p.now.kinds t.kind)))) }
{
    targets_of_actions(set, mixed, actions_of(p, t), t.key)
}

// Each of the functions below adds the cells that its third argument reads, for a tag with the key, but those of another set, as
// `add_reads` does.

fn read_by_actions(
    set: &mut CellSet,
    unless: &CellSet,
    actions: &[Action],
    key: u32,
) -> Result<(), AllocError>
    ensures { OnOk result (GrowsBut unless.now set.old set.new (λ c. list_any (modes.action_reads key c) actions.now)) }
{
    for action in actions {
        read_by_action(set, unless, action, key)?;
    }
    Ok(())
}

fn read_by_action(
    set: &mut CellSet,
    unless: &CellSet,
    action: &Action,
    key: u32,
) -> Result<(), AllocError>
    ensures { OnOk result (GrowsBut unless.now set.old set.new (λ c. modes.action_reads key c action.now)) }
{
    read_by_guard(set, unless, &action.guard, key)?;
    read_by_act(set, unless, &action.act, key)
}

fn read_by_guard(
    set: &mut CellSet,
    unless: &CellSet,
    guard: &Option<Expr>,
    key: u32,
) -> Result<(), AllocError>
    ensures { OnOk result (GrowsBut unless.now set.old set.new (λ c. modes.guard_reads key c guard.now)) }
{
    match guard {
        Some(e) => read_by_expr(set, unless, e, key),
        None => Ok(()),
    }
}

fn read_by_act(set: &mut CellSet, unless: &CellSet, act: &Act, key: u32) -> Result<(), AllocError>
    ensures { OnOk result (GrowsBut unless.now set.old set.new (λ c. modes.act_reads key c act.now)) }
{
    match act {
        Act::Add(_, e) | Act::Raise(_, e) | Act::Set(_, e) => read_by_expr(set, unless, e, key),
        Act::Clear(_) | Act::ClearFamily(_) => Ok(()),
        Act::Emit(pieces) | Act::Flush(_, pieces) => {
            read_by_pieces(set, unless, pieces.items(), key)
        }
    }
}

fn read_by_pieces(
    set: &mut CellSet,
    unless: &CellSet,
    pieces: &[Piece],
    key: u32,
) -> Result<(), AllocError>
    ensures { OnOk result (GrowsBut unless.now set.old set.new (λ c. list_any (modes.piece_reads key c) pieces.now)) }
{
    for piece in pieces {
        read_by_piece(set, unless, piece, key)?;
    }
    Ok(())
}

fn read_by_piece(
    set: &mut CellSet,
    unless: &CellSet,
    piece: &Piece,
    key: u32,
) -> Result<(), AllocError>
    ensures { OnOk result (GrowsBut unless.now set.old set.new (λ c. modes.piece_reads key c piece.now)) }
{
    match piece {
        Piece::Read(r) => read_by_ref(set, unless, *r, key),
        Piece::FamilyCell(family) => add_family_unless(set, unless, *family),
        Piece::Plain(_)
        | Piece::Value
        | Piece::Key
        | Piece::Item
        | Piece::Time
        | Piece::CellValue => Ok(()),
    }
}

fn read_by_expr(set: &mut CellSet, unless: &CellSet, e: &Expr, key: u32) -> Result<(), AllocError>
    ensures { OnOk result (GrowsBut unless.now set.old set.new (λ c. modes.expr_reads key c e.now)) }
{
    match e {
        Expr::Lit(_) | Expr::Value | Expr::Key | Expr::Item | Expr::Time => Ok(()),
        Expr::Read(r) | Expr::Has(r) => read_by_ref(set, unless, *r, key),
        Expr::Neg(inner) | Expr::Not(inner) => read_by_expr(set, unless, inner, key),
        Expr::Two(_, left, right) => {
            read_by_expr(set, unless, left, key)?;
            read_by_expr(set, unless, right, key)
        }
    }
}

fn read_by_ref(set: &mut CellSet, unless: &CellSet, r: CellRef, key: u32) -> Result<(), AllocError>
    ensures { OnOk result (GrowsBut unless.now set.old set.new (λ c. modes.means key c r)) }
{
    match whole_or_one(r, key) {
        None => add_family_unless(set, unless, r.family),
        Some(cell) => add_unless(set, unless, cell),
    }
}

fn add_unless(set: &mut CellSet, unless: &CellSet, cell: Cell) -> Result<(), AllocError>
    ensures { OnOk result (GrowsBut unless.now set.old set.new (λ c. is_same_cell cell c)) }
{
    if unless.has(cell) {
        return Ok(());
    }
    set.add(cell)
}

fn add_family_unless(set: &mut CellSet, unless: &CellSet, family: u32) -> Result<(), AllocError>
    ensures { OnOk result (GrowsBut unless.now set.old set.new (λ c. c.family == family)) }
{
    if unless.has_family(family) {
        return Ok(());
    }
    set.add_family(family)
}

// The one cell that a reference means, for a tag with the key; none where it means its whole family.
fn whole_or_one(r: CellRef, key: u32) -> Option<Cell>
    ensures { IsMeant key r result }
{
    match r.at {
        At::OwnItem => None,
        At::Alone | At::OwnKey | At::Fixed(_) => Some(cell_of(r, key, 0)),
    }
}

// Each of the functions below adds the targets of its third argument, for a tag with the key.

fn targets_of_actions(
    set: &mut CellSet,
    mixed: bool,
    actions: &[Action],
    key: u32,
) -> Result<(), AllocError>
    ensures { OnOk result (GrowsBy set.old set.new (λ c. list_any (λ a. is_target mixed key c a.act) actions.now)) }
{
    for action in actions {
        targets_of_act(set, mixed, &action.act, key)?;
    }
    Ok(())
}

fn targets_of_act(set: &mut CellSet, mixed: bool, act: &Act, key: u32) -> Result<(), AllocError>
    ensures { OnOk result (GrowsBy set.old set.new (λ c. is_target mixed key c act.now)) }
{
    match act {
        Act::Add(r, _) | Act::Raise(r, _) => target_if(set, mixed, *r, key),
        Act::Set(r, _) | Act::Clear(r) => target(set, *r, key),
        Act::ClearFamily(family) | Act::Flush(family, _) => set.add_family(*family),
        Act::Emit(_) => Ok(()),
    }
}

fn target_if(set: &mut CellSet, wanted: bool, r: CellRef, key: u32) -> Result<(), AllocError>
    ensures { OnOk result (GrowsBy set.old set.new (λ c. wanted && modes.means key c r)) }
{
    if !wanted {
        return Ok(());
    }
    target(set, r, key)
}

fn target(set: &mut CellSet, r: CellRef, key: u32) -> Result<(), AllocError>
    ensures { OnOk result (GrowsBy set.old set.new (λ c. modes.means key c r)) }
{
    match whole_or_one(r, key) {
        None => set.add_family(r.family),
        Some(cell) => set.add(cell),
    }
}
