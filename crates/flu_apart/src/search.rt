//! The first reason why a node may not be apart: the first clock whose itag its subtree has, or the first shared use.

ghost use Rattle.std.specs.Prelude.{◌≡◌, ◌<◌, IfSome, IfNone, ◌&&◌, None};
ghost use Rattle.flu_model.specs.Itags.{count_of_itags};
ghost use Rattle.flu_model.specs.Contents.{cell};
ghost use Rattle.flu_deps.specs.Checking.{program_of};
ghost use Rattle.flu_deps.specs.Validated.{plan_of, IsValidFor};
ghost use Rattle.flu_deps.specs.LoopNamed.{expr_cells, guard_cells, piece_cells, pieces_cells, act_cells, action_cells, actions_cells};
ghost use Rattle.flu_apart.specs.Apart.{SharesNone, MayBeApart, first_clock, IsFirstUse, IsFirstReason};
ghost use Rattle.flu_apart.specs.Classes.{class_of};
ghost use Rattle.flu_apart.specs.LoopSearch as search;
ghost use Rattle.flu_apart.specs.Subtrees.{job, nodes, node, IsSubtree};

use crate::classes::{Class, Subtree, has_ticks};
use crate::reason::{Reason, SharedUse};
use flu_deps::{Checked, Valid};
use flu_model::{
    Act, Action, Cell, Expr, Itag, Piece, Program, actions_of, cell_of, itag_count, source_of,
};

/// The first reason why a node of a plan may not be apart; none if it may.
pub fn first_reason(c: &Checked, v: &Valid, w: u32) -> Option<Reason>
    requires { IsValidFor (program_of c.now) v.now }
    ensures first { IfSome result (IsFirstReason (program_of c.now) (plan_of v.now).nodes w) }
    ensures some { IfSome result (λ r. MayBeApart (program_of c.now) (plan_of v.now).nodes w → ⊥) }
    ensures none { IfNone result (MayBeApart (program_of c.now) (plan_of v.now).nodes w) }
{
    let subtree = Subtree::of(c, v, w);
    match first_clock(&subtree) {
        Some(number) => Some(Reason::Clock(number)),
        None => match first_of(&subtree) {
            Some(shared) => Some(Reason::Shared(shared)),
            None => None,
        },
    }
}

// The number of the first clock whose itag a subtree has.
fn first_clock(s: &Subtree) -> Option<u32>
    requires { IsSubtree s.now }
    ensures { result ≡ first_clock (job s.now) (nodes s.now) (node s.now) }
{
    for i in 0..itag_count(s.program) {
        if s.has(i) && has_ticks(s.program, Itag(i)) {
            return Some(source_of(s.program, Itag(i)));
        }
    }
    None
}

// The first shared use of a subtree.
fn first_of(s: &Subtree) -> Option<SharedUse>
    requires { IsSubtree s.now }
    ensures first { IfSome result (λ u. IsFirstUse (job s.now) (nodes s.now) (node s.now) u.tag u.cell) }
    ensures none { IfNone result (SharesNone (job s.now) (nodes s.now) (node s.now)) }
{
    let mut best = None;
    for i in 0..itag_count(s.program) {
        let tag = s.tag(i);
        let actions = actions_of(s.program, tag);
        best = among_actions(s, best, tag.key, actions);
    }
    best
}

// Each of the functions below returns the first of the shared use so far and the shared uses of the cells that its last argument names, for a
// tag with the key. A reference by the event's item names the first cell of its family, that of item 0: it means them all, and the
// first stands for those that nothing else names.

fn among_actions(
    s: &Subtree,
    best: Option<SharedUse>,
    key: u32,
    actions: &[Action],
) -> Option<SharedUse>
    requires { IsSubtree s.now }
    ensures { result ≡ search.best_among (job s.now) (nodes s.now) (node s.now) best (actions_cells key actions.now) }
{
    let mut best = best;
    for action in actions {
        best = among_action(s, best, key, action);
    }
    best
}

#[tactic(auto, using(crate::proofs::BestLemmas::appended))]
fn among_action(
    s: &Subtree,
    best: Option<SharedUse>,
    key: u32,
    action: &Action,
) -> Option<SharedUse>
    requires { IsSubtree s.now }
    ensures { result ≡ search.best_among (job s.now) (nodes s.now) (node s.now) best (action_cells key action.now) }
{
    let best = among_guard(s, best, key, &action.guard);
    among_act(s, best, key, &action.act)
}

fn among_guard(
    s: &Subtree,
    best: Option<SharedUse>,
    key: u32,
    guard: &Option<Expr>,
) -> Option<SharedUse>
    requires { IsSubtree s.now }
    ensures { result ≡ search.best_among (job s.now) (nodes s.now) (node s.now) best (guard_cells key guard.now) }
{
    match guard {
        Some(e) => among_expr(s, best, key, e),
        None => best,
    }
}

fn among_act(s: &Subtree, best: Option<SharedUse>, key: u32, act: &Act) -> Option<SharedUse>
    requires { IsSubtree s.now }
    ensures { result ≡ search.best_among (job s.now) (nodes s.now) (node s.now) best (act_cells key act.now) }
{
    match act {
        Act::Add(r, e) | Act::Raise(r, e) | Act::Set(r, e) => {
            let best = best_at(s, best, cell_of(*r, key, 0));
            among_expr(s, best, key, e)
        }
        Act::Clear(r) => best_at(s, best, cell_of(*r, key, 0)),
        Act::ClearFamily(family) => best_at(s, best, first_cell(*family)),
        Act::Emit(pieces) => among_pieces(s, best, key, pieces.items()),
        Act::Flush(family, pieces) => {
            let best = best_at(s, best, first_cell(*family));
            among_pieces(s, best, key, pieces.items())
        }
    }
}

fn among_pieces(
    s: &Subtree,
    best: Option<SharedUse>,
    key: u32,
    pieces: &[Piece],
) -> Option<SharedUse>
    requires { IsSubtree s.now }
    ensures { result ≡ search.best_among (job s.now) (nodes s.now) (node s.now) best (pieces_cells key pieces.now) }
{
    let mut best = best;
    for piece in pieces {
        best = among_piece(s, best, key, piece);
    }
    best
}

fn among_piece(s: &Subtree, best: Option<SharedUse>, key: u32, piece: &Piece) -> Option<SharedUse>
    requires { IsSubtree s.now }
    ensures { result ≡ search.best_among (job s.now) (nodes s.now) (node s.now) best (piece_cells key piece.now) }
{
    match piece {
        Piece::Read(r) => best_at(s, best, cell_of(*r, key, 0)),
        Piece::FamilyCell(family) => best_at(s, best, first_cell(*family)),
        Piece::Plain(_)
        | Piece::Value
        | Piece::Key
        | Piece::Item
        | Piece::Time
        | Piece::CellValue => best,
    }
}

#[tactic(auto, using(crate::proofs::BestLemmas::appended))]
fn among_expr(s: &Subtree, best: Option<SharedUse>, key: u32, e: &Expr) -> Option<SharedUse>
    requires { IsSubtree s.now }
    ensures { result ≡ search.best_among (job s.now) (nodes s.now) (node s.now) best (expr_cells key e.now) }
{
    match e {
        Expr::Lit(_) | Expr::Value | Expr::Key | Expr::Item | Expr::Time => best,
        Expr::Read(r) | Expr::Has(r) => best_at(s, best, cell_of(*r, key, 0)),
        Expr::Neg(inner) | Expr::Not(inner) => among_expr(s, best, key, inner),
        Expr::Two(_, left, right) => {
            let best = among_expr(s, best, key, left);
            among_expr(s, best, key, right)
        }
    }
}

// The first cell of a family, which stands for all those that are used only as cells of the whole family.
fn first_cell(family: u32) -> Cell
    ensures { result ≡ cell family 0 }
{
    Cell { family, key: 0 }
}

// The first of the shared use so far and the shared uses of a cell.
fn best_at(s: &Subtree, best: Option<SharedUse>, c: Cell) -> Option<SharedUse>
    requires { IsSubtree s.now }
    ensures { result ≡ search.best_at (job s.now) (nodes s.now) (node s.now) best c }
{
    if is_shared(s.class_of(c)) {
        best_of_itags(s, best, c)
    } else {
        best
    }
}

fn is_shared(class: Class) -> bool
    ensures { result ≡ search.is_shared class }
{
    matches!(class, Class::Shared)
}

// The first of the shared use so far and each tag of the subtree that uses the cell, with it.
fn best_of_itags(s: &Subtree, best: Option<SharedUse>, c: Cell) -> Option<SharedUse>
    requires { IsSubtree s.now }
    ensures { result ≡ search.best_upto (job s.now) (nodes s.now) (node s.now) c best (count_of_itags (job s.now)) }
{
    let mut best = best;
    for i in 0..itag_count(s.program) {
        best = better(s, best, i, c);
    }
    best
}

// The shared use so far, or an itag's tag with the cell if it is of the subtree, uses the cell, and is before that.
fn better(s: &Subtree, best: Option<SharedUse>, i: u32, c: Cell) -> Option<SharedUse>
    requires subtree { IsSubtree s.now }
    requires in_range { i < count_of_itags (job s.now) }
    ensures { result ≡ search.better (job s.now) (nodes s.now) (node s.now) c best i }
{
    let shared = SharedUse {
        tag: s.tag(i),
        cell: c,
    };
    if s.has_user(i, c) && is_before_best(shared, best) {
        Some(shared)
    } else {
        best
    }
}

fn is_before_best(shared: SharedUse, best: Option<SharedUse>) -> bool
    ensures { result ≡ search.is_before_best shared best }
{
    match best {
        Some(best) => shared
            .tag
            .cmp(&best.tag)
            .then(shared.cell.cmp(&best.cell))
            .is_lt(),
        None => true,
    }
}
