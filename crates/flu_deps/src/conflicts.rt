//! Where two tags conflict.

ghost use Rattle.std.specs.Prelude.{◌≡◌, ◌&&◌, IfSome, IfNone, IsTrue};
ghost use Rattle.flu_model.specs.Contents.{cell};
ghost use Rattle.flu_model.specs.Modes as modes;
ghost use Rattle.flu_model.specs.Rules.{tag_fits};
ghost use Rattle.flu_model.specs.Sorts.{is_cell_of};
ghost use Rattle.flu_deps.specs.Conflicts.{conflicts_on, IsFirstConflict, NeverConflict};
ghost use Rattle.flu_deps.specs.LoopNamed.{expr_cells, guard_cells, piece_cells, pieces_cells, act_cells, action_cells, actions_cells, is_before_best, better};
ghost use Rattle.flu_deps.specs.LoopNamed.{best_among};

use crate::modes::mode;
use flu_model::{Act, Action, Cell, Expr, Mode, Piece, Program, Tag, actions_of, cell_of};

/// Two tags that may conflict.
#[derive(Clone, Copy)]
struct Pair {
    a: Tag,
    b: Tag,
}

/// The first cell, by family as declared and then by key, on which two tags conflict, dependent or not: both use it, and
/// they neither both only add to it, nor both only raise it, nor, in the versions after version 1, both only read it. None if there
/// is no such cell.
///
/// The cell is one of the job's if the tags are. It takes no memory.
pub fn conflict(p: &Program, a: Tag, b: Tag) -> Option<Cell>
    ensures first { IfSome result (IsFirstConflict p.now a b) }
    ensures none { IfNone result (NeverConflict p.now a b) }
    ensures declared { IsTrue (tag_fits p.now.kinds a && tag_fits p.now.kinds b) → IfSome result (λ c. IsTrue (is_cell_of p.now.families c)) }
{
    let pair = Pair { a, b };
    let best = among_actions(p, pair, None, a.key, actions_of(p, a));
    among_actions(p, pair, best, b.key, actions_of(p, b))
}

// Each of the functions below returns the first of the cell so far and the cells that its last argument names, for a tag with
// the key, and on which the two tags conflict. A reference by the event's item names the first cell of its family, that of item 0: it
// means them all, and the first stands for those that nothing else names.

fn among_actions(
    p: &Program,
    pair: Pair,
    best: Option<Cell>,
    key: u32,
    actions: &[Action],
) -> Option<Cell>
    ensures { result ≡ best_among (conflicts_on p.now pair.a pair.b) best (actions_cells key actions.now) }
{
    let mut best = best;
    for action in actions {
        best = among_action(p, pair, best, key, action);
    }
    best
}

#[tactic(auto, using(crate::proofs::BestLemmas::appended))]
fn among_action(
    p: &Program,
    pair: Pair,
    best: Option<Cell>,
    key: u32,
    action: &Action,
) -> Option<Cell>
    ensures { result ≡ best_among (conflicts_on p.now pair.a pair.b) best (action_cells key action.now) }
{
    let best = among_guard(p, pair, best, key, &action.guard);
    among_act(p, pair, best, key, &action.act)
}

fn among_guard(
    p: &Program,
    pair: Pair,
    best: Option<Cell>,
    key: u32,
    guard: &Option<Expr>,
) -> Option<Cell>
    ensures { result ≡ best_among (conflicts_on p.now pair.a pair.b) best (guard_cells key guard.now) }
{
    match guard {
        Some(e) => among_expr(p, pair, best, key, e),
        None => best,
    }
}

fn among_act(p: &Program, pair: Pair, best: Option<Cell>, key: u32, act: &Act) -> Option<Cell>
    ensures { result ≡ best_among (conflicts_on p.now pair.a pair.b) best (act_cells key act.now) }
{
    match act {
        Act::Add(r, e) | Act::Raise(r, e) | Act::Set(r, e) => {
            let best = better(p, pair, best, cell_of(*r, key, 0));
            among_expr(p, pair, best, key, e)
        }
        Act::Clear(r) => better(p, pair, best, cell_of(*r, key, 0)),
        Act::ClearFamily(family) => better(p, pair, best, first_of(*family)),
        Act::Emit(pieces) => among_pieces(p, pair, best, key, pieces.items()),
        Act::Flush(family, pieces) => {
            let best = better(p, pair, best, first_of(*family));
            among_pieces(p, pair, best, key, pieces.items())
        }
    }
}

fn among_pieces(
    p: &Program,
    pair: Pair,
    best: Option<Cell>,
    key: u32,
    pieces: &[Piece],
) -> Option<Cell>
    ensures { result ≡ best_among (conflicts_on p.now pair.a pair.b) best (pieces_cells key pieces.now) }
{
    let mut best = best;
    for piece in pieces {
        best = among_piece(p, pair, best, key, piece);
    }
    best
}

fn among_piece(p: &Program, pair: Pair, best: Option<Cell>, key: u32, piece: &Piece) -> Option<Cell>
    ensures { result ≡ best_among (conflicts_on p.now pair.a pair.b) best (piece_cells key piece.now) }
{
    match piece {
        Piece::Read(r) => better(p, pair, best, cell_of(*r, key, 0)),
        Piece::FamilyCell(family) => better(p, pair, best, first_of(*family)),
        Piece::Plain(_)
        | Piece::Value
        | Piece::Key
        | Piece::Item
        | Piece::Time
        | Piece::CellValue => best,
    }
}

#[tactic(auto, using(crate::proofs::BestLemmas::appended))]
fn among_expr(p: &Program, pair: Pair, best: Option<Cell>, key: u32, e: &Expr) -> Option<Cell>
    ensures { result ≡ best_among (conflicts_on p.now pair.a pair.b) best (expr_cells key e.now) }
{
    match e {
        Expr::Lit(_) | Expr::Value | Expr::Key | Expr::Item | Expr::Time => best,
        Expr::Read(r) | Expr::Has(r) => better(p, pair, best, cell_of(*r, key, 0)),
        Expr::Neg(inner) | Expr::Not(inner) => among_expr(p, pair, best, key, inner),
        Expr::Two(_, left, right) => {
            let best = among_expr(p, pair, best, key, left);
            among_expr(p, pair, best, key, right)
        }
    }
}

// The first cell of a family, which stands for all those that are touched only as cells of the whole family.
fn first_of(family: u32) -> Cell
    ensures { result ≡ cell family 0 }
{
    Cell { family, key: 0 }
}

// The cell so far, or another one if the tags conflict on it and it is before that.
fn better(p: &Program, pair: Pair, best: Option<Cell>, c: Cell) -> Option<Cell>
    ensures { result ≡ better (conflicts_on p.now pair.a pair.b) best c }
{
    if is_before_best(c, best) && conflicts_on(p, pair, c) {
        Some(c)
    } else {
        best
    }
}

fn is_before_best(c: Cell, best: Option<Cell>) -> bool
    ensures { result ≡ is_before_best c best }
{
    match best {
        Some(d) => c.cmp(&d).is_lt(),
        None => true,
    }
}

fn conflicts_on(p: &Program, pair: Pair, c: Cell) -> bool
    ensures { result ≡ conflicts_on p.now pair.a pair.b c }
{
    modes_conflict(mode(p, pair.a, c), mode(p, pair.b, c))
}

fn modes_conflict(m: Mode, n: Mode) -> bool
    ensures { result ≡ modes.modes_conflict m n }
{
    uses(m) && uses(n) && !share(m, n)
}

fn uses(m: Mode) -> bool
    ensures { result ≡ modes.uses m }
{
    !matches!(m, Mode::None)
}

// Whether independent tags may use a cell in these modes.
fn share(m: Mode, n: Mode) -> bool
    ensures { result ≡ modes.share m n }
{
    match m {
        Mode::Add => matches!(n, Mode::Add),
        Mode::Raise => matches!(n, Mode::Raise),
        Mode::Read => matches!(n, Mode::Read),
        Mode::None | Mode::Own => false,
    }
}
