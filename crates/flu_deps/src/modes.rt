//! How a tag uses a cell, read from the text of its kind's actions.

ghost use Rattle.std.specs.Prelude.{◌≡◌, ◌==◌, slice_get};
ghost use Rattle.std.specs.List.{list_any};
ghost use Rattle.flu_model.specs.Modes as modes;

use flu_model::{Act, Action, At, Cell, CellRef, Expr, Mode, Piece, Program, Tag, actions_of};

/// The mode of a tag on a cell, by whether its kind's actions read the cell (in an expression, a guard or a text), overwrite it
/// (by `set`, `clear` or `flush`), add to it or raise it; `key` is the tag's key. What is named by the event's item is every cell of
/// the family.
///
/// In version 1 of the job's language it is Own if they read or overwrite the cell; in the versions after it it is Own if they
/// overwrite it, or read it and add to it or raise it, and Read if they only read it. Otherwise it is Add, Raise or None. It takes no memory.
pub fn mode(p: &Program, t: Tag, c: Cell) -> Mode
    ensures { result ≡ modes.mode_of p.now t c }
{
    mode_among(p.version, actions_of(p, t), t.key, c)
}

fn mode_among(version: u32, actions: &[Action], key: u32, c: Cell) -> Mode
    ensures { result ≡ modes.mode_among version actions.now key c }
{
    let reads = some_reads(actions, key, c);
    let overwrites = some_overwrites(actions, key, c);
    let adds = some_adds(actions, key, c);
    let raises = some_raises(actions, key, c);
    if version == 1 {
        mode_in_version_1(reads, overwrites, adds, raises)
    } else {
        mode_with_reads(reads, overwrites, adds, raises)
    }
}

fn mode_in_version_1(reads: bool, overwrites: bool, adds: bool, raises: bool) -> Mode
    ensures { result ≡ modes.mode_in_version_1 reads overwrites adds raises }
{
    if reads || overwrites {
        Mode::Own
    } else {
        mixed_mode(adds, raises)
    }
}

fn mode_with_reads(reads: bool, overwrites: bool, adds: bool, raises: bool) -> Mode
    ensures { result ≡ modes.mode_with_reads reads overwrites adds raises }
{
    if overwrites || (reads && (adds || raises)) {
        Mode::Own
    } else if reads {
        Mode::Read
    } else {
        mixed_mode(adds, raises)
    }
}

fn mixed_mode(adds: bool, raises: bool) -> Mode
    ensures { result ≡ modes.mixed_mode adds raises }
{
    if adds {
        Mode::Add
    } else if raises {
        Mode::Raise
    } else {
        Mode::None
    }
}

fn some_reads(actions: &[Action], key: u32, c: Cell) -> bool
    ensures { result ≡ list_any (modes.action_reads key c) actions.now }
{
    actions.iter().any(|action| action_reads(action, key, c))
}

fn some_overwrites(actions: &[Action], key: u32, c: Cell) -> bool
    ensures { result ≡ list_any (λ a. modes.act_overwrites key c a.act) actions.now }
{
    actions.iter().any(|action| overwrites(&action.act, key, c))
}

fn some_adds(actions: &[Action], key: u32, c: Cell) -> bool
    ensures { result ≡ list_any (λ a. modes.act_adds key c a.act) actions.now }
{
    actions.iter().any(|action| adds(&action.act, key, c))
}

fn some_raises(actions: &[Action], key: u32, c: Cell) -> bool
    ensures { result ≡ list_any (λ a. modes.act_raises key c a.act) actions.now }
{
    actions.iter().any(|action| raises(&action.act, key, c))
}

fn action_reads(action: &Action, key: u32, c: Cell) -> bool
    ensures { result ≡ modes.action_reads key c action.now }
{
    guard_reads(&action.guard, key, c) || act_reads(&action.act, key, c)
}

fn overwrites(act: &Act, key: u32, c: Cell) -> bool
    ensures { result ≡ modes.act_overwrites key c act.now }
{
    match act {
        Act::Set(r, _) | Act::Clear(r) => means(*r, key, c),
        Act::ClearFamily(family) | Act::Flush(family, _) => c.family == *family,
        Act::Add(_, _) | Act::Raise(_, _) | Act::Emit(_) => false,
    }
}

fn adds(act: &Act, key: u32, c: Cell) -> bool
    ensures { result ≡ modes.act_adds key c act.now }
{
    match act {
        Act::Add(r, _) => means(*r, key, c),
        Act::Raise(_, _)
        | Act::Set(_, _)
        | Act::Clear(_)
        | Act::ClearFamily(_)
        | Act::Emit(_)
        | Act::Flush(_, _) => false,
    }
}

fn raises(act: &Act, key: u32, c: Cell) -> bool
    ensures { result ≡ modes.act_raises key c act.now }
{
    match act {
        Act::Raise(r, _) => means(*r, key, c),
        Act::Add(_, _)
        | Act::Set(_, _)
        | Act::Clear(_)
        | Act::ClearFamily(_)
        | Act::Emit(_)
        | Act::Flush(_, _) => false,
    }
}

fn act_reads(act: &Act, key: u32, c: Cell) -> bool
    ensures { result ≡ modes.act_reads key c act.now }
{
    match act {
        Act::Add(_, e) | Act::Raise(_, e) | Act::Set(_, e) => reads(e, key, c),
        Act::Clear(_) | Act::ClearFamily(_) => false,
        Act::Emit(pieces) | Act::Flush(_, pieces) => some_piece_reads(pieces.items(), key, c),
    }
}

fn guard_reads(guard: &Option<Expr>, key: u32, c: Cell) -> bool
    ensures { result ≡ modes.guard_reads key c guard.now }
{
    match guard {
        Some(e) => reads(e, key, c),
        None => false,
    }
}

// Whether an expression reads the cell.
fn reads(e: &Expr, key: u32, c: Cell) -> bool
    ensures { result ≡ modes.expr_reads key c e.now }
{
    match e {
        Expr::Lit(_) | Expr::Value | Expr::Key | Expr::Item | Expr::Time => false,
        Expr::Read(r) | Expr::Has(r) => means(*r, key, c),
        Expr::Neg(inner) | Expr::Not(inner) => reads(inner, key, c),
        Expr::Two(_, left, right) => reads(left, key, c) || reads(right, key, c),
    }
}

fn some_piece_reads(pieces: &[Piece], key: u32, c: Cell) -> bool
    ensures { result ≡ list_any (modes.piece_reads key c) pieces.now }
{
    pieces.iter().any(|piece| piece_reads(piece, key, c))
}

fn piece_reads(piece: &Piece, key: u32, c: Cell) -> bool
    ensures { result ≡ modes.piece_reads key c piece.now }
{
    match piece {
        Piece::Read(r) => means(*r, key, c),
        Piece::FamilyCell(family) => c.family == *family,
        Piece::Plain(_)
        | Piece::Value
        | Piece::Key
        | Piece::Item
        | Piece::Time
        | Piece::CellValue => false,
    }
}

// Whether a reference means the cell, for a tag with this key.
fn means(r: CellRef, key: u32, c: Cell) -> bool
    ensures { result ≡ modes.means key c r }
{
    r.family == c.family && is_at(r.at, key, c.key)
}

// For a tag with the first key, whether a cell with the second one is meant.
fn is_at(at: At, own: u32, key: u32) -> bool
    ensures { result ≡ modes.is_at at own key }
{
    match at {
        At::Alone => 0 == key,
        At::OwnKey => own == key,
        At::OwnItem => true,
        At::Fixed(fixed) => fixed == key,
    }
}
