//! References to cells and expressions, under a kind that is keyed or not and has a value or not.

ghost use Rattle.std.specs.Prelude.{◌≡◌, nat_le, slice_get};
ghost use Rattle.flu_model.specs.Rules.{is_literal, key_fits, family_fits, has_sort, is_declared, is_keyed, ref_fits, ref_has_sort};
ghost use Rattle.flu_model.specs.Rules.{expr_fits, height, is_good_expr};

use flu_model::{At, CellRef, Expr, Family, KEY_COUNT, Sort};

/// The greatest height of an expression.
const MOST_LEVELS: u32 = 32;

/// Whether a reference names a declared family, and a cell of it where the family has such: `key` only in a keyed kind. Whether the
/// kind has items is asked elsewhere (`fit_version`).
pub fn ref_fits(families: &[Family], kind_keyed: bool, cell: &CellRef) -> bool
    ensures { result ≡ ref_fits families.now kind_keyed cell.now }
{
    match families.get(cell.family as usize) {
        Some(family) => key_fits(family.keyed, kind_keyed, &cell.at),
        None => false,
    }
}

fn key_fits(family_keyed: bool, kind_keyed: bool, at: &At) -> bool
    ensures { result ≡ key_fits family_keyed kind_keyed at.now }
{
    match at {
        At::Alone => !family_keyed,
        At::OwnKey => family_keyed && kind_keyed,
        At::OwnItem => family_keyed,
        At::Fixed(key) => family_keyed && *key < KEY_COUNT,
    }
}

/// Whether a reference names a declared family of this sort.
pub fn ref_has_sort(families: &[Family], sort: Sort, cell: &CellRef) -> bool
    ensures { result ≡ ref_has_sort families.now sort cell.now }
{
    match families.get(cell.family as usize) {
        Some(family) => family.sort == sort,
        None => false,
    }
}

/// Whether the number of a family is that of a keyed one.
pub fn is_keyed(families: &[Family], family: u32) -> bool
    ensures { result ≡ is_keyed (slice_get families.now family) }
{
    match families.get(family as usize) {
        Some(family) => family.keyed,
        None => false,
    }
}

/// Whether the number of a family is that of a declared one.
pub fn is_declared(families: &[Family], family: u32) -> bool
    ensures { result ≡ is_declared (slice_get families.now family) }
{
    families.get(family as usize).is_some()
}

/// Whether an expression fits its kind and is at most 32 levels high. No more than these are gone down.
pub fn is_good_expr(families: &[Family], keyed: bool, has_value: bool, expr: &Expr) -> bool
    ensures { result ≡ is_good_expr families.now keyed has_value expr.now }
{
    is_within(expr, MOST_LEVELS) && expr_fits(families, keyed, has_value, expr)
}

// Whether an expression has at most this height.
fn is_within(expr: &Expr, levels: u32) -> bool
    ensures { result ≡ nat_le (height expr.now) levels }
{
    if levels == 0 {
        return false;
    }
    match expr {
        Expr::Lit(_)
        | Expr::Value
        | Expr::Key
        | Expr::Item
        | Expr::Time
        | Expr::Read(_)
        | Expr::Has(_) => true,
        Expr::Neg(inner) | Expr::Not(inner) => is_within(inner, levels - 1),
        Expr::Two(_, left, right) => is_within(left, levels - 1) && is_within(right, levels - 1),
    }
}

fn expr_fits(families: &[Family], keyed: bool, has_value: bool, expr: &Expr) -> bool
    ensures { result ≡ expr_fits families.now keyed has_value expr.now }
{
    match expr {
        Expr::Lit(number) => is_literal(*number),
        Expr::Item | Expr::Time => true,
        Expr::Value => has_value,
        Expr::Key => keyed,
        Expr::Read(cell) | Expr::Has(cell) => ref_fits(families, keyed, cell),
        Expr::Neg(inner) | Expr::Not(inner) => expr_fits(families, keyed, has_value, inner),
        Expr::Two(_, left, right) => {
            expr_fits(families, keyed, has_value, left)
                && expr_fits(families, keyed, has_value, right)
        }
    }
}

// A job text writes no negative number.
fn is_literal(number: i64) -> bool
    ensures { result ≡ is_literal number }
{
    number >= 0
}
