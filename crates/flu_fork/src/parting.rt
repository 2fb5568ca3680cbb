//! How a lot is parted between the children of a node, and how their lots come together again.

ghost use Rattle.std.specs.Prelude.{◌≡◌, ◌<◌, ℕ, not, Some, length, IsSome, IfOk};
ghost use Rattle.flu_model.specs.Contents as contents;
ghost use Rattle.flu_cells.specs.Holding.{held};
ghost use Rattle.flu_cells.specs.Sets.{only, within, outside};
ghost use Rattle.flu_fork.specs.Lots.{nodes, kids, LotFits, LotsPaired, CountsNothing, HasParts, HasCounts, PartsFitKids, IsJoined, HasJoinedCounts};
ghost use Rattle.flu_fork.specs.Tables.{is_copied_by, counts_by, count_by};

use crate::case::Case;
use crate::counts::{Counts, no_counts};
use crate::laws::{forks_fit, joins_fit, openings_fit};
use crate::lots::Lot;
use crate::rights::Right;
use flu_laws::join_undoes_split;
use flu_model::itag_count;
use std::alloc::{AllocError, Global};

/// The lot of the root at the start: the opening state, and no event.
///
/// # Errors
///
/// Only if memory runs out.
pub fn opening_lot(alloc: Global, case: &Case) -> Result<Lot, AllocError>
    ensures fits { IfOk result (λ lot. LotFits case.now 0 lot) }
    ensures state { IfOk result (λ lot. held lot.state ≡ held case.now.opening) }
    ensures counts { IfOk result (λ lot. CountsNothing case.now lot) }
{
    openings_fit();
    let itags = itag_count(case.checked().program());
    Ok(Lot {
        state: case.opening().copy()?,
        since: no_counts(alloc, itags)?,
        upto: no_counts(alloc, itags)?,
    })
}

/// The two parts of a lot for the children of its node, the left one first: what the cells hold that some itag of the right
/// child's subtree needs goes to the right part. It is moved there where some itag of that subtree writes the cell, and else
/// copied; the left part has all but what is moved (`docs/TREE.md`).
///
/// The left part keeps the counts, and the right one begins where they end.
///
/// # Errors
///
/// Only if memory runs out.
pub fn fork(alloc: Global, case: &Case, node: u32, lot: Lot) -> Result<(Lot, Lot), AllocError>
    requires node { node < length (nodes case.now) }
    requires inner { IsSome (kids case.now node) }
    requires fits { LotFits case.now node lot }
    ensures parts { IfOk result (λ parts. (l r : ℕ) → kids case.now node ≡ Some (l, r) → HasParts case.now r lot parts) }
    ensures counts { IfOk result (HasCounts lot) }
    ensures fits { IfOk result (λ parts. (l r : ℕ) → kids case.now node ≡ Some (l, r) → PartsFitKids case.now l r parts) }
{
    forks_fit();
    join_undoes_split();
    part(alloc, case.right(node), lot)
}

/// The two parts of a lot where the cells of one set go to the right one, and those of another set, of these, stay in the left
/// one as well.
pub(crate) fn part(alloc: Global, right: &Right, lot: Lot) -> Result<(Lot, Lot), AllocError>
    ensures left { IfOk result (λ parts. held parts.0.state ≡ contents.join (outside right.now.needed (held lot.state))
        (only (is_copied_by right.now.copied) (held parts.1.state))) }
    ensures right { IfOk result (λ parts. held parts.1.state ≡ within right.now.needed (held lot.state)) }
    ensures counts { IfOk result (HasCounts lot) }
{
    let Lot {
        mut state,
        since,
        upto,
    } = lot;
    let taken = state.take_out(&right.needed)?;
    state.absorb(taken.copy_of(&right.copied.read, &right.copied.written)?)?;
    let other = Lot {
        state: taken,
        since: upto.copy(alloc)?,
        upto: upto.copy(alloc)?,
    };
    Ok((Lot { state, since, upto }, other))
}

/// The lot of a node from those of its children: the copies in the right one are dropped, and the states are joined
/// (`docs/MODEL.md`), with the left one first.
///
/// It begins where the left lot did; the events of the right child's subtree are counted as in the right lot, and all others
/// as in the left one.
///
/// # Errors
///
/// Only if memory runs out.
pub fn join(alloc: Global, case: &Case, node: u32, left: Lot, right: Lot) -> Result<Lot, AllocError>
    requires node { node < length (nodes case.now) }
    requires inner { IsSome (kids case.now node) }
    requires left { (l r : ℕ) → kids case.now node ≡ Some (l, r) → LotFits case.now l left }
    requires right { (l r : ℕ) → kids case.now node ≡ Some (l, r) → LotFits case.now r right }
    requires paired { (l r : ℕ) → kids case.now node ≡ Some (l, r) → LotsPaired case.now l r left right }
    ensures state { IfOk result (λ lot. (l r : ℕ) → kids case.now node ≡ Some (l, r) → IsJoined case.now r left right lot) }
    ensures counts { IfOk result (HasJoinedCounts case.now node left right) }
    ensures fits { IfOk result (λ lot. LotFits case.now node lot) }
{
    joins_fit();
    merge(alloc, case.right(node), left, right)
}

/// Two lots together, where the right one's cells of a set are dropped, and the events of some itags are counted as in the right
/// one, all others as in the left one.
pub(crate) fn merge(alloc: Global, table: &Right, left: Lot, right: Lot) -> Result<Lot, AllocError>
    ensures state { IfOk result (λ lot. held lot.state
        ≡ contents.join (held left.state) (only (λ c. not (is_copied_by table.now.copied c)) (held right.state))) }
    ensures since { IfOk result (λ lot. lot.since ≡ left.since) }
    ensures upto { IfOk result (λ lot. lot.upto ≡ counts_by table.now.itags.items left.upto right.upto) }
{
    let Lot {
        mut state,
        since,
        upto,
    } = left;
    let Lot {
        state: mut others,
        since: _,
        upto: others_upto,
    } = right;
    let upto = counts_by(alloc, table.itags.as_slice(), &upto, &others_upto)?;
    others.clear_all(&table.copied.read, &table.copied.written);
    state.absorb(others)?;
    Ok(Lot { state, since, upto })
}

// For each itag the count of the right ones where it is of them, and else that of the left ones.
fn counts_by(
    alloc: Global,
    is_right: &[bool],
    lefts: &Counts,
    rights: &Counts,
) -> Result<Counts, AllocError>
    ensures { IfOk result (λ counts. counts ≡ counts_by is_right.now lefts.now rights.now) }
{
    let mut numbers = Vec::new(alloc);
    for i in 0..is_right.len() {
        numbers.push(count_by(is_right, lefts, rights, i))?;
    }
    Ok(Counts::of(numbers))
}

fn count_by(is_right: &[bool], lefts: &Counts, rights: &Counts, itag: usize) -> u64
    requires { itag < length is_right.now }
    ensures { result ≡ count_by is_right.now lefts.now rights.now itag }
{
    if is_right[itag] {
        rights.at(itag)
    } else {
        lefts.at(itag)
    }
}
