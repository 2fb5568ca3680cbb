//! Which itags are removed so that the others fall into components, and the orders of itags.

ghost use Rattle.std.specs.Prelude.{◌≡◌, ℕ, ◌≤◌, IfOk, MatchOption, position, length};
ghost use Rattle.std.specs.List.{position_or_len};
ghost use Rattle.flu_planner.specs.Graphs.{rate_of, total_rate, rising};
ghost use Rattle.flu_planner.specs.Cuts.{is_removed_first, removal_order};
ghost use Rattle.flu_lemmas.specs.Counting.{times};
ghost use Rattle.flu_planner.specs.LoopTables.{graph_of};
ghost use Rattle.flu_planner.specs.LoopSearch.{IsFirstApart, IsNeverApart};

use crate::components::is_apart;
use flu_model::List;
use std::alloc::{AllocError, Global};

fn rate_of(rates: &[u64], i: u32) -> u64
    ensures { result ≡ rate_of rates.now i }
{
    match rates.get(i as usize) {
        Some(rate) => *rate,
        None => 0,
    }
}

/// The total rate of some itags. Its type has room for as many as there can be.
pub fn total_rate(rates: &[u64], itags: &[u32]) -> u128
    ensures { result ≡ total_rate rates.now itags.now }
{
    let mut total: u128 = 0;
    for i in itags {
        total += u128::from(rate_of(rates, *i));
    }
    total
}

fn is_removed_first(rates: &[u64], i: u32, j: u32) -> bool
    ensures { result ≡ is_removed_first rates.now i j }
{
    let rate = rate_of(rates, i);
    let other = rate_of(rates, j);
    rate < other || (rate == other && i < j)
}

// The first of some itags that is removed after this one.
fn first_behind(rates: &[u64], i: u32, others: &[u32]) -> Option<usize>
    ensures { result ≡ position (is_removed_first rates.now i) others.now }
{
    others.iter().position(|j| is_removed_first(rates, i, *j))
}

// Where an itag is put among others in the order of removal.
fn place_of(rates: &[u64], i: u32, others: &[u32]) -> usize
    ensures place { result ≡ position_or_len (is_removed_first rates.now i) others.now }
    ensures within { result ≤ length others.now }
{
    match first_behind(rates, i, others) {
        Some(place) => place,
        None => others.len(),
    }
}

/// The itags in the order of removal: by rising rate, and for equal rates by rising number.
pub fn removal_order(alloc: Global, rates: &[u64], itags: &[u32]) -> Result<Vec<u32>, AllocError>
    ensures { IfOk result (λ order. order.items ≡ removal_order rates.now itags.now) }
{
    let mut order = Vec::new(alloc);
    let mut at = itags.len();
    while at > 0 {
        at -= 1;
        let place = place_of(rates, itags[at], &order);
        order.insert(place, itags[at])?;
    }
    Ok(order)
}

/// The itags by rising number.
pub fn rising(alloc: Global, itags: &[u32]) -> Result<Vec<u32>, AllocError>
    ensures { IfOk result (λ order. order.items ≡ rising itags.now) }
{
    let mut order = itags.to_vec(alloc)?;
    order.sort_unstable();
    Ok(order)
}

/// How many of the itags, in the order of removal, must be removed so that the others have at least two components; none
/// if no number of them does.
pub fn least_cut(
    alloc: Global,
    table: &[List<bool>],
    order: &[u32],
) -> Result<Option<usize>, AllocError>
    requires { (k : ℕ) → times k order.now ≤ 1 }
    ensures { IfOk result (λ cut. MatchOption cut (IsNeverApart (graph_of table.now) order.now) (IsFirstApart (graph_of table.now) order.now)) }
{
    for count in 0..order.len() {
        let others = rising(alloc, &order[count..])?;
        if is_apart(alloc, table, &others)? {
            return Ok(Some(count));
        }
    }
    Ok(None)
}
