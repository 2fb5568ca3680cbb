//! The components of the graph of dependent itags on some itags.

ghost use Rattle.std.specs.Prelude.{◌≡◌, ◌<◌, ◌≤◌, ◌↔◌, ℕ, not, nat_lt, position, IfOk, OnOk, IsTrue, length};
ghost use Rattle.std.specs.List.{position_or_len, filter};
ghost use Rattle.flu_lemmas.specs.Sorting.{put_in_order};
ghost use Rattle.flu_lemmas.specs.Totals.{total};
ghost use Rattle.flu_planner.specs.Graphs.{IsApart, AreComponents, is_rising, total_rate};
ghost use Rattle.flu_lemmas.specs.Counting.{times};
ghost use Rattle.flu_planner.specs.LoopReaching.{has_greater_total, IsReached};
ghost use Rattle.flu_planner.specs.LoopTables.{graph_of};

use crate::dependencies::joined;
use crate::removal::{rising, total_rate};
use flu_model::List;
use std::alloc::{AllocError, Global};

/// Those of some itags that are connected with the first of them, and the rest by rising number.
#[derive(Drop)]
pub struct Reached {
    pub connected: Vec<u32>,
    pub rest: Vec<u32>,
}

// Those of the itags that are joined to this one.
fn joined_to(
    alloc: Global,
    table: &[List<bool>],
    i: u32,
    itags: &[u32],
) -> Result<Vec<u32>, AllocError>
    ensures { IfOk result (λ found. found.items ≡ filter (graph_of table.now i) itags.now) }
{
    itags
        .iter()
        .copied()
        .filter(|j| joined(table, i, *j))
        .collect(alloc)
}

// Those of the itags that are not joined to this one.
fn not_joined_to(
    alloc: Global,
    table: &[List<bool>],
    i: u32,
    itags: &[u32],
) -> Result<Vec<u32>, AllocError>
    ensures { IfOk result (λ found. found.items ≡ filter (λ j. not (graph_of table.now i j)) itags.now) }
{
    itags
        .iter()
        .copied()
        .filter(|j| !joined(table, i, *j))
        .collect(alloc)
}

// A search in breadth from the first of the itags.
fn reach(alloc: Global, table: &[List<bool>], itags: &[u32]) -> Result<Reached, AllocError>
    requires some { 0 < length itags.now }
    requires rising { IsTrue (is_rising itags.now) }
    ensures { IfOk result (λ found. IsReached (graph_of table.now) itags.now found.connected.items found.rest.items) }
{
    let mut connected = Vec::new(alloc);
    connected.push(itags[0])?;
    let mut rest = itags[1..].to_vec(alloc)?;
    let mut head = 0;
    while head < connected.len() {
        let i = connected[head];
        let mut next = joined_to(alloc, table, i, &rest)?;
        if !next.is_empty() {
            rest = not_joined_to(alloc, table, i, &rest)?;
            connected.append(&mut next)?;
        }
        head += 1;
    }
    Ok(Reached { connected, rest })
}

/// Whether the graph on the itags has at least two components.
pub fn is_apart(alloc: Global, table: &[List<bool>], itags: &[u32]) -> Result<bool, AllocError>
    requires { IsTrue (is_rising itags.now) }
    ensures { IfOk result (λ apart. IsTrue apart ↔ IsApart (graph_of table.now) itags.now) }
{
    if itags.is_empty() {
        return Ok(false);
    }
    let found = reach(alloc, table, itags)?;
    Ok(!found.rest.is_empty())
}

/// The components of the graph on the itags, by falling total rate, and for equal totals by their least itags.
pub fn components(
    alloc: Global,
    table: &[List<bool>],
    rates: &[u64],
    itags: &[u32],
) -> Result<Vec<List<u32>>, AllocError>
    requires { IsTrue (is_rising itags.now) }
    ensures are { IfOk result (λ found. AreComponents (graph_of table.now) rates.now itags.now found.items) }
    ensures once { IfOk result (λ found. (k : ℕ) → total (times k) found.items ≡ times k itags.now) }
{
    let mut components = Vec::new(alloc);
    let mut rest = itags.to_vec(alloc)?;
    'remaining: while !rest.is_empty() {
        let found = reach(alloc, table, &rest)?;
        let component = rising(alloc, &found.connected)?;
        add_component(&mut components, rates, List::of(component))?;
        rest = found.rest;
    }
    Ok(components)
}

// Adds a component after those whose total rate is not less.
fn add_component(
    components: &mut Vec<List<u32>>,
    rates: &[u64],
    component: List<u32>,
) -> Result<(), AllocError>
    ensures { OnOk result (components.new.items ≡ put_in_order (has_greater_total rates.now) component components.old.items) }
{
    let place = place_of(components, rates, component.items());
    components.insert(place, component)?;
    Ok(())
}

// The first of some components whose total rate is less than this one.
fn first_less(components: &[List<u32>], rates: &[u64], rate: u128) -> Option<usize>
    ensures { result ≡ position (λ other. nat_lt (total_rate rates.now other) rate) components.now }
{
    components
        .iter()
        .position(|other| total_rate(rates, other.items()) < rate)
}

// Where a component is put among others.
fn place_of(components: &[List<u32>], rates: &[u64], component: &[u32]) -> usize
    ensures place { result ≡ position_or_len (has_greater_total rates.now component.now) components.now }
    ensures within { result ≤ length components.now }
{
    match first_less(components, rates, total_rate(rates, component)) {
        Some(place) => place,
        None => components.len(),
    }
}
