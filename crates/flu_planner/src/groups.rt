//! How itags are divided between a node and its two children.

ghost use Rattle.std.specs.Prelude.{◌≡◌, [], IfOk, IsTrue, MatchOption};
ghost use Rattle.flu_planner.specs.Graphs.{is_rising};
ghost use Rattle.flu_planner.specs.Cuts.{IsWhole};
ghost use Rattle.flu_planner.specs.Groups.{goes_left, grouped};
ghost use Rattle.flu_planner.specs.LoopSearch.{IsPartingOnce};
ghost use Rattle.flu_planner.specs.LoopTables.{graph_of};

use crate::components::components;
use crate::removal::{least_cut, removal_order, rising, total_rate};
use flu_model::List;
use std::alloc::{AllocError, Global};

/// The itags that a node owns and those planned for its children, each by rising number.
#[derive(Drop)]
pub struct Parting {
    pub own: Vec<u32>,
    pub left: Vec<u32>,
    pub right: Vec<u32>,
}

// Two groups of itags.
#[derive(Drop)]
struct Groups {
    left: Vec<u32>,
    right: Vec<u32>,
}

// Whether the next component goes to the left group.
fn goes_left(rates: &[u64], left: &[u32], right: &[u32]) -> bool
    ensures { result ≡ goes_left rates.now left.now right.now }
{
    let rate = total_rate(rates, left);
    let other = total_rate(rates, right);
    rate < other || (rate == other && left.len() <= right.len())
}

fn grouped(alloc: Global, rates: &[u64], components: &[List<u32>]) -> Result<Groups, AllocError>
    ensures left { IfOk result (λ groups. groups.left.items ≡ (grouped rates.now [] [] components.now).0) }
    ensures right { IfOk result (λ groups. groups.right.items ≡ (grouped rates.now [] [] components.now).1) }
{
    let mut left = Vec::new(alloc);
    let mut right = Vec::new(alloc);
    for component in components {
        if goes_left(rates, &left, &right) {
            left.extend_from_slice(component.items())?;
        } else {
            right.extend_from_slice(component.items())?;
        }
    }
    Ok(Groups { left, right })
}

/// How a node's itags are divided; none if no removal leaves at least two components.
pub fn part(
    alloc: Global,
    table: &[List<bool>],
    rates: &[u64],
    itags: &[u32],
) -> Result<Option<Parting>, AllocError>
    requires { IsTrue (is_rising itags.now) }
    ensures { IfOk result (λ parting. MatchOption parting (IsWhole (graph_of table.now) rates.now itags.now)
        (λ parts. IsPartingOnce (graph_of table.now) rates.now itags.now parts.own.items parts.left.items parts.right.items)) }
{
    let order = removal_order(alloc, rates, itags)?;
    let Some(count) = least_cut(alloc, table, &order)? else {
        return Ok(None);
    };
    let own = rising(alloc, &order[..count])?;
    let others = rising(alloc, &order[count..])?;
    let components = components(alloc, table, rates, &others)?;
    let groups = grouped(alloc, rates, &components)?;
    let left = rising(alloc, &groups.left)?;
    let right = rising(alloc, &groups.right)?;
    Ok(Some(Parting { own, left, right }))
}
