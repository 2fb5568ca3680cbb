//! The itags of each node and of its ancestors.

ghost use Rattle.std.specs.Prelude.{◌≡◌, ◌<◌, IfOk, length, slice_get};
ghost use Rattle.flu_model.specs.Itags.{count_of_itags};
ghost use Rattle.flu_model.specs.Owners as owners;
ghost use Rattle.flu_deps.specs.Validated.{plan_of, IsValidFor};
ghost use Rattle.flu_tables.specs.Lists.{itags_where};
ghost use Rattle.flu_tables.specs.LoopShares as listing;
ghost use Rattle.flu_tables.specs.LoopShares.{IsShareOf, AreShares};

use flu_deps::laws::itags_are_owned;
use flu_deps::{Valid, nodes};
use flu_model::{Itag, Program, itag_count};
use std::alloc::{AllocError, Global};

/// The itags that a node owns, and those that its proper ancestors own, each by rising number.
#[derive(Drop)]
pub struct Share {
    pub own: Vec<Itag>,
    pub above: Vec<Itag>,
}

/// The share of each node, by the nodes' numbers.
pub fn shares(alloc: Global, p: &Program, v: &Valid) -> Result<Vec<Share>, AllocError>
    requires { IsValidFor p.now v.now }
    ensures { IfOk result (λ shares. AreShares p.now (plan_of v.now).nodes shares.items) }
{
    let mut shares = Vec::new(alloc);
    for w in 0..v.count() {
        shares.push(share_of(alloc, p, v, w)?)?;
    }
    Ok(shares)
}

fn share_of(alloc: Global, p: &Program, v: &Valid, w: u32) -> Result<Share, AllocError>
    requires { IsValidFor p.now v.now }
    ensures { IfOk result (IsShareOf p.now (plan_of v.now).nodes w) }
{
    Ok(Share {
        own: own_itags(alloc, p, v, w)?,
        above: itags_above(alloc, p, v, w)?,
    })
}

// The itags that a node owns.
fn own_itags(alloc: Global, p: &Program, v: &Valid, w: u32) -> Result<Vec<Itag>, AllocError>
    requires { IsValidFor p.now v.now }
    ensures { IfOk result (λ itags. itags.items ≡ itags_where p.now (owners.owns p.now (plan_of v.now).nodes w)) }
{
    let mut itags = Vec::new(alloc);
    for i in 0..itag_count(p) {
        if owns(p, v, w, Itag(i)) {
            itags.push(Itag(i))?;
        }
    }
    Ok(itags)
}

// The itags that the proper ancestors of a node own.
fn itags_above(alloc: Global, p: &Program, v: &Valid, w: u32) -> Result<Vec<Itag>, AllocError>
    requires { IsValidFor p.now v.now }
    ensures { IfOk result (λ itags. itags.items ≡ itags_where p.now (owners.ancestors_own p.now (plan_of v.now).nodes w)) }
{
    let mut itags = Vec::new(alloc);
    for i in 0..itag_count(p) {
        if ancestors_own(p, v, w, Itag(i)) {
            itags.push(Itag(i))?;
        }
    }
    Ok(itags)
}

// Whether a node owns an itag, by the table of owners and without a look at the predicates.
fn owns(p: &Program, v: &Valid, w: u32, i: Itag) -> bool
    requires valid { IsValidFor p.now v.now }
    requires in_range { i.0 < count_of_itags p.now }
    ensures { result ≡ owners.owns p.now (plan_of v.now).nodes w i }
{
    itags_are_owned();
    v.owner(i) == w
}

// Whether a proper ancestor of a node owns an itag.
fn ancestors_own(p: &Program, v: &Valid, w: u32, i: Itag) -> bool
    requires valid { IsValidFor p.now v.now }
    requires in_range { i.0 < count_of_itags p.now }
    ensures { result ≡ owners.ancestors_own p.now (plan_of v.now).nodes w i }
{
    let owner = v.owner(i);
    owner != w && nodes::is_within(v.plan(), owner, w)
}

/// The itags that are listed for a node; none if there is no such node.
pub fn own_of(shares: &[Share], w: u32) -> &[Itag]
    ensures { result.now ≡ listing.own_of (slice_get shares.now w) }
{
    match shares.get(w as usize) {
        Some(share) => share.own.as_slice(),
        None => &[],
    }
}

/// The itags that are listed for a node's proper ancestors; none if there is no such node.
pub fn above_of(shares: &[Share], w: u32) -> &[Itag]
    ensures { result.now ≡ listing.above_of (slice_get shares.now w) }
{
    match shares.get(w as usize) {
        Some(share) => share.above.as_slice(),
        None => &[],
    }
}
