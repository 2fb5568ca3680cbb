//! What goes to the right child of a node: the cells that some itag of its subtree needs, which of them are copied, and these itags.

ghost use Rattle.std.specs.Prelude.{◌≡◌, ◌≢◌, ◌<◌, ◌&&◌, ◌||◌, false, map, not, slice_get, length, IfOk, OnOk};
ghost use Rattle.std.specs.List.{list_any, range_with_len};
ghost use Rattle.flu_model.specs.declared.events.Cell.{Cell};
ghost use Rattle.flu_model.specs.Itags.{count_of_itags, tag_of_itag};
ghost use Rattle.flu_model.specs.Modes.{mode_of, action_reads};
ghost use Rattle.flu_model.specs.Owners.{subtree_owns};
ghost use Rattle.flu_model.specs.Updates as updates;
ghost use Rattle.flu_cells.specs.Sets.{is_in, is_in_but};
ghost use Rattle.flu_deps.specs.Validated.{plan_of, IsValidFor};
ghost use Rattle.flu_laws.specs.Uses.{needs, writes};
ghost use Rattle.flu_fork.specs.Classes.{below, mode_by};
ghost use Rattle.flu_fork.specs.Gathering.{GrowsBy, reads_by};
ghost use Rattle.flu_fork.specs.Tables.{is_copied_by, IsSetOf, IsCopiedSet, IsRight, IsRightAt, AreTables};

use crate::gathering::{add_reads, add_targets};
use crate::laws::nothing_is_copied;
use flu_cells::CellSet;
use flu_deps::{Valid, nodes};
use flu_laws::modes_are_of_actions;
use flu_model::{Itag, Program, Tag, itag_count, tag_of};
use std::alloc::{AllocError, Global};

/// The cells that are copied: those that some itag of a node's subtree reads and none there writes. The whole families of `read`
/// count without the cells of `written`.
#[derive(Drop)]
pub struct Copied {
    pub read: CellSet,
    pub written: CellSet,
}

/// The cells that some itag of a node's subtree needs, those of them that no itag there writes, so that they are copied and not
/// moved, and for each itag whether it is of that subtree.
#[derive(Drop)]
pub struct Right {
    pub needed: CellSet,
    pub copied: Copied,
    pub itags: Vec<bool>,
}

/// What goes to a node, if that is a right child.
pub fn right_of(alloc: Global, p: &Program, v: &Valid, right: u32) -> Result<Right, AllocError>
    requires { IsValidFor p.now v.now }
    ensures { IfOk result (λ table. IsRight p.now (plan_of v.now).nodes right table) }
{
    Ok(Right {
        needed: needed_below(alloc, p, v, right)?,
        copied: copied_below(alloc, p, v, right)?,
        itags: itags_below(alloc, p, v, right)?,
    })
}

// For each itag whether it is of a node's subtree.
fn itags_below(alloc: Global, p: &Program, v: &Valid, w: u32) -> Result<Vec<bool>, AllocError>
    requires { IsValidFor p.now v.now }
    ensures { IfOk result (λ itags. itags.items ≡ map (below p.now (plan_of v.now).nodes w) (range_with_len 0 (count_of_itags p.now))) }
{
    let mut itags = Vec::new(alloc);
    for i in 0..itag_count(p) {
        itags.push(is_below(p, v, w, Itag(i)))?;
    }
    Ok(itags)
}

// Whether an itag is of a node's subtree.
fn is_below(p: &Program, v: &Valid, w: u32, i: Itag) -> bool
    requires valid { IsValidFor p.now v.now }
    requires in_range { i.0 < count_of_itags p.now }
    ensures { result ≡ subtree_owns p.now (plan_of v.now).nodes w i }
{
    nodes::is_within(v.plan(), w, v.owner(i))
}

// The cells that some itag of a node's subtree needs.
fn needed_below(alloc: Global, p: &Program, v: &Valid, w: u32) -> Result<CellSet, AllocError>
    requires { IsValidFor p.now v.now }
    ensures { IfOk result (IsSetOf p.now (plan_of v.now).nodes w needs) }
{
    let nothing = CellSet::new(alloc);
    let mut set = CellSet::new(alloc);
    for i in 0..itag_count(p) {
        add_needed_below(&mut set, &nothing, p, v, w, Itag(i))?;
    }
    Ok(set)
}

// Adds the cells that an itag needs, where it is of a node's subtree.
fn add_needed_below(
    set: &mut CellSet,
    nothing: &CellSet,
    p: &Program,
    v: &Valid,
    w: u32,
    i: Itag,
) -> Result<(), AllocError>
    requires nothing { (c : Cell) → is_in nothing.now c ≡ false }
    requires valid { IsValidFor p.now v.now }
    requires in_range { i.0 < count_of_itags p.now }
    ensures { OnOk result (GrowsBy set.old set.new (λ c. subtree_owns p.now (plan_of v.now).nodes w i && needs (mode_of p.now (tag_of_itag p.now i) c))) }
{
    if !is_below(p, v, w, i) {
        return Ok(());
    }
    add_needed(set, nothing, p, tag_of(p, i))
}

// Adds the cells that a tag needs.
fn add_needed(set: &mut CellSet, nothing: &CellSet, p: &Program, t: Tag) -> Result<(), AllocError>
    requires { (c : Cell) → is_in nothing.now c ≡ false }
    ensures { OnOk result (GrowsBy set.old set.new (λ c. needs (mode_of p.now t c))) }
{
    modes_are_of_actions();
    add_reads(set, nothing, p, t)?;
    add_targets(set, false, p, t)
}

// The cells that are copied to a node, if that is a right child.
fn copied_below(alloc: Global, p: &Program, v: &Valid, w: u32) -> Result<Copied, AllocError>
    requires { IsValidFor p.now v.now }
    ensures { IfOk result (IsCopiedSet p.now (plan_of v.now).nodes w) }
{
    if p.version == 1 {
        nothing_is_copied();
        return Ok(no_copies(alloc));
    }
    read_alone(alloc, p, v, w)
}

// No cell is copied.
fn no_copies(alloc: Global) -> Copied
    ensures { (c : Cell) → is_copied_by result c ≡ false }
{
    Copied {
        read: CellSet::new(alloc),
        written: CellSet::new(alloc),
    }
}

// The same in a job that is not of version 1: what some itag of the subtree reads, but what some itag there writes.
fn read_alone(alloc: Global, p: &Program, v: &Valid, w: u32) -> Result<Copied, AllocError>
    requires valid { IsValidFor p.now v.now }
    requires version { p.now.version ≢ 1 }
    ensures { IfOk result (IsCopiedSet p.now (plan_of v.now).nodes w) }
{
    modes_are_of_actions();
    let written = written_below(alloc, p, v, w)?;
    let read = read_below(alloc, p, v, w, &written)?;
    Ok(Copied { read, written })
}

// The cells that some itag of a node's subtree writes, in a job that is not of version 1.
fn written_below(alloc: Global, p: &Program, v: &Valid, w: u32) -> Result<CellSet, AllocError>
    requires valid { IsValidFor p.now v.now }
    requires version { p.now.version ≢ 1 }
    ensures { IfOk result (IsSetOf p.now (plan_of v.now).nodes w writes) }
{
    let mut set = CellSet::new(alloc);
    for i in 0..itag_count(p) {
        add_written_below(&mut set, p, v, w, Itag(i))?;
    }
    Ok(set)
}

// Adds the cells that an itag writes, where it is of a node's subtree.
fn add_written_below(
    set: &mut CellSet,
    p: &Program,
    v: &Valid,
    w: u32,
    i: Itag,
) -> Result<(), AllocError>
    requires valid { IsValidFor p.now v.now }
    requires in_range { i.0 < count_of_itags p.now }
    requires version { p.now.version ≢ 1 }
    ensures { OnOk result (GrowsBy set.old set.new (λ c. subtree_owns p.now (plan_of v.now).nodes w i && writes (mode_of p.now (tag_of_itag p.now i) c))) }
{
    if !is_below(p, v, w, i) {
        return Ok(());
    }
    add_written(set, p, tag_of(p, i))
}

// Adds the cells that a tag writes.
fn add_written(set: &mut CellSet, p: &Program, t: Tag) -> Result<(), AllocError>
    requires { p.now.version ≢ 1 }
    ensures { OnOk result (GrowsBy set.old set.new (λ c. writes (mode_of p.now t c))) }
{
    modes_are_of_actions();
    add_targets(set, true, p, t)
}

// The cells that some itag of a node's subtree reads, but those of another set, without which whole families count.
fn read_below(
    alloc: Global,
    p: &Program,
    v: &Valid,
    w: u32,
    written: &CellSet,
) -> Result<CellSet, AllocError>
    requires { IsValidFor p.now v.now }
    ensures { IfOk result (λ set. (c : Cell) → is_in_but written.now set c ≡ list_any
        (λ i. below p.now (plan_of v.now).nodes w i && (not (is_in written.now c) && reads_by p.now i c)) (range_with_len 0 (count_of_itags p.now))) }
{
    let mut set = CellSet::new(alloc);
    for i in 0..itag_count(p) {
        add_read_below(&mut set, written, p, v, w, Itag(i))?;
    }
    Ok(set)
}

// Adds the cells that an itag reads, but those of another set, where it is of a node's subtree.
fn add_read_below(
    set: &mut CellSet,
    written: &CellSet,
    p: &Program,
    v: &Valid,
    w: u32,
    i: Itag,
) -> Result<(), AllocError>
    requires valid { IsValidFor p.now v.now }
    requires in_range { i.0 < count_of_itags p.now }
    ensures { OnOk result ((c : Cell) → is_in_but written.now set.new c ≡ (is_in_but written.now set.old c
        || (subtree_owns p.now (plan_of v.now).nodes w i && (not (is_in written.now c) && reads_by p.now i.0 c)))) }
{
    if !is_below(p, v, w, i) {
        return Ok(());
    }
    add_reads(set, written, p, tag_of(p, i))
}

// What goes to no node.
fn nothing(alloc: Global) -> Right {
    Right {
        needed: CellSet::new(alloc),
        copied: no_copies(alloc),
        itags: Vec::new(alloc),
    }
}

// What goes to the right child of a node; nothing if it is a leaf.
fn right_at(alloc: Global, p: &Program, v: &Valid, w: u32) -> Result<Right, AllocError>
    requires valid { IsValidFor p.now v.now }
    requires node { w < length (plan_of v.now).nodes }
    ensures { IfOk result (IsRightAt p.now (plan_of v.now).nodes w) }
{
    match v.kids(w) {
        Some((_, right)) => right_of(alloc, p, v, right),
        None => Ok(nothing(alloc)),
    }
}

/// What goes to the right child of each node, by the nodes' numbers.
pub fn rights(alloc: Global, p: &Program, v: &Valid) -> Result<Vec<Right>, AllocError>
    requires { IsValidFor p.now v.now }
    ensures { IfOk result (λ tables. AreTables p.now (plan_of v.now).nodes tables.items) }
{
    let mut tables = Vec::new(alloc);
    for w in 0..v.count() {
        tables.push(right_at(alloc, p, v, w)?)?;
    }
    Ok(tables)
}
