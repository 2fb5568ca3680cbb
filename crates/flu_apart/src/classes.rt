//! How the subtree of a node, and the itags outside it, use the cells.

ghost use Rattle.std.specs.Prelude.{◌≡◌, ◌<◌, ◌&&◌, ℕ, false, slice_index_or};
ghost use Rattle.flu_model.specs.Itags.{count_of_itags};
ghost use Rattle.flu_model.specs.Listing.{tag};
ghost use Rattle.flu_model.specs.Modes as modes;
ghost use Rattle.flu_deps.specs.Checking.{program_of};
ghost use Rattle.flu_deps.specs.Validated.{plan_of, IsValidFor};
ghost use Rattle.flu_laws.specs.Uses as uses;
ghost use Rattle.flu_apart.specs.Classes.{inside, outside, mode_at, tag_at, has_ticks};

use flu_deps::nodes::{MAX_ITAGS, is_within};
use flu_deps::{Checked, Valid, mode};
use flu_model::{Cell, Itag, Mode, Program, Tag, itag_count, source_of, tag_of};

/// How the subtree of a node uses a cell, and whether others do.
#[derive(Clone, Copy, PartialEq, Eq, Debug)]
pub enum Class {
    /// No tag of the subtree uses it.
    Unused,
    /// Tags of the subtree use it, and no tag of an itag outside does.
    Kept,
    /// Tags outside use it too, and each tag of the subtree that does adds to it or raises it.
    Contributed,
    /// Tags outside use it too, and some tag of the subtree reads it or owns it.
    Shared,
}

/// The subtree of a node: the tag of each itag of the job, and whether the node or one below it owns the itag.
#[derive(Drop)]
pub struct Subtree<'a> {
    pub(crate) program: &'a Program,
    valid: &'a Valid,
    node: u32,
    tags: [Tag; MAX_ITAGS],
    inside: [bool; MAX_ITAGS],
}

impl<'a> Subtree<'a> {
    ghost use Rattle.flu_apart.specs.Classes.{class_of, is_used, is_contributed, is_kept};
    ghost use Rattle.flu_apart.specs.Subtrees.{job, nodes, node, IsSubtree};

    /// The subtree of a node of a valid plan. It takes no memory.
    pub fn of(c: &'a Checked, v: &'a Valid, w: u32) -> Subtree<'a>
        requires valid { IsValidFor (program_of c.now) v.now }
        ensures job { job result ≡ program_of c.now }
        ensures nodes { nodes result ≡ (plan_of v.now).nodes }
        ensures node { node result ≡ w }
        ensures subtree { IsSubtree result }
    {
        Subtree {
            program: c.program(),
            valid: v,
            node: w,
            tags: tags_of(c.program()),
            inside: insides_of(c.program(), v, w),
        }
    }

    /// The class of a cell. It takes no memory; its time is the number of the job's itags times the time of `mode` of `flu_deps`.
    pub fn class_of(&self, c: Cell) -> Class
        requires { IsSubtree self.now }
        ensures { result ≡ class_of (job self.now) (nodes self.now) (node self.now) c }
    {
        if !self.is_used(c) {
            Class::Unused
        } else if self.is_kept(c) {
            Class::Kept
        } else if self.is_contributed(c) {
            Class::Contributed
        } else {
            Class::Shared
        }
    }

    /// The job.
    pub fn program(&self) -> &Program
        ensures { result.now ≡ job self.now }
    {
        self.program
    }

    /// The tag of an itag.
    pub(crate) fn tag(&self, i: u32) -> Tag
        requires subtree { IsSubtree self.now }
        requires in_range { i < count_of_itags (job self.now) }
        ensures { result ≡ tag_at (job self.now) i }
    {
        self.tags[i as usize]
    }

    /// Whether an itag is of the subtree.
    pub(crate) fn has(&self, i: u32) -> bool
        requires subtree { IsSubtree self.now }
        requires in_range { i < count_of_itags (job self.now) }
        ensures { result ≡ inside (job self.now) (nodes self.now) (node self.now) i }
    {
        self.inside[i as usize]
    }

    // Whether an itag of the subtree has a tag that uses a cell.
    pub(crate) fn has_user(&self, i: u32, c: Cell) -> bool
        requires subtree { IsSubtree self.now }
        requires in_range { i < count_of_itags (job self.now) }
        ensures { result ≡ (inside (job self.now) (nodes self.now) (node self.now) i && modes.uses (mode_at (job self.now) i c)) }
    {
        self.has(i) && uses(mode(self.program, self.tag(i), c))
    }

    fn has_needer(&self, i: u32, c: Cell) -> bool
        requires subtree { IsSubtree self.now }
        requires in_range { i < count_of_itags (job self.now) }
        ensures { result ≡ (inside (job self.now) (nodes self.now) (node self.now) i && uses.needs (mode_at (job self.now) i c)) }
    {
        self.has(i) && needs(mode(self.program, self.tag(i), c))
    }

    fn is_outside_user(&self, i: u32, c: Cell) -> bool
        requires subtree { IsSubtree self.now }
        requires in_range { i < count_of_itags (job self.now) }
        ensures { result ≡ (outside (job self.now) (nodes self.now) (node self.now) i && modes.uses (mode_at (job self.now) i c)) }
    {
        !self.has(i) && uses(mode(self.program, self.tag(i), c))
    }

    fn is_used(&self, c: Cell) -> bool
        requires { IsSubtree self.now }
        ensures { result ≡ is_used (job self.now) (nodes self.now) (node self.now) c }
    {
        for i in 0..itag_count(self.program) {
            if self.has_user(i, c) {
                return true;
            }
        }
        false
    }

    fn is_contributed(&self, c: Cell) -> bool
        requires { IsSubtree self.now }
        ensures { result ≡ is_contributed (job self.now) (nodes self.now) (node self.now) c }
    {
        for i in 0..itag_count(self.program) {
            if self.has_needer(i, c) {
                return false;
            }
        }
        true
    }

    fn is_kept(&self, c: Cell) -> bool
        requires { IsSubtree self.now }
        ensures { result ≡ is_kept (job self.now) (nodes self.now) (node self.now) c }
    {
        for i in 0..itag_count(self.program) {
            if self.is_outside_user(i, c) {
                return false;
            }
        }
        true
    }
}

/// Whether the events of an itag are ticks: its source is a clock.
pub fn has_ticks(p: &Program, i: Itag) -> bool
    requires { i.0 < count_of_itags p.now }
    ensures { result ≡ has_ticks p.now i.0 }
{
    p.sources.items()[source_of(p, i) as usize].every.is_some()
}

// The tag of each itag, by the itags' numbers.
fn tags_of(p: &Program) -> [Tag; MAX_ITAGS]
    ensures { (i : ℕ) → i < count_of_itags p.now → slice_index_or result i (tag 0 0) ≡ tag_at p.now i }
{
    let mut tags = [Tag { kind: 0, key: 0 }; MAX_ITAGS];
    for i in 0..itag_count(p) {
        let tag = tag_of(p, Itag(i));
        tags[i as usize] = tag;
    }
    tags
}

// For each itag whether it is of a node's subtree, by the itags' numbers.
fn insides_of(p: &Program, v: &Valid, w: u32) -> [bool; MAX_ITAGS]
    requires { IsValidFor p.now v.now }
    ensures { (i : ℕ) → i < count_of_itags p.now → slice_index_or result i false ≡ inside p.now (plan_of v.now).nodes w i }
{
    let mut insides = [false; MAX_ITAGS];
    for i in 0..itag_count(p) {
        let there = is_inside(p, v, w, Itag(i));
        insides[i as usize] = there;
    }
    insides
}

// Whether an itag is of a node's subtree.
fn is_inside(p: &Program, v: &Valid, w: u32, i: Itag) -> bool
    requires valid { IsValidFor p.now v.now }
    requires in_range { i.0 < count_of_itags p.now }
    ensures { result ≡ inside p.now (plan_of v.now).nodes w i.0 }
{
    is_within(v.plan(), w, v.owner(i))
}

// Whether a tag with this mode on a cell uses it.
fn uses(m: Mode) -> bool
    ensures { result ≡ modes.uses m }
{
    !matches!(m, Mode::None)
}

// Whether what it does may depend on what the cell holds.
fn needs(m: Mode) -> bool
    ensures { result ≡ uses.needs m }
{
    matches!(m, Mode::Read | Mode::Own)
}
