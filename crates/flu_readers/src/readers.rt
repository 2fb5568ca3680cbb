//! Which sources a node apart reads, and which the one that combines what the nodes send.

ghost use Rattle.std.specs.Prelude.{◌≡◌, ◌<◌};
ghost use Rattle.std.specs.List.{list_any};
ghost use Rattle.flu_model.specs.Itags.{count_of_itags};
ghost use Rattle.flu_deps.specs.Checking.{program_of};
ghost use Rattle.flu_deps.specs.Validated.{plan_of, IsValidFor};
ghost use Rattle.flu_apart.specs.Classes.{inside};
ghost use Rattle.flu_contribution.specs.Sharing.{needs_itag, is_itag_of_none};
ghost use Rattle.flu_selected.specs.Gathering.{reads as is_read_by};
ghost use Rattle.flu_readers.specs.Reading.{reads, reads_rest};

use crate::read::SourcesRead;
use flu_deps::nodes::is_within;
use flu_deps::{Checked, Valid};
use flu_model::{Itag, Program, itag_count};

/// The sources that a node apart reads: those that list an itag that the node or one below it owns, or that a proper ancestor of the node
/// owns. It takes no memory.
pub fn sources_of_node(c: &Checked, v: &Valid, w: u32) -> SourcesRead
    requires valid { IsValidFor (program_of c.now) v.now }
    ensures read { is_read_by result ≡ reads (program_of c.now) (plan_of v.now).nodes w }
{
    let p = c.program();
    let mut read = SourcesRead::none();
    for i in 0..itag_count(p) {
        let wanted = is_needed(p, v, w, Itag(i));
        read.note(p, Itag(i), wanted);
    }
    read
}

/// The sources that the one that combines reads: those that list an itag that is inside none of the nodes apart. It takes no memory.
pub fn sources_of_rest(c: &Checked, v: &Valid, apart: &[u32]) -> SourcesRead
    requires valid { IsValidFor (program_of c.now) v.now }
    ensures read { is_read_by result ≡ reads_rest (program_of c.now) (plan_of v.now).nodes apart.now }
{
    let p = c.program();
    let mut read = SourcesRead::none();
    for i in 0..itag_count(p) {
        let wanted = is_of_none(p, v, apart, Itag(i));
        read.note(p, Itag(i), wanted);
    }
    read
}

// Whether a node needs an itag: its subtree or a proper ancestor of it owns the itag.
fn is_needed(p: &Program, v: &Valid, w: u32, i: Itag) -> bool
    requires valid { IsValidFor p.now v.now }
    requires in_range { i.0 < count_of_itags p.now }
    ensures { result ≡ needs_itag p.now (plan_of v.now).nodes w i.0 }
{
    let owner = v.owner(i);
    is_within(v.plan(), w, owner) || (is_within(v.plan(), owner, w) && owner != w)
}

// Whether an itag is inside none of the nodes.
fn is_of_none(p: &Program, v: &Valid, apart: &[u32], i: Itag) -> bool
    requires valid { IsValidFor p.now v.now }
    requires in_range { i.0 < count_of_itags p.now }
    ensures { result ≡ is_itag_of_none p.now (plan_of v.now).nodes apart.now i.0 }
{
    !is_of_one(p, v, apart, i)
}

// Whether an itag is inside one of the nodes.
fn is_of_one(p: &Program, v: &Valid, apart: &[u32], i: Itag) -> bool
    requires valid { IsValidFor p.now v.now }
    requires in_range { i.0 < count_of_itags p.now }
    ensures { result ≡ list_any (λ w. inside p.now (plan_of v.now).nodes w i.0) apart.now }
{
    apart.iter().any(|w| is_inside(p, v, *w, i))
}

// Whether an itag is of a node's subtree.
fn is_inside(p: &Program, v: &Valid, w: u32, i: Itag) -> bool
    requires valid { IsValidFor p.now v.now }
    requires in_range { i.0 < count_of_itags p.now }
    ensures { result ≡ inside p.now (plan_of v.now).nodes w i.0 }
{
    is_within(v.plan(), w, v.owner(i))
}
