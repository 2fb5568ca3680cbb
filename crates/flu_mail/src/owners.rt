//! Who owns the itags.

ghost use Rattle.std.specs.Prelude.{◌≡◌, ◌<◌};
ghost use Rattle.flu_model.specs.Itags.{count_of_itags};
ghost use Rattle.flu_model.specs.Owners as owners;
ghost use Rattle.flu_deps.specs.Validated.{plan_of, IsValidFor};

use flu_deps::laws::itags_are_owned;
use flu_deps::{Valid, nodes};
use flu_model::{Itag, Program};

/// Whether a node owns an itag, by the table of owners and without a look at the predicates.
pub fn owns(p: &Program, v: &Valid, w: u32, i: Itag) -> bool
    requires valid { IsValidFor p.now v.now }
    requires in_range { i.0 < count_of_itags p.now }
    ensures { result ≡ owners.owns p.now (plan_of v.now).nodes w i }
{
    let _program = p;
    itags_are_owned();
    v.owner(i) == w
}

/// Whether a proper ancestor of a node owns an itag.
pub fn ancestors_own(p: &Program, v: &Valid, w: u32, i: Itag) -> bool
    requires valid { IsValidFor p.now v.now }
    requires in_range { i.0 < count_of_itags p.now }
    ensures { result ≡ owners.ancestors_own p.now (plan_of v.now).nodes w i }
{
    let _program = p;
    let owner = v.owner(i);
    owner != w && nodes::is_within(v.plan(), owner, w)
}
