//! Which tags depend on each other.

ghost use Rattle.std.specs.Prelude.{◌≡◌};
ghost use Rattle.flu_model.specs.Itags.{ties_tags, is_dependent};

use flu_model::{Depend, Program, Tag};

/// Whether two tags are dependent: some `depends` of the job names their kinds, in either order, and asks for equal keys
/// if it is `same`. It takes no memory.
pub fn dep(p: &Program, a: Tag, b: Tag) -> bool
    ensures { result ≡ is_dependent p.now a b }
{
    p.depends.items().iter().any(|depend| ties(depend, a, b))
}

// Whether a declared dependency ties two tags.
fn ties(depend: &Depend, a: Tag, b: Tag) -> bool
    ensures { result ≡ ties_tags a b depend.now }
{
    ((depend.a == a.kind && depend.b == b.kind) || (depend.a == b.kind && depend.b == a.kind))
        && (!depend.same || a.key == b.key)
}
