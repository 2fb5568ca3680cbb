//! Laws of the definitions, each the contract of a function that does nothing.

ghost use Rattle.std.specs.Prelude.{◌<◌, IsTrue, length};
ghost use Rattle.flu_model.specs.Itags.{count_of_itags, tag_of_itag, source_of_itag};
ghost use Rattle.flu_model.specs.Rules.{tag_fits};
ghost use Rattle.flu_model.specs.declared.events.Itag.{Itag};
ghost use Rattle.flu_model.specs.declared.jobs.Program.{Program};

/// The tag of each itag of a job is one of a declared kind, with a key in range.
pub fn itags_have_tags()
    ensures fits { (p : Program) (i : Itag) → i.0 < count_of_itags p → IsTrue (tag_fits p.kinds (tag_of_itag p i)) }
{}
