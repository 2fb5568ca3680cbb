//! Laws of the demo job, each the contract of a function that does nothing.

ghost use Rattle.flu_model.specs.declared.jobs.Program.{Program};
ghost use Rattle.flu_gen.specs.DemoJob.{IsDemoJob};
ghost use Rattle.flu_gen.specs.Laws.{HasNamedItags};

/// The itags of the demo job are views of the web, views and updates of the app, and the tick of the clock, each of the pages from
/// 0 to 9.
pub fn itags_have_names()
    ensures { (p : Program) → IsDemoJob p → HasNamedItags p }
{}
