//! The job of a demo. The law is the contract of a function that does nothing.

ghost use Rattle.flu_model.specs.declared.jobs.Program.{Program};
ghost use Rattle.flu_model.specs.Modes.{IsAccepted};
ghost use Rattle.flu_gen.specs.DemoJob.{IsDemoJob};

/// The job of a demo is accepted.
pub fn demo_jobs_are_accepted()
    ensures { (p : Program) → IsDemoJob p → IsAccepted p }
{}
