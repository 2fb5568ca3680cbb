//! Jobs that are accepted.

ghost use Rattle.std.specs.Prelude.{◌≡◌};
ghost use Rattle.flu_model.specs.Modes.{IsAccepted};

use flu_model::Program;

/// A job that is accepted: any two tags of its sources that conflict on a cell are dependent. No caller makes another.
#[derive(Drop)]
pub struct Checked {
    program: Program,
    pub ghost accepted: { IsAccepted program },
}

impl Checked {
    ghost use Rattle.flu_deps.specs.Checking.{program_of};

    /// The accepted job. It takes no memory; `check` of `flu_check` decides whether a job is accepted.
    pub fn of(p: Program) -> Checked
        requires { IsAccepted p }
        ensures { program_of result ≡ p }
    {
        Checked { program: p }
    }

    /// The job.
    pub fn program(&self) -> &Program
        ensures { result.now ≡ program_of self.now }
    {
        &self.program
    }
}
