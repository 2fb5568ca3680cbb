//! The engine that runs a job if a thread is refused.

ghost use Rattle.std.specs.Prelude.{◌≡◌, IfOk};

use flu_cells::State;
use flu_laws::updates_are_changes;
use flu_model::{Outs, Program, Streams};
use flu_seq::{Engine, fold};
use std::alloc::{AllocError, Global};

/// The plain engine over a job that it borrows: it folds the merged events one after another.
#[derive(Drop)]
pub struct Backup<'a> {
    /// The job that it runs.
    pub program: &'a Program,
}

impl<'a, R> Engine<R> for Backup<'a> {
    ghost program_of = { λ e. e.program.now };

    fn program(&self) -> &Program {
        self.program
    }

    fn batch(
        &mut self,
        _rt: &R,
        alloc: Global,
        opening: State,
        s: &Streams,
    ) -> Result<(State, Outs), AllocError> {
        updates_are_changes();
        fold(alloc, self.program, opening, s)
    }
}
