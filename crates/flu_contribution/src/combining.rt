//! The fold over the events outside, into which contributions are joined.

ghost use Rattle.std.specs.Prelude.{◌≡◌, ◌<◌, [], OnOk};
ghost use Rattle.flu_model.specs.Itags.{count_of_itags};
ghost use Rattle.flu_cells.specs.Holding.{held};
ghost use Rattle.flu_contribution.specs.Combining.{with_contribution, with_effect};
ghost use Rattle.flu_contribution.specs.Parts.{combined_of, contribution_of, program_of};

use crate::contributing::Handed;
use flu_cells::State;
use flu_model::{Event, Outs, Program};
use flu_step::update;
use std::alloc::{AllocError, Global};

/// The combined fold of a job: the state without what nodes apart have of it, and the outputs so far.
#[derive(Drop)]
pub struct Combining<'a> {
    program: &'a Program,
    cells: State,
    outputs: Outs,
    alloc: Global,
}

impl<'a> Combining<'a> {
    /// The combined fold before the first event, from what the nodes apart left of the opening state. It takes no memory.
    pub fn new(alloc: Global, program: &'a Program, left: State) -> Combining<'a>
        ensures combined { combined_of result ≡ record { cells = held left; outputs = [] } }
        ensures job { program_of result ≡ program.now }
    {
        Combining {
            program,
            cells: left,
            outputs: Outs::of(Vec::new(alloc)),
            alloc,
        }
    }

    /// Joins a contribution.
    ///
    /// Where memory is refused, the fold is of no further use.
    pub fn join(&mut self, k: Handed) -> Result<(), AllocError>
        ensures combined { OnOk result (combined_of self.new ≡ with_contribution (combined_of self.old) (contribution_of k)) }
        ensures job { program_of self.new ≡ program_of self.old }
    {
        self.cells.absorb(k.cells)?;
        self.outputs.append(k.outputs)
    }

    /// Does an event that is inside none of the nodes apart, once what is to be joined before it is joined.
    ///
    /// Where memory is refused, the fold is of no further use.
    pub fn outside(&mut self, y: &Event) -> Result<(), AllocError>
        requires { y.now.itag.0 < count_of_itags (program_of self.old) }
        ensures combined { OnOk result (combined_of self.new ≡ with_effect (program_of self.old) (combined_of self.old) y.now) }
        ensures job { program_of self.new ≡ program_of self.old }
    {
        update(
            self.alloc,
            self.program,
            &mut self.cells,
            y,
            &mut self.outputs,
        )
    }

    /// The state and the outputs. It takes no memory.
    pub fn end(self) -> (State, Outs)
        ensures cells { held result.0 ≡ (combined_of self.entry).cells }
        ensures outputs { result.1 ≡ (combined_of self.entry).outputs }
    {
        (self.cells, self.outputs)
    }
}
