//! The steps of the net.

use flu_model::Itag;
use flu_worker::Side;

/// A step of the net. Nodes and itags are numbered from 0; a step that names one that does not exist is not enabled.
#[derive(Clone, Copy, PartialEq, Eq, Debug)]
pub enum Step {
    /// One more item of the itag is seen.
    Arrive(Itag),
    /// The worker handles the event that comes next.
    Handle(u32),
    /// The worker asks a child for its part.
    Ask(u32, Side),
    /// The worker takes the part that a child gave.
    Take(u32, Side),
    /// The worker gives its lot up.
    Give(u32),
    /// The worker takes in the lot that came down to it.
    Hold(u32),
    /// The worker lends a child its part.
    Lend(u32, Side),
}

/// Why a step was not made.
#[derive(Clone, Copy, PartialEq, Eq, Debug)]
pub enum StepFault {
    /// It is not enabled. The net is as it was.
    NotEnabled,
    /// Memory ran out. The net must be discarded: nothing is enabled any more.
    NoMemory,
}
