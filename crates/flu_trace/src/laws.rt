//! What the bytes of a trace determine. Each law is the contract of a function that does nothing.

ghost use Rattle.flu_trace.specs.OneEnding.{OneEnding};

use flu_net::laws::steps_determine;

/// A trace ends in one way on the net of a job, a plan and streams.
pub fn a_trace_has_one_ending()
    ensures { OneEnding }
{
    steps_determine();
}
