//! What stops the replay of a trace.

use flu_trace::ReplayFault;
use std::alloc::{AllocError, Global};

/// What a line of a trace may be, if it is none.
const FORMS: &str =
    "  a line is arrive N, handle N, give N or hold N, or ask N SIDE, take N SIDE or lend N SIDE, with left or right as SIDE
";

/// Why the line makes no step.
const STOPS: &str =
    "  that step is not enabled there: it has to wait for others, or this plan has no such step
";

/// Why a trace is not complete.
const STOPS_EARLY: &str = "  the lines end there, but the run is not finished
";

/// What writes a trace.
const WRITES: &str = "  to write a complete trace: flumina simulate JOB PLAN SEED --trace
";

/// What stops the replay of a trace, and what writes a complete one.
pub fn trace_hint(alloc: Global, fault: ReplayFault) -> Result<String, AllocError> {
    let mut told = String::new(alloc);
    let stops = match fault {
        ReplayFault::Bad { .. } => FORMS,
        ReplayFault::NotEnabled { .. } => STOPS,
        ReplayFault::Incomplete { .. } => STOPS_EARLY,
        ReplayFault::ReadFault | ReplayFault::NoMemory => return Ok(told),
    };
    told.push_str(stops)?;
    told.push_str(WRITES)?;
    Ok(told)
}
