//! The program once more, for the gate: a stored call of it that is refused, so that a `main` whose status is always 0 is found.
#![tactic(auto)]

use std::process;
use std::process::ExitCode;

fn main(rt: HostRuntime) -> ExitCode {
    let process = process::id(rt.process());
    flu_main::answer_call(&rt, rt.stdout(), rt.stderr(), process)
}
