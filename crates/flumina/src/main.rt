//! Runs a command over real files: `flumina WORDS`, as `flu_main` says.
#![tactic(auto)]

use std::process;
use std::process::ExitCode;

fn main(rt: HostRuntime) -> ExitCode {
    let process = process::id(rt.process());
    flu_main::answer_call(&rt, rt.stdout(), rt.stderr(), process)
}
