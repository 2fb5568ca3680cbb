//! The report of a run. The writing of all bytes to a sink is passed on.
#![tactic(auto)]

mod lines;
mod report;
mod tags;

pub use flu_outside::write_all;
pub use report::report_text;
