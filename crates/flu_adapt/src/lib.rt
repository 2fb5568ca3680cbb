//! Real files and writers as the program sees them. Nothing is known of what they hold, only how often they failed.
#![tactic(auto)]

mod host_files;
mod host_sink;
mod replacing;
mod same_file;
mod standard;
mod told;

pub use host_files::{FileFailure, HostFiles, ProgramCall};
pub use host_sink::HostSink;
pub use standard::{Standard, StandardStream};
