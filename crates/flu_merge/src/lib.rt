//! The order in which the rows of the files of a job are taken.
#![tactic(auto)]

mod laws;

pub use laws::{good_files_are_merged, rounds_tell_ticks, rows_have_their_moments};
