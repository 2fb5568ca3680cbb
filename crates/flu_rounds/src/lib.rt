//! A run in rounds: each round reads of every source what it needs, folds its rows from the state after the round before it, and
//! writes their report (`docs/MODEL.md`, "Rounds").
#![tactic(auto)]

mod faults;
mod laws;
mod rounds;

pub use faults::RoundsFault;
pub use flu_streams::{Border, SourceFault};
pub use laws::{
    fronts_of_reports, halves_make_a_round, other_names_leave_runs_alone, parts_make_a_half,
    resumed_runs_go_on, resumed_runs_write_the_fold, runs_count_their_events, runs_go_on,
    runs_write_the_fold,
};
pub use rounds::{Begun, Rounds};
