//! The streams of a job's sources, or the first fault of their rows (`docs/LANGUAGE.md`, "Rows").
#![tactic(auto)]

mod border;
mod clocks;
mod faults;
mod gathered;
mod held;
mod inlet;
mod items;
mod late;
mod laws;
mod reading;
mod stop;
mod tags;
mod timed;

pub use border::Border;
pub use faults::{GatherFault, SourceFault, Why};
pub use held::{Held, Stage};
pub use laws::{
    borders_cut_a_fold, last_round_has_all_rows, last_round_has_later_rows,
    programs_of_a_job_read_the_same, rounds_are_counted_in_turn, rounds_are_folded_in_turn,
    rounds_begin_and_end, rounds_hold_few, rounds_meet_what_is_there,
};
pub use reading::{gather, gather_beside};
