//! Checkpoints: a border and a state of a job as a JSON text, and back.
#![tactic(auto)]

mod entries;
mod fault;
mod laws;
mod reading;
mod saving;

pub use fault::SaveFault;
pub use laws::{
    checkpoints_are_of_jobs, checkpoints_have_one_meaning, faults_are_no_checkpoints,
    save_is_a_checkpoint, save_is_short,
};
pub use reading::{Saved, read_save};
pub use saving::save_text;
