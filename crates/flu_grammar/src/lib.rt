//! What texts of jobs and of plans mean, by their grammar (`docs/LANGUAGE.md`): relations between bytes and what they say, with the
//! laws that the readers follow them.
#![tactic(auto)]

pub mod laws;
