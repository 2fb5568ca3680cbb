//! The input of a demo: a job of page views, and streams of any length that a seed draws (`docs/LANGUAGE.md`, "Demo").
#![tactic(auto)]

mod drawn;
mod job;
pub mod laws;
mod streams;

pub use job::demo_job;
pub use streams::demo_streams;
