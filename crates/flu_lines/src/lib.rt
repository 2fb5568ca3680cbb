//! What a call answers, and the line that err gets of it (`docs/LANGUAGE.md`).
#![tactic(auto)]

mod lines;
mod names;
mod part_lines;
mod parts;
mod pieces;
mod plan_lines;
mod products;
mod refusals;
mod statuses;

pub use lines::{say, say_done};
pub use part_lines::say_part;
pub use parts::{FileDefect, NodeDefect, PartRefusal, status_of_part};
pub use products::{Counts, Done, DrawnSteps, ReadIn, Said, Span};
pub use refusals::{JobRead, PlanDefect, Refusal, SaveDefect, job_refusal, plan_refusal};
pub use statuses::{Status, status_after};
