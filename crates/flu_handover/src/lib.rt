//! What a node apart hands over (`docs/SCALE.md`), as a contribution of a partial's line, and back.
#![tactic(auto)]

mod amounts;
mod laws;
mod outputs;
mod receiving;
mod sending;
mod states;
mod tags;

pub use laws::{
    alike_contributions_join_alike, alike_outputs_have_one_report, lines_determine,
    sendable_have_lines,
};
pub use receiving::handed_of;
pub use sending::line_of;
