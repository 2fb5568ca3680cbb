//! Files of which only selected sources are read.
#![tactic(auto)]

mod closed;
mod end_line;
mod gathering;
mod laws;
mod lent;
mod origin;
mod selected;

pub use closed::ClosedNames;
pub use gathering::{closed_files, gather_selected};
pub use laws::{
    closed_sources_have_no_defect, open_names_agree, programs_of_a_job_select_the_same,
    selected_sources_are_read,
};
pub use lent::Lent;
pub use origin::Origin;
pub use selected::Selected;
