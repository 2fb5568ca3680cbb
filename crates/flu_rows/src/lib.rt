//! The rows of a source's file, one after another (`docs/LANGUAGE.md`, "Rows").
#![tactic(auto)]

mod cutting;
mod fields;
mod front;
mod item_lists;
mod last_name;
mod laws;
mod line;
mod names;
mod records;
mod row;
mod rows;
mod run;
mod scan;
mod short_name;

pub use item_lists::ItemLists;
pub use laws::times_are_in_range;
pub use row::{Fields, Row, RowForm, form_of};
pub use rows::{Next, Rows};
pub use short_name::ShortName;
