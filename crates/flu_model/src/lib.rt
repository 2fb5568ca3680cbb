//! The vocabulary of jobs, events and outputs, and the definitions of what a job means (`docs/MODEL.md`).
#![tactic(auto)]

pub mod cells;
pub mod events;
pub mod itags;
pub mod jobs;
pub mod laws;
pub mod limits;
pub mod lists;
pub mod modes;
pub mod moments;
pub mod names;
pub mod numbering;
pub mod plans;
pub mod streams;
pub mod times;
pub mod words;

pub use cells::{actions_of, cell_of, item_of};
pub use events::{Cell, Event, Itag, Item, Out, Outs, Tag, Worth, before};
pub use flu_calendar::Unit;
pub use itags::{itag_count, key_count, source_of, tag_of};
pub use jobs::{
    Act, Action, At, CellRef, Depend, Expr, Family, Keys, Kind, Op, Piece, Program, Sort, Source,
    TagRef,
};
pub use limits::{KEY_COUNT, What};
pub use lists::List;
pub use modes::Mode;
pub use moments::{Timing, at_its_time, end_of_times, moments_a_time, time_of_moment, timing_of};
pub use names::tag_text;
pub use numbering::{NameList, NameTexts};
pub use plans::{Node, Plan, Pred, matches};
pub use streams::Streams;
pub use times::push_shown_time;
pub use words::{Name, Text};
