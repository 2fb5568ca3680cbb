//! Why a part command stops behind its job and its plan.

use flu_lines::{FileDefect, NodeDefect};
use flu_streams::SourceFault;

/// Why a part command stops once its job is accepted and its plan is valid for it.
#[derive(Clone, Copy)]
pub enum Stop<'a> {
    /// The node of this name has a defect.
    Node(&'a str, NodeDefect),
    /// The file of this name has a defect.
    File(&'a str, FileDefect),
    /// A source has a defect.
    Source(SourceFault),
    /// A file failed.
    ReadFault,
    /// Out failed.
    WriteFault,
    /// Memory ran out.
    NoMemory,
}
