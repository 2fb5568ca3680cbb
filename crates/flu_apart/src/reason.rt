//! Why a node may not be apart.

use flu_model::{Cell, Tag};

/// A tag of a node's subtree, and a cell that it uses and the subtree neither contributes to nor keeps.
#[derive(Clone, Copy, PartialEq, Eq, Debug)]
pub struct SharedUse {
    pub tag: Tag,
    pub cell: Cell,
}

/// Why a node can't be apart.
#[derive(Clone, Copy, PartialEq, Eq, Debug)]
pub enum Reason {
    /// The subtree has the itag of a clock: the number of the first such clock among the job's sources. Its ticks follow the rows of all files,
    /// of which a node that is apart reads only some.
    Clock(u32),
    /// A tag of the node's subtree uses a cell that is shared.
    Shared(SharedUse),
}
