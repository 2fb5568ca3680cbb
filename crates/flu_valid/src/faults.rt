//! Why a plan is not valid for a job.

use flu_model::{Itag, Plan};

/// What keeps a plan from being valid for a job. Nodes are named by their numbers.
#[derive(Clone, Copy, PartialEq, Eq, Debug)]
pub enum Invalid {
    /// No node owns the itag.
    Unowned { itag: Itag },
    /// Two nodes and perhaps more own the itag; `a` and `b` are the first two.
    OwnedTwice { itag: Itag, a: u32, b: u32 },
    /// The itag `i` of node `a` and the itag `j` of node `b` are dependent, and the nodes are not related.
    Clash { a: u32, i: Itag, b: u32, j: Itag },
}

/// A plan that is not valid for a job, and why.
#[derive(Drop)]
pub struct ValidFault {
    pub plan: Plan,
    pub why: Invalid,
}
