//! The time up to which a round takes rows.

/// How far a round of a run reaches (`docs/MODEL.md`, "Rounds").
#[derive(Clone, Copy, Debug, PartialEq, Eq)]
pub enum Border {
    /// It takes the rows up to this time; later ones are for later rounds.
    At(u64),
    /// It is the last round, and takes all rows that are left.
    Closed,
}
