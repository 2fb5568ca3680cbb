//! Laws of objects in memory, each the contract of a function that does nothing.

ghost use Rattle.flu_outside.specs.Answers.{LawOfTakes, LawOfWrites};

/// The law of takes: files in memory can give any answers to takes in which a name that ended stays ended. So whatever a program reads
/// from real files, it can read from files in memory that hold the bytes which the real ones gave.
pub fn takes_can_be_played()
    ensures { LawOfTakes }
{}

/// The law of writes: a sink in memory can give any answers to writes.
pub fn writes_can_be_played()
    ensures { LawOfWrites }
{}
