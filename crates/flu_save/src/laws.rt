//! Laws of checkpoints, each the contract of a function that does nothing.

ghost use Rattle.flu_save.specs.Laws.{LawOfFaults, LawOfOneMeaning, LawOfShortTexts, LawOfSaves, SavesHaveNoFault, SavesMeanThemselves, SavesAreOfJobs};

/// Bytes that have one of the faults of `SaveFault`, but want of memory, are no checkpoint of the job.
pub fn faults_are_no_checkpoints()
    ensures { LawOfFaults }
{}

/// Bytes are a checkpoint of one border and one state at most.
pub fn checkpoints_have_one_meaning()
    ensures { LawOfOneMeaning }
{}

/// The text of a checkpoint has at most the 536,870,912 bytes that are read, where the normal form of its job has at most 26,214,400.
pub fn save_is_short()
    ensures { LawOfShortTexts }
{}

/// The text of a checkpoint is a checkpoint of its border, at most 2^63 - 1, and of its state, which has values of the job's sorts that
/// fit them: so `read_save` of it fails only if memory runs out. For this the normal form of the job has to be UTF-8 of at most
/// 26,214,400 bytes. And it is a checkpoint of no other border or state.
pub fn save_is_a_checkpoint()
    ensures checkpoint { LawOfSaves }
    ensures no_fault { SavesHaveNoFault }
    ensures meaning { SavesMeanThemselves }
{}

/// Programs that are the same job, wherever their expressions lie in memory, have the same checkpoints.
pub fn checkpoints_are_of_jobs()
    ensures { SavesAreOfJobs }
{}
