//! Laws of what is handed over by lines, each the contract of a function that does nothing.

ghost use Rattle.flu_handover.specs.Laws.{AlikeContributionsJoinAlike, AlikeOutputsHaveOneReport, LinesDetermine, SendableHaveLines};

/// Outputs whose lines are the same, in order, have the same report: it goes by the texts of tags.
pub fn alike_outputs_have_one_report()
    ensures { AlikeOutputsHaveOneReport }
{}

/// Contributions that are alike, each joined to one of two combined folds with the same cells and outputs of the same lines, leave folds
/// with the same cells and outputs of the same lines. So `handed_of` of a line serves in place of what the line was made of.
pub fn alike_contributions_join_alike()
    ensures { AlikeContributionsJoinAlike }
{}

/// What can be handed over is alike where its lines are the same.
pub fn lines_determine()
    ensures { LinesDetermine }
{}

/// What can be handed over is a contribution that has a line, if times are at most 2^63 - 1, the itag's number is below 256, and the count of
/// events is below 2^64. So `flu_partial` reads it from the line that it prints of it, if that is short and its texts are UTF-8.
pub fn sendable_have_lines()
    ensures { SendableHaveLines }
{}
