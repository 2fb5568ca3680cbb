//! Which words are whose, and what then holds of a call. Each law is the contract of a function that does nothing.

ghost use Rattle.flu_calls.specs.Laws.{CommandsAreNoPartCalls, PartCommandsArePartCalls, OthersHaveOutcomes, OthersAreRead, OthersHaveFaultsFirst};
ghost use Rattle.flu_calls.specs.Laws.{OthersHideNothing, OthersComplete, PartsHaveOutcomes, PartsAreRead, PartsHaveFaultsFirst, PartsHideNothing};
ghost use Rattle.flu_calls.specs.Laws.{PartsComplete};

use flu_words::languages_are_apart;

/// Words that are one of the eight commands begin with no part command, and words that are a part command begin with one.
pub fn of_words()
    ensures commands { CommandsAreNoPartCalls }
    ensures parts { PartCommandsArePartCalls }
{
    languages_are_apart();
}

/// Where words begin with no part command, all that `flu_top` says of a call holds of it, so that each law of `flu_top::laws` does.
pub fn of_other_calls()
    ensures outcome { OthersHaveOutcomes }
    ensures read { OthersAreRead }
    ensures faults { OthersHaveFaultsFirst }
    ensures hides { OthersHideNothing }
    ensures completes { OthersComplete }
{}

/// Where words begin with a part command, all that `flu_parts` says of a call holds of it.
pub fn of_part_calls()
    ensures outcome { PartsHaveOutcomes }
    ensures read { PartsAreRead }
    ensures faults { PartsHaveFaultsFirst }
    ensures hides { PartsHideNothing }
    ensures completes { PartsComplete }
{}
