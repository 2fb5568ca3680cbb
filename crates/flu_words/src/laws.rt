//! What all commands have that words are, stated as the contract of a function that does nothing.

ghost use Rattle.flu_words.specs.Words.{RoundsHaveRows};
ghost use Rattle.flu_words.specs.Parts.{LanguagesAreApart};

/// A run that words ask for has rounds of 1 to 4,096 rows of each source.
pub fn rounds_have_rows()
    ensures { RoundsHaveRows }
{}

/// Words that begin with a command of partials are none of the other commands.
pub fn languages_are_apart()
    ensures { LanguagesAreApart }
{}
