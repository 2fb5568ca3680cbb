//! Laws of the lexical grammar, each the contract of a function that does nothing.

ghost use Rattle.flu_text.specs.Laws.{TokensAreUnique, BadPlaceIsUnique, TokensOrBadPlace, ReadingIsTokens, ReadingIsBadPlace, EachIsToken, EachIsSpan};
ghost use Rattle.flu_text.specs.Laws.{EachIsInside, TokensRise, LayoutIsRead, LayoutIsSpelled, NamesAreTested, ReservedIsSpelled, SignsStand};

/// A text has one reading: its tokens, or the first place where none begins.
pub fn one_reading()
    ensures tokens { TokensAreUnique }
    ensures bad_place { BadPlaceIsUnique }
    ensures either { TokensOrBadPlace }
{}

/// The computed reading is the grammar's.
pub fn reading_is_exact()
    ensures tokens { ReadingIsTokens }
    ensures bad_place { ReadingIsBadPlace }
{}

/// Each token of a text is in it, and in a text that is UTF-8 it begins and ends between characters, as does what is
/// between the quotes of a text.
pub fn tokens_stand()
    ensures each { EachIsToken }
    ensures spans { EachIsSpan }
    ensures inside { EachIsInside }
    ensures rise { TokensRise }
{}

/// What is laid out as words with blanks between them is read as those words, each with its spelling.
pub fn layout_is_read()
    ensures tokens { LayoutIsRead }
    ensures spellings { LayoutIsSpelled }
{}

/// A name of the lexical grammar is what `flu_names` takes for one, and the reserved word that it finds is the one that is spelled so.
pub fn names_are_tested()
    ensures names { NamesAreTested }
    ensures reserved { ReservedIsSpelled }
{}

/// Where tokens are signs, one by one, each sign stands for one of the tokens.
pub fn signs_stand()
    ensures { SignsStand }
{}
