//! Laws of the grammar, each the contract of a function that does nothing.

ghost use Rattle.flu_text.specs.Laws.{SignsStand};
ghost use Rattle.flu_syntax.specs.Laws.{FoundIsJob, JobsAreUnique, UnexpectedIsFirst, TooDeepIsThe65th, WordsStand};

use flu_text::laws::signs_stand;

/// What is found is exactly what the tokens are by the grammar, word by word and place by place; and they are one job at most.
pub fn found_is_job()
    ensures exactly { FoundIsJob }
    ensures unique { JobsAreUnique }
{}

/// An unexpected token is exactly the first with which the tokens before it can no longer be continued to a job, however many parentheses and
/// unary operators may be open; and if that is the end, they can be continued and are no job yet.
pub fn unexpected_is_first()
    ensures { UnexpectedIsFirst }
{}

/// Too many parentheses and unary operators are open exactly if a token that may follow opens the 65th: those before it can be continued
/// to a job, and with it to one in which 65 are open at once, but to none with fewer.
pub fn too_deep_is_the_65th()
    ensures { TooDeepIsThe65th }
{}

/// Each span of a job that is a name is the span of a name's token, each that is a text is the span of a text's, and each number is
/// the value of a number's token, which begins at the number's place.
pub fn words_stand()
    ensures { WordsStand }
{
    signs_stand();
}
