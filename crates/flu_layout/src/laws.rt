//! Laws of printed words and of words that were read, each the contract of a function that does nothing.

ghost use Rattle.flu_layout.specs.Laws.{LaidIsRead, ReadMayBePrinted, BegunAreSigns, KeysAreSpelled, KeysAreLaid};

use flu_text::laws::{layout_is_read, names_are_tested, reading_is_exact, tokens_stand};

/// A text that is laid out by the rules is read as tokens that stand for its words, and signs that all of some tokens begin with
/// are their signs.
pub fn laid_is_read()
    ensures tokens { LaidIsRead }
    ensures signs { BegunAreSigns }
{
    names_are_tested();
    layout_is_read();
}

/// The names of a text that was read are names, and what is between its quotes may be there.
pub fn read_may_be_printed()
    ensures { ReadMayBePrinted }
{
    names_are_tested();
    reading_is_exact();
    tokens_stand();
}

/// The keys that are listed of a kind are laid out by the rules, where they are in range.
pub fn keys_are_laid()
    ensures spelled { KeysAreSpelled }
    ensures laid { KeysAreLaid }
{}
