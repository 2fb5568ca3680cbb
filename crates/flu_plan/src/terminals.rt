//! The terminals of the grammar of plan texts.

ghost use Rattle.std.specs.Prelude.{◌≡◌};
ghost use Rattle.flu_plan.specs.Machine.{terminal_of};

use flu_text::{Mark, Reserved, Word};

/// What a word is in a plan text.
#[derive(Clone, Copy)]
pub enum Terminal {
    Node,
    Name,
    Number(i64),
    Colon,
    Comma,
    OpenBracket,
    CloseBracket,
    Dots,
    At,
    Arrow,
    Other,
}

/// What this word is.
#[tactic(auto, unfolding(crate::specs::Machine::terminal_of))]
pub fn terminal_of(word: Word) -> Terminal
    ensures { result ≡ terminal_of word }
{
    match word {
        Word::Name(_) => Terminal::Name,
        Word::Reserved(word) => match word {
            Reserved::Node => Terminal::Node,
            _ => Terminal::Other,
        },
        Word::Number(number) => Terminal::Number(number),
        Word::Text => Terminal::Other,
        Word::Mark(mark) => match mark {
            Mark::Colon => Terminal::Colon,
            Mark::Comma => Terminal::Comma,
            Mark::OpenBracket => Terminal::OpenBracket,
            Mark::CloseBracket => Terminal::CloseBracket,
            Mark::Dots => Terminal::Dots,
            Mark::At => Terminal::At,
            Mark::Arrow => Terminal::Arrow,
            _ => Terminal::Other,
        },
    }
}
