//! What a token may be: the words, and how the marks are spelled.

ghost use Rattle.std.specs.Prelude.{◌≡◌};
ghost use Rattle.flu_text.specs.Spelling.{contextual_of};

use flu_names::Reserved;

/// The marks.
#[derive(Clone, Copy, PartialEq, Eq)]
pub enum Mark {
    /// `:`
    Colon,
    /// `;`
    Semicolon,
    /// `,`
    Comma,
    /// `[`
    OpenBracket,
    /// `]`
    CloseBracket,
    /// `(`
    OpenParen,
    /// `)`
    CloseParen,
    /// `..`
    Dots,
    /// `+`
    Plus,
    /// `-`
    Minus,
    /// `*`
    Times,
    /// `/`
    Divide,
    /// `%`
    Remainder,
    /// `<`
    Less,
    /// `<=`
    LessEq,
    /// `>`
    More,
    /// `>=`
    MoreEq,
    /// `==`
    Same,
    /// `!=`
    Differs,
    /// `@`
    At,
    /// `->`
    Arrow,
}

/// Which word of the language a name spells where the grammar has that word. Everywhere else it is a name as any other.
#[derive(Clone, Copy, PartialEq, Eq)]
pub enum Contextual {
    /// `item`
    Item,
    /// `ties`
    Ties,
    /// `iso`
    Iso,
    /// `names`
    Names,
    /// `by`
    By,
    /// `clock`
    Clock,
    /// `every`
    Every,
    /// None.
    Other,
}

/// The word that the bytes of a name spell where the grammar has that word.
#[tactic(auto, unfolding(crate::specs::Spelling::contextual_of))]
pub fn contextual_of(name: &[u8]) -> Contextual
    ensures { result ≡ contextual_of name.now }
{
    if name == b"item".as_slice() {
        Contextual::Item
    } else if name == b"ties".as_slice() {
        Contextual::Ties
    } else if name == b"iso".as_slice() {
        Contextual::Iso
    } else if name == b"names".as_slice() {
        Contextual::Names
    } else if name == b"by".as_slice() {
        Contextual::By
    } else if name == b"clock".as_slice() {
        Contextual::Clock
    } else if name == b"every".as_slice() {
        Contextual::Every
    } else {
        Contextual::Other
    }
}

/// What a token is. The bytes of a name or a text are read at the token's place.
#[derive(Clone, Copy, PartialEq, Eq)]
pub enum Word {
    /// An ASCII letter or `_`, then ASCII letters, digits and `_`: at most 32 bytes, and no reserved word. Which word it spells where
    /// the grammar has that word is told beside it.
    Name(Contextual),
    /// A reserved word.
    Reserved(Reserved),
    /// One or more ASCII digits, with their value, from 0 to 9223372036854775807. Leading zeros are allowed.
    Number(i64),
    /// At most 256 bytes between two `"`: any characters but `"`, those below U+0020, and U+007F.
    Text,
    /// A mark.
    Mark(Mark),
}

/// A word and its place: it takes the bytes from `from` to before `to`, counted from 0, and both are ends of characters. A text
/// takes its quotes too.
#[derive(Clone, Copy, PartialEq, Eq)]
pub struct Token {
    pub word: Word,
    pub from: usize,
    pub to: usize,
}

impl Mark {
    ghost use Rattle.flu_text.specs.Spelling.{mark_spelling};

    /// How the mark is spelled.
    pub(crate) fn spelling(self) -> &'static [u8]
        ensures { result.now ≡ mark_spelling self }
    {
        match self {
            Mark::Colon => b":",
            Mark::Semicolon => b";",
            Mark::Comma => b",",
            Mark::OpenBracket => b"[",
            Mark::CloseBracket => b"]",
            Mark::OpenParen => b"(",
            Mark::CloseParen => b")",
            Mark::Dots => b"..",
            Mark::Plus => b"+",
            Mark::Minus => b"-",
            Mark::Times => b"*",
            Mark::Divide => b"/",
            Mark::Remainder => b"%",
            Mark::Less => b"<",
            Mark::LessEq => b"<=",
            Mark::More => b">",
            Mark::MoreEq => b">=",
            Mark::Same => b"==",
            Mark::Differs => b"!=",
            Mark::At => b"@",
            Mark::Arrow => b"->",
        }
    }
}
