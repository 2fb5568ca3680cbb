//! The reserved words.

ghost use Rattle.std.specs.Prelude.{◌≡◌};

/// The words that no name may be, each by its own letters, the first one in upper case.
#[derive(Clone, Copy, Debug, PartialEq, Eq)]
pub enum Reserved {
    Cell,
    Tag,
    Depends,
    On,
    Source,
    Keyed,
    Sum,
    Max,
    Last,
    Int,
    None,
    Same,
    All,
    Rate,
    Add,
    Raise,
    Set,
    Clear,
    Emit,
    Flush,
    When,
    Value,
    Key,
    Time,
    Has,
    And,
    Or,
    Not,
    Beat,
    End,
    Node,
    Version,
    Slack,
}

/// All of them.
pub const WORDS: [Reserved; 33] = [
    Reserved::Cell,
    Reserved::Tag,
    Reserved::Depends,
    Reserved::On,
    Reserved::Source,
    Reserved::Keyed,
    Reserved::Sum,
    Reserved::Max,
    Reserved::Last,
    Reserved::Int,
    Reserved::None,
    Reserved::Same,
    Reserved::All,
    Reserved::Rate,
    Reserved::Add,
    Reserved::Raise,
    Reserved::Set,
    Reserved::Clear,
    Reserved::Emit,
    Reserved::Flush,
    Reserved::When,
    Reserved::Value,
    Reserved::Key,
    Reserved::Time,
    Reserved::Has,
    Reserved::And,
    Reserved::Or,
    Reserved::Not,
    Reserved::Beat,
    Reserved::End,
    Reserved::Node,
    Reserved::Version,
    Reserved::Slack,
];

impl Reserved {
    ghost use Rattle.flu_names.specs.Names.{reserved_spelling};

    /// How the word is spelled.
    pub fn spelling(self) -> &'static [u8]
        ensures { result.now ≡ reserved_spelling self }
    {
        match self {
            Reserved::Cell => b"cell",
            Reserved::Tag => b"tag",
            Reserved::Depends => b"depends",
            Reserved::On => b"on",
            Reserved::Source => b"source",
            Reserved::Keyed => b"keyed",
            Reserved::Sum => b"sum",
            Reserved::Max => b"max",
            Reserved::Last => b"last",
            Reserved::Int => b"int",
            Reserved::None => b"none",
            Reserved::Same => b"same",
            Reserved::All => b"all",
            Reserved::Rate => b"rate",
            Reserved::Add => b"add",
            Reserved::Raise => b"raise",
            Reserved::Set => b"set",
            Reserved::Clear => b"clear",
            Reserved::Emit => b"emit",
            Reserved::Flush => b"flush",
            Reserved::When => b"when",
            Reserved::Value => b"value",
            Reserved::Key => b"key",
            Reserved::Time => b"time",
            Reserved::Has => b"has",
            Reserved::And => b"and",
            Reserved::Or => b"or",
            Reserved::Not => b"not",
            Reserved::Beat => b"beat",
            Reserved::End => b"end",
            Reserved::Node => b"node",
            Reserved::Version => b"version",
            Reserved::Slack => b"slack",
        }
    }
}
