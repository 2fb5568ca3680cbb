//! What the languages of jobs and plans write alike: names and texts by their spans, numbers and keys by their places.

/// Bytes of the text, from one place to before another: a name, or a text with its quotes.
#[derive(Clone, Copy, PartialEq, Eq)]
pub struct WrittenSpan {
    pub from: usize,
    pub to: usize,
}

/// A number, and the place of its first digit.
#[derive(Clone, Copy, PartialEq, Eq)]
pub struct WrittenNumber {
    pub value: i64,
    pub at: usize,
}

/// The keys that a tag reference lists.
#[derive(Clone, Copy, PartialEq, Eq)]
pub enum WrittenKeys {
    Alone,
    One(WrittenNumber),
    Range(WrittenNumber, WrittenNumber),
}
