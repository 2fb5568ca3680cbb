//! The pieces of a template, as they are written.

use flu_syntax::{WrittenRef, WrittenSpan};

/// A piece: plain bytes by their places, or a field. The value of a flushed cell is written `{cell}`, and in version 3 a flush may
/// have the name of a family; what is between two braces may also have the form of no field.
#[derive(Clone, Copy)]
pub enum WrittenPiece {
    Plain(WrittenSpan),
    Value,
    Key,
    Item,
    Time,
    CellValue,
    Read(WrittenRef),
    Family(WrittenSpan),
    Formless,
}

/// The pieces so far, where the next one begins, and whether it is a field.
#[derive(Drop)]
pub struct Scanner {
    pub pieces: Vec<WrittenPiece>,
    pub start: usize,
    pub in_field: bool,
}

/// The pieces up to the first faulty brace, and whether there is none.
#[derive(Drop)]
pub struct ScannedTemplate {
    pub pieces: Vec<WrittenPiece>,
    pub whole: bool,
}
