//! A job as it is written: a head, and declarations whose names and texts are spans of bytes of the job text.

use flu_model::{List, Op, Sort};
pub use flu_text::{WrittenKeys, WrittenNumber, WrittenSpan};

/// What is in brackets after a family's name, if anything: `key` or `item`, by the place of that word, or a number.
#[derive(Clone, Copy, PartialEq, Eq)]
pub enum WrittenKey {
    Alone,
    OwnKey { at: usize },
    OwnItem { at: usize },
    Fixed(WrittenNumber),
}

/// A cell: a family's name and what is in brackets.
#[derive(Clone, Copy, PartialEq, Eq)]
pub struct WrittenRef {
    pub family: WrittenSpan,
    pub key: WrittenKey,
}

/// An expression; `at` is the place of a word that is alone, of a parenthesis or of an operator. Parentheses are kept, so that a tree
/// has one spelling.
pub enum WrittenExpr {
    Number(WrittenNumber),
    Value {
        at: usize,
    },
    Key {
        at: usize,
    },
    Time {
        at: usize,
    },
    Read(WrittenRef),
    Has {
        at: usize,
        cell: WrittenRef,
    },
    Paren {
        at: usize,
        inner: Box<WrittenExpr>,
    },
    Neg {
        at: usize,
        inner: Box<WrittenExpr>,
    },
    Not {
        at: usize,
        inner: Box<WrittenExpr>,
    },
    Two {
        op: Op,
        at: usize,
        left: Box<WrittenExpr>,
        right: Box<WrittenExpr>,
    },
}

// Operators group to the left, so that a long sequence of them is a chain of left operands: the loop goes along it. What is to the
// right goes no deeper than parentheses and unary operators may be open.
impl Drop for WrittenExpr {
    fn drop(mut self) {
        loop {
            match self {
                WrittenExpr::Number(_) => return,
                WrittenExpr::Value { at: _ } => return,
                WrittenExpr::Key { at: _ } => return,
                WrittenExpr::Time { at: _ } => return,
                WrittenExpr::Read(_) => return,
                WrittenExpr::Has { at: _, cell: _ } => return,
                WrittenExpr::Paren { at: _, inner } => self = Box::into_inner(inner),
                WrittenExpr::Neg { at: _, inner } => self = Box::into_inner(inner),
                WrittenExpr::Not { at: _, inner } => self = Box::into_inner(inner),
                WrittenExpr::Two {
                    op: _,
                    at: _,
                    left,
                    right: _,
                } => self = Box::into_inner(left),
            }
        }
    }
}

/// What an action does.
#[derive(Drop)]
pub enum WrittenAct {
    Add(WrittenRef, WrittenExpr),
    Raise(WrittenRef, WrittenExpr),
    Set(WrittenRef, WrittenExpr),
    Clear(WrittenRef),
    Emit(WrittenSpan),
    Flush(WrittenSpan, WrittenSpan),
}

/// An action, with the place of its first token, and its guard.
#[derive(Drop)]
pub struct WrittenAction {
    pub at: usize,
    pub act: WrittenAct,
    pub guard: Option<WrittenExpr>,
}

/// Tags of one kind that a source lists.
#[derive(Clone, Copy, PartialEq, Eq)]
pub struct WrittenTag {
    pub kind: WrittenSpan,
    pub keys: WrittenKeys,
}

/// The list that names keys or items: the place of the word `by`, and the list's name after it.
#[derive(Clone, Copy, PartialEq, Eq)]
pub struct WrittenBy {
    pub at: usize,
    pub list: WrittenSpan,
}

/// Which cells a family has: its only one, one for each key, or one for each key where a list names the keys.
#[derive(Clone, Copy, PartialEq, Eq)]
pub enum WrittenCells {
    Alone,
    Keyed,
    By(WrittenBy),
}

/// The items of a kind: the place of the word `item`, and the list that names them, if one does.
#[derive(Clone, Copy, PartialEq, Eq)]
pub struct WrittenItem {
    pub at: usize,
    pub by: Option<WrittenBy>,
}

/// A declaration. The events of a tag have an item if the word `item` is there. The relation of a `depends` is `same` if that word is
/// there, by its place; a written `all` means the same as none, so it is kept only as that word. A list of names keeps the place of
/// the word `names`, and a clock the place of the word `clock`.
#[derive(Drop)]
pub enum WrittenDeclaration {
    Cell {
        name: WrittenSpan,
        cells: WrittenCells,
        sort: Sort,
    },
    Tag {
        name: WrittenSpan,
        keyed: bool,
        item: Option<WrittenItem>,
        has_value: bool,
    },
    Names {
        at: usize,
        name: WrittenSpan,
        texts: List<WrittenSpan>,
    },
    Depends {
        a: WrittenSpan,
        b: WrittenSpan,
        relation: WrittenRelation,
    },
    On {
        kind: WrittenSpan,
        actions: List<WrittenAction>,
    },
    Source {
        name: WrittenSpan,
        file: WrittenSpan,
        rate: Option<WrittenNumber>,
        slack: Option<WrittenNumber>,
        tags: List<WrittenTag>,
    },
    Clock {
        at: usize,
        name: WrittenSpan,
        every: WrittenNumber,
        rate: Option<WrittenNumber>,
        tag: WrittenSpan,
    },
}

/// The relation of a `depends`, as it is written.
#[derive(Clone, Copy, PartialEq, Eq)]
pub enum WrittenRelation {
    None,
    All,
    Same { at: usize },
}

/// The unit of a job's times: the place of the word `iso`, and the name after it.
#[derive(Clone, Copy, PartialEq, Eq)]
pub struct WrittenUnit {
    pub at: usize,
    pub name: WrittenSpan,
}

/// How many rows a source may have at one time: the place of the word `ties`, and the number after it.
#[derive(Clone, Copy, PartialEq, Eq)]
pub struct WrittenTies {
    pub at: usize,
    pub number: WrittenNumber,
}

/// What a job begins with: the number after `version`, how many rows a source may have at one time and the unit of the times, if they are
/// written.
#[derive(Clone, Copy)]
pub struct WrittenHead {
    pub version: WrittenNumber,
    pub ties: Option<WrittenTies>,
    pub iso: Option<WrittenUnit>,
}

/// A whole job: its head, if one is written, and the declarations in order.
#[derive(Drop)]
pub struct WrittenJob {
    pub head: Option<WrittenHead>,
    pub declarations: List<WrittenDeclaration>,
}
