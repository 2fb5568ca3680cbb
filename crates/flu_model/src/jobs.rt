//! A job: its cells, its kinds of tags with their actions, its dependencies and its sources.

ghost use Rattle.std.specs.Prelude.{◌≤◌, length, IsTrue};
ghost use Rattle.flu_model.specs.Listing.{itags_of_sources};
ghost use Rattle.flu_model.specs.Versions.{fit_version, ties_fit, iso_fits, clocks_fit};
ghost use Rattle.flu_model.specs.Rules.{is_version, are_families, are_kinds, are_depends, are_sources, have_own_names, have_own_files};
ghost use Rattle.flu_model.specs.ListRules.{are_lists, fit_lists};

use crate::lists::List;
use crate::numbering::NameList;
use crate::words::{Name, Text};
use flu_calendar::Unit;

/// What the cells of a family hold: sums of 128 bits, maxima, or last values of 64 bits.
#[derive(Clone, Copy, PartialEq, Eq, Debug)]
pub enum Sort {
    Sum,
    Max,
    Last,
}

/// A family of cells of one sort; a keyed one has a cell for each key from 0 to 65,535, and the list of this number, from 0 as declared,
/// may name its keys.
#[derive(Drop)]
pub struct Family {
    pub name: Name,
    pub keyed: bool,
    pub list: Option<u32>,
    pub sort: Sort,
}

/// Which cell of a family is meant: its only one, the one of the tag's key, the one of the event's item, or the one of a number.
#[derive(Clone, Copy, PartialEq, Eq, Debug)]
pub enum At {
    Alone,
    OwnKey,
    OwnItem,
    Fixed(u32),
}

/// A cell as an action names it.
#[derive(Clone, Copy, PartialEq, Eq, Debug)]
pub struct CellRef {
    pub family: u32,
    pub at: At,
}

/// An operator on two numbers. `Divide` cuts toward 0, `Remainder` has the sign of the left operand, and both give 0 where the
/// right operand is 0.
#[derive(Clone, Copy, PartialEq, Eq, Debug)]
pub enum Op {
    Plus,
    Minus,
    Times,
    Divide,
    Remainder,
    Less,
    LessEq,
    More,
    MoreEq,
    Same,
    Differs,
    Both,
    Either,
}

/// An expression over the event and the cells: a signed number of 64 bits, where each result is clamped to that range.
///
/// `Read` gives what a cell holds, a sum clamped and a neutral cell as 0; `Has` is 1 where a cell is not neutral.
/// Comparisons and `Not`, `Both`, `Either` give 0 or 1 and take every number but 0 as true.
#[derive(Drop)]
pub enum Expr {
    Lit(i64),
    Value,
    Key,
    Item,
    Time,
    Read(CellRef),
    Has(CellRef),
    Neg(Box<Expr>),
    Not(Box<Expr>),
    Two(Op, Box<Expr>, Box<Expr>),
}

/// A piece of the text that an action emits: plain bytes, or a field that is filled in.
///
/// `CellValue` and `FamilyCell` occur only in a flush, where `Key` is the flushed cell's key: `CellValue` is what the flushed cell
/// holds, and `FamilyCell` what the cell of another family holds, of a keyed family the one with the flushed key. `Read` occurs only
/// in an emit.
#[derive(Drop)]
pub enum Piece {
    Plain(Text),
    Value,
    Key,
    Item,
    Time,
    Read(CellRef),
    CellValue,
    FamilyCell(u32),
}

/// What an action does: adds to a sum, raises a maximum, sets a last value, makes a cell or all cells of a keyed family neutral,
/// emits a text, or emits a text for each cell of a family that is not neutral and makes all of them neutral.
#[derive(Drop)]
pub enum Act {
    Add(CellRef, Expr),
    Raise(CellRef, Expr),
    Set(CellRef, Expr),
    Clear(CellRef),
    ClearFamily(u32),
    Emit(List<Piece>),
    Flush(u32, List<Piece>),
}

/// An action, which is done only where its guard is not 0.
#[derive(Drop)]
pub struct Action {
    pub act: Act,
    pub guard: Option<Expr>,
}

/// A kind of tags; a keyed one has a tag for each key. Where it has items, each of its events has one, a number from 0 to 65,535 that
/// chooses a cell; where a list names them, the one of this number, from 0 as declared, rows give the item by its name.
#[derive(Drop)]
pub struct Kind {
    pub name: Name,
    pub keyed: bool,
    pub has_item: bool,
    pub list: Option<u32>,
    pub has_value: bool,
    pub actions: List<Action>,
}

/// Two kinds that depend on each other, at all keys or at the same key.
#[derive(Clone, Copy, PartialEq, Eq, Debug)]
pub struct Depend {
    pub a: u32,
    pub b: u32,
    pub same: bool,
}

/// The keys that a source lists of a kind.
#[derive(Clone, Copy, PartialEq, Eq, Debug)]
pub enum Keys {
    Alone,
    One(u32),
    Range(u32, u32),
}

/// Tags of one kind that a source lists.
#[derive(Clone, Copy, PartialEq, Eq, Debug)]
pub struct TagRef {
    pub kind: u32,
    pub keys: Keys,
}

/// A source of events: a file by its name, or a clock by its period, `every`, from 1 to 2^62 in the unit of times. It has the tags that it
/// lists, how many events a second are to be expected of each, which serves plans alone, and how late a row may be, from 0 to 60,000 in the
/// unit of its times. A clock ticks at the multiples of its period; its `file` is empty, none of its ticks is late, and it lists one tag,
/// of a kind without key, item and value.
#[derive(Drop)]
pub struct Source {
    pub name: Name,
    pub file: Text,
    pub every: Option<u64>,
    pub rate: u64,
    pub slack: u64,
    pub tags: List<TagRef>,
}

/// A job. Its names, shapes and sizes keep the rules of the language (`docs/LANGUAGE.md`), so no caller can make another. The
/// version of the language, 1 to 3, says how tags that only read a cell may share it, and whether there are items. In version 3 a source may
/// have up to `ties` rows at one time, from 1 to 2,147,483,648, and there are clocks; before it `ties` is 1. With a unit, `iso`, times count it from
/// 1970-01-01T00:00:00 UTC on: rows may write them as text, and the report and `{time}` show them so.
#[derive(Drop)]
pub struct Program {
    pub version: u32,
    pub ties: u32,
    pub iso: Option<Unit>,
    pub lists: List<NameList>,
    pub families: List<Family>,
    pub kinds: List<Kind>,
    pub depends: List<Depend>,
    pub sources: List<Source>,
    pub ghost known_version: { IsTrue (is_version version) },
    pub ghost known_ties: { IsTrue (ties_fit version ties) },
    pub ghost known_iso: { IsTrue (iso_fits version iso) },
    pub ghost few_lists: { length lists ≤ 64 },
    pub ghost few_families: { length families ≤ 64 },
    pub ghost few_kinds: { length kinds ≤ 64 },
    pub ghost few_depends: { length depends ≤ 4096 },
    pub ghost few_sources: { length sources ≤ 64 },
    pub ghost few_itags: { length (itags_of_sources 0 sources) ≤ 256 },
    pub ghost lists_are: { IsTrue (are_lists lists) },
    pub ghost families_fit: { IsTrue (are_families families) },
    pub ghost kinds_fit: { IsTrue (are_kinds families kinds) },
    pub ghost version_fits: { IsTrue (fit_version version families kinds) },
    pub ghost lists_fit: { IsTrue (fit_lists version lists families kinds) },
    pub ghost depends_fit: { IsTrue (are_depends kinds depends) },
    pub ghost sources_fit: { IsTrue (are_sources kinds sources) },
    pub ghost clocks_fit: { IsTrue (clocks_fit version sources) },
    pub ghost own_names: { IsTrue (have_own_names lists families kinds sources) },
    pub ghost own_files: { IsTrue (have_own_files sources) },
}
