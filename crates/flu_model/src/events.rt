//! Tags, events, the items of a stream, cells and outputs.

ghost use Rattle.std.specs.Prelude.{◌≡◌, [], ◌∷◌, ◌++◌, OnOk, OnErr};
ghost use Rattle.flu_model.specs.Merging.{is_before};

use crate::words::Text;
use std::alloc::AllocError;
use std::marker::Model;

/// A tag: a kind, by its number as declared, and a key, which is 0 where the kind has none.
#[derive(Clone, Copy, PartialEq, Eq, PartialOrd, Ord, Debug)]
pub struct Tag {
    pub kind: u32,
    pub key: u32,
}

/// An implementation tag: a tag together with the source that it comes from, by its number from 0.
///
/// Itags are numbered by source, then by tag, as declared; a range of keys expands in rising order.
#[derive(Clone, Copy, PartialEq, Eq, PartialOrd, Ord, Debug)]
pub struct Itag(pub u32);

/// An event. Its time is its moment (`docs/MODEL.md`, "Moments"), which before version 3 is the time of its row. Its item is 0 where its kind has
/// no items, and its value is 0 where its kind has none.
#[derive(Clone, Copy, PartialEq, Eq, Debug)]
pub struct Event {
    pub time: u64,
    pub itag: Itag,
    pub item: u16,
    pub value: i64,
}

/// An item of a stream: an event, a heartbeat at a time, or the end, which is later than every time.
#[derive(Clone, Copy, PartialEq, Eq, Debug)]
pub enum Item {
    Event(Event),
    Beat(u64),
    End,
}

/// A cell: a family, by its number as declared, and a key, which is 0 where the family has none.
#[derive(Clone, Copy, PartialEq, Eq, PartialOrd, Ord, Debug)]
pub struct Cell {
    pub family: u32,
    pub key: u32,
}

/// What a cell holds: a sum, a maximum or a last value. A neutral cell holds nothing.
#[derive(Clone, Copy, PartialEq, Eq, Debug)]
pub enum Worth {
    Sum(i128),
    Max(i64),
    Last(i64),
}

/// An output: a text that an event of this tag emitted at this time.
#[derive(Drop)]
pub struct Out {
    pub time: u64,
    pub tag: Tag,
    pub text: Text,
}

/// A list of outputs, which contracts see as the list itself.
#[derive(Drop)]
pub struct Outs {
    all: Vec<Out>,
}

impl Model for Outs {
    ghost use Rattle.std.specs.Prelude.{List};
    ghost use Rattle.flu_model.specs.declared.events.Out.{Out};

    ghost Value = { List Out };

    ghost view = { λ a. a.all.items };
}

impl Outs {
    /// The list of these outputs.
    pub fn of(v: Vec<Out>) -> Outs
        ensures { result ≡ v.items }
    {
        Outs { all: v }
    }

    /// The outputs, in order.
    pub fn items(&self) -> &[Out]
        ensures { result.now ≡ self.now }
    {
        self.all.as_slice()
    }

    /// Appends the outputs of another list to this one; if memory is refused this list is as before.
    pub fn append(&mut self, other: Outs) -> Result<(), AllocError>
        ensures ok { OnOk result (self.new ≡ self.old ++ other) }
        ensures err { OnErr result (self.new ≡ self.old) }
    {
        let mut others = other.all;
        self.all.append(&mut others)?;
        Ok(())
    }

    /// Puts one more output at the end; where memory is refused the list is as before.
    pub fn push(&mut self, o: Out) -> Result<(), AllocError>
        ensures ok { OnOk result (self.new ≡ self.old ++ o ∷ []) }
        ensures err { OnErr result (self.new ≡ self.old) }
    {
        self.all.push(o)?;
        Ok(())
    }
}

/// Whether an event is before another: its time, and where these are equal its itag's number, is less.
pub fn before(a: &Event, b: &Event) -> bool
    ensures { result ≡ is_before a.now b.now }
{
    a.time < b.time || (a.time == b.time && a.itag.0 < b.itag.0)
}
