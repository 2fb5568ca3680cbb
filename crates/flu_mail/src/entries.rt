//! What a mailbox keeps of an itag.

ghost use Rattle.std.specs.Prelude.{◌≡◌, ◌<◌, [], length, slice_index_or};
ghost use Rattle.flu_model.specs.Listed.{listed};
ghost use Rattle.flu_mail.specs.Entries as entries;
ghost use Rattle.flu_mail.specs.Entries.{IsEntryOver};

use crate::keys::Key;
use crate::places::{first_event, time_at};
use flu_model::{Itag, Streams};

/// What a node's mailbox keeps of an itag.
#[derive(Clone, Copy, PartialEq, Eq)]
pub struct Entry {
    /// Whether the node owns it.
    pub own: bool,
    /// Whether an ancestor of the node owns it.
    pub above: bool,
    /// How many items its stream has.
    pub all: u64,
    /// How many items of the itag's stream were seen.
    pub seen: u64,
    /// How many of its events were counted.
    pub count: u64,
    /// How many items come before the event that is the next to be counted; all if there is none.
    pub place: u64,
    /// The time of that event; 0 if there is none.
    pub time: u64,
}

/// Who owns an itag: the node of the mailbox, or an ancestor of it.
#[derive(Clone, Copy)]
pub enum Owner {
    Node,
    Ancestor,
}

/// The entry of an itag of which nothing was seen or counted, by who owns it.
pub fn new_entry(s: &Streams, i: Itag, own: bool, above: bool) -> Entry
    requires listed { i.0 < length (listed s.now) }
    ensures over { IsEntryOver (slice_index_or (listed s.now) i.0 []) result }
    ensures seen { result.seen ≡ 0 }
    ensures count { result.count ≡ 0 }
    ensures own { result.own ≡ own }
    ensures above { result.above ≡ above }
{
    let items = s.items(i);
    let place = first_event(items, 0);
    Entry {
        own,
        above,
        all: items.len() as u64,
        seen: 0,
        count: 0,
        place,
        time: time_at(items, place),
    }
}

/// The key of an itag: up to which event it lets all pass.
pub fn key_of(e: &Entry, i: Itag) -> Key
    ensures { result ≡ entries.key_of e.now i }
{
    if e.place < e.seen {
        Key::Next {
            time: e.time,
            itag: i,
        }
    } else if e.seen < e.all {
        Key::Unseen
    } else {
        Key::Over
    }
}

/// Its key among those of the node's itags, or of those above it; where it isn't one of them, it holds up nothing.
pub fn key_among(owner: Owner, e: &Entry, i: Itag) -> Key
    ensures { result ≡ entries.key_among (entries.is_of owner e.now) e.now i }
{
    if is_of(owner, e) {
        key_of(e, i)
    } else {
        Key::Over
    }
}

/// Whether an itag has this owner.
pub fn is_of(owner: Owner, e: &Entry) -> bool
    ensures { result ≡ entries.is_of owner e.now }
{
    match owner {
        Owner::Node => e.own,
        Owner::Ancestor => e.above,
    }
}
