//! Streams: the items of each itag.

ghost use Rattle.std.specs.Prelude.{◌≡◌, ◌<◌, [], length, map, slice_index_or, IsTrue};
ghost use Rattle.flu_model.specs.Streaming.{are_streams};

use crate::events::{Itag, Item};

/// For each itag, by its number, a list of items: times rise strictly, each event is of that itag, and the end comes last.
#[derive(Drop)]
pub struct Streams {
    lists: Vec<Vec<Item>>,
    pub ghost good: { IsTrue (are_streams 0 (map (λ v. v.items) lists.items)) },
}

impl Streams {
    ghost use Rattle.flu_model.specs.Listed.{listed};

    /// The streams with these lists.
    pub fn new(lists: Vec<Vec<Item>>) -> Streams
        requires { IsTrue (are_streams 0 (map (λ v. v.items) lists.items)) }
        ensures { listed result ≡ map (λ v. v.items) lists.items }
    {
        Streams { lists }
    }

    /// The items of an itag.
    pub fn items(&self, i: Itag) -> &[Item]
        requires { i.0 < length (listed self.now) }
        ensures { result.now ≡ slice_index_or (listed self.now) i.0 [] }
    {
        self.lists[i.0 as usize].as_slice()
    }
}
