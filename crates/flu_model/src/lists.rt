//! A list of items, which contracts see as the list itself.

ghost use Rattle.std.specs.Prelude.{◌≡◌};

use std::marker::Model;

/// A list of items.
#[derive(Drop)]
pub struct List<T> {
    all: Vec<T>,
}

impl<T> Model for List<T> {
    ghost use Rattle.std.specs.Prelude.{List as Items};

    ghost Value = { Items T };

    ghost view = { λ a. a.all.items };
}

impl<T> List<T> {
    /// The list of these items.
    pub fn of(v: Vec<T>) -> List<T>
        ensures { result ≡ v.items }
    {
        List { all: v }
    }

    /// The items, in order.
    pub fn items(&self) -> &[T]
        ensures { result.now ≡ self.now }
    {
        self.all.as_slice()
    }
}
