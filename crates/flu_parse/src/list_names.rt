//! The names of lists, in the order of their declarations.

ghost use Rattle.std.specs.Prelude.{◌≡◌, ◌<◌, ◌∷◌, ◌++◌, [], false, length, position, OnOk, OnErr};
ghost use Rattle.std.specs.List.{list_any};
ghost use Rattle.std.specs.Str.{bytes_eq};

use indexmap::IndexSet;
use std::alloc::{AllocError, Global};
use std::marker::Model;

/// The names of at most 64 lists, with a look-up by name. Contracts see the list of their bytes.
#[derive(Drop)]
pub struct ListNames<'t> {
    names: IndexSet<&'t str>,
}

impl<'t> Model for ListNames<'t> {
    ghost use Rattle.std.specs.Prelude.{List, ℕ, ◌≤◌, length, map};

    ghost Value = { List (List ℕ) };

    ghost view = { λ l. map (λ k. k.now) l.names.keys };

    ghost invariant = { λ l. length l.names.keys ≤ 64 };
}

impl<'t> ListNames<'t> {
    /// No names. It takes no memory.
    pub fn new(alloc: Global) -> ListNames<'t>
        ensures { result ≡ [] }
    {
        ListNames {
            names: IndexSet::new(alloc),
        }
    }

    /// How many names there are.
    pub fn len(&self) -> usize
        ensures { result ≡ length self.now }
    {
        self.names.len()
    }

    /// Whether a list has this name.
    pub fn contains(&self, name: &str) -> bool
        ensures { result ≡ list_any (bytes_eq name.now) self.now }
    {
        self.names.contains(name)
    }

    /// The number of the list that has this name, from 0.
    pub fn number(&self, name: &str) -> Option<u32>
        ensures { result ≡ position (bytes_eq name.now) self.now }
    {
        match self.names.get_index_of(name) {
            Some(number) => Some(number as u32),
            None => None,
        }
    }

    /// One more name, which no list has, where there are less than 64.
    ///
    /// # Errors
    ///
    /// Only if memory runs out.
    pub fn add(&mut self, name: &'t str) -> Result<(), AllocError>
        requires few { length self.old < 64 }
        requires fresh { list_any (bytes_eq name.now) self.old ≡ false }
        ensures { OnOk result (self.new ≡ self.old ++ name.now ∷ []) }
    {
        self.names.insert(name)?;
        Ok(())
    }
}
