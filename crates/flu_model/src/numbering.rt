//! Lists of names: texts that a job numbers from 0, by which rows and texts call items and keys.

ghost use Rattle.std.specs.Prelude.{◌≡◌, ◌<◌, ◌≤◌, ◌++◌, ◌∷◌, [], not, map, length, slice_get, option_map, position, if◌then◌else◌, IfOk, IsTrue};
ghost use Rattle.std.specs.List.{list_any};
ghost use Rattle.std.specs.Str.{bytes_eq};
ghost use Rattle.flu_model.specs.Numberings.{Numbering, text_at, number_of};
ghost use Rattle.flu_model.specs.Rules.{is_same_text, are_distinct};

use crate::words::Name;
use indexmap::IndexSet;
use std::alloc::{AllocError, Global};
use std::marker::Model;
use std::str;
use std::sync::Arc;

/// Texts in the order in which they were added, no two the same, with a look-up by text. Contracts see the list of their bytes.
#[derive(Drop)]
pub struct NameTexts {
    texts: IndexSet<String>,
}

impl Model for NameTexts {
    ghost use Rattle.std.specs.Prelude.{List, ℕ, map, IsTrue};
    ghost use Rattle.std.specs.List.{AllByRecursion};
    ghost use Rattle.std.specs.Str.{IsUtf8};
    ghost use Rattle.std.specs.String.{string_bytes};
    ghost use Rattle.flu_model.specs.Rules.{is_same_text, are_distinct};

    ghost Value = { List (List ℕ) };

    ghost view = { λ t. map string_bytes t.texts.keys };

    ghost invariant = { λ t. AllByRecursion IsUtf8 (map string_bytes t.texts.keys) × IsTrue (are_distinct is_same_text (map string_bytes t.texts.keys)) };
}

impl NameTexts {
    /// No texts. It takes no memory.
    pub fn new(alloc: Global) -> NameTexts
        ensures { result ≡ [] }
    {
        NameTexts {
            texts: IndexSet::new(alloc),
        }
    }

    /// How many texts there are.
    pub fn len(&self) -> usize
        ensures { result ≡ length self.now }
    {
        self.texts.len()
    }

    /// Adds a text at the end, and tells whether it was added: it is not where it is there already.
    ///
    /// # Errors
    ///
    /// Only if memory runs out.
    pub fn add(&mut self, alloc: Global, text: &str) -> Result<bool, AllocError>
        ensures told { IfOk result (λ added. added ≡ not (list_any (bytes_eq text.now) self.old)) }
        ensures texts { IfOk result (λ added. self.new ≡ (if added then self.old ++ text.now ∷ [] else self.old)) }
    {
        let text = String::from_str(alloc, text)?;
        let (_, added) = self.texts.insert_full(text)?;
        Ok(added)
    }

    /// No two of the texts are the same.
    fn distinct(&self)
        ensures { IsTrue (are_distinct is_same_text self.now) }
    {
        let _texts = &self.texts;
    }

    /// The text of a number, from 0.
    fn text(&self, number: usize) -> Option<&str>
        ensures { option_map (λ t. t.now) result ≡ slice_get self.now number }
    {
        match self.texts.get_index(number) {
            Some(text) => Some(text.as_str()),
            None => None,
        }
    }

    /// The number of a text, if it is there.
    fn number(&self, text: &[u8]) -> Option<usize>
        ensures { result ≡ position (bytes_eq text.now) self.now }
    {
        match str::from_utf8(text) {
            Ok(text) => self.texts.get_index_of(text),
            Err(_) => None,
        }
    }
}

/// A list of names. Its texts are shared by all that `share` it, and are freed with the last of these.
///
/// Contracts see its own name, and the texts in their order.
#[derive(Drop)]
pub struct NameList {
    name: Arc<Name>,
    texts: Arc<NameTexts>,
}

impl Model for NameList {
    ghost use Rattle.std.specs.Arc.{arc_value};
    ghost use Rattle.flu_model.specs.Numberings.{Numbering};

    ghost Value = { Numbering };

    ghost view = { λ l. record { name = arc_value l.name; texts = arc_value l.texts } };
}

impl NameList {
    /// The list with this name and these texts.
    ///
    /// # Errors
    ///
    /// Only if memory runs out.
    pub fn of(alloc: Global, name: Name, texts: NameTexts) -> Result<NameList, AllocError>
        ensures { IfOk result (λ l. l ≡ record { name = name; texts = texts }) }
    {
        let name = Arc::new(alloc, name)?;
        let texts = Arc::new(alloc, texts)?;
        Ok(NameList { name, texts })
    }

    /// The same list, which shares the texts. It takes no memory.
    ///
    /// # Errors
    ///
    /// Only if it is shared by more than can be counted.
    pub fn share(&self) -> Result<NameList, AllocError>
        ensures { IfOk result (λ l. l ≡ self.now) }
    {
        let name = self.name.clone()?;
        let texts = self.texts.clone()?;
        Ok(NameList { name, texts })
    }

    /// The list's own name.
    pub fn name(&self) -> &str
        ensures { result.now ≡ self.now.name }
    {
        (*self.name).as_str()
    }

    /// No two of the list's texts are the same.
    pub fn distinct(&self)
        ensures { IsTrue (are_distinct is_same_text self.now.texts) }
    {
        (*self.texts).distinct()
    }

    /// How many texts the list has.
    pub fn len(&self) -> usize
        ensures { result ≡ length self.now.texts }
    {
        (*self.texts).len()
    }

    /// The text of a number, from 0, if the list has one.
    pub fn text(&self, number: usize) -> Option<&str>
        ensures { option_map (λ t. t.now) result ≡ text_at self.now number }
    {
        (*self.texts).text(number)
    }

    /// The number of a text, from 0, if it is in the list: these very bytes. It takes the time of one look-up in a table.
    pub fn number(&self, text: &[u8]) -> Option<usize>
        ensures { result ≡ number_of self.now text.now }
    {
        (*self.texts).number(text)
    }
}
