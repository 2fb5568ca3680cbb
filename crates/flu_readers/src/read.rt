//! Which sources of a job are read.

ghost use Rattle.std.specs.Prelude.{◌≡◌, ◌<◌, ◌==◌, ◌&&◌, ◌||◌, ℕ, false};
ghost use Rattle.flu_model.specs.Itags.{count_of_itags, source_of_itag};
ghost use Rattle.flu_selected.specs.Gathering.{reads as is_read_by};

use flu_model::{Itag, Program, source_of};
use std::marker::Model;

/// How many sources a job has at most.
const MAX_SOURCES: usize = 64;

/// Which sources of a job are read. Contracts see a list that says it by the sources' numbers, as `gather_selected` of `flu_selected`
/// takes it.
#[derive(Drop)]
pub struct SourcesRead {
    sources: [bool; MAX_SOURCES],
}

impl Model for SourcesRead {
    ghost use Rattle.std.specs.Prelude.{List, Bool};

    ghost Value = { List Bool };

    ghost view = { λ read. read.sources };
}

impl SourcesRead {
    /// None is read.
    pub(crate) fn none() -> SourcesRead
        ensures { (s : ℕ) → is_read_by result s ≡ false }
    {
        SourcesRead {
            sources: [false; MAX_SOURCES],
        }
    }

    /// The source of an itag is read too, if the itag is wanted.
    pub(crate) fn note(&mut self, p: &Program, i: Itag, wanted: bool)
        requires { i.0 < count_of_itags p.now }
        ensures { (s : ℕ) → is_read_by self.new s ≡ (is_read_by self.old s || (wanted && (source_of_itag p.now i == s))) }
    {
        if wanted {
            self.add(source_of(p, i));
        }
    }

    // One more source is read.
    fn add(&mut self, number: u32)
        requires { number < 64 }
        ensures { (s : ℕ) → is_read_by self.new s ≡ (is_read_by self.old s || (number == s)) }
    {
        self.sources[number as usize] = true;
    }

    /// Whether a source is read, by its number.
    pub fn has(&self, number: u32) -> bool
        ensures { result ≡ is_read_by self.now number }
    {
        match self.sources.get(number as usize) {
            Some(read) => *read,
            None => false,
        }
    }

    /// For each number of a source whether it is read.
    pub fn as_slice(&self) -> &[bool]
        ensures { result.now ≡ self.now }
    {
        &self.sources
    }
}
