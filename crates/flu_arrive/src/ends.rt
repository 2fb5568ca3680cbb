//! The ends: one that feeds, and those that watch.

ghost use Rattle.std.specs.Prelude.{◌≡◌, ◌+◌, ◌<◌, ◌≤◌, ◌∷◌, length, All, IfOk, slice_index, slice_set, vec_len};
ghost use Rattle.flu_arrive.specs.Notes.{zeros, unseen};

use crate::note::{Place, Words};
use crate::steps::{Beside, Feed, Look};
use atomic_table::Table;
use flu_model::Itag;
use std::alloc::{AllocError, Global};
use std::marker::Model;
use std::sync::Arc;

/// The end that counts items in. Contracts see it as the limits and, for each itag, how many items it counted in.
#[derive(Drop)]
pub struct Feeder {
    words: Arc<Words, Global>,
    place: Place,
    counts: Vec<u64>,
}

impl Model for Feeder {
    ghost use Rattle.std.specs.Prelude.{◌≡◌, true};
    ghost use Rattle.std.specs.Arc.{arc_value};
    ghost use Rattle.flu_arrive.specs.Notes.{FeederNote};
    ghost use Rattle.flu_arrive.specs.Rule.{IsPlaced};

    ghost Value = { FeederNote };

    ghost view = { λ f. record { limits = f.place.me.0.limits; counts = f.place.me.0.counts } };

    ghost invariant = { λ f. IsPlaced (arc_value f.words).shared.table_id f.place.table_id f.place.me × (f.place.me.0.feeds ≡ true)
        × (f.counts.items ≡ f.place.me.0.counts) };
}

/// An end that looks. Contracts see it as the limits, for each itag the number that it found last, and how many looks it took.
#[derive(Drop)]
pub struct Watch {
    words: Arc<Words, Global>,
    place: Place,
}

impl Model for Watch {
    ghost use Rattle.std.specs.Prelude.{◌≡◌, false};
    ghost use Rattle.std.specs.Arc.{arc_value};
    ghost use Rattle.flu_arrive.specs.Notes.{WatchNote};
    ghost use Rattle.flu_arrive.specs.Rule.{IsPlaced};

    ghost Value = { WatchNote };

    ghost view = { λ w. record { limits = w.place.me.0.limits; noted = w.place.me.0.counts; looks = w.place.me.0.looks } };

    ghost invariant = { λ w. IsPlaced (arc_value w.words).shared.table_id w.place.table_id w.place.me × (w.place.me.0.feeds ≡ false) };
}

// Word 0, and one for each limit.
fn make_row(alloc: Global, limits: &[u64]) -> Result<Vec<u64>, AllocError>
    ensures { IfOk result (λ v. v.items ≡ 0 ∷ zeros limits.now) }
{
    let mut row = Vec::with_capacity(alloc, limits.len() + 1)?;
    row.push(0)?;
    for _ in limits {
        row.push(0)?;
    }
    Ok(row)
}

// The feeder of new words.
fn make_feeder(alloc: Global, limits: &[u64]) -> Result<Feeder, AllocError>
    ensures limits { IfOk result (λ f. f.limits ≡ limits.now) }
    ensures counts { IfOk result (λ f. f.counts ≡ zeros limits.now) }
{
    let row = make_row(alloc, limits)?;
    let key = Vec::from_slice(alloc, limits)?;
    let (table, place) = Table::of_words(alloc, &row, &key)?;
    let words = Arc::new(alloc, table)?;
    let mut counts = row;
    counts.remove(0);
    Ok(Feeder {
        words,
        place,
        counts,
    })
}

/// The feeder and the watches of new arrival words, which are all 0. There is one word for each limit, by itag, and a limit is
/// how many items its itag has.
///
/// # Errors
///
/// Only if memory runs out.
pub fn arrivals(
    alloc: Global,
    limits: &[u64],
    watchers: u32,
) -> Result<(Feeder, Vec<Watch>), AllocError>
    requires { 1 ≤ watchers }
    ensures feeder { IfOk result (λ r. (r.0.limits ≡ limits.now) × (r.0.counts ≡ zeros limits.now)) }
    ensures count { IfOk result (λ r. vec_len r.1 ≡ watchers) }
    ensures watches { IfOk result (λ r. All (λ w. w ≡ unseen limits.now) r.1.items) }
{
    let mut feeder = make_feeder(alloc, limits)?;
    let mut watches = Vec::new(alloc);
    for _ in 0..watchers {
        watches.push(feeder.watch()?)?;
    }
    Ok((feeder, watches))
}

impl Feeder {
    // One more watch.
    fn watch(&mut self) -> Result<Watch, AllocError>
        ensures same { self.new ≡ self.old }
        ensures watch { IfOk result (λ w. w ≡ unseen self.old.limits) }
    {
        let words = Arc::try_clone(&self.words)?;
        let place = self.words.shared.split_seat::<Beside>(&mut self.place);
        Ok(Watch { words, place })
    }

    /// One more item of this itag has arrived.
    pub fn feed(&mut self, i: Itag)
        requires { slice_index self.old.counts i.0 < slice_index self.old.limits i.0 }
        ensures limits { self.new.limits ≡ self.old.limits }
        ensures counts { self.new.counts ≡ slice_set self.old.counts i.0 (slice_index self.old.counts i.0 + 1) }
    {
        self.feed_many(i, 1);
    }

    /// So many more items of this itag have arrived. A watch sees all of them or none.
    pub fn feed_many(&mut self, i: Itag, n: u64)
        requires in_range { i.0 < length self.old.limits }
        requires limit { slice_index self.old.counts i.0 + n ≤ slice_index self.old.limits i.0 }
        ensures limits { self.new.limits ≡ self.old.limits }
        ensures counts { self.new.counts ≡ slice_set self.old.counts i.0 (slice_index self.old.counts i.0 + n) }
    {
        let at = i.0 as usize;
        let count = self.counts[at] + n;
        self.words
            .shared
            .store::<Feed>(&mut self.place, at + 1, count);
        self.counts[at] = count;
    }
}

impl Watch {
    /// How many items of this itag have arrived, as a look in this call finds it.
    pub fn seen(&mut self, i: Itag) -> u64
        requires { i.0 < length self.old.limits }
        ensures limits { self.new.limits ≡ self.old.limits }
        ensures noted { self.new.noted ≡ slice_set self.old.noted i.0 result }
        ensures looks { self.new.looks ≡ self.old.looks + 1 }
        ensures limit { result ≤ slice_index self.old.limits i.0 }
        ensures rises { slice_index self.old.noted i.0 ≤ result }
    {
        let word = i.0 as usize + 1;
        self.words.shared.load::<Look>(&mut self.place, word)
    }

    /// Another watch of the same words, which has seen nothing yet.
    ///
    /// # Errors
    ///
    /// Only where there are 2^63 - 1 ends already.
    pub fn another(&mut self) -> Result<Watch, AllocError>
        ensures same { self.new ≡ self.old }
        ensures watch { IfOk result (λ w. w ≡ unseen self.old.limits) }
    {
        let words = Arc::try_clone(&self.words)?;
        let place = self.words.shared.split_seat::<Beside>(&mut self.place);
        Ok(Watch { words, place })
    }
}
