//! Counts of events.

ghost use Rattle.std.specs.Prelude.{◌≡◌, ◌<◌, ◌+◌, ◌^◌, length, map, slice_index, slice_set, IfOk};
ghost use Rattle.std.specs.List.{range_with_len};

use std::alloc::{AllocError, Global};
use std::marker::Model;

/// How many events of each itag, by the itags' numbers.
#[derive(Debug, Drop)]
pub struct Counts {
    numbers: Vec<u64>,
}

impl Model for Counts {
    ghost use Rattle.std.specs.Prelude.{List, ℕ};

    ghost Value = { List ℕ };

    ghost view = { λ a. a.numbers.items };
}

impl Counts {
    /// These counts.
    pub fn of(numbers: Vec<u64>) -> Counts
        ensures { result ≡ numbers.items }
    {
        Counts { numbers }
    }

    /// The counts, by the itags' numbers.
    pub fn items(&self) -> &[u64]
        ensures { result.now ≡ self.now }
    {
        self.numbers.as_slice()
    }

    /// The count of an itag, by its number; 0 if there is none. It takes no memory.
    pub fn at(&self, itag: usize) -> u64
        ensures { result ≡ slice_index self.now itag }
    {
        match self.numbers.get(itag) {
            Some(count) => *count,
            None => 0,
        }
    }

    /// One more event of an itag, by its number.
    pub fn count_one(&mut self, itag: usize)
        requires in_range { itag < length self.old }
        requires room { slice_index self.old itag + 1 < 2 ^ 64 }
        ensures { self.new ≡ slice_set self.old itag (slice_index self.old itag + 1) }
    {
        self.numbers[itag] += 1;
    }

    /// The same counts once more.
    pub fn copy(&self, alloc: Global) -> Result<Counts, AllocError>
        ensures { IfOk result (λ counts. counts ≡ self.now) }
    {
        Ok(Counts::of(self.numbers.as_slice().to_vec(alloc)?))
    }
}

/// No event of any of this many itags.
pub fn no_counts(alloc: Global, itags: u32) -> Result<Counts, AllocError>
    ensures { IfOk result (λ counts. counts ≡ map (λ i. 0) (range_with_len 0 itags)) }
{
    let mut numbers = Vec::new(alloc);
    for _itag in 0..itags {
        numbers.push(0)?;
    }
    Ok(Counts::of(numbers))
}
