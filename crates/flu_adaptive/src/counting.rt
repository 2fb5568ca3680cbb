//! Counts of events by itag.

ghost use Rattle.std.specs.Prelude.{◌≡◌, length, vec_len, IfOk, replicate};
ghost use Rattle.flu_model.specs.Itags.{count_of_itags};
ghost use Rattle.flu_model.specs.Listed.{listed};
ghost use Rattle.flu_model.specs.Merging.{events_of};
ghost use Rattle.flu_streams.specs.Counts.{grown, no_counts};

use flu_model::{Itag, Item, Program, Streams, itag_count};
use std::alloc::{AllocError, Global};

/// A count of 0 for each of this many itags.
pub(crate) fn no_counts(alloc: Global, itags: u32) -> Result<Vec<u64>, AllocError>
    ensures { IfOk result (λ counts. counts.items ≡ replicate itags 0) }
{
    vec![in alloc; 0; itags as usize]
}

/// Counts all events of the streams of a job.
pub(crate) fn count_events(p: &Program, counts: &mut Vec<u64>, s: &Streams)
    requires lists { length (listed s.now) ≡ count_of_itags p.now }
    requires one_each { vec_len counts.old ≡ count_of_itags p.now }
    ensures { counts.new.items ≡ grown counts.old.items (listed s.now) }
{
    for number in 0..itag_count(p) {
        let events = event_count(s.items(Itag(number)));
        let count = &mut counts[number as usize];
        *count = count.saturating_add(events);
    }
}

/// How many events of each itag of a job the streams have.
pub(crate) fn counts_of(alloc: Global, p: &Program, s: &Streams) -> Result<Vec<u64>, AllocError>
    requires { length (listed s.now) ≡ count_of_itags p.now }
    ensures one_each { IfOk result (λ counts. length counts.items ≡ count_of_itags p.now) }
    ensures counts { IfOk result (λ counts. counts.items ≡ grown (no_counts p.now) (listed s.now)) }
{
    let mut counts = no_counts(alloc, itag_count(p))?;
    count_events(p, &mut counts, s);
    Ok(counts)
}

// How many of the items are events.
fn event_count(items: &[Item]) -> u64
    ensures { result ≡ length (events_of items.now) }
{
    let mut count = 0;
    for place in 0..items.len() {
        if let Item::Event(_) = items[place] {
            count += 1;
        }
    }
    count
}
