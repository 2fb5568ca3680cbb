//! Feeding the items of a case to the workers.

ghost use Rattle.std.specs.Prelude.{◌≡◌, ℕ, length, slice_index, IfOk};
ghost use Rattle.flu_arrive.specs.Notes.{unseen, zeros};
ghost use Rattle.flu_run.specs.Seeing.{limits_of};

use flu_arrive::{Feeder, Watch, arrivals};
use flu_fork::Case;
use flu_model::{Itag, itag_count};
use std::alloc::{AllocError, Global};

/// How many items each itag of a case has.
pub fn limits(alloc: Global, case: &Case) -> Result<Vec<u64>, AllocError>
    ensures { IfOk result (λ limits. limits.items ≡ limits_of case.now) }
{
    let mut limits = Vec::new(alloc);
    for i in 0..itag_count(case.checked().program()) {
        limits.push(case.streams().items(Itag(i)).len() as u64)?;
    }
    Ok(limits)
}

/// The feeder and one watch of new arrival words.
pub fn words(alloc: Global, limits: &[u64]) -> Result<(Feeder, Watch), AllocError>
    ensures feeder { IfOk result (λ r. (r.0.limits ≡ limits.now) × (r.0.counts ≡ zeros limits.now)) }
    ensures watch { IfOk result (λ r. r.1 ≡ unseen limits.now) }
{
    let (feeder, mut watches) = arrivals(alloc, limits, 1)?;
    let Some(watch) = watches.pop() else {
        unreachable!();
    };
    Ok((feeder, watch))
}

/// Feeds all items, this many of each itag.
pub fn feed_all(feeder: &mut Feeder, limits: &[u64], itags: u32)
    requires fresh { feeder.old.counts ≡ zeros feeder.old.limits }
    requires limits { limits.now ≡ feeder.old.limits }
    requires one_each { length limits.now ≡ itags }
    ensures limits { feeder.new.limits ≡ feeder.old.limits }
    ensures all { (i : ℕ) → slice_index feeder.new.counts i ≡ slice_index feeder.old.limits i }
{
    for i in 0..itags {
        feeder.feed_many(Itag(i), limits[i as usize]);
    }
}
