//! Counts that are all 0.

ghost use Rattle.std.specs.Prelude.{◌≡◌, map, IfOk};
ghost use Rattle.std.specs.List.{range_with_len};

use flu_fork::Counts;
use std::alloc::{AllocError, Global};

/// A count of 0 for each of this many itags.
pub fn no_counts(alloc: Global, itags: u32) -> Result<Counts, AllocError>
    ensures { IfOk result (λ counts. counts ≡ map (λ i. 0) (range_with_len 0 itags)) }
{
    let mut numbers = Vec::new(alloc);
    for _itag in 0..itags {
        numbers.push(0)?;
    }
    Ok(Counts::of(numbers))
}
