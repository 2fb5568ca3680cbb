//! Showing an arrival to the workers.

ghost use Rattle.std.specs.Prelude.{◌≡◌, ◌<◌, ◌+◌, length, map};
ghost use Rattle.flu_net.specs.Effects.{seeing};
ghost use Rattle.flu_net.specs.Showing.{AllMaySee};

use flu_fork::Case;
use flu_model::{Itag, Item};
use flu_worker::Worker;

/// All workers have seen this many items of an itag from now on.
pub fn show(workers: &mut Vec<Worker>, case: &Case, i: Itag, count: u64)
    requires { AllMaySee case.now i.0 count workers.old.items }
    ensures { workers.new.items ≡ map (seeing i.0 count) workers.old.items }
{
    for w in 0..workers.len() {
        workers[w].see(case, i, count);
    }
}

/// One item more than were seen, which is no more than there are.
pub fn one_more(seen: u64, items: &[Item]) -> u64
    requires { seen < length items.now }
    ensures { result ≡ seen + 1 }
{
    prove!(items.len() as u64 > seen);
    seen + 1
}
