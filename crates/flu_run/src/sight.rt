//! What a worker sees of the arrival words.

ghost use Rattle.std.specs.Prelude.{◌≡◌, ◌<◌, All};
ghost use Rattle.flu_model.specs.Itags.{count_of_itags};
ghost use Rattle.flu_fork.specs.Lots.{job};
ghost use Rattle.flu_run.specs.Seeing.{Sees, SeesMore};

use flu_arrive::Watch;
use flu_fork::Case;
use flu_model::Itag;
use flu_worker::Worker;

/// Checks the arrival words if the worker is idle, unless it has seen all: while something moves, what it has seen is enough. Returns
/// whether it has seen all now.
pub fn observe_idle(
    idle: bool,
    all: bool,
    case: &Case,
    node: u32,
    worker: &mut Worker,
    watch: &mut Watch,
) -> bool
    requires case { case.now ≡ worker.old.case }
    requires sees { Sees worker.old watch.old }
    ensures sees { Sees worker.new watch.new }
    ensures more { SeesMore worker.old worker.new }
{
    if all || !idle {
        return all;
    }
    observe(case, node, worker, watch)
}

// Checks once the word of each itag that the node or a node above it owns. Returns whether all their items are seen.
fn observe(case: &Case, node: u32, worker: &mut Worker, watch: &mut Watch) -> bool
    requires case { case.now ≡ worker.old.case }
    requires sees { Sees worker.old watch.old }
    ensures sees { Sees worker.new watch.new }
    ensures more { SeesMore worker.old worker.new }
{
    let tables = case.tables();
    let own_seen = look_at_each(case, tables.own(node), worker, watch);
    let above_seen = look_at_each(case, tables.above(node), worker, watch);
    own_seen && above_seen
}

// Checks once the word of each of some itags. Returns whether all their items are seen.
fn look_at_each(case: &Case, itags: &[Itag], worker: &mut Worker, watch: &mut Watch) -> bool
    requires case { case.now ≡ worker.old.case }
    requires known { All (λ i. i.0 < count_of_itags (job case.now)) itags.now }
    requires sees { Sees worker.old watch.old }
    ensures sees { Sees worker.new watch.new }
    ensures more { SeesMore worker.old worker.new }
{
    let mut all = true;
    for i in itags {
        if !look_at(case, worker, watch, *i) {
            all = false;
        }
    }
    all
}

// Checks the word of an itag. Returns whether all its items are seen.
fn look_at(case: &Case, worker: &mut Worker, watch: &mut Watch, i: Itag) -> bool
    requires case { case.now ≡ worker.old.case }
    requires known { i.0 < count_of_itags (job case.now) }
    requires sees { Sees worker.old watch.old }
    ensures sees { Sees worker.new watch.new }
    ensures more { SeesMore worker.old worker.new }
{
    let count = watch.seen(i);
    worker.see(case, i, count);
    count == case.streams().items(i).len() as u64
}
