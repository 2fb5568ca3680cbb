//! Whether nothing is left to do.

ghost use Rattle.std.specs.Prelude.{◌≡◌, ◌↔◌, true, false, length};
ghost use Rattle.flu_model.specs.Itags.{count_of_itags};
ghost use Rattle.flu_fork.specs.Lots.{job};
ghost use Rattle.flu_net.specs.Ending.{SeesAllItems, AreOf, AreOver, OneIsLeft};

use flu_fork::{Case, Counts};
use flu_model::{Itag, itag_count};
use flu_worker::Worker;

/// Whether all items of each itag are seen.
pub fn all_seen(case: &Case, seen: &Counts) -> bool
    requires { length seen.now ≡ count_of_itags (job case.now) }
    ensures { (result ≡ true) ↔ SeesAllItems case.now seen.now }
{
    for i in 0..itag_count(case.checked().program()) {
        if seen.at(i as usize) != case.streams().items(Itag(i)).len() as u64 {
            return false;
        }
    }
    true
}

/// Whether each worker has nothing left to do.
pub fn all_over(case: &Case, workers: &[Worker]) -> bool
    requires { AreOf case.now workers.now }
    ensures over { result ≡ true → AreOver workers.now }
    ensures left { result ≡ false → OneIsLeft workers.now }
{
    for worker in workers {
        worker.rule();
        if !worker.finished(case) {
            return false;
        }
    }
    true
}
