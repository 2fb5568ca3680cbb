//! The rules of the workers.

ghost use Rattle.std.specs.Prelude.{◌≡◌, Some, slice_get};
ghost use Rattle.flu_worker.specs.Keeping.{HasRule};
ghost use Rattle.flu_worker.specs.Notes.{WorkerNote};
ghost use Rattle.flu_net.specs.Blocking.{AllKeep};

use flu_worker::Worker;

/// Each worker keeps its own rule. This call only goes over the workers.
pub fn all_keep(workers: &[Worker])
    ensures { AllKeep workers.now }
{
    for w in 0..workers.len() {
        workers[w].rule();
    }
}

/// The worker of a node keeps its own rule. This call does nothing.
pub fn keeps(workers: &Vec<Worker>, w: u32)
    ensures { (v : WorkerNote) → slice_get workers.now.items w ≡ Some v → HasRule v }
{
    if let Some(worker) = workers.get(w as usize) {
        worker.rule();
    }
}
