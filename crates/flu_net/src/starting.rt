//! What a net has at the start.

ghost use Rattle.std.specs.Prelude.{◌≡◌, length, map, IfOk};
ghost use Rattle.std.specs.List.{range_with_len};
ghost use Rattle.flu_fork.specs.Lots.{nodes};
ghost use Rattle.flu_net.specs.Starting.{AreHome, AreNew};

use crate::edges::Edge;
use flu_fork::{Case, Counts};
use flu_worker::Worker;
use std::alloc::{AllocError, Global};

/// A count of 0 for each of this many itags.
pub fn no_counts(alloc: Global, itags: u32) -> Result<Counts, AllocError>
    ensures { IfOk result (λ counts. counts ≡ map (λ i. 0) (range_with_len 0 itags)) }
{
    let mut numbers = Vec::new(alloc);
    for _itag in 0..itags {
        numbers.push(0)?;
    }
    Ok(Counts::of(numbers))
}

/// The worker of each node.
pub fn first_workers(alloc: Global, case: &Case) -> Result<Vec<Worker>, AllocError>
    ensures { IfOk result (λ workers. AreNew case.now (length (nodes case.now)) workers.items) }
{
    let mut workers = Vec::new(alloc);
    for w in 0..case.valid().count() {
        let worker = Worker::new(alloc, case, w)?;
        worker.rule();
        workers.push(worker)?;
    }
    Ok(workers)
}

/// The edge above each node.
pub fn first_edges(alloc: Global, case: &Case) -> Result<Vec<Edge>, AllocError>
    ensures { IfOk result (λ edges. AreHome (length (nodes case.now)) edges.items) }
{
    let mut edges = Vec::new(alloc);
    for _v in 0..case.valid().count() {
        edges.push(Edge::Home)?;
    }
    Ok(edges)
}
