//! Gates, which a worker passes before and after each update.

use flu_cells::State;
use flu_model::Itag;

/// What workers call around each update, so that a caller can watch or delay them. It promises nothing.
pub trait Gate: Sync {
    /// A worker of `node` passes: `point` is 1 before and 2 after its update by the event of `itag` with this `index`
    /// among that itag's events, from 0; `held` is the state that the worker holds at that moment, if it holds a whole one.
    fn pass(&self, node: u32, point: u32, itag: Itag, index: u64, held: Option<&State>);
}

/// A gate that lets each worker pass at once.
#[derive(Clone, Copy, Debug)]
pub struct OpenGate;

impl Gate for OpenGate {
    fn pass(&self, _node: u32, _point: u32, _itag: Itag, _index: u64, _held: Option<&State>) {}
}
