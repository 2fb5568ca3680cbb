//! What one node sent, and is not joined yet.

ghost use Rattle.std.specs.Prelude.{◌≡◌, map};
ghost use Rattle.flu_contribution.specs.Parts.{contribution_of};
ghost use Rattle.flu_contribution.specs.Sending as sending;

use flu_contribution::Handed;
use flu_model::Event;
use std::collections::VecDeque;

/// What one node apart sent, in the order in which it was sent. Contracts see the list of its contributions, as `waiting_in`.
#[derive(Drop)]
pub struct Queue {
    waiting: VecDeque<Handed>,
}

impl Queue {
    ghost use Rattle.flu_joining.specs.Joining as joining;
    ghost use Rattle.flu_joining.specs.Parts.{waiting_in, IsFirstOf};

    /// The queue of what a node sent. It takes no memory.
    pub fn of(sent: Vec<Handed>) -> Queue
        ensures { waiting_in result ≡ map contribution_of sent.items }
    {
        Queue {
            waiting: VecDeque::from(sent),
        }
    }

    // Whether the first that waits is to be joined before an event.
    pub(crate) fn is_due(&self, y: &Event) -> bool
        ensures { result ≡ sending.is_due (waiting_in self.now) y.now }
    {
        match self.waiting.front() {
            Some(k) => is_named(&k.before, y),
            None => false,
        }
    }

    // Takes the first that waits, if one does, in constant time.
    pub(crate) fn pop(&mut self) -> Option<Handed>
        ensures { IsFirstOf (waiting_in self.old) (waiting_in self.new) result }
    {
        self.waiting.pop_front()
    }

    // Whether only what is joined at the end waits.
    pub(crate) fn is_last_alone(&self) -> bool
        ensures { result ≡ joining.is_last_alone (waiting_in self.now) }
    {
        match self.waiting.front() {
            Some(k) => self.waiting.len() == 1 && k.before.is_none(),
            None => false,
        }
    }
}

// Whether an event is the one before which something is to be joined: it has the same time and itag.
fn is_named(before: &Option<Event>, y: &Event) -> bool
    ensures { result ≡ sending.is_named before.now y.now }
{
    match before {
        Some(x) => x.time == y.time && x.itag.0 == y.itag.0,
        None => false,
    }
}
