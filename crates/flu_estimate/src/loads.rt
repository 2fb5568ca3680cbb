//! What the workers of a plan have to do in a round.

use crate::prices::{CELL, HANDOVER, LOOK, TRIP, TURN};

/// What a worker has to do in a round, and what its subtree has; times are in nanoseconds.
#[derive(Clone, Copy)]
pub(crate) struct Load {
    // How many events the worker's own itags have, and what their actions cost.
    events: u64,
    actions: u64,
    // How many itags the worker owns.
    itags: u64,
    // How many cells the itags of the subtree change.
    cells: u64,
    // How long it takes until the subtree has given up its lot for one event from above, and continues with a new one; and what its
    // workers do for that in total.
    trip: u64,
    handover: u64,
    // How long the subtree takes if each of its workers has a processor, and what they do in total.
    path: u64,
    work: u64,
}

impl Load {
    /// Nothing to do.
    pub(crate) fn nothing() -> Load {
        Load {
            events: 0,
            actions: 0,
            itags: 0,
            cells: 0,
            trip: 0,
            handover: 0,
            path: 0,
            work: 0,
        }
    }

    /// Adds an itag of the worker's own: its events, what each of them costs the fold, and how many cells they change.
    pub(crate) fn own(&mut self, events: u64, cost: u64, cells: u64) {
        self.events = self.events.saturating_add(events);
        self.actions = self.actions.saturating_add(events.saturating_mul(cost));
        self.itags = self.itags.saturating_add(1);
        self.cells = self.cells.saturating_add(cells);
    }

    /// Adds up a worker that has no children.
    pub(crate) fn end(&mut self) {
        self.trip = LOOK.saturating_mul(self.itags);
        self.handover = self.trip.saturating_add(HANDOVER);
        self.path = self.own_time();
        self.work = self.path;
    }

    /// Adds up a worker that has these children, which are already added up.
    ///
    /// For each of its own events the lots of both children come up and go down again, both at the same time.
    pub(crate) fn join(&mut self, left: &Load, right: &Load) {
        let cells = CELL.saturating_mul(right.cells);
        let apart = left.trip.max(right.trip);
        self.trip = TRIP.saturating_add(cells).saturating_add(apart);
        let both = left.handover.saturating_add(right.handover);
        self.handover = HANDOVER.saturating_add(cells).saturating_add(both);
        let own = self.own_time();
        let waits = self.events.saturating_mul(self.trip);
        let longest = left.path.max(right.path);
        self.path = own.saturating_add(waits).saturating_add(longest);
        let given = self.events.saturating_mul(self.handover);
        let both = left.work.saturating_add(right.work);
        self.work = own.saturating_add(given).saturating_add(both);
        let below = left.cells.saturating_add(right.cells);
        self.cells = self.cells.saturating_add(below);
    }

    /// How long the subtree takes on this many processors, where each two are threads of one core: as long as its longest path, and no
    /// less than all its work divided among them.
    pub(crate) fn time_on(&self, processors: u64) -> u64 {
        let shared = self.work / processors.saturating_add(1).max(2);
        self.path.max(shared.saturating_mul(2))
    }

    // How long the worker's own events take.
    fn own_time(&self) -> u64 {
        let look = LOOK.saturating_mul(self.itags);
        let turn = TURN.saturating_add(look);
        self.actions
            .saturating_add(self.events.saturating_mul(turn))
    }
}
