//! When the calls of an object in memory fail, and how many bytes each moves.
ghost use Rattle.std.specs.Prelude.{◌≡◌, ◌<◌, ◌++◌, [], ◌∷◌, OnOk, OnErr};
ghost use Rattle.flu_outside.specs.Calls.{Calls, as_made, with_failing, with_piece, with_later, after_call, next_fails};

use std::alloc::{AllocError, Global};
use std::collections::VecDeque;
use std::marker::Model;

/// The calls of an object in memory, seen as the `Calls` of `specs/Calls.antt`.
#[derive(Drop)]
pub(crate) struct Schedule {
    made: u64,
    failing: Vec<u64>,
    piece: usize,
    later: VecDeque<usize>,
}

impl Model for Schedule {
    ghost use Rattle.std.specs.Prelude.{◌<◌};
    ghost use Rattle.std.specs.List.{AllByRecursion};
    ghost use Rattle.flu_outside.specs.Calls.{Calls};

    ghost Value = { Calls };

    ghost view = { λ s. record { made = s.made; failing = s.failing.items; piece = s.piece; later = s.later.items } };

    ghost invariant = { λ s. (0 < s.piece) × AllByRecursion (λ n. 0 < n) s.later.items };
}

impl Schedule {
    /// No call was made, none fails, and the size of a piece is not limited.
    pub(crate) fn new(alloc: Global) -> Schedule
        ensures { result ≡ as_made }
    {
        Schedule {
            made: 0,
            failing: Vec::new(alloc),
            piece: usize::MAX,
            later: VecDeque::new(alloc),
        }
    }

    /// Sets a call to fail, counted from 1.
    pub(crate) fn fail_at(&mut self, call: u64) -> Result<(), AllocError>
        ensures ok { OnOk result (self.new ≡ with_failing call self.old) }
        ensures err { OnErr result (self.new ≡ self.old) }
    {
        self.failing.push(call)?;
        Ok(())
    }

    /// Limits a call to this many bytes.
    pub(crate) fn set_piece(&mut self, most: usize)
        requires { 0 < most }
        ensures { self.new ≡ with_piece most self.old }
    {
        self.piece = most;
    }

    /// Limits one more call, after those that have a piece, and all later ones to this many bytes.
    pub(crate) fn add_piece(&mut self, most: usize) -> Result<(), AllocError>
        requires { 0 < most }
        ensures ok { OnOk result (self.new ≡ with_later most self.old) }
        ensures err { OnErr result (self.new ≡ self.old) }
    {
        self.later.push_back(most)?;
        Ok(())
    }

    /// The next call moves at most this many bytes.
    pub(crate) fn piece(&self) -> usize
        ensures piece { result ≡ self.now.piece }
        ensures some { 0 < result }
    {
        self.piece
    }

    /// Counts a call, and says whether it fails. The next piece is then the piece of the call after it.
    pub(crate) fn count(&mut self) -> bool
        ensures fails { result ≡ next_fails self.old }
        ensures counted { self.new ≡ after_call self.old }
    {
        self.made = self.made.saturating_add(1);
        if let Some(most) = self.later.pop_front() {
            self.piece = most;
        }
        self.failing.contains(&self.made)
    }
}
