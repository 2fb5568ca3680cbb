//! A sink in memory, whose calls fail as they are set to.
ghost use Rattle.std.specs.Prelude.{◌≤◌, vec_len};
ghost use Rattle.std.specs.Vec.{vec_capacity};

use crate::schedule::Schedule;
use crate::sink::{Failed, Sink};
use std::alloc::{AllocError, Global};

/// A sink in memory with room for this many bytes. A write past the room fails, and so does each call of
/// `write` that is set to fail.
///
/// Contracts see what it took (`taken_of`), its room (`room_of`), how often it failed (`count_of`) and
/// the calls of `write` (`calls_of`), all of `specs/MemSink.antt`.
#[derive(Drop)]
pub struct MemSink {
    taken: Vec<u8>,
    room: usize,
    schedule: Schedule,
    faults: u64,
    ghost within: { vec_len taken ≤ room },
    ghost reserved: { room ≤ vec_capacity taken },
}

impl MemSink {
    ghost use Rattle.std.specs.Prelude.{◌≡◌, ◌<◌, [], IfOk, OnOk, OnErr};
    ghost use Rattle.flu_outside.specs.Calls.{as_made, with_failing, with_piece, with_later};
    ghost use Rattle.flu_outside.specs.MemSink.{taken_of, room_of, count_of, calls_of};

    /// A sink that has taken nothing; no call fails, and a write takes all that it can.
    pub fn with_room(alloc: Global, room: usize) -> Result<MemSink, AllocError>
        ensures taken { IfOk result (λ s. taken_of s ≡ []) }
        ensures room { IfOk result (λ s. room_of s ≡ room) }
        ensures count { IfOk result (λ s. count_of s ≡ 0) }
        ensures calls { IfOk result (λ s. calls_of s ≡ as_made) }
    {
        let taken = Vec::with_capacity(alloc, room)?;
        Ok(MemSink {
            taken,
            room,
            schedule: Schedule::new(alloc),
            faults: 0,
        })
    }

    /// Sets a call of `write` to fail; calls are counted from 1. An error leaves all unchanged.
    pub fn fail_at(&mut self, call: u64) -> Result<(), AllocError>
        ensures set { OnOk result (calls_of self.new ≡ with_failing call (calls_of self.old)) }
        ensures refused { OnErr result (calls_of self.new ≡ calls_of self.old) }
        ensures taken { taken_of self.new ≡ taken_of self.old }
        ensures room { room_of self.new ≡ room_of self.old }
        ensures count { count_of self.new ≡ count_of self.old }
    {
        self.schedule.fail_at(call)
    }

    /// Limits a write to this many bytes.
    pub fn piece(&mut self, most: usize)
        requires { 0 < most }
        ensures set { calls_of self.new ≡ with_piece most (calls_of self.old) }
        ensures taken { taken_of self.new ≡ taken_of self.old }
        ensures room { room_of self.new ≡ room_of self.old }
        ensures count { count_of self.new ≡ count_of self.old }
    {
        self.schedule.set_piece(most);
    }

    /// Limits one more write, after those that have a piece, and all later ones to this many bytes.
    ///
    /// The first write has the piece that `piece` sets. An error leaves all unchanged.
    pub fn add_piece(&mut self, most: usize) -> Result<(), AllocError>
        requires { 0 < most }
        ensures set { OnOk result (calls_of self.new ≡ with_later most (calls_of self.old)) }
        ensures refused { OnErr result (calls_of self.new ≡ calls_of self.old) }
        ensures taken { taken_of self.new ≡ taken_of self.old }
        ensures room { room_of self.new ≡ room_of self.old }
        ensures count { count_of self.new ≡ count_of self.old }
    {
        self.schedule.add_piece(most)
    }

    /// What was taken.
    pub fn bytes(&self) -> &[u8]
        ensures { result.now ≡ taken_of self.now }
    {
        self.taken.as_slice()
    }
}

impl Sink for MemSink {
    ghost use Rattle.std.specs.Prelude.{◌≡◌, ◌<◌, ◌≤◌, ◌+◌, ◌-◌, ◌^◌, length, min, Some, IfOk, OnOk, OnErr, is_ok, not, ◌&&◌, nat_le};
    ghost use Rattle.flu_outside.specs.Outside.{Rose, Appends};
    ghost use Rattle.flu_outside.specs.Answers.{IsWritten, count_of_write};
    ghost use Rattle.flu_outside.specs.Calls.{next_fails, after_call};
    ghost use Rattle.flu_outside.specs.MemSink.{taken_of, room_of, count_of, calls_of};

    ghost taken = { λ s. Some (taken_of s) };

    ghost faults = { count_of };

    fn write(&mut self, bytes: &[u8]) -> Result<usize, Failed>
        requires { 0 < length bytes.now }

        ensures some { IfOk result (λ n. 0 < n) }
        ensures bound { IfOk result (λ n. n ≤ length bytes.now) }
        ensures wrote { IfOk result (λ n. Appends n bytes.now (taken_of self.old) (taken_of self.new)) }
        ensures quiet { OnOk result (count_of self.new ≡ count_of self.old) }

        ensures kept { OnErr result (taken_of self.new ≡ taken_of self.old) }
        ensures failed { OnErr result (Rose (count_of self.old) (count_of self.new)) }
        ensures counts { count_of self.old ≤ count_of self.new }

        // It fails exactly if the call is set to fail or the piece has no room, and takes a whole piece.
        ensures succeeds { is_ok result ≡ (not (next_fails (calls_of self.old))
            && nat_le (length (taken_of self.old) + min (length bytes.now) (calls_of self.old).piece) (room_of self.old)) }
        ensures amount { IfOk result (λ n. n ≡ min (length bytes.now) (calls_of self.old).piece) }
        ensures raised { OnErr result (count_of self.new ≡ min (count_of self.old + 1) (2 ^ 64 - 1)) }
        ensures room { room_of self.new ≡ room_of self.old }
        ensures calls { calls_of self.new ≡ after_call (calls_of self.old) }

        // The same, as one definition: the one of `writes_can_be_played`.
        ensures answer { IsWritten (calls_of self.old) (room_of self.old) (length (taken_of self.old)) (length bytes.now) (count_of_write result) }
    {
        let n = self.schedule.piece().min(bytes.len());
        let fails = self.schedule.count();
        if fails || n > self.room - self.taken.len() {
            self.faults = self.faults.saturating_add(1);
            return Err(Failed);
        }
        self.taken.extend_from_slice(&bytes[..n]).unwrap();
        Ok(n)
    }
}
