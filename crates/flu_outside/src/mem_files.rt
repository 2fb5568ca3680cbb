//! Files in memory, whose calls fail as they are set to.
use crate::files::{Files, PutFault, TakeFault};
use crate::rest::Rest;
use crate::schedule::Schedule;
use std::alloc::{AllocError, Global};
use std::collections::BTreeMap;

/// A file: the bytes that it has left, and how often it failed to be taken and to be put.
#[derive(Drop)]
struct MemFile {
    rest: Rest,
    faults: u64,
    put_faults: u64,
}

/// Files in memory. A take of a name that is not there fails, and so does each call of `take` or `put` that is set to fail.
///
/// Contracts see what each name has left (`left_of`), how often it failed (`counts_of`, and `put_counts_of` for puts) and the calls
/// of `take` (`calls_of`) and of `put` (`puts_of`), all of `specs/MemFiles.antt`.
#[derive(Drop)]
pub struct MemFiles {
    files: BTreeMap<String, MemFile>,
    missing: u64,
    schedule: Schedule,
    puts: Schedule,
    alloc: Global,
}

impl MemFiles {
    ghost use Rattle.std.specs.Prelude.{◌≡◌, ◌≢◌, ◌<◌, ◌≤◌, List, ℕ, [], None, Some, OnOk, OnErr, unwrap_or};
    ghost use Rattle.flu_outside.specs.Outside.{SameLeft, SameCounts};
    ghost use Rattle.flu_outside.specs.Calls.{as_made, with_failing, with_piece, with_later};
    ghost use Rattle.flu_outside.specs.MemFiles.{left_of, counts_of, put_counts_of, calls_of, puts_of};

    /// No name is there, no call of `take` or `put` fails, and a take gives all that it can.
    pub fn new(alloc: Global) -> MemFiles
        ensures left { (name : List ℕ) → left_of result name ≡ None }
        ensures counts { (name : List ℕ) → counts_of result name ≡ 0 }
        ensures put_counts { (name : List ℕ) → put_counts_of result name ≡ 0 }
        ensures calls { calls_of result ≡ as_made }
        ensures puts { puts_of result ≡ as_made }
    {
        MemFiles {
            files: BTreeMap::new(alloc),
            missing: 0,
            schedule: Schedule::new(alloc),
            puts: Schedule::new(alloc),
            alloc,
        }
    }

    /// Gives a name these bytes, in place of those that it has. The name keeps its counts: a new name
    /// starts with the counts that are shared by names that are not there.
    ///
    /// An error leaves all unchanged.
    pub fn add(&mut self, name: &str, bytes: Vec<u8>) -> Result<(), AllocError>
        ensures holds { OnOk result (left_of self.new name.now ≡ Some bytes.items) }
        ensures others { OnOk result ((n : List ℕ) → n ≢ name.now → left_of self.new n ≡ left_of self.old n) }
        ensures refused { OnErr result (SameLeft (left_of self.old) (left_of self.new)) }
        ensures counts { SameCounts (counts_of self.old) (counts_of self.new) }
        ensures put_counts { SameCounts (put_counts_of self.old) (put_counts_of self.new) }
        ensures puts { puts_of self.new ≡ puts_of self.old }
        ensures calls { calls_of self.new ≡ calls_of self.old }
    {
        let rest = Rest::of(bytes);
        if let Some(file) = self.files.get_mut(name) {
            file.rest = rest;
            return Ok(());
        }
        let name = String::from_str(self.alloc, name)?;
        let faults = self.missing;
        let file = MemFile {
            rest,
            faults,
            put_faults: 0,
        };
        self.files.insert(name, file)?;
        Ok(())
    }

    /// Makes sure that a name is there: a new one is empty.
    fn enter(&mut self, name: &str) -> Result<(), AllocError>
        ensures here { OnOk result (left_of self.new name.now ≡ Some (unwrap_or (left_of self.old name.now) [])) }
        ensures others { OnOk result ((n : List ℕ) → n ≢ name.now → left_of self.new n ≡ left_of self.old n) }
        ensures refused { OnErr result (SameLeft (left_of self.old) (left_of self.new)) }
        ensures counts { SameCounts (counts_of self.old) (counts_of self.new) }
        ensures put_counts { SameCounts (put_counts_of self.old) (put_counts_of self.new) }
        ensures puts { puts_of self.new ≡ puts_of self.old }
        ensures calls { calls_of self.new ≡ calls_of self.old }
    {
        if self.files.contains_key(name) {
            return Ok(());
        }
        self.add(name, Vec::new(self.alloc))
    }

    /// Sets a call of `take` to fail; calls are counted from 1. An error leaves all unchanged.
    pub fn fail_at(&mut self, call: u64) -> Result<(), AllocError>
        ensures set { OnOk result (calls_of self.new ≡ with_failing call (calls_of self.old)) }
        ensures refused { OnErr result (calls_of self.new ≡ calls_of self.old) }
        ensures left { SameLeft (left_of self.old) (left_of self.new) }
        ensures counts { SameCounts (counts_of self.old) (counts_of self.new) }
        ensures put_counts { SameCounts (put_counts_of self.old) (put_counts_of self.new) }
        ensures puts { puts_of self.new ≡ puts_of self.old }
    {
        self.schedule.fail_at(call)
    }

    /// Sets a call of `put` to fail; calls are counted from 1. An error leaves all unchanged.
    pub fn fail_put(&mut self, call: u64) -> Result<(), AllocError>
        ensures set { OnOk result (puts_of self.new ≡ with_failing call (puts_of self.old)) }
        ensures refused { OnErr result (puts_of self.new ≡ puts_of self.old) }
        ensures left { SameLeft (left_of self.old) (left_of self.new) }
        ensures counts { SameCounts (counts_of self.old) (counts_of self.new) }
        ensures put_counts { SameCounts (put_counts_of self.old) (put_counts_of self.new) }
        ensures calls { calls_of self.new ≡ calls_of self.old }
    {
        self.puts.fail_at(call)
    }

    /// Limits a take to this many bytes.
    pub fn piece(&mut self, most: usize)
        requires { 0 < most }
        ensures set { calls_of self.new ≡ with_piece most (calls_of self.old) }
        ensures left { SameLeft (left_of self.old) (left_of self.new) }
        ensures counts { SameCounts (counts_of self.old) (counts_of self.new) }
        ensures put_counts { SameCounts (put_counts_of self.old) (put_counts_of self.new) }
        ensures puts { puts_of self.new ≡ puts_of self.old }
    {
        self.schedule.set_piece(most);
    }

    /// Limits one more take, after those that have a piece, and all later ones to this many bytes.
    ///
    /// The first take has the piece that `piece` sets. An error leaves all unchanged.
    pub fn add_piece(&mut self, most: usize) -> Result<(), AllocError>
        requires { 0 < most }
        ensures set { OnOk result (calls_of self.new ≡ with_later most (calls_of self.old)) }
        ensures refused { OnErr result (calls_of self.new ≡ calls_of self.old) }
        ensures left { SameLeft (left_of self.old) (left_of self.new) }
        ensures counts { SameCounts (counts_of self.old) (counts_of self.new) }
        ensures put_counts { SameCounts (put_counts_of self.old) (put_counts_of self.new) }
        ensures puts { puts_of self.new ≡ puts_of self.old }
    {
        self.schedule.add_piece(most)
    }
}

impl Files for MemFiles {
    ghost use Rattle.std.specs.Prelude.{◌≡◌, ◌≢◌, ◌<◌, ◌≤◌, ◌+◌, ◌-◌, ◌^◌, List, ℕ, [], length, min, Some, IfOk, OnOk, OnErr, IfErr, IsErrOf, IsSome, is_ok};
    ghost use Rattle.std.specs.Prelude.{true, false, is_some, not, ◌&&◌, unwrap_or};
    ghost use Rattle.flu_outside.specs.Outside.{Rose, Takes, Puts, OthersStay, SameLeft, SameCounts, CountApart};
    ghost use Rattle.std.specs.BTreeMap.{get_by_text};
    ghost use Rattle.flu_outside.specs.Shared.{share_one_count};
    ghost use Rattle.flu_outside.specs.Answers.{IsTaken, answer_of};
    ghost use Rattle.flu_outside.specs.Calls.{next_fails, after_call};
    ghost use Rattle.flu_outside.specs.MemFiles.{left_of, counts_of, put_counts_of, calls_of, puts_of};

    ghost left = { λ m. Some (left_of m) };

    ghost faults = { counts_of };

    ghost put_faults = { put_counts_of };

    ghost shared = { λ m. share_one_count (λ f. f.rest) (λ f. f.faults) m.missing (get_by_text m.files) };

    ghost shared_puts = { λ m. share_one_count (λ f. f.rest) (λ f. f.put_faults) 0 (get_by_text m.files) };

    fn take(&mut self, name: &str, buf: &mut [u8]) -> Result<usize, TakeFault>
        requires { 0 < length buf.old }

        ensures bound { IfOk result (λ n. n ≤ length buf.old) }
        ensures taken { IfOk result (λ n. Takes (left_of self.old) (left_of self.new) name.now n buf.new) }
        ensures quiet { OnOk result (SameCounts (counts_of self.old) (counts_of self.new)) }

        ensures kept { OnErr result (SameLeft (left_of self.old) (left_of self.new)) }
        ensures failed { IsErrOf result TakeFault.Failed → Rose (counts_of self.old name.now) (counts_of self.new name.now) }
        ensures no_memory { IsErrOf result TakeFault.NoMemory → SameCounts (counts_of self.old) (counts_of self.new) }

        ensures counts { (n : List ℕ) → counts_of self.old n ≤ counts_of self.new n }
        ensures others { (n : List ℕ) → CountApart (Some (left_of self.old)) name.now n → counts_of self.new n ≡ counts_of self.old n }
        ensures puts { SameCounts (put_counts_of self.old) (put_counts_of self.new) }

        // It fails exactly if the call is set to fail or the name is not there, never for lack of memory, and
        // gives as many bytes as it can.
        ensures succeeds { is_ok result ≡ (not (next_fails (calls_of self.old)) && is_some (left_of self.old name.now)) }
        ensures fault { IfErr result (λ e. e ≡ TakeFault.Failed) }
        ensures amount { IfOk result (λ n. n ≡ min (min (length buf.old) (calls_of self.old).piece) (length (unwrap_or (left_of self.old name.now) []))) }
        ensures raised { OnErr result (counts_of self.new name.now ≡ min (counts_of self.old name.now + 1) (2 ^ 64 - 1)) }
        ensures calls { calls_of self.new ≡ after_call (calls_of self.old) }
        ensures put_calls { puts_of self.new ≡ puts_of self.old }

        // The same, as one definition: the one of `takes_can_be_played`.
        ensures answer { IsTaken (calls_of self.old) (left_of self.old) (left_of self.new) name.now (length buf.old) (answer_of result buf.new) }
    {
        let most = self.schedule.piece().min(buf.len());
        let fails = self.schedule.count();
        let Some(file) = self.files.get_mut(name) else {
            self.missing = self.missing.saturating_add(1);
            return Err(TakeFault::Failed);
        };
        if fails {
            file.faults = file.faults.saturating_add(1);
            return Err(TakeFault::Failed);
        }
        Ok(file.rest.take_into(most, buf))
    }

    fn put(&mut self, name: &str, bytes: Vec<u8>) -> Result<(), PutFault>
        ensures holds { OnOk result (Puts name.now bytes.items (left_of self.old) (left_of self.new)) }
        ensures quiet { OnOk result (SameCounts (put_counts_of self.old) (put_counts_of self.new)) }

        ensures others { IsErrOf result PutFault.Failed → OthersStay name.now (left_of self.old) (left_of self.new) }
        ensures failed { IsErrOf result PutFault.Failed → Rose (put_counts_of self.old name.now) (put_counts_of self.new name.now) }
        ensures kept { IsErrOf result PutFault.NoMemory → SameLeft (left_of self.old) (left_of self.new) }
        ensures no_memory { IsErrOf result PutFault.NoMemory → SameCounts (put_counts_of self.old) (put_counts_of self.new) }

        ensures counts { (n : List ℕ) → put_counts_of self.old n ≤ put_counts_of self.new n }
        ensures apart { (n : List ℕ) → n ≢ name.now → put_counts_of self.new n ≡ put_counts_of self.old n }
        ensures takes { SameCounts (counts_of self.old) (counts_of self.new) }

        // If memory does not run out, it fails exactly if the call is set to fail. A new name is then there, and empty.
        ensures succeeds { OnOk result (next_fails (puts_of self.old) ≡ false) }
        ensures fails { IsErrOf result PutFault.Failed → next_fails (puts_of self.old) ≡ true }
        ensures stays { IsErrOf result PutFault.Failed → left_of self.new name.now ≡ Some (unwrap_or (left_of self.old name.now) []) }
        ensures raised { IsErrOf result PutFault.Failed → put_counts_of self.new name.now ≡ min (put_counts_of self.old name.now + 1) (2 ^ 64 - 1) }
        ensures calls { calls_of self.new ≡ calls_of self.old }
        ensures puts { puts_of self.new ≡ after_call (puts_of self.old) }
    {
        let fails = self.puts.count();
        self.enter(name)?;
        let file = match self.files.get_mut(name) {
            Some(file) => file,
            None => unreachable!(),
        };
        if fails {
            file.put_faults = file.put_faults.saturating_add(1);
            return Err(PutFault::Failed);
        }
        file.rest = Rest::of(bytes);
        Ok(())
    }
}
