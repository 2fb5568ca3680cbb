//! Finite maps from any numbers, in tables.

ghost use Rattle.std.specs.Prelude.{◌≡◌, ℕ, ◌<◌, ◌≤◌, ◌/◌, None, Some, IsOk, IsSome, OnOk, OnErr, IfOk, IfSome, IfNone};
ghost use Rattle.flu_dense.specs.Values.{with_value};

use crate::table::Dense;
use std::alloc::{AllocError, Global};
use std::collections::BTreeMap;

// How many numbers a part has.
const PART: u64 = 4096;

/// A finite map from numbers of 64 bits to values. The numbers are in parts of 4,096, and each part in use has a table: a value
/// is looked up, set and unset in the time that it takes to look up its table among those of the parts in use.
///
/// Contracts see it as the function `value_for` from each number to its value, if it is held.
#[derive(Drop)]
pub struct Sparse<V: Copy> {
    // The part p has the numbers from 4,096 * p on. A part that has come into use keeps its table.
    parts: BTreeMap<u64, Dense<V>>,
    alloc: Global,
}

impl<V: Copy> Sparse<V> {
    ghost use Rattle.flu_dense.specs.Holding.{value_for};

    /// The map that holds nothing. It takes no memory.
    pub fn new(alloc: Global) -> Sparse<V>
        ensures { (n : ℕ) → value_for result n ≡ None }
    {
        Sparse {
            parts: BTreeMap::new(alloc),
            alloc,
        }
    }

    /// The value for a number.
    pub fn get(&self, n: u64) -> Option<V>
        ensures { result ≡ value_for self.now n }
    {
        match self.parts.get(&(n / PART)) {
            Some(table) => table.get((n % PART) as u32),
            None => None,
        }
    }

    /// The first number from `from` on and before `end` that is held. Of the parts between them those that have a table are
    /// gone through, and of the numbers none.
    pub fn next(&self, from: u64, end: u64) -> Option<u64>
        ensures found { IfSome result (λ n. (from ≤ n) × (n < end) × IsSome (value_for self.now n)) }
        ensures least { IfSome result (λ n. (k : ℕ) → from ≤ k → k < n → value_for self.now k ≡ None) }
        ensures none { IfNone result ((k : ℕ) → from ≤ k → k < end → value_for self.now k ≡ None) }
    {
        let mut at = from;
        while at < end {
            if let Some(n) = self.next_in_part(at) {
                return if n < end { Some(n) } else { None };
            }
            at = self.next_part(at, end)?;
        }
        None
    }

    /// Makes a number hold a value.
    ///
    /// Where memory is refused, the map is as before. For a number that is held it is never refused.
    pub fn set(&mut self, n: u64, value: V) -> Result<(), AllocError>
        ensures ok { OnOk result (value_for self.new ≡ with_value (value_for self.old) n (Some value)) }
        ensures err { OnErr result (value_for self.new ≡ value_for self.old) }
        ensures held { IsSome (value_for self.old n) → IsOk result }
    {
        let slot = (n % PART) as u32;
        if let Some(table) = self.parts.get_mut(&(n / PART)) {
            return table.set(slot, value);
        }
        let mut table = Dense::new(self.alloc);
        table.set(slot, value)?;
        self.parts.insert(n / PART, table)?;
        Ok(())
    }

    /// Makes a number hold nothing, and gives what it held. It takes no memory.
    pub fn unset(&mut self, n: u64) -> Option<V>
        ensures value { result ≡ value_for self.old n }
        ensures left { value_for self.new ≡ with_value (value_for self.old) n None }
    {
        match self.parts.get_mut(&(n / PART)) {
            Some(table) => table.unset((n % PART) as u32),
            None => None,
        }
    }

    /// A map that holds the same. The tables are gone through, as `Dense::copy` does.
    pub fn copy(&self) -> Result<Sparse<V>, AllocError>
        ensures { IfOk result (λ d. value_for d ≡ value_for self.now) }
    {
        Ok(Sparse {
            parts: self.parts.clone()?,
            alloc: self.alloc,
        })
    }

    // The first number of a part from a number on that is held.
    fn next_in_part(&self, at: u64) -> Option<u64>
        ensures found { IfSome result (λ n. (at ≤ n) × IsSome (value_for self.now n)) }
        ensures least { IfSome result (λ n. (k : ℕ) → at ≤ k → k < n → value_for self.now k ≡ None) }
        ensures none { IfNone result ((k : ℕ) → at ≤ k → k / 4096 ≡ at / 4096 → value_for self.now k ≡ None) }
    {
        let table = self.parts.get(&(at / PART))?;
        let slot = table.next((at % PART) as u32)?;
        Some(at / PART * PART + u64::from(slot))
    }

    // The first number of the next part behind that of a number which has a table, if that is before `end`.
    fn next_part(&self, at: u64, end: u64) -> Option<u64>
        requires { at < end }
        ensures found { IfSome result (λ n. (at < n) × (n < end)) }
        ensures least { IfSome result (λ n. (k : ℕ) → at / 4096 < k / 4096 → k < n → value_for self.now k ≡ None) }
        ensures none { IfNone result ((k : ℕ) → at / 4096 < k / 4096 → k < end → value_for self.now k ≡ None) }
    {
        let next = at / PART + 1;
        let last = (end - 1) / PART;
        if last < next {
            return None;
        }
        match self.parts.range(next..=last).next() {
            Some((part, _)) => Some(*part * PART),
            None => None,
        }
    }
}
