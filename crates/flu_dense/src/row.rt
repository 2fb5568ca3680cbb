//! Rows of 64 places.

ghost use Rattle.std.specs.Prelude.{◌≡◌, ℕ, true, ◌<◌, ◌≤◌, ◌==◌, None, Some, IsOk, IsSome, OnOk, OnErr, IfOk, IfSome, IfNone, length};
ghost use Rattle.flu_dense.specs.Rows.{HasValues};
ghost use Rattle.flu_dense.specs.Values.{with_value};

use crate::mask::Mask;
use std::alloc::{AllocError, Global};

/// A row of 64 places, numbered from 0, some of which hold a value. It takes memory up to the last place that was ever held.
///
/// Contracts see it as the function `value_in` from each place to its value, if it is held.
#[derive(Drop)]
pub(crate) struct Row<V: Copy> {
    held: Mask,
    // The value at each place that is held, and any at others.
    values: Vec<V>,
    ghost has_values: { HasValues held values.items },
}

impl<V: Copy> Row<V> {
    ghost use Rattle.flu_dense.specs.Tables.{value_in};

    /// The row that holds nothing. It takes no memory.
    pub(crate) fn new(alloc: Global) -> Row<V>
        ensures { (k : ℕ) → value_in result k ≡ None }
    {
        Row {
            held: Mask::none(),
            values: Vec::new(alloc),
        }
    }

    /// The value at a place.
    pub(crate) fn get(&self, k: u32) -> Option<V>
        requires { k < 64 }
        ensures { result ≡ value_in self.now k }
    {
        if self.held.has(k) {
            Some(self.values[k as usize])
        } else {
            None
        }
    }

    /// Whether no place is held.
    pub(crate) fn is_empty(&self) -> bool
        ensures { result ≡ true → (k : ℕ) → k < 64 → value_in self.now k ≡ None }
    {
        self.next(0).is_none()
    }

    /// The first place from `from` on that is held.
    pub(crate) fn next(&self, from: u32) -> Option<u32>
        requires { from < 64 }
        ensures found { IfSome result (λ k. (from ≤ k) × (k < 64) × IsSome (value_in self.now k)) }
        ensures least { IfSome result (λ k. (j : ℕ) → from ≤ j → j < k → value_in self.now j ≡ None) }
        ensures none { IfNone result ((j : ℕ) → from ≤ j → j < 64 → value_in self.now j ≡ None) }
    {
        self.held.next(from)
    }

    /// Makes a place hold a value. Where memory is refused, the row is as before; at a place that is held it is not.
    pub(crate) fn set(&mut self, k: u32, value: V) -> Result<(), AllocError>
        requires { k < 64 }
        ensures ok { OnOk result ((j : ℕ) → j < 64 → value_in self.new j ≡ with_value (value_in self.old) k (Some value) j) }
        ensures err { OnErr result ((j : ℕ) → j < 64 → value_in self.new j ≡ value_in self.old j) }
        ensures held { IsSome (value_in self.old k) → IsOk result }
    {
        self.reach(k as usize, value)?;
        self.values[k as usize] = value;
        self.held = self.held.with(k);
        Ok(())
    }

    /// Makes a place hold nothing, and gives what it held.
    pub(crate) fn unset(&mut self, k: u32) -> Option<V>
        requires { k < 64 }
        ensures value { result ≡ value_in self.old k }
        ensures left { (j : ℕ) → j < 64 → value_in self.new j ≡ with_value (value_in self.old) k None j }
    {
        let value = self.get(k);
        self.held = self.held.without(k);
        value
    }

    /// A row that holds the same.
    pub(crate) fn copy(&self, alloc: Global) -> Result<Row<V>, AllocError>
        ensures { IfOk result (λ r. (k : ℕ) → value_in r k ≡ value_in self.now k) }
    {
        Ok(Row {
            held: self.held,
            values: Vec::from_slice(alloc, self.values.as_slice())?,
        })
    }

    // Sees that there is room for the value at a place.
    fn reach(&mut self, k: usize, filler: V) -> Result<(), AllocError>
        requires { k < 64 }
        ensures same { (j : ℕ) → j < 64 → value_in self.new j ≡ value_in self.old j }
        ensures room { OnOk result (k < length self.new.values.items) }
        ensures held { IsSome (value_in self.old k) → IsOk result }
    {
        if self.values.len() <= k {
            self.values.resize(k + 1, filler)?;
        }
        Ok(())
    }
}
