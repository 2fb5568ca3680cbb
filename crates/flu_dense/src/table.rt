//! Tables of 4,096 slots.

ghost use Rattle.std.specs.Prelude.{◌≡◌, ℕ, ◌+◌, ◌*◌, ◌/◌, ◌<◌, ◌≤◌, None, Some, IsOk, IsSome, OnOk, OnErr, IfOk, IfSome, IfNone, length};
ghost use Rattle.flu_dense.specs.Tables.{value_of, HasSlotsInRange, IsEmptyBeside};
ghost use Rattle.flu_dense.specs.Values.{with_value};

use crate::mask::Mask;
use crate::row::Row;
use std::alloc::{AllocError, Global};

// How many slots a row has.
const ROW: u32 = 64;

// How many slots a table has.
const SLOTS: u32 = 4096;

/// A finite map from slots, the numbers from 0 to 4,095, to values. A value is looked up, set and unset in constant time. The
/// slots are in rows of 64; a row takes memory up to the last of its slots that was ever held, and the table up to the last
/// such row.
///
/// Contracts see it as the function `value_at` from each slot to its value, if it is held; no number from 4,096 on is held.
#[derive(Drop)]
pub struct Dense<V: Copy> {
    // The row r has the slots from 64 * r on.
    rows: Vec<Row<V>>,
    // The rows that hold something.
    filled: Mask,
    alloc: Global,
    ghost few_rows: { length rows.items ≤ 64 },
    ghost empty_beside: { IsEmptyBeside filled (value_of rows.items) },
    pub ghost in_range: { HasSlotsInRange (value_of rows.items) },
}

impl<V: Copy> Dense<V> {
    ghost use Rattle.flu_dense.specs.Holding.{value_at};

    /// The table that holds nothing. It takes no memory.
    pub fn new(alloc: Global) -> Dense<V>
        ensures { (s : ℕ) → value_at result s ≡ None }
    {
        Dense {
            rows: Vec::new(alloc),
            filled: Mask::none(),
            alloc,
        }
    }

    /// The value in a slot below 4,096.
    pub fn get(&self, slot: u32) -> Option<V>
        requires { slot < 4096 }
        ensures { result ≡ value_at self.now slot }
    {
        match self.rows.get((slot / ROW) as usize) {
            Some(row) => row.get(slot % ROW),
            None => None,
        }
    }

    /// The first slot from `from` on that is held; `from` is at most 4,096. Rows that hold nothing are passed over, and of
    /// others no slot is gone through.
    pub fn next(&self, from: u32) -> Option<u32>
        requires { from ≤ 4096 }
        ensures found { IfSome result (λ s. (from ≤ s) × (s < 4096) × IsSome (value_at self.now s)) }
        ensures least { IfSome result (λ s. (k : ℕ) → from ≤ k → k < s → value_at self.now k ≡ None) }
        ensures none { IfNone result ((k : ℕ) → from ≤ k → value_at self.now k ≡ None) }
    {
        let mut at = from;
        while at < SLOTS {
            let start = self.filled_from(at)?;
            if let Some(slot) = self.next_in_row(start) {
                return Some(slot);
            }
            at = start / ROW * ROW + ROW;
        }
        None
    }

    /// Makes a slot below 4,096 hold a value.
    ///
    /// Where memory is refused, the table is as before. At a slot that is held it is never refused.
    pub fn set(&mut self, slot: u32, value: V) -> Result<(), AllocError>
        requires { slot < 4096 }
        ensures ok { OnOk result (value_at self.new ≡ with_value (value_at self.old) slot (Some value)) }
        ensures err { OnErr result (value_at self.new ≡ value_at self.old) }
        ensures held { IsSome (value_at self.old slot) → IsOk result }
    {
        let row = slot / ROW;
        self.reach(row as usize)?;
        self.rows[row as usize].set(slot % ROW, value)?;
        self.filled = self.filled.with(row);
        Ok(())
    }

    /// Makes a slot below 4,096 hold nothing, and gives what it held. It takes no memory.
    pub fn unset(&mut self, slot: u32) -> Option<V>
        requires { slot < 4096 }
        ensures value { result ≡ value_at self.old slot }
        ensures left { value_at self.new ≡ with_value (value_at self.old) slot None }
    {
        let row = self.rows.get_mut((slot / ROW) as usize)?;
        let value = row.unset(slot % ROW);
        self.filled = self.filled.without_if(slot / ROW, row.is_empty());
        value
    }

    /// A table that holds the same. The rows are gone through, up to the last slot of each that was ever held.
    pub fn copy(&self) -> Result<Dense<V>, AllocError>
        ensures { IfOk result (λ d. value_at d ≡ value_at self.now) }
    {
        let mut rows = Vec::with_capacity(self.alloc, self.rows.len())?;
        for row in &self.rows {
            rows.push(row.copy(self.alloc)?)?;
        }
        Ok(Dense {
            rows,
            filled: self.filled,
            alloc: self.alloc,
        })
    }

    // The first slot from a slot on whose row holds something, as far as can be told without its row.
    fn filled_from(&self, at: u32) -> Option<u32>
        requires { at < 4096 }
        ensures found { IfSome result (λ s. (at ≤ s) × (s < 4096)) }
        ensures before { IfSome result (λ s. (k : ℕ) → at ≤ k → k < s → value_at self.now k ≡ None) }
        ensures none { IfNone result ((k : ℕ) → at ≤ k → value_at self.now k ≡ None) }
    {
        let row = self.filled.next(at / ROW)?;
        Some(at.max(row * ROW))
    }

    // The first slot of a row from a slot on that is held.
    fn next_in_row(&self, at: u32) -> Option<u32>
        requires { at < 4096 }
        ensures found { IfSome result (λ s. (at ≤ s) × (s < 4096) × IsSome (value_at self.now s)) }
        ensures least { IfSome result (λ s. (k : ℕ) → at ≤ k → k < s → value_at self.now k ≡ None) }
        ensures none { IfNone result ((k : ℕ) → at ≤ k → k / 64 ≡ at / 64 → value_at self.now k ≡ None) }
    {
        let row = self.rows.get((at / ROW) as usize)?;
        let place = row.next(at % ROW)?;
        Some(at / ROW * ROW + place)
    }

    // Sees that there is a row.
    fn reach(&mut self, row: usize) -> Result<(), AllocError>
        requires { row < 64 }
        ensures same { value_at self.new ≡ value_at self.old }
        ensures room { OnOk result (row < length self.new.rows.items) }
        ensures held { row < length self.old.rows.items → IsOk result }
    {
        while self.rows.len() <= row {
            self.rows.push(Row::new(self.alloc))?;
        }
        Ok(())
    }
}

impl<V: Copy> Clone for Dense<V> {
    ghost use Rattle.flu_dense.specs.Holding.{value_at};

    ghost is_clone = { λ d e. value_at e ≡ value_at d };

    fn clone(&self) -> Result<Dense<V>, AllocError> {
        self.copy()
    }
}
