//! A state, which holds a value in each cell that is not neutral (`docs/MODEL.md`).

ghost use Rattle.std.specs.Prelude.{◌≡◌, ◌&&◌, ◌+◌, ◌*◌, ◌<◌, ◌≤◌, ◌==◌, ℕ, not, true, false, Some, None, OnOk, OnErr, IfOk, IsOk, IsSome, IfSome, IfNone};
ghost use Rattle.flu_model.specs.Contents.{cell, is_same_cell, nothing_held, with_worth, held_sum, added, raised, held_keys, key_count, without_family, join};
ghost use Rattle.flu_model.specs.Contents.{joined_worth};
ghost use Rattle.flu_dense.specs.Holding.{value_at, value_for};
ghost use Rattle.flu_dense.specs.Values.{with_value};
ghost use Rattle.flu_cells.specs.Entries.{is_near, slot_of, near_held, has_place, place_of, far_held, contents_of, overlay};
ghost use Rattle.flu_cells.specs.Entries.{IsWithoutNeutral, HasKeysInRange, HasFarAlone, IsWorthKept};

use crate::sets::CellSet;
use flu_dense::{Dense, Sparse};
use flu_model::{Cell, Worth};
use std::alloc::{AllocError, Global};

// How many keys a keyed family has.
const KEYS: u32 = 65_536;

// The families and keys below this have slots in a table.
const NEAR: u32 = 64;

// How many places a family has: one for each number that a key can have.
const PLACES: u64 = 4_294_967_296;

/// What each cell holds: a finite map from cells to values that are not neutral. A cell that is not in it is neutral.
///
/// Contracts see it as the function `held` from each cell to what it holds, if anything. Two facts always hold of it: no
/// cell holds a neutral value (a sum of 0), and each cell that holds something has a key from 0 to 65,535.
///
/// The cells with a family and a key below 64 are in a table, in which each is found in constant time, and all others in
/// tables of 4,096 keys of a family each, of which those that are in use alone take memory.
#[derive(Drop)]
pub struct State {
    near: Dense<Worth>,
    // The cell of family f and key k has the place 2^32 * f + k.
    far: Sparse<Worth>,
    alloc: Global,
    pub ghost without_neutral: { IsWithoutNeutral (contents_of near far) },
    pub ghost keys_in_range: { HasKeysInRange (contents_of near far) },
    ghost far_alone: { HasFarAlone far },
}

impl State {
    ghost use Rattle.flu_cells.specs.Holding.{held};
    ghost use Rattle.flu_cells.specs.Sets.{is_in, is_in_but, within, outside, only, Moves};

    /// The state in which every cell is neutral. It takes no memory.
    pub fn new(alloc: Global) -> State
        ensures { held result ≡ nothing_held }
    {
        State {
            near: Dense::new(alloc),
            far: Sparse::new(alloc),
            alloc,
        }
    }

    /// What a cell holds; `None` if it is neutral.
    pub fn get(&self, c: Cell) -> Option<Worth>
        ensures { result ≡ held self.now c }
    {
        match near_slot(c) {
            Some(slot) => self.near.get(slot),
            None => self.far.get(far_place(c)),
        }
    }

    /// The table of the cells whose family and key are below 64: the cell of family f and key k is in the slot 64 * f + k. It
    /// takes no memory.
    pub fn near(&self) -> &Dense<Worth>
        ensures cells { (f : ℕ) (k : ℕ) → f < 64 → k < 64 → value_at result.now (64 * f + k) ≡ held self.now (cell f k) }
        ensures others { (slot : ℕ) → 4096 ≤ slot → value_at result.now slot ≡ None }
    {
        &self.near
    }

    /// Adds to the sum in a cell, which wraps at the ends of 128 bits; if it comes to 0, the cell is neutral again.
    ///
    /// The key is at most 65,535. Where memory is refused, the state is as before.
    pub fn add(&mut self, c: Cell, n: i128) -> Result<(), AllocError>
        requires { c.key < key_count }
        ensures ok { OnOk result (held self.new ≡ with_worth (held self.old) c (added (held self.old c) n)) }
        ensures err { OnErr result (held self.new ≡ held self.old) }
    {
        self.hold(c, sum_with(self.get(c), n))
    }

    /// Makes the maximum in a cell the greater of itself and `v`; a neutral cell takes `v`.
    ///
    /// The key is at most 65,535. Where memory is refused, the state is as before.
    pub fn raise(&mut self, c: Cell, v: i64) -> Result<(), AllocError>
        requires { c.key < key_count }
        ensures ok { OnOk result (held self.new ≡ with_worth (held self.old) c (raised (held self.old c) v)) }
        ensures err { OnErr result (held self.new ≡ held self.old) }
    {
        self.hold(c, greatest_with(self.get(c), v))
    }

    /// Makes `v` the last value in a cell.
    ///
    /// The key is at most 65,535. Where memory is refused, the state is as before.
    pub fn put(&mut self, c: Cell, v: i64) -> Result<(), AllocError>
        requires { c.key < key_count }
        ensures ok { OnOk result (held self.new ≡ with_worth (held self.old) c (Some (Worth.Last v))) }
        ensures err { OnErr result (held self.new ≡ held self.old) }
    {
        self.hold(c, Some(Worth::Last(v)))
    }

    /// Makes a cell neutral. It takes no memory.
    pub fn clear(&mut self, c: Cell)
        ensures { held self.new ≡ with_worth (held self.old) c None }
    {
        self.take(c);
    }

    /// Makes all cells of a family neutral. Only those that hold something are gone through. It takes no memory.
    pub fn clear_family(&mut self, family: u32)
        ensures { held self.new ≡ without_family (held self.old) family }
    {
        let mut from = 0;
        while let Some(key) = self.next_key(family, from) {
            self.clear(Cell { family, key });
            from = key + 1;
        }
    }

    /// The keys of a family whose cells are not neutral, rising. Only those cells are gone through.
    pub fn keys(&self, family: u32) -> Result<Vec<u32>, AllocError>
        ensures { IfOk result (λ v. v.items ≡ held_keys (held self.now) family) }
    {
        let mut keys = Vec::new(self.alloc);
        let mut from = 0;
        while let Some(key) = self.next_key(family, from) {
            keys.push(key)?;
            from = key + 1;
        }
        Ok(keys)
    }

    /// Joins another state to this one (`docs/MODEL.md`): sums are added, the greater maximum is taken, and of last values
    /// this one's comes first.
    ///
    /// An empty state takes no memory. Where memory is refused, part of the other state may have been joined and the rest is
    /// gone: this state is of no further use.
    pub fn absorb(&mut self, other: State) -> Result<(), AllocError>
        ensures ok { OnOk result (held self.new ≡ join (held self.old) (held other)) }
        ensures empty { held other ≡ nothing_held → IsOk result }
    {
        let State {
            near,
            far,
            alloc: _,
        } = other;
        self.absorb_near(near)?;
        self.absorb_far(far)
    }

    /// Moves what the cells of a set hold into a state of its own; the other cells keep what they hold. The set is gone
    /// through, and of the cells those that move.
    ///
    /// Where memory is refused, some of the cells may have moved and what they held is gone: this state is of no further use.
    pub fn take_out(&mut self, wanted: &CellSet) -> Result<State, AllocError>
        ensures taken { IfOk result (λ s. held s ≡ within wanted.now (held self.old)) }
        ensures left { OnOk result (held self.new ≡ outside wanted.now (held self.old)) }
    {
        let mut taken = State::new(self.alloc);
        for family in &wanted.whole {
            self.move_family(*family, &mut taken)?;
        }
        for cell in &wanted.single {
            self.move_cell(*cell, &mut taken)?;
        }
        Ok(taken)
    }

    /// A state whose cells of a set hold what they hold here, where the set's whole families are without the cells of another
    /// set; its other cells are neutral. The first set is gone through, and of the cells of its families those that hold something.
    pub fn copy_of(&self, wanted: &CellSet, but: &CellSet) -> Result<State, AllocError>
        ensures { IfOk result (λ s. held s ≡ only (is_in_but but.now wanted.now) (held self.now)) }
    {
        let mut copy = State::new(self.alloc);
        for family in &wanted.whole {
            copy.copy_family(self, *family, but)?;
        }
        for cell in &wanted.single {
            copy.copy_cell(self, *cell)?;
        }
        Ok(copy)
    }

    /// Makes the cells of a set neutral, where the set's whole families are without the cells of another set. The first set is
    /// gone through, and of the cells of its families those that hold something. It takes no memory.
    pub fn clear_all(&mut self, unwanted: &CellSet, but: &CellSet)
        ensures { held self.new ≡ only (λ c. not (is_in_but but.now unwanted.now c)) (held self.old) }
    {
        for family in &unwanted.whole {
            self.clear_family_but(*family, but);
        }
        for cell in &unwanted.single {
            self.clear(*cell);
        }
    }

    /// Another state whose cells hold the same.
    pub fn copy(&self) -> Result<State, AllocError>
        ensures { IfOk result (λ s. held s ≡ held self.now) }
    {
        Ok(State {
            near: self.near.copy()?,
            far: self.far.copy()?,
            alloc: self.alloc,
        })
    }

    // Moves what a family's cells hold to another state.
    fn move_family(&mut self, family: u32, other: &mut State) -> Result<(), AllocError>
        ensures { OnOk result (Moves (λ c. c.family == family) (held self.old) (held self.new) (held other.old) (held other.new)) }
    {
        let mut from = 0;
        while let Some(key) = self.next_key(family, from) {
            self.move_cell(Cell { family, key }, other)?;
            from = key + 1;
        }
        Ok(())
    }

    // Moves what a cell holds to another state.
    fn move_cell(&mut self, cell: Cell, other: &mut State) -> Result<(), AllocError>
        ensures { OnOk result (Moves (λ c. is_same_cell c cell) (held self.old) (held self.new) (held other.old) (held other.new)) }
    {
        match self.take(cell) {
            Some(worth) => {
                other.hold(cell, Some(worth))?;
                Ok(())
            }
            None => Ok(()),
        }
    }

    // Makes the cells of a family but those of a set hold what they hold in another state, if that is something.
    fn copy_family(&mut self, other: &State, family: u32, but: &CellSet) -> Result<(), AllocError>
        ensures { OnOk result (held self.new
            ≡ overlay (held self.old) (only (λ c. (c.family == family) && not (is_in but.now c)) (held other.now))) }
    {
        let keys = other.keys(family)?;
        for key in keys.as_slice() {
            self.copy_cell_but(other, Cell { family, key: *key }, but)?;
        }
        Ok(())
    }

    // The same for one cell.
    fn copy_cell_but(&mut self, other: &State, cell: Cell, but: &CellSet) -> Result<(), AllocError>
        ensures { OnOk result (held self.new
            ≡ overlay (held self.old) (only (λ c. is_same_cell c cell && not (is_in but.now c)) (held other.now))) }
    {
        if but.has(cell) {
            return Ok(());
        }
        self.copy_cell(other, cell)
    }

    // Makes the cells of a family but those of a set neutral. Only those that hold something are gone through.
    fn clear_family_but(&mut self, family: u32, but: &CellSet)
        ensures { held self.new ≡ only (λ c. not ((c.family == family) && not (is_in but.now c))) (held self.old) }
    {
        let mut from = 0;
        while let Some(key) = self.next_key(family, from) {
            self.clear_cell_but(Cell { family, key }, but);
            from = key + 1;
        }
    }

    // The same for one cell.
    fn clear_cell_but(&mut self, cell: Cell, but: &CellSet)
        ensures { held self.new ≡ only (λ c. not (is_same_cell c cell && not (is_in but.now c))) (held self.old) }
    {
        if !but.has(cell) {
            self.clear(cell);
        }
    }

    // Makes a cell hold what it holds in another state, if that is something.
    fn copy_cell(&mut self, other: &State, cell: Cell) -> Result<(), AllocError>
        ensures { OnOk result (held self.new ≡ overlay (held self.old) (only (λ c. is_same_cell c cell) (held other.now))) }
    {
        match other.get(cell) {
            Some(worth) => self.hold(cell, Some(worth)),
            None => Ok(()),
        }
    }

    // Joins what a table holds to this state.
    fn absorb_near(&mut self, mut near: Dense<Worth>) -> Result<(), AllocError>
        requires { IsWithoutNeutral (near_held near) }
        ensures ok { OnOk result (held self.new ≡ join (held self.old) (near_held near)) }
        ensures empty { near_held near ≡ nothing_held → IsOk result }
    {
        let mut from = 0;
        while let Some(slot) = near.next(from) {
            self.absorb_slot(&mut near, slot)?;
            from = slot + 1;
        }
        Ok(())
    }

    // Joins what a table holds in a slot to this state, and takes it out there.
    fn absorb_slot(&mut self, near: &mut Dense<Worth>, slot: u32) -> Result<(), AllocError>
        requires slot { slot < 4096 }
        requires clean { IsWithoutNeutral (near_held near.old) }
        ensures ok { OnOk result (join (held self.new) (near_held near.new) ≡ join (held self.old) (near_held near.old)) }
        ensures left { value_at near.new ≡ with_value (value_at near.old) slot None }
        ensures none { value_at near.old slot ≡ None → IsOk result }
    {
        match near.unset(slot) {
            Some(theirs) => {
                let cell = Cell {
                    family: slot / NEAR,
                    key: slot % NEAR,
                };
                self.hold(cell, joined(self.get(cell), theirs))
            }
            None => Ok(()),
        }
    }

    // Joins what the tables of further keys hold to this state.
    fn absorb_far(&mut self, mut far: Sparse<Worth>) -> Result<(), AllocError>
        requires clean { IsWithoutNeutral (far_held far) }
        requires keys { HasKeysInRange (far_held far) }
        ensures ok { OnOk result (held self.new ≡ join (held self.old) (far_held far)) }
        ensures empty { far_held far ≡ nothing_held → IsOk result }
    {
        let mut from = 0;
        // the last place of all is that of no key
        while let Some(place) = far.next(from, u64::MAX) {
            self.absorb_place(&mut far, place)?;
            from = place + 1;
        }
        Ok(())
    }

    // Joins what tables hold in a place to this state, and takes it out there.
    fn absorb_place(&mut self, far: &mut Sparse<Worth>, place: u64) -> Result<(), AllocError>
        requires clean { IsWithoutNeutral (far_held far.old) }
        requires keys { HasKeysInRange (far_held far.old) }
        ensures ok { OnOk result (join (held self.new) (far_held far.new) ≡ join (held self.old) (far_held far.old)) }
        ensures left { value_for far.new ≡ with_value (value_for far.old) place None }
    {
        match far.unset(place) {
            Some(theirs) => {
                let cell = Cell {
                    family: (place / PLACES) as u32,
                    key: (place % PLACES) as u32,
                };
                self.hold(cell, joined(self.get(cell), theirs))
            }
            None => Ok(()),
        }
    }

    // The first key of a family from a key on whose cell holds something.
    fn next_key(&self, family: u32, from: u32) -> Option<u32>
        requires { from ≤ key_count }
        ensures found { IfSome result (λ k. (from ≤ k) × (k < key_count) × IsSome (held self.now (cell family k))) }
        ensures least { IfSome result (λ k. (j : ℕ) → from ≤ j → j < k → held self.now (cell family j) ≡ None) }
        ensures none { IfNone result ((j : ℕ) → from ≤ j → held self.now (cell family j) ≡ None) }
    {
        match self.near_key(family, from) {
            Some(key) => Some(key),
            None => far_key(&self.far, family, from),
        }
    }

    // The first key of a family from a key on whose cell has a slot and holds something.
    fn near_key(&self, family: u32, from: u32) -> Option<u32>
        ensures found { IfSome result (λ k. (from ≤ k) × (is_near (cell family k) ≡ true) × IsSome (held self.now (cell family k))) }
        ensures least { IfSome result (λ k. (j : ℕ) → from ≤ j → j < k → held self.now (cell family j) ≡ None) }
        ensures none { IfNone result ((j : ℕ) → from ≤ j → is_near (cell family j) ≡ true → held self.now (cell family j) ≡ None) }
    {
        let first = near_slot(Cell { family, key: from })?;
        let slot = self.near.next(first)?;
        if slot / NEAR == family {
            Some(slot % NEAR)
        } else {
            None
        }
    }

    // Takes out what a cell holds.
    fn take(&mut self, c: Cell) -> Option<Worth>
        ensures worth { result ≡ held self.old c }
        ensures left { held self.new ≡ with_worth (held self.old) c None }
    {
        match near_slot(c) {
            Some(slot) => self.near.unset(slot),
            None => self.far.unset(far_place(c)),
        }
    }

    // Sets what a cell holds.
    fn hold(&mut self, c: Cell, w: Option<Worth>) -> Result<(), AllocError>
        requires key { c.key < key_count }
        requires kept { IsWorthKept w }
        ensures ok { OnOk result (held self.new ≡ with_worth (held self.old) c w) }
        ensures err { OnErr result (held self.new ≡ held self.old) }
    {
        match w {
            Some(worth) => self.write(c, worth),
            None => {
                self.clear(c);
                Ok(())
            }
        }
    }

    // Makes a cell hold a value that is not neutral.
    fn write(&mut self, c: Cell, w: Worth) -> Result<(), AllocError>
        requires key { c.key < key_count }
        requires kept { IsWorthKept (Some w) }
        ensures ok { OnOk result (held self.new ≡ with_worth (held self.old) c (Some w)) }
        ensures err { OnErr result (held self.new ≡ held self.old) }
    {
        match near_slot(c) {
            Some(slot) => self.near.set(slot, w),
            None => self.far.set(far_place(c), w),
        }
    }
}

// The slot of a cell in the table, if it has one.
fn near_slot(c: Cell) -> Option<u32>
    ensures some { IfSome result (λ slot. (slot ≡ slot_of c) × (slot < 4096) × (is_near c ≡ true)) }
    ensures none { IfNone result (is_near c ≡ false) }
{
    if c.family < NEAR && c.key < NEAR {
        Some(NEAR * c.family + c.key)
    } else {
        None
    }
}

// The sum in a cell with a number added.
fn sum_with(held: Option<Worth>, n: i128) -> Option<Worth>
    ensures value { result ≡ added held n }
    ensures kept { IsWorthKept result }
{
    match held {
        Some(Worth::Sum(sum)) => sum_worth(sum.wrapping_add(n)),
        _ => sum_worth(n),
    }
}

// The greater of the maximum in a cell and a number.
fn greatest_with(held: Option<Worth>, v: i64) -> Option<Worth>
    ensures value { result ≡ raised held v }
    ensures kept { IsWorthKept result }
{
    match held {
        Some(Worth::Max(greatest)) => Some(Worth::Max(greatest.max(v))),
        _ => Some(Worth::Max(v)),
    }
}

// The join of what two states hold in a cell, where the right one holds something.
fn joined(ours: Option<Worth>, theirs: Worth) -> Option<Worth>
    requires ours { IsWorthKept ours }
    requires theirs { IsWorthKept (Some theirs) }
    ensures value { result ≡ joined_worth ours (Some theirs) }
    ensures kept { IsWorthKept result }
{
    match ours {
        None => Some(theirs),
        Some(Worth::Sum(a)) => match theirs {
            Worth::Sum(b) => sum_worth(a.wrapping_add(b)),
            _ => ours,
        },
        Some(Worth::Max(a)) => match theirs {
            Worth::Max(b) => Some(Worth::Max(a.max(b))),
            _ => ours,
        },
        Some(Worth::Last(_)) => ours,
    }
}

// A sum as a cell holds it.
fn sum_worth(n: i128) -> Option<Worth>
    ensures value { result ≡ held_sum n }
    ensures kept { IsWorthKept result }
{
    if n == 0 { None } else { Some(Worth::Sum(n)) }
}

// The place of a cell in the tables of further keys.
fn far_place(c: Cell) -> u64
    ensures place { result ≡ place_of c }
    ensures has { has_place c ≡ true }
{
    PLACES * u64::from(c.family) + u64::from(c.key)
}

// The first key of a family from a key on whose cell has a value in the tables of further keys.
fn far_key(far: &Sparse<Worth>, family: u32, from: u32) -> Option<u32>
    ensures found { IfSome result (λ k. (from ≤ k) × (k < key_count) × IsSome (far_held far.now (cell family k))) }
    ensures least { IfSome result (λ k. (j : ℕ) → from ≤ j → j < k → far_held far.now (cell family j) ≡ None) }
    ensures none { IfNone result ((j : ℕ) → from ≤ j → j < key_count → far_held far.now (cell family j) ≡ None) }
{
    let first = far_place(Cell { family, key: from });
    let end = far_place(Cell { family, key: KEYS });
    let place = far.next(first, end)?;
    Some((place % PLACES) as u32)
}
