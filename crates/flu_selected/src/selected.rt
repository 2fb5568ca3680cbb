//! Files through which some names read as sources without a row.

ghost use Rattle.std.specs.Prelude.{◌≡◌, List, ℕ, is_some};
ghost use Rattle.flu_selected.specs.Closed.{lines_in};
ghost use Rattle.flu_selected.specs.Selecting.{IsClosedAt, left_beside, counts_beside};
ghost use Rattle.flu_selected.specs.Origin.{ClosedStay, CountsRise, ClosedCountsStay, ClosedCountsFollow};

use crate::closed::ClosedNames;
use crate::lent::Lent;
use crate::origin::Origin;
use flu_outside::{Files, PutFault, TakeFault};
use std::marker::PhantomData;

/// Files through which some names, the closed ones, read as sources without a row: each of them has the line `end` and nothing more,
/// and the files of these names are not touched. All other names are read and put as they are.
///
/// Whatever is read and put, what `Origin` fixes stays: which files these are, which names are closed, and that each closed name of the
/// files has what it had.
#[derive(Drop)]
pub struct Selected<'f, F: Files, K: Origin> {
    pub files: &'f mut F,
    pub closed: ClosedNames,
    origin: PhantomData<K>,
    pub ghost same_reference: { files.ghost_name ≡ K.reference },
    pub ghost same_names: { (name : List ℕ) → is_some (lines_in closed name) ≡ K.is_closed name },
    pub ghost told: { is_some (F.left files.now) ≡ is_some K.left },
    pub ghost left: { ClosedStay K.is_closed K.left (F.left files.now) },
    pub ghost rise: { CountsRise K.faults (F.faults files.now) },
    pub ghost apart: { ClosedCountsStay K.is_closed K.left K.faults (F.faults files.now) },
    pub ghost follow: { ClosedCountsFollow K.is_closed K.faults (F.faults files.now) },
}

impl<'f, F: Files, K: Origin> Selected<'f, F, K> {
    /// These files, of which these names are closed.
    pub fn new(lent: Lent<'f, F>, closed: ClosedNames) -> Selected<'f, F, K>
        requires reference { lent.files.ghost_name ≡ K.reference }
        requires names { (name : List ℕ) → is_some (lines_in closed name) ≡ K.is_closed name }
        requires left { F.left lent.files.now ≡ K.left }
        requires faults { F.faults lent.files.now ≡ K.faults }
        ensures files { result.files.now ≡ lent.entry.files.now }
        ensures closed { result.closed ≡ closed }
        ensures left { IsClosedAt (lines_in closed) (F.left lent.entry.files.now) (left_beside (F.left result.files.now) (lines_in result.closed)) }
    {
        let Lent { files } = lent;
        Selected {
            files,
            closed,
            origin: PhantomData,
        }
    }

    /// The files behind.
    pub fn into_lent(self) -> Lent<'f, F>
        ensures now { result.files.now ≡ self.entry.files.now }
        ensures same_reference { result.files.ghost_name ≡ K.reference }
    {
        let Selected { files, .. } = self;
        Lent { files }
    }
}

impl<F: Files, K: Origin> Files for Selected<'_, F, K> {
    ghost use Rattle.flu_selected.specs.Shared.{share_beside, share_puts};

    ghost left = { λ s. left_beside (F.left s.files.now) (lines_in s.closed) };

    ghost faults = { λ s. counts_beside (F.left s.files.now) (lines_in s.closed) (F.faults s.files.now) };

    ghost put_faults = { λ s. F.put_faults s.files.now };

    ghost shared = { λ s. share_beside (F.left s.files.now) (lines_in s.closed) (F.faults s.files.now) (F.shared s.files.now) };

    ghost shared_puts = { λ s. share_puts (F.left s.files.now) (lines_in s.closed) (F.put_faults s.files.now) (F.shared_puts s.files.now) };

    fn take(&mut self, name: &str, buf: &mut [u8]) -> Result<usize, TakeFault> {
        match self.closed.take(name, buf) {
            Some(count) => Ok(count),
            None => self.files.take(name, buf),
        }
    }

    /// Bytes that are put to a closed name are refused with `NoMemory`, and all is left as it was: a name that is only read is not put.
    fn put(&mut self, name: &str, bytes: Vec<u8>) -> Result<(), PutFault> {
        if self.closed.has(name) {
            return Err(PutFault::NoMemory);
        }
        self.files.put(name, bytes)
    }
}
