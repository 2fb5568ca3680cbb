//! Named bytes, which are taken from the front or replaced as a whole.
ghost use Rattle.std.specs.Prelude.{◌≡◌, ◌≢◌, ◌<◌, ◌≤◌, List, ℕ, length, Option, IfOk, OnOk, OnErr, IsErrOf, IsSome};
ghost use Rattle.flu_outside.specs.Outside.{Contents, Rose, Takes, Puts, OthersStay, WhereTold, SameLeft, SameCounts, CountApart, ShareOneCount};

use std::alloc::AllocError;

/// Why no bytes were taken.
#[derive(Clone, Copy, Debug, PartialEq, Eq)]
pub enum TakeFault {
    /// The name is not there, or it could not be read.
    Failed,
    /// There was no memory for it.
    NoMemory,
}

/// Why bytes were not put.
#[derive(Clone, Copy, Debug, PartialEq, Eq)]
pub enum PutFault {
    /// The name could not be written, or not to the end.
    Failed,
    /// There was no memory for it.
    NoMemory,
}

impl From<AllocError> for PutFault {
    ghost use Rattle.std.specs.Prelude.{◌≡◌};
    ghost use Rattle.flu_outside.specs.declared.files.PutFault.{PutFault};

    ghost from_gives = { λ _ e. e ≡ PutFault.NoMemory };

    fn from(_e: AllocError) -> PutFault {
        PutFault::NoMemory
    }
}

/// Names with bytes, which are taken from the front of each name, or put in place of what the name has.
///
/// Reading a name again gives what is left of it.
pub trait Files {
    /// The bytes that each name has left, if they are known: nothing is known of real files.
    ghost left: { Self → Option Contents };

    /// How often a take of each name has failed, up to 2^64 - 1.
    ghost faults: { Self → List ℕ → ℕ };

    /// How often a put of each name has failed, up to 2^64 - 1.
    ghost put_faults: { Self → List ℕ → ℕ };

    /// Takes some bytes of a name into the front of `buf`, and says how many. None means that the name has none left.
    ///
    /// `Failed` is counted at the name, and `NoMemory` leaves all as it was.
    fn take(&mut self, name: &str, buf: &mut [u8]) -> Result<usize, TakeFault>
        requires { 0 < length buf.old }

        ensures bound { IfOk result (λ n. n ≤ length buf.old) }
        ensures taken { IfOk result (λ n. WhereTold (left self.old) (left self.new) (λ old new. Takes old new name.now n buf.new)) }
        ensures quiet { OnOk result (SameCounts (faults self.old) (faults self.new)) }

        ensures kept { OnErr result (WhereTold (left self.old) (left self.new) SameLeft) }
        ensures failed { IsErrOf result TakeFault.Failed → Rose (faults self.old name.now) (faults self.new name.now) }
        ensures no_memory { IsErrOf result TakeFault.NoMemory → SameCounts (faults self.old) (faults self.new) }

        // No count falls, and only the name's own count changes; names that are not there share theirs.
        ensures counts { (n : List ℕ) → faults self.old n ≤ faults self.new n }
        ensures others { (n : List ℕ) → CountApart (left self.old) name.now n → faults self.new n ≡ faults self.old n }
        ensures puts { SameCounts (put_faults self.old) (put_faults self.new) };

    /// Gives a name these bytes, in place of those that it has.
    ///
    /// `Failed` is counted at the name; what the name holds then is not specified. `NoMemory` leaves all as it was.
    fn put(&mut self, name: &str, bytes: Vec<u8>) -> Result<(), PutFault>
        ensures holds { OnOk result (WhereTold (left self.old) (left self.new) (Puts name.now bytes.items)) }
        ensures quiet { OnOk result (SameCounts (put_faults self.old) (put_faults self.new)) }

        ensures others { IsErrOf result PutFault.Failed → WhereTold (left self.old) (left self.new) (OthersStay name.now) }
        ensures failed { IsErrOf result PutFault.Failed → Rose (put_faults self.old name.now) (put_faults self.new name.now) }
        ensures kept { IsErrOf result PutFault.NoMemory → WhereTold (left self.old) (left self.new) SameLeft }
        ensures no_memory { IsErrOf result PutFault.NoMemory → SameCounts (put_faults self.old) (put_faults self.new) }

        // No count falls, and if the bytes of names are known, only the name's own count changes.
        ensures counts { (n : List ℕ) → put_faults self.old n ≤ put_faults self.new n }
        ensures apart { IsSome (left self.old) → (n : List ℕ) → n ≢ name.now → put_faults self.new n ≡ put_faults self.old n }
        ensures takes { SameCounts (faults self.old) (faults self.new) };

    /// All names that are not there share one count. If nothing is known of the files, these are all names.
    ghost shared: { (f : Self) → ShareOneCount (left f) (faults f) };

    /// All names that are not there share one count of puts.
    ghost shared_puts: { (f : Self) → ShareOneCount (left f) (put_faults f) };
}
