//! Files in memory that never fail.
use crate::files::{Files, PutFault, TakeFault};
use crate::rest::Rest;
use std::alloc::{AllocError, Global};
use std::collections::BTreeMap;

/// Files in memory that never fail: a name that is not held is empty.
///
/// Contracts see what each name has left (`left_of` of `specs/HonestFiles.antt`). The count of each name is 0.
#[derive(Drop)]
pub struct HonestFiles {
    files: BTreeMap<String, Rest>,
    alloc: Global,
}

impl HonestFiles {
    ghost use Rattle.std.specs.Prelude.{◌≡◌, ◌≢◌, List, ℕ, [], Some, OnOk, OnErr};
    ghost use Rattle.flu_outside.specs.Outside.{SameLeft};
    ghost use Rattle.flu_outside.specs.HonestFiles.{left_of};

    /// Each name is empty.
    pub fn new(alloc: Global) -> HonestFiles
        ensures left { (name : List ℕ) → left_of result name ≡ Some [] }
    {
        HonestFiles {
            files: BTreeMap::new(alloc),
            alloc,
        }
    }

    /// Gives a name these bytes, in place of those that it has.
    ///
    /// An error leaves all unchanged.
    pub fn add(&mut self, name: &str, bytes: Vec<u8>) -> Result<(), AllocError>
        ensures holds { OnOk result (left_of self.new name.now ≡ Some bytes.items) }
        ensures others { OnOk result ((n : List ℕ) → n ≢ name.now → left_of self.new n ≡ left_of self.old n) }
        ensures refused { OnErr result (SameLeft (left_of self.old) (left_of self.new)) }
    {
        let name = String::from_str(self.alloc, name)?;
        self.files.insert(name, Rest::of(bytes))?;
        Ok(())
    }
}

impl Files for HonestFiles {
    ghost use Rattle.std.specs.Prelude.{◌≡◌, ◌<◌, ◌≤◌, List, ℕ, [], length, min, refl, Some, IfOk, IsOk, OnOk, OnErr, IfErr, unwrap_or};
    ghost use Rattle.flu_outside.specs.Outside.{Takes, Puts, SameLeft};
    ghost use Rattle.flu_outside.specs.HonestFiles.{left_of};

    ghost left = { λ h. Some (left_of h) };

    ghost faults = { λ _ _. 0 };

    ghost put_faults = { λ _ _. 0 };

    ghost shared = { λ _ _ _ _ _. refl };

    ghost shared_puts = { λ _ _ _ _ _. refl };

    fn take(&mut self, name: &str, buf: &mut [u8]) -> Result<usize, TakeFault>
        requires { 0 < length buf.old }

        ensures taken { IfOk result (λ n. Takes (left_of self.old) (left_of self.new) name.now n buf.new) }
        ensures bound { IfOk result (λ n. n ≤ length buf.old) }

        // It never fails, and gives as many bytes as it can.
        ensures succeeds { IsOk result }
        ensures amount { IfOk result (λ n. n ≡ min (length buf.old) (length (unwrap_or (left_of self.old name.now) []))) }
    {
        let Some(rest) = self.files.get_mut(name) else {
            return Ok(0);
        };
        Ok(rest.take_into(buf.len(), buf))
    }

    fn put(&mut self, name: &str, bytes: Vec<u8>) -> Result<(), PutFault>
        ensures holds { OnOk result (Puts name.now bytes.items (left_of self.old) (left_of self.new)) }
        ensures kept { OnErr result (SameLeft (left_of self.old) (left_of self.new)) }

        // It fails only if memory runs out.
        ensures fault { IfErr result (λ e. e ≡ PutFault.NoMemory) }
    {
        self.add(name, bytes)?;
        Ok(())
    }
}
