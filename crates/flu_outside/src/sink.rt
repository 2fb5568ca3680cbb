//! Where bytes are written to.
ghost use Rattle.std.specs.Prelude.{◌≡◌, ◌<◌, ◌≤◌, List, ℕ, length, Option, IfOk, OnOk, OnErr};
ghost use Rattle.flu_outside.specs.Outside.{Rose, WhereTold, Appends};

/// A sink took none of the bytes.
#[derive(Clone, Copy, Debug, PartialEq, Eq)]
pub struct Failed;

/// Something that takes bytes, one after another.
pub trait Sink {
    /// The bytes that it has taken, if they are known: nothing is known of a real one.
    ghost taken: { Self → Option (List ℕ) };

    /// How often it has failed, up to 2^64 - 1.
    ghost faults: { Self → ℕ };

    /// Takes some bytes from the front of `bytes`, at least one, and says how many.
    fn write(&mut self, bytes: &[u8]) -> Result<usize, Failed>
        requires { 0 < length bytes.now }

        ensures some { IfOk result (λ n. 0 < n) }
        ensures bound { IfOk result (λ n. n ≤ length bytes.now) }
        ensures wrote { IfOk result (λ n. WhereTold (taken self.old) (taken self.new) (Appends n bytes.now)) }
        ensures quiet { OnOk result (faults self.new ≡ faults self.old) }

        ensures kept { OnErr result (taken self.new ≡ taken self.old) }
        ensures failed { OnErr result (Rose (faults self.old) (faults self.new)) }
        ensures counts { faults self.old ≤ faults self.new };
}
