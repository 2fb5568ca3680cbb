//! The bytes of one name in memory.
ghost use Rattle.std.specs.Prelude.{◌≡◌, ◌≤◌, length, take, drop, min};

use std::marker::Model;

/// The bytes of a file that were not taken yet, seen as their list.
#[derive(Drop)]
pub(crate) struct Rest {
    bytes: Vec<u8>,
    at: usize,
}

impl Model for Rest {
    ghost use Rattle.std.specs.Prelude.{ℕ, List, ◌≤◌, drop, vec_len};

    ghost Value = { List ℕ };

    ghost view = { λ r. drop r.at r.bytes.items };

    ghost invariant = { λ r. r.at ≤ vec_len r.bytes };
}

impl Rest {
    pub(crate) fn of(bytes: Vec<u8>) -> Rest
        ensures { result ≡ bytes.items }
    {
        Rest { bytes, at: 0 }
    }

    /// Takes bytes from the front into `buf`, at most this many, and says how many.
    pub(crate) fn take_into(&mut self, most: usize, buf: &mut [u8]) -> usize
        requires { most ≤ length buf.old }
        ensures amount { result ≡ min most (length self.old) }
        ensures given { take result buf.new ≡ take result self.old }
        ensures left { self.new ≡ drop result self.old }
    {
        let rest = &self.bytes[self.at..];
        let n = most.min(rest.len());
        buf[..n].copy_from_slice(&rest[..n]);
        self.at += n;
        n
    }
}
