//! The line of a source without a row.

ghost use Rattle.std.specs.Prelude.{◌≡◌, ◌≤◌, length, take, drop, min};
ghost use Rattle.flu_selected.specs.Selecting.{end_line};

use std::marker::Model;

const BYTES: [u8; 4] = *b"end\n";

/// What was not taken yet of the line of a source without a row, seen as its bytes.
#[derive(Drop)]
pub(crate) struct EndLine {
    taken: usize,
}

impl Model for EndLine {
    ghost use Rattle.std.specs.Prelude.{ℕ, List, ◌≤◌, drop};
    ghost use Rattle.flu_selected.specs.Selecting.{end_line};

    ghost Value = { List ℕ };

    ghost view = { λ line. drop line.taken end_line };

    ghost invariant = { λ line. line.taken ≤ 4 };
}

impl EndLine {
    /// The line, whole.
    pub(crate) fn whole() -> EndLine
        ensures { result ≡ end_line }
    {
        EndLine { taken: 0 }
    }

    /// Takes bytes from the front into `buf`, as many as there are and fit, and says how many.
    pub(crate) fn take_into(&mut self, buf: &mut [u8]) -> usize
        ensures amount { result ≡ min (length buf.old) (length self.old) }
        ensures given { take result buf.new ≡ take result self.old }
        ensures left { self.new ≡ drop result self.old }
    {
        let rest = &BYTES[self.taken..];
        let count = buf.len().min(rest.len());
        buf[..count].copy_from_slice(&rest[..count]);
        self.taken += count;
        count
    }
}
