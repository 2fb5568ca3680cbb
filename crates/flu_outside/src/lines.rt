//! The lines of a name whose bytes are taken in pieces.

ghost use Rattle.std.specs.Prelude.{◌≡◌, ◌≢◌, ℕ, List, ◌+◌, ◌≤◌, ◌<◌, ◌^◌, [], ◌++◌, drop, length, IfOk, OnOk, IsErrOf, Err};
ghost use Rattle.flu_lemmas.specs.Lines.{line_len};
ghost use Rattle.flu_outside.specs.Lines.{IsFound, IsLast, HasNoLine};
ghost use Rattle.flu_outside.specs.Outside.{WhereTold, Rose, SameLeft, SameCounts};
ghost use Rattle.flu_outside.specs.Taking.{TakesFrom, KeepsBytes, CountsOf, IsReadOut};

use crate::files::{Files, TakeFault};
use crate::taking::take_behind;
use std::alloc::Global;
use std::marker::Model;

/// What is at the front of the bytes in a [`LineBuffer`].
#[derive(Clone, Copy)]
pub enum Found {
    /// A line of this many bytes, followed by its line feed.
    Line(usize),
    /// A line without a line feed, which ends the file.
    Last,
    /// More bytes than a line may have.
    TooLong,
    /// Nothing, and nothing is left of the file.
    End,
}

/// How many bytes there are before the first line feed. It takes no memory.
pub fn line_len(bytes: &[u8]) -> usize
    ensures value { result ≡ line_len bytes.now }
    ensures within { result ≤ length bytes.now }
{
    bytes.iter().take_while(|byte| **byte != b'\n').count()
}

/// Bytes of a file that were taken and not read yet. Contracts see them as their list.
#[derive(Drop)]
pub struct LineBuffer {
    bytes: Vec<u8>,
    at: usize,
}

impl Model for LineBuffer {
    ghost use Rattle.std.specs.Prelude.{List, ℕ, ◌≤◌, drop, vec_len};

    ghost Value = { List ℕ };

    ghost view = { λ h. drop h.at h.bytes.items };

    ghost invariant = { λ h. h.at ≤ vec_len h.bytes };
}

impl LineBuffer {
    /// No bytes. It takes no memory.
    pub fn new(alloc: Global) -> LineBuffer
        ensures { result ≡ [] }
    {
        LineBuffer {
            bytes: Vec::new(alloc),
            at: 0,
        }
    }

    /// The bytes, from the front. It takes no memory.
    pub fn bytes(&self) -> &[u8]
        ensures { result.now ≡ self.now }
    {
        &self.bytes[self.at..]
    }

    /// Removes bytes from the front. It takes no memory.
    pub fn drop_front(&mut self, count: usize)
        requires { count ≤ length self.old }
        ensures { self.new ≡ drop count self.old }
    {
        self.at += count;
    }

    // Moves the bytes to the front of the buffer.
    fn move_up(&mut self)
        ensures { self.new ≡ self.old }
    {
        self.bytes.drain(..self.at);
        self.at = 0;
    }

    // Takes some bytes of the file, none if none are left.
    fn take_more<F: Files>(&mut self, file: &str, files: &mut F) -> Result<usize, TakeFault>
        ensures bytes { OnOk result (WhereTold (F.left files.old) (F.left files.new) (KeepsBytes file.now self.old self.new)) }
        ensures behind { IfOk result (λ count. (more : List ℕ) × (length more ≡ count) × (self.new ≡ self.old ++ more)) }
        ensures end { IfOk result (λ count. count ≡ 0 → IsReadOut file.now (F.left files.new)) }
        ensures taken { WhereTold (F.left files.old) (F.left files.new) (TakesFrom file.now) }
        ensures counts { CountsOf (F.left files.old) file.now (F.faults files.old) (F.faults files.new) }
        ensures quiet { result ≢ Err TakeFault.Failed → SameCounts (F.faults files.old) (F.faults files.new) }
        ensures puts { SameCounts (F.put_faults files.old) (F.put_faults files.new) }
        ensures cause { IsErrOf result TakeFault.Failed → Rose (F.faults files.old file.now) (F.faults files.new file.now) }
        ensures kept { IsErrOf result TakeFault.Failed → self.new ≡ self.old }
        ensures none { IsErrOf result TakeFault.Failed → WhereTold (F.left files.old) (F.left files.new) SameLeft }
    {
        self.move_up();
        take_behind(files, file, &mut self.bytes)
    }

    /// Takes bytes of the file until the buffer has a line, or the end of the file, or more than `longest` bytes of one line.
    ///
    /// # Errors
    ///
    /// `Failed` is a failed take: no line was in the buffer before it, and all that was taken is still there. If memory runs out,
    /// bytes that were taken are lost.
    pub fn fill<F: Files>(
        &mut self,
        longest: usize,
        file: &str,
        files: &mut F,
    ) -> Result<Found, TakeFault>
        requires { longest < 2 ^ 63 }
        ensures found { IfOk result (IsFound longest self.new) }
        ensures last { IfOk result (λ found. IsLast found → IsReadOut file.now (F.left files.new)) }
        ensures bytes { OnOk result (WhereTold (F.left files.old) (F.left files.new) (KeepsBytes file.now self.old self.new)) }
        ensures taken { WhereTold (F.left files.old) (F.left files.new) (TakesFrom file.now) }
        ensures counts { CountsOf (F.left files.old) file.now (F.faults files.old) (F.faults files.new) }
        ensures quiet { result ≢ Err TakeFault.Failed → SameCounts (F.faults files.old) (F.faults files.new) }
        ensures puts { SameCounts (F.put_faults files.old) (F.put_faults files.new) }
        ensures cause { IsErrOf result TakeFault.Failed → Rose (F.faults files.old file.now) (F.faults files.new file.now) }
        ensures kept { IsErrOf result TakeFault.Failed → WhereTold (F.left files.old) (F.left files.new) (KeepsBytes file.now self.old self.new) }
        ensures undecided { IsErrOf result TakeFault.Failed → HasNoLine longest self.new }
    {
        let mut len = line_len(self.bytes());
        while len == self.bytes().len() && len <= longest {
            let count = self.take_more(file, files)?;
            if count == 0 {
                return Ok(self.found_at_end(longest));
            }
            len += line_len(&self.bytes()[len..]);
        }
        Ok(if len > longest {
            Found::TooLong
        } else {
            Found::Line(len)
        })
    }

    // What is at the front if nothing is left of the file.
    fn found_at_end(&self, longest: usize) -> Found
        requires one { line_len self.now ≡ length self.now }
        requires short { length self.now ≤ longest }
        ensures found { IsFound longest self.now result }
    {
        if self.bytes().is_empty() {
            Found::End
        } else {
            Found::Last
        }
    }
}
