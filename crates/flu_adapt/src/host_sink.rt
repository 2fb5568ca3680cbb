//! A writer of the system as a sink.

ghost use Rattle.std.specs.Io.KnownBytes.{WriteAppends};
ghost use Rattle.std.specs.Prelude.{◌≡◌, ◌<◌, ◌≤◌, ◌+◌, ◌-◌, ◌^◌, length, min, None, IfOk, OnOk, OnErr};
ghost use Rattle.flu_outside.specs.Outside.{Rose};

use flu_outside::{Failed, Sink};
use std::io;
use std::io::Write;

/// A writer of the system, such as standard output. Nothing is known of what it took.
///
/// Contracts see the writer (`writer_of` of `specs/HostSink.antt`) and how often it failed (`count_of`).
#[derive(Drop)]
pub struct HostSink<W: Write> {
    writer: W,
    faults: u64,
    last: Option<io::Error>,
}

impl<W: Write> HostSink<W> {
    ghost use Rattle.flu_adapt.specs.HostSink.{writer_of, count_of};

    /// A sink over a writer. It has not failed.
    pub fn new(writer: W) -> HostSink<W>
        ensures writer { writer_of result ≡ writer }
        ensures count { count_of result ≡ 0 }
    {
        HostSink {
            writer,
            faults: 0,
            last: None,
        }
    }

    /// What the writer said when it last failed. None if it has not, or if it took no byte and gave no reason.
    pub fn last_failure(&self) -> Option<io::Error> {
        self.last
    }
}

impl<W: Write> Sink for HostSink<W> {
    ghost use Rattle.flu_adapt.specs.HostSink.{writer_of, count_of};

    ghost taken = { λ _. None };

    ghost faults = { count_of };

    fn write(&mut self, bytes: &[u8]) -> Result<usize, Failed>
        requires { 0 < length bytes.now }

        ensures some { IfOk result (λ n. 0 < n) }
        ensures bound { IfOk result (λ n. n ≤ length bytes.now) }
        ensures quiet { OnOk result (count_of self.new ≡ count_of self.old) }
        ensures failed { OnErr result (Rose (count_of self.old) (count_of self.new)) }
        ensures counts { count_of self.old ≤ count_of self.new }

        // The writer has taken what the answer says, if it is known what it holds.
        ensures passes { WriteAppends (W.contents (writer_of self.old)) (W.contents (writer_of self.new)) result bytes.now }

        // Each failure is counted, up to the greatest number.
        ensures raised { OnErr result (count_of self.new ≡ min (count_of self.old + 1) (2 ^ 64 - 1)) }
    {
        match self.writer.write(bytes) {
            Ok(n) if n > 0 => Ok(n),
            failed => {
                self.last = failed.err();
                self.faults = self.faults.saturating_add(1);
                Err(Failed)
            }
        }
    }
}
