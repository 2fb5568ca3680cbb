//! Writing all bytes to a sink.

ghost use Rattle.flu_outside.specs.Writing.{Writes};

use crate::sink::{Failed, Sink};

/// Writes all of some bytes to a sink, in as many pieces as the sink takes them in.
///
/// If the sink fails, it has taken a proper prefix of the bytes. It takes no memory.
pub fn write_all<K: Sink>(out: &mut K, bytes: &[u8]) -> Result<(), Failed>
    ensures { Writes bytes.now (K.taken out.old) (K.taken out.new) (K.faults out.old) (K.faults out.new) result }
{
    let mut rest = bytes;
    while !rest.is_empty() {
        let n = out.write(rest)?;
        rest = &rest[n..];
    }
    Ok(())
}
