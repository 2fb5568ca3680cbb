//! Bytes that are written piece by piece, so that a line with values takes no memory.

ghost use Rattle.std.specs.Prelude.{◌≡◌, ◌≤◌, ◌++◌, map, OnOk, OnErr};
ghost use Rattle.std.specs.Fmt.{decimal};
ghost use Rattle.std.specs.List.{concat};
ghost use Rattle.flu_outside.specs.Writing.{Writes};

use flu_outside::{Failed, Sink};
use flu_report::write_all;
use itoa::Buffer;

/// Writes all of some pieces, one after another.
///
/// If the sink fails, it has taken a proper prefix of their bytes.
pub fn write_pieces<K: Sink>(out: &mut K, pieces: &[&[u8]]) -> Result<(), Failed>
    ensures { Writes (concat (map (λ p. p.now) pieces.now)) (K.taken out.old) (K.taken out.new) (K.faults out.old) (K.faults out.new) result }
{
    let [first, others @ ..] = pieces else {
        return Ok(());
    };
    write_all(out, first)?;
    write_pieces(out, others)
}

/// Writes some words, each followed by the digits of a number, one after another.
///
/// If the sink fails, it has taken a proper prefix of their bytes.
pub fn write_counts<K: Sink>(out: &mut K, counts: &[(&str, u128)]) -> Result<(), Failed>
    ensures { Writes (concat (map (λ c. c.0.now ++ decimal c.1) counts.now)) (K.taken out.old) (K.taken out.new) (K.faults out.old) (K.faults out.new) result }
{
    let [first, others @ ..] = counts else {
        return Ok(());
    };
    let mut buffer = Buffer::new();
    let word = first.0.as_bytes();
    let digits = buffer.format(first.1).as_bytes();
    write_pieces(out, &[word, digits])?;
    write_counts(out, others)
}

/// The digits of a number, which are in a buffer.
pub fn digits_of(buffer: &mut Buffer, n: u64) -> &[u8]
    ensures { result.now ≡ decimal n }
{
    buffer.format(n).as_bytes()
}
