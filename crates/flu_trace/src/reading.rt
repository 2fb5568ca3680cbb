//! Reading a line of a trace.

ghost use Rattle.std.specs.Prelude.{◌≡◌, ◌≢◌, ℕ, ◌<◌, ◌++◌, Some, IfSome, IfNone};
ghost use Rattle.std.specs.Fmt.{decimal};
ghost use Rattle.flu_net.specs.declared.steps.Step.{Step};
ghost use Rattle.flu_worker.specs.declared.hand.Side.{Side};
ghost use Rattle.flu_trace.specs.Lines.{IsLineOf, side_text};

use crate::numbers::number_in;
use flu_model::Itag;
use flu_net::Step;
use flu_worker::Side;

/// The step that a line of a trace says, without its line feed; none exactly if the line is not that of a step whose number is below
/// 1,000. It takes no memory.
pub fn read_step(line: &[u8]) -> Option<Step>
    ensures is { IfSome result (λ s. IsLineOf s line.now) }
    ensures none { IfNone result ((s : Step) → ¬ IsLineOf s line.now) }
    // What is written for a step is read as this step.
    ensures back { (s : Step) → IsLineOf s line.now → result ≡ Some s }
{
    if let Some(i) = number_behind(line, b"arrive ") {
        return Some(Step::Arrive(Itag(i)));
    }
    if let Some(w) = number_behind(line, b"handle ") {
        return Some(Step::Handle(w));
    }
    if let Some(w) = number_behind(line, b"give ") {
        return Some(Step::Give(w));
    }
    if let Some(w) = number_behind(line, b"hold ") {
        return Some(Step::Hold(w));
    }
    if let Some((w, side)) = edge_behind(line, b"ask ") {
        return Some(Step::Ask(w, side));
    }
    if let Some((w, side)) = edge_behind(line, b"take ") {
        return Some(Step::Take(w, side));
    }
    if let Some((w, side)) = edge_behind(line, b"lend ") {
        return Some(Step::Lend(w, side));
    }
    None
}

// The number after a word, if nothing else follows it.
fn number_behind(line: &[u8], word: &[u8]) -> Option<u32>
    ensures some { IfSome result (λ n. (n < 1000) × (line.now ≡ word.now ++ decimal n)) }
    ensures none { IfNone result ((n : ℕ) → n < 1000 → line.now ≢ word.now ++ decimal n) }
{
    let number = line.strip_prefix(word)?;
    number_in(number)
}

// The number and the side after a word, if nothing else follows it.
fn edge_behind(line: &[u8], word: &[u8]) -> Option<(u32, Side)>
    ensures some { IfSome result (λ e. (e.0 < 1000) × (line.now ≡ word.now ++ (decimal e.0 ++ side_text e.1))) }
    ensures none { IfNone result ((n : ℕ) (s : Side) → n < 1000 → line.now ≢ word.now ++ (decimal n ++ side_text s)) }
{
    let edge = line.strip_prefix(word)?;
    if let Some(number) = edge.strip_suffix(b" left") {
        return Some((number_in(number)?, Side::Left));
    }
    let number = edge.strip_suffix(b" right")?;
    Some((number_in(number)?, Side::Right))
}
