//! What written names, texts and numbers stand for.

ghost use Rattle.std.specs.Prelude.{◌≡◌, ◌+◌, ◌<◌, ◌≤◌, ◌^◌, length};
ghost use Rattle.flu_lemmas.specs.Spans.{is_boundary, spelled};
ghost use Rattle.flu_layout.specs.Spelling.{name_of, inside, written_value};

use flu_text::WrittenSpan;

fn is_boundary(text: &str, place: usize) -> bool
    ensures { result ≡ is_boundary text.now place }
{
    let bytes = text.as_bytes();
    place == bytes.len() || (place < bytes.len() && (bytes[place] < 128 || bytes[place] >= 192))
}

/// The bytes from one place to before another, none where these are no places of the text.
pub fn spelled(text: &str, from: usize, to: usize) -> &str
    ensures value { result.now ≡ spelled text.now from to }
    ensures within { 0 < length result.now → from + length result.now ≤ length text.now }
{
    if from <= to && is_boundary(text, from) && is_boundary(text, to) {
        &text[from..to]
    } else {
        ""
    }
}

/// A written name.
pub fn name_of(text: &str, span: WrittenSpan) -> &str
    ensures { result.now ≡ name_of text.now span }
{
    spelled(text, span.from, span.to)
}

/// What is between the quotes of a written text.
pub fn inside(text: &str, span: WrittenSpan) -> &str
    ensures value { result.now ≡ inside text.now span }
    ensures within { 0 < length result.now → span.from + 1 + length result.now ≤ length text.now }
{
    if span.from < text.len() {
        spelled(text, span.from + 1, span.to.saturating_sub(1))
    } else {
        ""
    }
}

/// The value of a written number, which is never below 0.
pub fn written_value(number: i64) -> u64
    ensures value { result ≡ written_value number }
    ensures small { result < 2 ^ 63 }
{
    u64::try_from(number).unwrap_or(0)
}
