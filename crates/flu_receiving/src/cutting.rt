//! Bytes that are cut behind a line.

ghost use Rattle.std.specs.Prelude.{◌≡◌, ◌<◌, [], ◌∷◌, ◌++◌, length, IfSome, IfNone};
ghost use Rattle.flu_partial.specs.Partial.{line_of};
ghost use Rattle.flu_receiving.specs.Faults.{parts_of};

use memchr::memchr;

// A line, and what is behind its line feed.
#[derive(Clone, Copy)]
pub(crate) struct Cut<'b> {
    pub(crate) line: &'b [u8],
    pub(crate) rest: &'b [u8],
}

// Cuts bytes behind their first line; none if they have no line feed.
pub(crate) fn cut_line(bytes: &[u8]) -> Option<Cut<'_>>
    ensures bytes { IfSome result (λ c. bytes.now ≡ line_of c.line.now ++ c.rest.now) }
    ensures line { IfSome result (λ c. parts_of bytes.now ≡ c.line.now ∷ parts_of c.rest.now) }
    ensures fewer { IfSome result (λ c. length c.rest.now < length bytes.now) }
    ensures none { IfNone result (parts_of bytes.now ≡ bytes.now ∷ []) }
{
    let end = memchr(b'\n', bytes)?;
    Some(Cut {
        line: &bytes[..end],
        rest: &bytes[end + 1..],
    })
}
