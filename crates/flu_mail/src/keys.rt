//! Keys: up to which event an itag lets all pass.

ghost use Rattle.std.specs.Prelude.{◌≡◌};
ghost use Rattle.flu_mail.specs.Keys.{is_less, lesser, key_at};

use flu_model::{Event, Itag};

/// Up to which event an itag lets all pass, as far as its seen items say by their number alone.
#[derive(Clone, Copy)]
pub enum Key {
    /// Its next event was not seen, nor its end: it may hold up any event.
    Unseen,
    /// Its next event was seen: every event before that one passes.
    Next { time: u64, itag: Itag },
    /// All its items were seen, and all its events counted: every event passes.
    Over,
}

/// Whether a key is before another one.
pub fn is_less(a: Key, b: Key) -> bool
    ensures { result ≡ is_less a b }
{
    match b {
        Key::Unseen => false,
        Key::Next { time: u, itag: j } => match a {
            Key::Unseen => true,
            Key::Next { time: t, itag: i } => t < u || (t == u && i.0 < j.0),
            Key::Over => false,
        },
        Key::Over => match a {
            Key::Unseen | Key::Next { .. } => true,
            Key::Over => false,
        },
    }
}

/// The lesser of two keys; the first one if neither is before the other.
pub fn lesser(a: Key, b: Key) -> Key
    ensures { result ≡ lesser a b }
{
    if is_less(b, a) { b } else { a }
}

/// The key of an itag whose next event this is.
pub fn key_at(x: &Event) -> Key
    ensures { result ≡ key_at x.now }
{
    Key::Next {
        time: x.time,
        itag: x.itag,
    }
}
