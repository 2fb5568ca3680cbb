//! Which itags an event waits for.

ghost use Rattle.std.specs.Prelude.{◌≡◌};
ghost use Rattle.flu_mail.specs.LoopParts.{asks, least_passes};

use crate::keys::{Key, is_less, key_at};
use flu_model::{Event, Itag};

/// What an event waits for: that the node takes it, or that the node gives up its state for it.
#[derive(Clone, Copy)]
pub enum Purpose {
    Take,
    Serve,
}

/// Whether an event of itag i asks itag j, which the node owns or an ancestor: an event that is taken is the next one of its own
/// itag, which so is not asked.
pub fn asks(purpose: Purpose, i: Itag, j: Itag) -> bool
    ensures { result ≡ asks purpose i j }
{
    match purpose {
        Purpose::Take => j.0 != i.0,
        Purpose::Serve => true,
    }
}

/// Whether all itags of which this is the least key let x pass: its own itag has the key of x itself, if x is to be taken, and
/// the others have later ones.
pub fn least_passes(purpose: Purpose, least: Option<Key>, x: &Event) -> bool
    ensures { result ≡ least_passes purpose least x.now }
{
    match least {
        Some(key) => match purpose {
            Purpose::Take => !is_less(key, key_at(x)),
            Purpose::Serve => is_less(key_at(x), key),
        },
        None => false,
    }
}
