//! What each step on the table says.

ghost use Rattle.flu_arrive.specs.Notes.{watching};
ghost use Rattle.flu_arrive.specs.Steps.{fed, looked};

use crate::note::Note;
use atomic_table::{Play, Split};

// The feeder stores a word.
pub(crate) struct Feed;

impl Play<(), Note> for Feed {
    ghost then = { fed };
}

// A watch loads a word.
pub(crate) struct Look;

impl Play<(), Note> for Look {
    ghost then = { looked };
}

// An end makes a watch beside it.
pub(crate) struct Beside;

impl Split<Note> for Beside {
    ghost left = { λ v. v };

    ghost right = { λ v. watching v.limits };
}
