//! What is known of files when some of their names are closed.

ghost use Rattle.std.specs.Prelude.{ℕ, Bool, false, List, Option, None};
ghost use Rattle.flu_outside.specs.Outside.{Contents};

use std::marker::Brand;

/// What is known of files when some of their names are closed, for proofs alone.
///
/// A function that knows only `Files` says nothing of which files are behind `Selected` afterwards, and which names are closed. These do:
/// they are fixed with the type. A caller picks them where it passes `Brand` for a parameter with this bound.
pub trait Origin {
    /// Which reference to the files it is.
    ghost reference: { ℕ };

    /// Which names are closed.
    ghost is_closed: { List ℕ → Bool };

    /// What the names have left, if it is known.
    ghost left: { Option Contents };

    /// How often a take of each name has failed.
    ghost faults: { List ℕ → ℕ };
}

impl Origin for Brand {
    ghost reference = { 0 };

    ghost is_closed = { λ _. false };

    ghost left = { None };

    ghost faults = { λ _. 0 };
}
