//! What a command produces that nothing refuses.

ghost use Rattle.std.specs.Prelude.{◌≡◌, None};

use flu_lines::{Counts, Done, JobRead, ReadIn, Said};
use flu_model::Text;
use std::marker::Model;

/// What a command produces that nothing refuses.
#[derive(Drop)]
pub struct Product {
    /// The text for out.
    pub text: Text,
    /// What is answered once the text is written.
    pub says: Done,
}

/// The text of a command that says nothing, with what it read. Contracts see the text.
#[derive(Drop)]
pub struct Printed {
    pub text: Text,
    pub read: ReadIn,
}

impl Model for Printed {
    ghost use Rattle.std.specs.Prelude.{List, ℕ};

    ghost Value = { List ℕ };

    ghost view = { λ p. p.text };
}

impl Printed {
    /// The product that it is.
    pub fn product(self) -> Product
        ensures { result ≡ record { text = self; says = None } }
    {
        Product {
            text: self.text,
            says: Done::with(None, Some(self.read)),
        }
    }
}

/// What the rounds of a run come to. Contracts see what is said about them.
#[derive(Drop)]
pub struct Ran {
    pub said: Option<Said>,
    pub counts: Option<Counts>,
}

impl Model for Ran {
    ghost use Rattle.std.specs.Prelude.{Option};
    ghost use Rattle.flu_lines.specs.declared.products.Said.{Said};

    ghost Value = { Option Said };

    ghost view = { λ r. r.said };
}

impl Ran {
    /// What a run of this job answers.
    pub fn done(self, job: JobRead) -> Done
        ensures { result ≡ self }
    {
        Done::with(
            self.said,
            Some(ReadIn {
                job,
                counts: self.counts,
            }),
        )
    }
}
