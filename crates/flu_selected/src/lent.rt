//! Files that are lent.

ghost use Rattle.std.specs.Prelude.{◌≡◌};

/// Files that are lent, which are passed on as they are: a reference itself is lent again where it is passed.
#[derive(Drop)]
pub struct Lent<'f, F> {
    pub files: &'f mut F,
}

impl<'f, F> Lent<'f, F> {
    /// These files.
    pub fn new(files: &'f mut F) -> Lent<'f, F>
        ensures now { result.files.now ≡ files.old }
        ensures same_reference { result.files.ghost_name ≡ files.entry.ghost_name }
    {
        Lent { files }
    }
}
