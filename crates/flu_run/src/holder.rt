//! A value that has a case.

ghost use Rattle.std.specs.Prelude.{◌≡◌};
ghost use Rattle.flu_fork.specs.declared.content.Content.{Content};

use flu_fork::Case;

/// Has a case, which the threads of a tree share.
///
/// A case borrows a job, a plan and streams, and so its type names a lifetime. The threads take what has it as a type parameter,
/// since what the closure of a thread promises is lost if it captures a type that names a lifetime.
pub trait HasCase {
    /// What contracts see of the case.
    ghost content: { Self → Content };

    /// The case. It takes no memory.
    fn case<'s>(&'s self) -> &'s Case<'s>
        ensures { result.now ≡ content self.now };
}

impl<'a> HasCase for Case<'a> {
    ghost content = { λ k. k };

    fn case<'s>(&'s self) -> &'s Case<'s> {
        self
    }
}
