//! What a call answers.

ghost use Rattle.std.specs.Prelude.{◌≡◌};
ghost use Rattle.flu_calls.specs.Answer.{status_of_answer};

use flu_lines::{Done, PartRefusal, Refusal, Status, status_after, status_of_part};

/// What a call answers: what was done, or why nothing was.
#[derive(Drop)]
pub enum Answer<'a> {
    /// Of words that begin with no part command.
    Command(Result<Done, Refusal>),
    /// Of words that begin with `partial` or `combine`.
    Part(Result<(), PartRefusal<'a>>),
}

impl<'a> Answer<'a> {
    /// The status of the call.
    pub fn status(&self) -> Status
        ensures { result ≡ status_of_answer self.now }
    {
        match self {
            Answer::Command(ended) => status_after(ended),
            Answer::Part(Ok(())) => Status::Done,
            Answer::Part(Err(refusal)) => status_of_part(refusal),
        }
    }
}
