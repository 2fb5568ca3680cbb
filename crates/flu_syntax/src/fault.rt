//! Why tokens are no job.

use thiserror::Error;

/// Why the tokens of a text are no job.
#[derive(Debug, Drop, Error)]
pub enum SyntaxFault {
    /// The token that begins at this byte, counted from 0, cannot follow those before it; or they are no job yet and this is
    /// the text's length.
    #[error("a token cannot follow")]
    Unexpected { at: usize },
    /// A token opens the 65th parenthesis or unary operator at once.
    #[error("too many are open")]
    TooDeep,
    /// Out of memory.
    #[error("out of memory")]
    NoMemory,
}
