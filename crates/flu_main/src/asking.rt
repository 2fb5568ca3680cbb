//! What the words before the command and the environment ask for: hints, and how far the reading has come.

use std::env::Env;

/// The word before a command that asks for hints wherever standard error goes.
const WITH_HINTS: &str = "--hints";

/// The word before a command that asks for none.
const WITHOUT_HINTS: &str = "--no-hints";

/// The word before a command that asks for a closing line on what was read.
const WITH_PROGRESS: &str = "--progress";

/// The word before a command that asks for no line on what is read.
const WITHOUT_PROGRESS: &str = "--no-progress";

/// The variable of the environment that asks for hints if it is `1`.
const VARIABLE: &str = "FLUMINA_HINTS";

/// A call's words, and what it asks for.
#[derive(Clone, Copy)]
pub(crate) struct Asked<'w> {
    /// Whether a word asks for hints, or for none; nothing if no word does.
    pub hints: Option<bool>,
    /// The same of lines on what is read.
    pub progress: Option<bool>,
    /// The words of the command.
    pub command: &'w [String],
}

/// Takes the words on hints and on progress, in any order and each at most once, off the front of a call's words.
pub(crate) fn take_asking_words(words: &[String]) -> Asked<'_> {
    let asked = Asked {
        hints: None,
        progress: None,
        command: words,
    };
    without_first(without_first(asked))
}

// The same without the first word, if that asks for something of which nothing is known yet.
fn without_first(asked: Asked<'_>) -> Asked<'_> {
    let [first, command @ ..] = asked.command else {
        return asked;
    };
    let hints = match first.as_str() {
        WITH_HINTS => Some(true),
        WITHOUT_HINTS => Some(false),
        _ => None,
    };
    let progress = match first.as_str() {
        WITH_PROGRESS => Some(true),
        WITHOUT_PROGRESS => Some(false),
        _ => None,
    };
    if hints.is_some() && asked.hints.is_none() {
        return Asked {
            hints,
            progress: asked.progress,
            command,
        };
    }
    if progress.is_some() && asked.progress.is_none() {
        return Asked {
            hints: asked.hints,
            progress,
            command,
        };
    }
    asked
}

/// Whether the environment asks for hints.
pub(crate) fn environment_asks<R: Env>(rt: &R) -> bool {
    let mut value = [0u8; 2];
    match rt.var(VARIABLE, &mut value) {
        Ok(count) => count == 1 && value[0] == b'1',
        Err(_) => false,
    }
}
