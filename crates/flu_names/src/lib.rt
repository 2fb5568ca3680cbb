//! Names and texts as the languages of jobs, plans and rows write them (`docs/LANGUAGE.md`): which bytes they may have, and which
//! words are reserved.
#![tactic(auto)]

ghost use Rattle.std.specs.Prelude.{◌≡◌};
ghost use Rattle.std.specs.List.{list_all, list_any};
ghost use Rattle.std.specs.Str.{bytes_eq};
ghost use Rattle.flu_names.specs.Names.{is_name_start, is_name_byte, is_text_byte, begins_as_name, is_reserved, is_name, reserved_spelling, reserved_words};
ghost use Rattle.flu_names.specs.Names.{reserved_of};
ghost use Rattle.flu_names.specs.LoopReserved.{may_be_reserved, is_pair, is_triple, begins_longer};

mod reserved;

pub use reserved::Reserved;

/// How many bytes a name may have.
pub const LONGEST_NAME: usize = 32;

/// How many bytes may be between the quotes of a text.
pub const LONGEST_TEXT: usize = 256;

/// Whether a text is a name: a letter or an underscore, then letters, digits and underscores, at most 32 bytes in all, and no
/// reserved word.
pub fn is_name(text: &str) -> bool
    ensures { result ≡ is_name text.now }
{
    are_name(text.as_bytes())
}

/// Whether some bytes are a name.
pub fn are_name(bytes: &[u8]) -> bool
    ensures { result ≡ is_name bytes.now }
{
    begins_as_name(bytes)
        && are_name_bytes(bytes)
        && bytes.len() <= LONGEST_NAME
        && !is_reserved(bytes)
}

fn begins_as_name(bytes: &[u8]) -> bool
    ensures { result ≡ begins_as_name bytes.now }
{
    match bytes {
        [first, ..] => is_name_start(*first),
        [] => false,
    }
}

fn are_name_bytes(bytes: &[u8]) -> bool
    ensures { result ≡ list_all is_name_byte bytes.now }
{
    bytes.iter().all(|byte| is_name_byte(*byte))
}

/// Whether a name may begin with a byte: a letter or an underscore.
pub fn is_name_start(byte: u8) -> bool
    ensures { result ≡ is_name_start byte }
{
    byte.is_ascii_alphabetic() || byte == b'_'
}

/// Whether a byte may occur in a name: a letter, a digit or an underscore.
pub fn is_name_byte(byte: u8) -> bool
    ensures { result ≡ is_name_byte byte }
{
    byte.is_ascii_alphanumeric() || byte == b'_'
}

/// Whether a byte may occur in a text between quotes: no quote, and none of a control character.
pub fn is_text_byte(byte: u8) -> bool
    ensures { result ≡ is_text_byte byte }
{
    byte >= b' ' && byte != b'"' && byte != 0x7F
}

/// The reserved word that some bytes spell.
#[tactic(auto, unfolding(crate::specs::Names::reserved_of))]
pub fn reserved_of(bytes: &[u8]) -> Option<Reserved>
    ensures { result ≡ reserved_of bytes.now }
{
    reserved::WORDS
        .iter()
        .copied()
        .find(|word| word.spelling() == bytes)
}

// The first four letters settle it for nearly all names, so that they are not compared with each word.
fn is_reserved(bytes: &[u8]) -> bool
    ensures { result ≡ is_reserved bytes.now }
{
    may_be_reserved(bytes) && reserved::WORDS.iter().any(|word| word.spelling() == bytes)
}

// Whether some bytes are a reserved word of two or three letters, or a longer one begins with their first four.
fn may_be_reserved(bytes: &[u8]) -> bool
    ensures { result ≡ may_be_reserved bytes.now }
{
    match bytes {
        [first, second] => is_pair(*first, *second),
        [first, second, third] => is_triple(*first, *second, *third),
        [first, second, third, fourth, ..] => begins_longer(*first, *second, *third, *fourth),
        _ => false,
    }
}

fn is_pair(first: u8, second: u8) -> bool
    ensures { result ≡ is_pair first second }
{
    first == b'o' && (second == b'n' || second == b'r')
}

fn is_triple(first: u8, second: u8, third: u8) -> bool
    ensures { result ≡ is_triple first second third }
{
    match first {
        b'a' => (second == b'l' && third == b'l')
            || (second == b'd' && third == b'd')
            || (second == b'n' && third == b'd'),
        b'e' => second == b'n' && third == b'd',
        b'h' => second == b'a' && third == b's',
        b'i' => second == b'n' && third == b't',
        b'k' => second == b'e' && third == b'y',
        b'm' => second == b'a' && third == b'x',
        b'n' => second == b'o' && third == b't',
        b's' => (second == b'u' && third == b'm') || (second == b'e' && third == b't'),
        b't' => second == b'a' && third == b'g',
        _ => false,
    }
}

fn begins_longer(first: u8, second: u8, third: u8, fourth: u8) -> bool
    ensures { result ≡ begins_longer first second third fourth }
{
    match first {
        b'b' => second == b'e' && third == b'a' && fourth == b't',
        b'c' => (second == b'e' && third == b'l' && fourth == b'l')
            || (second == b'l' && third == b'e' && fourth == b'a'),
        b'd' => second == b'e' && third == b'p' && fourth == b'e',
        b'e' => second == b'm' && third == b'i' && fourth == b't',
        b'f' => second == b'l' && third == b'u' && fourth == b's',
        b'k' => second == b'e' && third == b'y' && fourth == b'e',
        b'l' => second == b'a' && third == b's' && fourth == b't',
        b'n' => (second == b'o' && third == b'n' && fourth == b'e')
            || (second == b'o' && third == b'd' && fourth == b'e'),
        b'r' => (second == b'a' && third == b't' && fourth == b'e')
            || (second == b'a' && third == b'i' && fourth == b's'),
        b's' => (second == b'o' && third == b'u' && fourth == b'r')
            || (second == b'a' && third == b'm' && fourth == b'e')
            || (second == b'l' && third == b'a' && fourth == b'c'),
        b't' => second == b'i' && third == b'm' && fourth == b'e',
        b'v' => (second == b'a' && third == b'l' && fourth == b'u')
            || (second == b'e' && third == b'r' && fourth == b's'),
        b'w' => second == b'h' && third == b'e' && fourth == b'n',
        _ => false,
    }
}
