//! The grammar of jobs.

use crate::tables::case_of;
use flu_syntax::{SyntaxFault, read_syntax};
use flu_text::tokens;
use std::alloc::{AllocError, Global};
use std::test::Fail;

/// What a text is read as: how many declarations it has, or why it is not a job.
fn said(alloc: Global, text: &str) -> Result<String, AllocError> {
    let Ok(found) = tokens(alloc, text) else {
        return String::from_str(alloc, "no tokens");
    };
    match read_syntax(alloc, found.as_slice(), text.len()) {
        Ok(job) => {
            let count = job.declarations.items().len();
            format!(in alloc; "found {count}")
        }
        Err(SyntaxFault::Unexpected { at }) => format!(in alloc; "unexpected at {at}"),
        Err(SyntaxFault::TooDeep) => String::from_str(alloc, "too deep"),
        Err(SyntaxFault::NoMemory) => Err(AllocError),
    }
}

/// Texts, with what they are read as.
const TEXTS: &str = " => found 0
cell count sum => found 1
cell a keyed max cell b last => found 2
tag t int tag u keyed none => found 2
depends t u depends t u all depends u u same => found 3
source s \"f\" rate 5: t, u[3], v[1..2] => found 1
source s \"f\": t cell c sum => found 2
source s \"f\" slack 5: t => found 1
source s \"f\" rate 1 slack 60001: t => found 1
version 2 => found 0
version 3 cell a sum tag t int => found 2
version 3 names l: \"a\", \"b\" tag t item by l int => found 2
cell a keyed by l sum names a: \"x\" depends t u names b: \"y\" on t: add x y names c: \"z\" on t: clear x names d: \"z\" => found 8
names names: \"a\" names by: \"b\" => found 2
names l: \"a\" \"b\" => unexpected at 13
names l: a => unexpected at 9
names l: \"a\", => unexpected at 13
names: \"a\" => unexpected at 5
cell a keyed by sum => unexpected at 16
tag t item by int => unexpected at 14
tag t item by l by m int => unexpected at 16
by l => unexpected at 0
version 3 iso seconds => found 0
version 3 ties 2 iso seconds => found 0
version 2 ties 0 tag ties int => found 1
version 1 iso days tag t int => found 1
version 3 tag iso none tag seconds int => found 2
on t: clear x; clear y[key]; clear z[0] => found 1
on t: add x 1; raise y 2 when 3; set z 4 => found 1
on t: emit \"a\" when 1; flush f \"b\" on u: clear x => found 2
x => unexpected at 0
cell count => unexpected at 10
cell count sum cell => unexpected at 19
cell count keyed keyed sum => unexpected at 17
tag t sum => unexpected at 6
depends t u same all => unexpected at 17
source s \"f\" rate : t => unexpected at 18
source s \"f\": t[1..] => unexpected at 19
source s \"f\" slack 2 rate 1: t => unexpected at 21
source s \"f\" rate 1 slack 2 slack 3: t => unexpected at 28
source s \"f\" slack: t => unexpected at 18
version => unexpected at 7
version two => unexpected at 8
version 2 version 2 => unexpected at 10
version 3 iso => unexpected at 13
version 3 iso tag t int => unexpected at 14
version 3 seconds => unexpected at 10
version 3 ties iso seconds => unexpected at 15
version 3 iso seconds ties 2 => unexpected at 22
version 3 iso seconds iso seconds => unexpected at 22
iso seconds => unexpected at 0
cell a sum version 2 => unexpected at 11
source s \"f\": t[1],  => unexpected at 20
on t: set x a < b < c => unexpected at 18
on t: add x 1 when => unexpected at 18
on t: clear x; => unexpected at 14
on t: clear x clear y => unexpected at 14
on t: add x[key => unexpected at 15
on t: add x[value] => unexpected at 12
on t: add x (1 => unexpected at 14
on t: add x 1 + not 2 => unexpected at 16
on t: add x 1) => unexpected at 13
on t: add x 1 when 2 when 3 => unexpected at 21";

#[test]
fn declarations_are_found(rt: HostRuntime) -> Result<(), Fail> {
    for line in TEXTS.split('\n') {
        let (text, wanted) = case_of(line);
        let said = said(rt.alloc(), text)?;
        assert_eq!(rt; said.as_str(), wanted, "{text}");
    }
    Ok(())
}

/// An action whose amount begins with a text this many times.
fn nested(alloc: Global, open: &str, count: u8, close: &str) -> Result<String, AllocError> {
    let mut text = String::from_str(alloc, "on t: add x ")?;
    for _ in 0..count {
        text.push_str(open)?;
    }
    text.push_str("1")?;
    for _ in 0..count {
        text.push_str(close)?;
    }
    Ok(text)
}

/// What an action is read as whose amount begins with a text this many times.
fn depth(alloc: Global, open: &str, count: u8, close: &str) -> Result<String, AllocError> {
    let text = nested(alloc, open, count, close)?;
    said(alloc, text.as_str())
}

#[test]
fn nesting(rt: HostRuntime) -> Result<(), Fail> {
    let cases = [
        ("(", 64, ")", "found 1"),
        ("(", 65, ")", "too deep"),
        ("-", 64, "", "found 1"),
        ("-", 65, "", "too deep"),
        ("not ", 65, "", "too deep"),
        ("1 + (2) - ", 100, "", "found 1"),
    ];
    for (open, count, close, wanted) in cases {
        let said = depth(rt.alloc(), open, count, close)?;
        assert_eq!(rt; said.as_str(), wanted, "{open}");
    }
    Ok(())
}
