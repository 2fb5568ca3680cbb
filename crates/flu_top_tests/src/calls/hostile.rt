//! Bytes that no table of texts has: a source that is cut anywhere, bytes that are not a text, and texts that are too long.

use super::jobs::{A, COUNTED, REPORT};
use super::scripts::Wanted;
use super::{assert_left, call, files_of};
use flu_seq::OpenGate;
use std::alloc::Global;
use std::process::Abort;
use std::sync::Wait;
use std::test::Fail;
use std::thread::Threads;

/// Makes a call over the files of the count, with these bytes in place of a file's.
fn check_bytes<R: Abort + Threads + Wait + Sync>(
    rt: &R,
    alloc: Global,
    words: &str,
    name: &str,
    bytes: &[u8],
    wanted: Wanted,
) -> Result<(), Fail> {
    let mut files = files_of(alloc, COUNTED)?;
    files.add(name, bytes.to_vec(alloc)?)?;
    let left = call(rt, alloc, words, &mut files, &OpenGate)?;
    assert_left(rt, &left, wanted.status, wanted.out.as_bytes(), wanted.err);
    Ok(())
}

const UNCLOSED_1: &str = "flumina: source a row 1: unclosed";

const UNCLOSED_2: &str = "flumina: source a row 2: unclosed";

const UNCLOSED_3: &str = "flumina: source a row 3: unclosed";

const BAD_1: &str = "flumina: source a row 1: bad row";

const BAD_2: &str = "flumina: source a row 2: bad row";

const BAD_3: &str = "flumina: source a row 3: bad row";

const UNKNOWN_1: &str = "flumina: source a row 1: unknown tag";

const UNKNOWN_2: &str = "flumina: source a row 2: unknown tag";

/// What is said about the first source if it is cut to this many bytes: nothing if its last line says `end`.
const CUTS: [&str; 21] = [
    UNCLOSED_1, BAD_1, BAD_1, UNKNOWN_1, UNKNOWN_1, BAD_1, BAD_1, UNCLOSED_2, UNCLOSED_2, BAD_2,
    BAD_2, UNKNOWN_2, UNKNOWN_2, BAD_2, BAD_2, UNCLOSED_3, UNCLOSED_3, BAD_3, BAD_3, "", "",
];

/// Calls over the first source's first bytes alone.
fn check_cut<R: Abort + Threads + Wait + Sync>(
    rt: &R,
    alloc: Global,
    count: usize,
    said: &str,
) -> Result<(), Fail> {
    let front = A.as_bytes().get(..count).unwrap_or(b"");
    let is_whole = said.is_empty();
    let wanted = Wanted {
        status: if is_whole { 0 } else { 6 },
        out: if is_whole { REPORT } else { "" },
        err: said,
    };
    check_bytes(rt, alloc, "fold J", "a.csv", front, wanted)?;
    check_bytes(rt, alloc, "run J P", "a.csv", front, wanted)
}

fn cuts() -> &'static [&'static str] {
    &CUTS
}

#[test]
fn a_source_is_cut(rt: HostRuntime) -> Result<(), Fail> {
    for (count, said) in cuts().iter().enumerate() {
        check_cut(&rt, rt.alloc(), count, said)?;
    }
    Ok(())
}

/// This many equal bytes under a name, with what is said about them.
#[derive(Clone, Copy)]
struct Same {
    name: &'static str,
    byte: u8,
    count: usize,
    status: u8,
    err: &'static str,
}

const SAME: &[Same] = &[
    Same {
        name: "J",
        byte: 0xFF,
        count: 1,
        status: 3,
        err: "flumina: job: bad utf8 at 0",
    },
    Same {
        name: "J",
        byte: b' ',
        count: 1_048_577,
        status: 3,
        err: "flumina: job: over limit bytes 1048577",
    },
    Same {
        name: "J",
        byte: b' ',
        count: 1_048_576,
        status: 0,
        err: "",
    },
    Same {
        name: "a.csv",
        byte: b'1',
        count: 4097,
        status: 6,
        err: BAD_1,
    },
];

fn same_bytes() -> &'static [Same] {
    SAME
}

#[test]
fn many_equal_bytes(rt: HostRuntime) -> Result<(), Fail> {
    for same in same_bytes() {
        let wanted = Wanted {
            status: same.status,
            out: "",
            err: same.err,
        };
        let bytes = vec![in rt.alloc(); same.byte; same.count]?;
        check_bytes(&rt, rt.alloc(), "fold J", same.name, &bytes, wanted)?;
    }
    Ok(())
}
