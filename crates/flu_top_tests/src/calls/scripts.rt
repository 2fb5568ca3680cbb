//! Scripts: texts of many calls, with what each of them leaves.
//!
//! A script is a list of blocks. Each begins with `@ ` and a head, which is the rest of the line, and has the lines below it.
//!
//! - `@ NAME` gives the file of that name these lines; `@ NAME|TEXT` this text without a line feed at its end. A call is made over the
//!   files of the count of two sources, and these in place of them or beside them.
//! - `@ $ WORDS` is a call, and `@ $ WORDS -> LINE` one that says a line of its own. An `S` at the end of the words is each of some seeds.
//! - `@ = STATUS LINE` is the status of all calls since the last such block, and the line that they say on err, or nothing if there is
//!   none; the lines below it are what they write to out.
//!
//! The first file after an `@ =` starts again from the files of the count alone.

use super::jobs::COUNTED;
use super::{add_all, assert_left, call, files_of};
use flu_seq::OpenGate;
use std::alloc::{AllocError, Global};
use std::process::Abort;
use std::sync::Wait;
use std::test::Fail;
use std::thread::Threads;

/// The files and the calls of a script, as far as it is read.
#[derive(Drop)]
struct Scene<'a> {
    files: Vec<(&'a str, &'a str)>,
    calls: Vec<&'a str>,
    is_played: bool,
}

/// What calls answer and leave.
#[derive(Clone, Copy)]
pub struct Wanted<'a> {
    pub status: u8,
    pub out: &'a str,
    pub err: &'a str,
}

fn add_file<'a>(scene: &mut Scene<'a>, head: &'a str, lines: &'a str) -> Result<(), AllocError> {
    if scene.is_played {
        scene.files.clear();
        scene.is_played = false;
    }
    let file = head.split_once('|').unwrap_or((head, lines));
    scene.files.push(file)?;
    Ok(())
}

/// Makes a call over the files of the count and these.
pub fn check_call<R: Abort + Threads + Wait + Sync>(
    rt: &R,
    alloc: Global,
    files: &[(&str, &str)],
    words: &str,
    wanted: Wanted,
) -> Result<(), Fail> {
    let mut given = files_of(alloc, COUNTED)?;
    add_all(alloc, &mut given, files)?;
    let left = call(rt, alloc, words, &mut given, &OpenGate)?;
    assert_left(rt, &left, wanted.status, wanted.out.as_bytes(), wanted.err);
    Ok(())
}

/// Makes the calls of some words, with each seed if they end with an `S`.
fn check_words<R: Abort + Threads + Wait + Sync>(
    rt: &R,
    alloc: Global,
    files: &[(&str, &str)],
    words: &str,
    wanted: Wanted,
) -> Result<(), Fail> {
    let Some(front) = words.strip_suffix('S') else {
        return check_call(rt, alloc, files, words, wanted);
    };
    for seed in (0..SEEDS).chain(GREATEST..=GREATEST) {
        let words = format!(in alloc; "{front}{seed}")?;
        check_call(rt, alloc, files, &words, wanted)?;
    }
    Ok(())
}

/// How many seeds are tried, from 0, and the greatest one.
const SEEDS: u32 = 7;

const GREATEST: u32 = 2_147_483_647;

/// Makes the calls of a scene.
fn check_scene<R: Abort + Threads + Wait + Sync>(
    rt: &R,
    alloc: Global,
    scene: &Scene,
    head: &str,
    out: &str,
) -> Result<(), Fail> {
    let (status, said) = head.split_once(' ').unwrap_or((head, ""));
    let status = status.parse::<u8>()?;
    assert!(rt; !scene.calls.is_empty(), "{head}");
    for call in scene.calls.iter() {
        let (words, err) = call.split_once(" -> ").unwrap_or((call, said));
        let wanted = Wanted { status, out, err };
        check_words(rt, alloc, scene.files.as_slice(), words, wanted)?;
    }
    Ok(())
}

/// Plays a script.
pub fn play<R: Abort + Threads + Wait + Sync>(
    rt: &R,
    alloc: Global,
    script: &str,
) -> Result<(), Fail> {
    let mut scene = Scene {
        files: Vec::new(alloc),
        calls: Vec::new(alloc),
        is_played: false,
    };
    for block in script.split("@ ").skip(1) {
        let (head, lines) = block.split_once('\n').unwrap_or((block, ""));
        if let Some(words) = head.strip_prefix("$ ") {
            scene.calls.push(words)?;
        } else if let Some(end) = head.strip_prefix("= ") {
            check_scene(rt, alloc, &scene, end, lines)?;
            scene.calls.clear();
            scene.is_played = true;
        } else {
            add_file(&mut scene, head, lines)?;
        }
    }
    assert!(rt;
        scene.is_played && scene.calls.is_empty(),
        "the script ends with calls"
    );
    Ok(())
}
