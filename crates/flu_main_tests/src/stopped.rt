//! Runs over real files that are stopped after a round, and resume from their checkpoints.

use crate::calls::run;
use flu_lines::Status;
use std::alloc::{AllocError, Global};
use std::process::Abort;
use std::sync::Wait;
use std::test::Fail;
use std::thread::Threads;
use std::{env, fs, process, rt, str};

/// Views of ten pages, emitted at each tick, with the greatest value so far; after these lines come those of the sources.
const VIEWS: &str = "cell views keyed sum\n\
    cell top max\n\
    tag view keyed int\n\
    tag tick none\n\
    depends view tick\n\
    depends tick tick\n\
    on view: add views[key] value; raise top value\n\
    on tick: flush views \"page {key}: {cell}\"; emit \"top {top}\"\n";

/// How many views there are, at the times from 1 on: three rounds take 4,096 each, and the last one the others.
const ROWS: u64 = 13_000;

/// The borders of the first three rounds. There is a tick at each, and at each multiple of 512.
const BORDERS: [u64; 3] = [4_096, 8_192, 12_288];

/// How many bytes of the next line a run writes before it is stopped.
const CUT: usize = 5;

/// More bytes than the report has.
const ROOM: usize = 20_000;

/// The words of a call. Those that begin with `@` are names in a folder.
fn words_in(alloc: Global, folder: &str, words: &str) -> Result<Vec<String>, AllocError> {
    let mut owned = Vec::new(alloc);
    for word in words.split(' ') {
        let own = match word.strip_prefix('@') {
            Some(name) => format!(in alloc; "{folder}/{name}")?,
            None => String::from_str(alloc, word)?,
        };
        owned.push(own)?;
    }
    Ok(owned)
}

/// What a call answers, and what it writes, if there is room for this many bytes.
fn call<R: rt::Files + AllocGlobal + Threads + Wait + Sync>(
    rt: &R,
    folder: &str,
    words: &str,
    room: usize,
) -> Result<(u8, Vec<u8>), Fail> {
    let words = words_in(rt.alloc(), folder, words)?;
    let mut out = vec![in rt.alloc(); 0u8; room]?;
    let mut err = Vec::new(rt.alloc());
    let mut free = &mut out[..];
    let status = run(rt, &words, &mut free, &mut err);
    let written = room.saturating_sub(free.len());
    out.truncate(written);
    Ok((status, out))
}

/// The report of a call that writes all of it.
fn report_of<R: rt::Files + AllocGlobal + Threads + Wait + Sync + Abort>(
    rt: &R,
    folder: &str,
    words: &str,
) -> Result<Vec<u8>, Fail> {
    let (status, report) = call(rt, folder, words, ROOM)?;
    assert_eq!(rt; status, 0, "{words}");
    Ok(report)
}

fn time_of(line: &str) -> Result<u64, Fail> {
    let (time, _) = line.split_once(',').unwrap_or((line, ""));
    Ok(time.parse::<u64>()?)
}

/// The whole lines of a report up to a border.
fn lines_to(alloc: Global, report: &[u8], border: u64) -> Result<Vec<u8>, Fail> {
    let mut kept = Vec::new(alloc);
    for line in str::from_utf8(report)?.split_inclusive('\n') {
        if line.ends_with('\n') && time_of(line)? <= border {
            kept.extend_from_slice(line.as_bytes())?;
        }
    }
    Ok(kept)
}

/// The border in the checkpoint of a folder.
fn border_in<R: rt::Files + AllocGlobal>(rt: &R, folder: &str) -> Result<u64, Fail> {
    let name = format!(in rt.alloc(); "{folder}/save")?;
    let text = fs::read_to_string(rt, name.as_str())?;
    let behind = text.as_str().strip_prefix("{\"border\":").unwrap_or("");
    time_of(behind)
}

/// Stops a run in the middle of the line after those of the rounds up to a border, and resumes it from its checkpoint.
fn check_stop<R: rt::Files + AllocGlobal + Threads + Wait + Sync + Abort>(
    rt: &R,
    folder: &str,
    whole: &[u8],
    border: u64,
) -> Result<(), Fail> {
    let alloc = rt.alloc();
    let room = lines_to(alloc, whole, border)?.len().saturating_add(CUT);
    let (status, first) = call(rt, folder, "run @job --save @save", room)?;
    assert_eq!(rt; status, Status::WriteFault.code(), "behind {border}");
    assert_eq!(rt; first.len(), room, "behind {border}");
    assert_eq!(rt; border_in(rt, folder)?, border);
    let mut report = lines_to(alloc, &first, border)?;
    let second = report_of(rt, folder, "run @job --save @save --resume @save")?;
    report.extend_from_slice(&second)?;
    assert!(rt; report.as_slice() == whole, "behind {border}");
    Ok(())
}

fn views(alloc: Global) -> Result<String, AllocError> {
    let mut text = String::new(alloc);
    for time in 1..=ROWS {
        let page = time % 10;
        let value = time % 977;
        text.push_str(&format!(in alloc; "{time},view[{page}],{value}\n")?)?;
    }
    text.push_str("end\n")?;
    Ok(text)
}

fn ticks(alloc: Global) -> Result<String, AllocError> {
    let mut text = String::new(alloc);
    for count in 1..=ROWS / 512 {
        let time = count * 512;
        text.push_str(&format!(in alloc; "{time},tick\n")?)?;
    }
    text.push_str("end\n")?;
    Ok(text)
}

fn job(alloc: Global, folder: &str) -> Result<String, AllocError> {
    format!(in alloc;
        "{VIEWS}source web \"{folder}/web\": view[0..9]\nsource clock \"{folder}/clock\": tick\n"
    )
}

fn write<R: rt::Files + AllocGlobal + Abort>(
    rt: &R,
    folder: &str,
    name: &str,
    text: &str,
) -> Result<(), Fail> {
    let path = format!(in rt.alloc(); "{folder}/{name}")?;
    fs::write(rt, path.as_str(), text)?;
    Ok(())
}

fn prepare<R: rt::Files + AllocGlobal + Abort>(rt: &R, folder: &str) -> Result<(), Fail> {
    let alloc = rt.alloc();
    fs::create_dir(rt, folder)?;
    write(rt, folder, "job", &job(alloc, folder)?)?;
    write(rt, folder, "web", &views(alloc)?)?;
    write(rt, folder, "clock", &ticks(alloc)?)
}

#[test]
fn stopped_runs_go_on(rt: HostRuntime) -> Result<(), Fail> {
    let alloc = rt.alloc();
    let number = process::id(rt.process());
    let above = env::temp_dir(&rt)?;
    let folder = format!(in alloc; "{}/flumina-stopped-{number}", above.as_str())?;
    prepare(&rt, &folder)?;
    let whole = report_of(&rt, &folder, "fold @job")?;
    let run = report_of(&rt, &folder, "run @job")?;
    assert!(rt; run.as_slice() == whole.as_slice());
    for border in BORDERS {
        check_stop(&rt, &folder, &whole, border)?;
    }
    fs::remove_dir_all(&rt, folder.as_str())?;
    Ok(())
}
