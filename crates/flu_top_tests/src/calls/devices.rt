//! Files and sinks that fail at each of their calls, and that move a piece at a time.

use super::jobs::{A, B, C, COUNTED, COUNTING, COUNTING_PLAN, END, READS_APART, REPORT};
use super::{Named, SOUND, Settings, Words, add_all, assert_left, call_with, files_of, set_takes};
use flu_seq::OpenGate;
use std::alloc::Global;
use std::process::Abort;
use std::sync::Wait;
use std::test::Fail;
use std::thread::Threads;

/// A command over the files of [`COUNTED`]: those of them that it reads, and what it leaves in out and err.
#[derive(Clone, Copy)]
struct Command {
    words: Words,
    reads: Named,
    out: &'static str,
    err: &'static str,
}

const SOURCES: Named = &[("J", COUNTING), ("a.csv", A), ("b.csv", B), ("c.csv", C)];

const COMMANDS: &[Command] = &[
    Command {
        words: "fold J",
        reads: SOURCES,
        out: REPORT,
        err: "",
    },
    Command {
        words: "check J",
        reads: &[("J", COUNTING)],
        out: COUNTING,
        err: "",
    },
    Command {
        words: "valid J P",
        reads: &[("J", COUNTING), ("P", COUNTING_PLAN)],
        out: COUNTING_PLAN,
        err: "",
    },
    Command {
        words: "plan J",
        reads: &[("J", COUNTING)],
        out: "node n0: read@c -> n1 n2\nnode n1: inc@a\nnode n2: inc@b\n",
        err: "",
    },
    Command {
        words: "run J P",
        reads: COUNTED,
        out: REPORT,
        err: "",
    },
    Command {
        words: "run J",
        reads: SOURCES,
        out: REPORT,
        err: "",
    },
    Command {
        words: "simulate J P 1",
        reads: COUNTED,
        out: REPORT,
        err: "steps arrive 8 handle 5 ask 4 take 4 give 4 hold 6 lend 6 mark ..",
    },
    Command {
        words: "demo 2 1",
        reads: &[],
        out: "demo events 3 lines 2 bytes 46\n",
        err: "",
    },
];

/// The longest pieces, if not all is moved at once.
const MOST: usize = 16;

fn commands() -> &'static [Command] {
    COMMANDS
}

/// How many bytes this many calls move at most.
fn moved(settings: &Settings, calls: u64) -> usize {
    let mut sum = 0usize;
    let mut most = settings.first;
    let mut later = settings.later.iter();
    for _ in 0..calls {
        sum = sum.saturating_add(most);
        if let Some(piece) = later.next() {
            most = *piece;
        }
    }
    sum
}

/// How many takes read these texts to their ends, this many bytes at a time: after each text one more, which finds nothing.
fn takes_of(texts: Named, most: usize) -> u64 {
    let mut takes = 0u64;
    for (_, text) in texts {
        let filled = text.len().div_ceil(most.max(1)) as u64;
        takes = takes.saturating_add(filled).saturating_add(1);
    }
    takes
}

/// What a call answers and leaves.
#[derive(Clone, Copy)]
struct Wanted<'a> {
    status: u8,
    out: &'a [u8],
    err: &'a str,
}

fn done(command: &Command) -> Wanted<'static> {
    Wanted {
        status: 0,
        out: command.out.as_bytes(),
        err: command.err,
    }
}

const NOT_READ: Wanted = Wanted {
    status: 7,
    out: b"",
    err: "flumina: read fault",
};

/// Out has a prefix of what the command writes.
fn not_written(command: &Command, front: usize) -> Wanted<'static> {
    Wanted {
        status: 8,
        out: command.out.as_bytes().get(..front).unwrap_or(b""),
        err: "flumina: write fault",
    }
}

/// Makes a call over these files with these settings.
fn check_with<R: Abort + Threads + Wait + Sync>(
    rt: &R,
    alloc: Global,
    words: Words,
    files: &[(&str, &str)],
    settings: &Settings,
    wanted: Wanted,
) -> Result<(), Fail> {
    let mut files = files_of(alloc, files)?;
    set_takes(&mut files, settings)?;
    let left = call_with(rt, alloc, words, &mut files, settings, &OpenGate)?;
    assert_left(rt, &left, wanted.status, wanted.out, wanted.err);
    Ok(())
}

/// Lets each take of a command fail, and the one after its last.
fn check_takes<R: Abort + Threads + Wait + Sync>(
    rt: &R,
    alloc: Global,
    command: &Command,
    first: usize,
) -> Result<(), Fail> {
    let takes = takes_of(command.reads, first);
    let mut settings = Settings { first, ..SOUND };
    for take in 1..=takes {
        settings.failing_take = take;
        check_with(rt, alloc, command.words, command.reads, &settings, NOT_READ)?;
    }
    settings.failing_take = takes.saturating_add(1);
    let wanted = done(command);
    check_with(rt, alloc, command.words, command.reads, &settings, wanted)
}

#[test]
fn each_take_fails(rt: HostRuntime) -> Result<(), Fail> {
    for command in commands() {
        check_takes(&rt, rt.alloc(), command, usize::MAX)?;
        for first in 1..=MOST {
            check_takes(&rt, rt.alloc(), command, first)?;
        }
    }
    Ok(())
}

/// Lets each file of a command be missing.
fn check_missing<R: Abort + Threads + Wait + Sync>(
    rt: &R,
    alloc: Global,
    command: &Command,
) -> Result<(), Fail> {
    for (missing, _) in command.reads {
        let mut files = Vec::new(alloc);
        for file in command.reads {
            if file.0 != *missing {
                files.push(*file)?;
            }
        }
        check_with(rt, alloc, command.words, files.as_slice(), &SOUND, NOT_READ)?;
    }
    Ok(())
}

#[test]
fn each_file_is_missing(rt: HostRuntime) -> Result<(), Fail> {
    for command in commands() {
        check_missing(&rt, rt.alloc(), command)?;
    }
    Ok(())
}

/// Lets each write to out fail, and the one after the last.
fn check_writes<R: Abort + Threads + Wait + Sync>(
    rt: &R,
    alloc: Global,
    command: &Command,
    first: usize,
    later: &'static [usize],
) -> Result<(), Fail> {
    let mut settings = Settings {
        first,
        later,
        ..SOUND
    };
    for write in 0..=command.out.len() as u64 {
        settings.failing_write = write.saturating_add(1);
        let front = moved(&settings, write);
        if front >= command.out.len() {
            let wanted = done(command);
            return check_with(rt, alloc, command.words, command.reads, &settings, wanted);
        }
        let wanted = not_written(command, front);
        check_with(rt, alloc, command.words, command.reads, &settings, wanted)?;
    }
    Ok(())
}

#[test]
fn each_write_fails(rt: HostRuntime) -> Result<(), Fail> {
    for command in commands() {
        check_writes(&rt, rt.alloc(), command, usize::MAX, &[])?;
        for most in 1..=MOST {
            check_writes(&rt, rt.alloc(), command, most, &[])?;
        }
        check_writes(&rt, rt.alloc(), command, 3, &[1, 7, 2])?;
    }
    Ok(())
}

/// Gives out room for each number of bytes up to all that is written.
fn check_rooms<R: Abort + Threads + Wait + Sync>(
    rt: &R,
    alloc: Global,
    command: &Command,
) -> Result<(), Fail> {
    let mut settings = Settings { first: 1, ..SOUND };
    for room in 0..command.out.len() {
        settings.out_room = room;
        let wanted = not_written(command, room);
        check_with(rt, alloc, command.words, command.reads, &settings, wanted)?;
    }
    settings.out_room = command.out.len();
    let wanted = done(command);
    check_with(rt, alloc, command.words, command.reads, &settings, wanted)
}

#[test]
fn out_is_full(rt: HostRuntime) -> Result<(), Fail> {
    for command in commands() {
        check_rooms(&rt, rt.alloc(), command)?;
    }
    Ok(())
}

/// A call of each status that says a line on err, over the files of the count and these in place of them, with an out that has no
/// room.
#[derive(Clone, Copy)]
struct Saying {
    words: Words,
    files: Named,
    status: u8,
    err: &'static str,
}

const SAYINGS: &[Saying] = &[
    Saying {
        words: "simulate J P 1",
        files: &[("a.csv", END), ("b.csv", END), ("c.csv", END)],
        status: 0,
        err: "steps arrive 3 handle 0 ask 0 take 0 give 0 hold 2 lend 2 mark 3995476782\n",
    },
    Saying {
        words: "fold",
        files: &[],
        status: 2,
        err: "flumina: bad words at 1\n",
    },
    Saying {
        words: "fold J",
        files: &[("J", "cell count\n")],
        status: 3,
        err: "flumina: job: unexpected at 11\n",
    },
    Saying {
        words: "check J",
        files: &[("J", READS_APART)],
        status: 4,
        err: "flumina: conflict: read and read on count\n",
    },
    Saying {
        words: "valid J P",
        files: &[("P", "node root: -> l r\nnode l: read\nnode r: inc\n")],
        status: 5,
        err: "flumina: plan: clash of read@c at l and inc@a at r\n",
    },
    Saying {
        words: "run J P",
        files: &[("a.csv", "1,inc,5\n1,inc,6\nend\n")],
        status: 6,
        err: "flumina: source a row 2: disordered, last 1, got 1\n",
    },
    Saying {
        words: "plan X",
        files: &[],
        status: 7,
        err: "flumina: read fault\n",
    },
    Saying {
        words: "run J",
        files: &[],
        status: 8,
        err: "flumina: write fault\n",
    },
];

fn sayings() -> &'static [Saying] {
    SAYINGS
}

/// Makes a call with an err that has room for this many bytes, and that gets just these bytes of the line.
fn check_room<R: Abort + Threads + Wait + Sync>(
    rt: &R,
    alloc: Global,
    saying: &Saying,
    room: usize,
) -> Result<(), Fail> {
    let settings = Settings {
        out_room: 0,
        err_room: room,
        first: 1,
        ..SOUND
    };
    let mut files = files_of(alloc, COUNTED)?;
    add_all(alloc, &mut files, saying.files)?;
    let left = call_with(rt, alloc, saying.words, &mut files, &settings, &OpenGate)?;
    assert_eq!(rt; left.status, saying.status);
    assert!(rt; left.out.bytes().is_empty());
    assert_eq!(rt; Some(left.err.bytes()), saying.err.as_bytes().get(..room));
    Ok(())
}

#[test]
fn err_that_fails_changes_no_status(rt: HostRuntime) -> Result<(), Fail> {
    for saying in sayings() {
        for room in 0..=saying.err.len() {
            check_room(&rt, rt.alloc(), saying, room)?;
        }
    }
    Ok(())
}
