//! Calls of `run` with `--save` and `--resume`: what they answer, and what is under the name that is saved to.

use super::jobs::{COUNTED, END, REPORT};
use super::rounds::{ALL, DISORDERED, FIRST, READS, SAME_TIME, SECOND, adds};
use super::scripts::{Wanted, play};
use super::{Words, assert_left, call, files_of, put};
use flu_outside::{MemFiles, TakeFault, read_whole};
use flu_seq::OpenGate;
use std::alloc::{AllocError, Global};
use std::process::Abort;
use std::sync::Wait;
use std::test::Fail;
use std::thread::Threads;

/// Runs from the checkpoint of a border, with what was counted up to it, from one that holds nothing, and from the last one, which have
/// nothing more to run; what is not a checkpoint of the job; names that are sources' files; and a checkpoint that is not there.
const RESUMED: &str = "@ s
{\"border\":2,\"cells\":[[\"count\",0,\"12\"]],\"job\":\"cell count sum\\ntag inc int\\ntag read none\\ndepends inc read\\ndepends read read\\non inc: add count value\\non read: emit \\\"count {count}\\\"; clear count\\nsource a \\\"a.csv\\\" rate 1000: inc\\nsource b \\\"b.csv\\\" rate 1000: inc\\nsource c \\\"c.csv\\\" rate 1: read\\n\"}
@ $ run J P --resume s
@ $ run J --resume s
@ = 0
3,read,count 12
5,read,count 2
@ s
{\"border\":3,\"cells\":[],\"job\":\"cell count sum\\ntag inc int\\ntag read none\\ndepends inc read\\ndepends read read\\non inc: add count value\\non read: emit \\\"count {count}\\\"; clear count\\nsource a \\\"a.csv\\\" rate 1000: inc\\nsource b \\\"b.csv\\\" rate 1000: inc\\nsource c \\\"c.csv\\\" rate 1: read\\n\"}
@ $ run J P --resume s
@ = 0
5,read,count 2
@ s
{\"border\":9223372036854775807,\"cells\":[],\"job\":\"cell count sum\\ntag inc int\\ntag read none\\ndepends inc read\\ndepends read read\\non inc: add count value\\non read: emit \\\"count {count}\\\"; clear count\\nsource a \\\"a.csv\\\" rate 1000: inc\\nsource b \\\"b.csv\\\" rate 1000: inc\\nsource c \\\"c.csv\\\" rate 1: read\\n\"}
@ $ run J P --resume s
@ $ run J --save s --resume s
@ = 0
@ s|{
@ $ run J P --resume s
@ $ run J P --save t --resume s
@ $ run J --save s --resume s
@ = 11 flumina: save: not json
@ s|{\"border\":2,\"cells\":[],\"job\":\"\"}
@ $ run J P --resume s
@ = 11 flumina: save: other job
@ s|{\"border\":2,\"cells\":[]}
@ $ run J P --resume s
@ = 11 flumina: save: wrong form
@ s|{
@ $ run J P --save a.csv
@ $ run J P --resume a.csv
@ $ run J P --save a.csv --resume s
@ $ run J P --save a.csv --resume missing
@ $ run J P --save s --resume a.csv
@ $ run J P --save a.csv --resume b.csv
@ = 11 flumina: save: same as source a
@ s|{
@ $ run J P --save s --resume missing
@ = 7 flumina: read fault
";

#[test]
fn runs_are_resumed(rt: HostRuntime) -> Result<(), Fail> {
    play(&rt, rt.alloc(), RESUMED)
}

/// What a name has left.
fn left_of(alloc: Global, files: &mut MemFiles, name: &str) -> Result<Vec<u8>, TakeFault> {
    read_whole(alloc, files, name, 1 << 20)
}

/// A call over the files of the count, of which one put fails, 0 for none: what it answers, and what the name that it saves to begins
/// with then; nothing, if it has nothing.
#[derive(Clone, Copy)]
struct Case {
    words: Words,
    failing_put: u64,
    status: u8,
    out: &'static str,
    err: &'static str,
    saved: &'static str,
}

/// The last checkpoint of the count: both reads have cleared it.
const LAST: &str =
    "{\"border\":9223372036854775807,\"cells\":[],\"job\":\"cell count sum\\ntag inc int\\n";

const CASES: &[Case] = &[
    Case {
        words: "run J P --save s",
        failing_put: 0,
        status: 0,
        out: REPORT,
        err: "",
        saved: LAST,
    },
    Case {
        words: "run J --save s",
        failing_put: 2,
        status: 0,
        out: REPORT,
        err: "",
        saved: LAST,
    },
    Case {
        words: "run J P --save s",
        failing_put: 1,
        status: 12,
        out: REPORT,
        err: "flumina: save fault",
        saved: "",
    },
    Case {
        words: "run J P --save P",
        failing_put: 0,
        status: 2,
        out: "",
        err: "flumina: bad words at 4",
        saved: "",
    },
];

fn cases() -> &'static [Case] {
    CASES
}

fn check_case<R: Abort + Threads + Wait + Sync>(
    rt: &R,
    alloc: Global,
    case: &Case,
) -> Result<(), Fail> {
    let mut files = files_of(alloc, COUNTED)?;
    put(alloc, &mut files, "s", "")?;
    files.fail_put(case.failing_put)?;
    let left = call(rt, alloc, case.words, &mut files, &OpenGate)?;
    assert_left(rt, &left, case.status, case.out.as_bytes(), case.err);
    let saved = left_of(alloc, &mut files, "s")?;
    assert!(rt; saved.starts_with(case.saved.as_bytes()), "{}", case.words);
    assert!(rt;
        !case.saved.is_empty() || saved.is_empty(),
        "{}",
        case.words
    );
    Ok(())
}

#[test]
fn checkpoints_are_put(rt: HostRuntime) -> Result<(), Fail> {
    for case in cases() {
        check_case(&rt, rt.alloc(), case)?;
    }
    Ok(())
}

/// The files of the count, of which the first source has more rows than a round takes, and this after them; and the rows that read.
fn two_rounds(alloc: Global, behind: &str, reads: &str) -> Result<MemFiles, AllocError> {
    let mut source = adds(alloc)?;
    source.push_str(behind)?;
    let mut files = files_of(alloc, COUNTED)?;
    put(alloc, &mut files, "a.csv", &source)?;
    put(alloc, &mut files, "b.csv", END)?;
    put(alloc, &mut files, "c.csv", reads)?;
    Ok(files)
}

/// Makes a call over some files, and answers what the name that it saves to has left.
pub fn saved_by<R: Abort + Threads + Wait + Sync>(
    rt: &R,
    alloc: Global,
    words: Words,
    mut files: MemFiles,
    wanted: Wanted,
) -> Result<Vec<u8>, Fail> {
    let left = call(rt, alloc, words, &mut files, &OpenGate)?;
    assert_left(rt, &left, wanted.status, wanted.out.as_bytes(), wanted.err);
    Ok(left_of(alloc, &mut files, "s")?)
}

/// The checkpoint of the first round, whose border is the time of the first source's 4,096th row, is left if the second one meets a
/// defect.
#[test]
fn the_checkpoint_before_a_defect_is_left(rt: HostRuntime) -> Result<(), Fail> {
    let files = two_rounds(rt.alloc(), SAME_TIME, "4000,read\nend\n")?;
    let wanted = Wanted {
        status: 6,
        out: FIRST,
        err: DISORDERED,
    };
    let saved = saved_by(&rt, rt.alloc(), "run J P --save s", files, wanted)?;
    assert!(&rt; saved.starts_with(b"{\"border\":4096,\"cells\":[[\"count\",0,\"96\"]],\"job\":"));
    Ok(())
}

/// What a run saves whose second put fails.
fn saved_once<R: Abort + Threads + Wait + Sync>(rt: &R, alloc: Global) -> Result<Vec<u8>, Fail> {
    let mut files = two_rounds(alloc, END, READS)?;
    files.fail_put(2)?;
    let wanted = Wanted {
        status: 12,
        out: ALL,
        err: "flumina: save fault",
    };
    saved_by(rt, alloc, "run J P --save s", files, wanted)
}

/// A round whose checkpoint could not be put is run again by a resumed run: the border shows that its lines come twice.
#[test]
fn a_round_that_was_not_saved_is_run_again(rt: HostRuntime) -> Result<(), Fail> {
    let saved = saved_once(&rt, rt.alloc())?;
    assert!(&rt; saved.starts_with(b"{\"border\":4096,"));
    let mut files = two_rounds(rt.alloc(), END, READS)?;
    files.add("s", saved)?;
    let wanted = Wanted {
        status: 0,
        out: SECOND,
        err: "",
    };
    saved_by(&rt, rt.alloc(), "run J P --resume s", files, wanted)?;
    Ok(())
}
