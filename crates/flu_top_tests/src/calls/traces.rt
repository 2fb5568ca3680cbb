//! Calls of `simulate` with `--trace`, and of `replay`.

use super::jobs::{COUNTED, REPORT};
use super::scripts::{Wanted, check_call, play};
use super::{call, files_of};
use flu_seq::OpenGate;
use std::alloc::Global;
use std::process::Abort;
use std::sync::Wait;
use std::test::Fail;
use std::thread::Threads;

/// A plan of one node over sources without a row: its trace, complete or not, with a line twice, without lines, of another form, under
/// the names of other files, and of a file that is not there. Then an addition and a read at one time.
const TRACES: &str = "@ P
node one: inc, read
@ a.csv
end
@ b.csv
end
@ c.csv
end
@ $ simulate J P 1 --trace -> steps arrive 3 handle 0 ask 0 take 0 give 0 hold 0 lend 0 mark 2178
@ = 0
arrive 2
arrive 0
arrive 1
@ P
node one: inc, read
@ a.csv
end
@ b.csv
end
@ c.csv
end
@ T
arrive 2
arrive 0
arrive 1
@ LAST
arrive 2
arrive 0
@ AGAIN
arrive 2
arrive 2
@ NONE|
@ OTHER
arive 0
@ $ replay J P T
@ = 0
@ $ replay J P AGAIN
@ = 13 flumina: trace line 2: not enabled
@ $ replay J P LAST
@ = 13 flumina: trace line 3: incomplete
@ $ replay J P NONE
@ $ replay J P J
@ $ replay J P P
@ $ replay J P a.csv
@ = 13 flumina: trace line 1: incomplete
@ $ replay J P OTHER
@ = 13 flumina: trace line 1: bad line
@ $ replay J P MISSING
@ = 7 flumina: read fault
@ P
node one: inc, read
@ a.csv
3,inc,1
end
@ b.csv
end
@ c.csv
3,read
end
@ T
arrive 0
arrive 0
arrive 1
handle 0
@ $ replay J P T
@ = 13 flumina: trace line 4: not enabled
@ P
node one: inc, read
@ a.csv
3,inc,1
end
@ b.csv
end
@ c.csv
3,read
end
@ T
arrive 0
arrive 2
handle 0
arrive 0
arrive 1
arrive 2
handle 0
@ $ replay J P T
@ = 0
3,read,count 1
@ $ replay J P
@ = 2 flumina: bad words at 3
@ $ replay J P T x
@ $ replay J P T --trace
@ = 2 flumina: bad words at 4
@ $ simulate J P 1 --trace --trace
@ = 2 flumina: bad words at 5
";

#[test]
fn traces_are_replayed_or_stop(rt: HostRuntime) -> Result<(), Fail> {
    play(&rt, rt.alloc(), TRACES)
}

/// How many lines the trace of a seed has; its replay writes the report.
fn replayed<R: Abort + Threads + Wait + Sync>(
    rt: &R,
    alloc: Global,
    seed: u32,
) -> Result<usize, Fail> {
    let words = format!(in alloc; "simulate J P {seed} --trace")?;
    let mut files = files_of(alloc, COUNTED)?;
    let left = call(rt, alloc, &words, &mut files, &OpenGate)?;
    let trace = std::str::from_utf8(left.out.bytes())?;
    let wanted = Wanted {
        status: 0,
        out: REPORT,
        err: "",
    };
    check_call(rt, alloc, &[("T", trace)], "replay J P T", wanted)?;
    Ok(trace.lines().count())
}

#[test]
fn traces_of_ten_seeds_write_one_report(rt: HostRuntime) -> Result<(), Fail> {
    for seed in 0..10 {
        assert_eq!(rt; replayed(&rt, rt.alloc(), seed)?, 37);
    }
    Ok(())
}
