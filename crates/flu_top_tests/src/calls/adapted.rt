//! Calls of `run` with `--adapt`: the report, and the plan that the events of the run ask for, which err gets.

use super::jobs::{COUNTED, REPORT};
use super::scripts::{Wanted, check_call, play};
use super::{SOUND, Settings, call_with, files_of};
use flu_seq::OpenGate;
use std::test::Fail;

/// The counts of the events are 2, 1 and 2, and never leave two components; with a checkpoint those above its border are counted, 1, 0 and
/// 2. Sources without an event; and refusals, which say no plan.
const COUNTS: &str = "@ $ run J P --adapt
@ $ run J --adapt
@ $ run J P --adapt --save s
@ $ run J --adapt --save s
@ = 0 node n0: inc@a, inc@b, read@c
3,read,count 12
5,read,count 2
@ s
{\"border\":2,\"cells\":[[\"count\",0,\"12\"]],\"job\":\"cell count sum\\ntag inc int\\ntag read none\\ndepends inc read\\ndepends read read\\non inc: add count value\\non read: emit \\\"count {count}\\\"; clear count\\nsource a \\\"a.csv\\\" rate 1000: inc\\nsource b \\\"b.csv\\\" rate 1000: inc\\nsource c \\\"c.csv\\\" rate 1: read\\n\"}
@ $ run J P --adapt --resume s
@ $ run J --adapt --save s --resume s
@ = 0 node n0: inc@a, inc@b, read@c
3,read,count 12
5,read,count 2
@ a.csv
end
@ b.csv
end
@ c.csv
end
@ $ run J --adapt
@ = 0 node n0: inc@a, inc@b, read@c
@ b.csv
2,inc,7
2,inc,7
end
@ $ run J P --adapt
@ = 6 flumina: source b row 2: disordered, last 2, got 2
@ s|{
@ $ run J P --adapt --resume s
@ = 11 flumina: save: not json
@ s|{
@ $ run J P --adapt --save a.csv
@ = 11 flumina: save: same as source a
@ P
node one: inc
@ $ run J P --adapt
@ = 5 flumina: plan: read@c has no owner
";

#[test]
fn plans_of_counts_are_said(rt: HostRuntime) -> Result<(), Fail> {
    play(&rt, rt.alloc(), COUNTS)
}

/// The plan of a count in which the reads are the fewest events.
const READS_ABOVE: &str = "node n0: read@c -> n1 n2
node n1: inc@a
node n2: inc@b";

/// More of one source than of the other, and one read.
const FEW_READS: [(&str, &str); 3] = [
    ("a.csv", "1,inc,1\n2,inc,1\n3,inc,1\nend\n"),
    ("b.csv", "1,inc,1\n2,inc,1\nend\n"),
    ("c.csv", "9,read\nend\n"),
];

#[test]
fn few_reads_are_put_above(rt: HostRuntime) -> Result<(), Fail> {
    let wanted = Wanted {
        status: 0,
        out: "9,read,count 5\n",
        err: READS_ABOVE,
    };
    for words in [
        "run J P --adapt",
        "run J --adapt",
        "run J P --adapt --save s",
    ] {
        check_call(&rt, rt.alloc(), &FEW_READS, words, wanted)?;
    }
    Ok(())
}

/// Many reads up to a border, and one above it, with a checkpoint of that border.
const MANY_READS: [(&str, &str); 4] = [
    ("a.csv", "4,inc,1\n5,inc,1\nend\n"),
    ("b.csv", "4,inc,1\n5,inc,1\nend\n"),
    ("c.csv", "1,read\n2,read\n3,read\n9,read\nend\n"),
    (
        "s",
        "{\"border\":3,\"cells\":[],\"job\":\"cell count sum\\ntag inc int\\ntag read none\\ndepends inc read\\ndepends read read\\non inc: add count value\\non read: emit \\\"count {count}\\\"; clear count\\nsource a \\\"a.csv\\\" rate 1000: inc\\nsource b \\\"b.csv\\\" rate 1000: inc\\nsource c \\\"c.csv\\\" rate 1: read\\n\"}",
    ),
];

/// What is counted of a resumed run are the events above its border.
#[test]
fn events_above_the_border_are_counted(rt: HostRuntime) -> Result<(), Fail> {
    let whole = Wanted {
        status: 0,
        out: "1,read,count 0\n2,read,count 0\n3,read,count 0\n9,read,count 4\n",
        err: "node n0: inc@a, inc@b, read@c",
    };
    check_call(&rt, rt.alloc(), &MANY_READS, "run J --adapt", whole)?;
    let resumed = Wanted {
        status: 0,
        out: "9,read,count 4\n",
        err: READS_ABOVE,
    };
    for words in [
        "run J --adapt --resume s",
        "run J P --adapt --save s --resume s",
    ] {
        check_call(&rt, rt.alloc(), &MANY_READS, words, resumed)?;
    }
    Ok(())
}

/// Err that has no room changes nothing else.
#[test]
fn err_has_no_room_for_a_plan(rt: HostRuntime) -> Result<(), Fail> {
    let settings = Settings {
        err_room: 20,
        first: 8,
        ..SOUND
    };
    let mut files = files_of(rt.alloc(), COUNTED)?;
    let left = call_with(
        &rt,
        rt.alloc(),
        "run J --adapt",
        &mut files,
        &settings,
        &OpenGate,
    )?;
    assert_eq!(&rt; left.status, 0);
    assert_eq!(&rt; left.out.bytes(), REPORT.as_bytes());
    assert_eq!(&rt; left.err.bytes(), b"node n0: inc@a, ".as_slice());
    Ok(())
}
