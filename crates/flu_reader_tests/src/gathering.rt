//! The gathering of sources.

ghost use Rattle.std.specs.Prelude.{◌≡◌, length};
ghost use Rattle.flu_model.specs.Itags.{count_of_itags};
ghost use Rattle.flu_model.specs.Listed.{listed};

use crate::files::files_of;
use crate::tables::case_of;
use flu_model::{Itag, Item, Program, Streams, itag_count};
use flu_parse::read_job;
use flu_streams::{GatherFault, Why, gather};
use std::alloc::{AllocError, Global};
use std::process::Abort;
use std::test::Fail;

/// A job with two sources: `a` lists `inc`, which has a value, `item[1]` and `item[2]`, which have one, and `tick`, which
/// has none; `b` lists `tick`.
const JOB: &str =
    "tag inc int\ntag item keyed int\ntag tick none\nsource a \"a\": inc, item[1..2], tick\nsource b \"b\": tick\n";

/// The items of each itag, in short.
fn shown(alloc: Global, p: &Program, streams: &Streams) -> Result<String, AllocError>
    requires { length (listed streams.now) ≡ count_of_itags p.now }
{
    let mut text = String::new(alloc);
    for number in 0..itag_count(p) {
        add_items(&mut text, streams.items(Itag(number)))?;
    }
    Ok(text)
}

fn add_items(text: &mut String, items: &[Item]) -> Result<(), AllocError> {
    for item in items {
        match item {
            Item::Event(x) => write!(text, "{}:{}={} ", x.itag.0, x.time, x.value)?,
            Item::Beat(time) => write!(text, "beat{time} ")?,
            Item::End => text.push_str("end ")?,
        }
    }
    text.push_str("|")
}

/// A fault, in short.
pub fn told(alloc: Global, fault: GatherFault) -> Result<String, AllocError> {
    match fault {
        GatherFault::Source(fault) => {
            let source = fault.source;
            let row = fault.row;
            let why = fault.why;
            format!(in alloc; "{source} {row} {why:?}")
        }
        fault => format!(in alloc; "{fault:?}"),
    }
}

/// What gathering the job's sources gives, in short, with these bytes in their files.
fn gathered(alloc: Global, p: &Program, a: &str, b: &str) -> Result<String, AllocError> {
    let mut files = files_of(alloc, &[("a", a.as_bytes()), ("b", b.as_bytes())], 5)?;
    match gather(alloc, p, &mut files) {
        Ok(streams) => shown(alloc, p, &streams),
        Err(fault) => told(alloc, fault),
    }
}

/// Whether gathering gives this, for the bytes of each two files, which are on both sides of an `&`. In them a slash stands for a line
/// feed, and a percent sign for a carriage return.
fn expect_all(rt: &impl Abort, alloc: Global, job: &str, table: &str) -> Result<(), Fail> {
    let p = read_job(alloc, job.as_bytes())?;
    for line in table.split('\n') {
        let (text, wanted) = case_of(line);
        let text = text.replace(alloc, "/", "\n")?.replace(alloc, "%", "\r")?;
        let (a, b) = text.split_once(" & ").unwrap_or((text.as_str(), ""));
        let got = gathered(alloc, &p, a, b)?;
        assert_eq!(rt; got.as_str(), wanted);
    }
    Ok(())
}

/// Two sources that are good, and others with their first defect.
const SOURCES: &str =
    "1,inc,5/2,item[2],-7/3,beat/4,tick/end/ & 1,tick%/%/end => 0:1=5 beat3 end |beat3 end |2:2=-7 beat3 end |beat3 3:4=0 end |4:1=0 end |
1,inc/end & end => 0 1 BadRow
1,tick,4/end & end => 0 1 BadRow
1,inc,4/x,inc,1/end & end => 0 2 BadRow
1,nope,4/end & end => 0 1 UnknownTag
1,item,4/end & end => 0 1 UnknownTag
1,inc[1],4/end & end => 0 1 UnknownTag
1,item[3],4/end & end => 0 1 UnknownTag
5,inc,1//5,beat/end & end => 0 3 Disordered { last: 5, got: 5 }
5,beat/4,inc,1/end & end => 0 2 Disordered { last: 5, got: 4 }
5,beat/4,inc/end & end => 0 2 BadRow
1,inc,5/ & end => 0 2 Unclosed
 & end => 0 1 Unclosed
end// & // => 1 3 Unclosed
end//end & x => 0 3 AfterEnd
end/xx & end => 0 2 AfterEnd
end & 1,inc,2/end => 1 1 UnknownTag
 & 1,inc,2/end => 0 1 Unclosed";

#[test]
fn gathers_or_tells_the_first_defect(rt: HostRuntime) -> Result<(), Fail> {
    expect_all(&rt, rt.alloc(), JOB, SOURCES)
}

#[test]
fn tells_a_read_fault(rt: HostRuntime) -> Result<(), Fail> {
    let p = read_job(rt.alloc(), JOB.as_bytes())?;
    let mut files = files_of(rt.alloc(), &[("a", b"end")], 5)?;
    let fault = gather(rt.alloc(), &p, &mut files).err();
    assert_eq!(rt; fault, Some(GatherFault::ReadFault));
    Ok(())
}

// A defect of the first source is reported before the second one is read.
#[test]
fn tells_a_defect_before_a_read_fault(rt: HostRuntime) -> Result<(), Fail> {
    let p = read_job(rt.alloc(), JOB.as_bytes())?;
    let mut files = files_of(rt.alloc(), &[("a", b"x")], 5)?;
    let fault = gather(rt.alloc(), &p, &mut files).err();
    assert!(rt; matches!(fault, Some(GatherFault::Source(f)) if f.why == Why::BadRow));
    Ok(())
}

/// A job of two sources that may have two rows at one time; the first has a slack.
const TIED_JOB: &str =
    "version 3 ties 2 tag inc int tag tick none source a \"a\" slack 2: inc, tick source b \"b\": tick";

/// Rows at one time, at their moments: of a time the first source has those of four times the time and one more, and the second source the two
/// after them. A heartbeat counts among the rows of its time; late rows come behind those of their time; one row more than two at a time is too many.
/// The greatest time is the last one whose moments are below 2^63.
const TIED: &str =
    "5,inc,1/5,inc,2/end & 5,tick/6,tick/end => 0:20=1 0:21=2 end |end |2:22=0 2:26=0 end |
5,inc,1/5,beat/end & end => 0:20=1 beat21 end |beat21 end |end |
5,inc,1/5,tick/5,inc,3/end & end => 0 3 TooMany { count: 3 }
5,beat/5,beat/5,beat/end & end => 0 3 TooMany { count: 3 }
5,inc,1/3,inc,2/5,inc,3/3,tick/end & end => 0:12=2 0:20=1 0:21=3 end |1:13=0 end |end |
5,inc,1/4,inc,2/3,inc,3/4,inc,4/5,tick/3,beat/end & end => 0:12=3 beat13 0:16=2 0:17=4 0:20=1 end |beat13 1:21=0 end |end |
5,inc,1/3,inc,2/5,inc,3/3,tick/3,inc,1/end & end => 0 5 TooMany { count: 3 }
5,inc,1/2,inc,2/end & end => 0 2 Disordered { last: 5, got: 2 }
end & 5,tick/5,tick/5,tick/end => 1 3 TooMany { count: 3 }
end & 5,tick/4,tick/end => 1 2 Disordered { last: 5, got: 4 }
2305843009213693951,inc,1/end & end => 0:9223372036854775804=1 end |end |end |
2305843009213693952,inc,1/end & end => 0 1 BadRow
2305843009213693952,nope,1/end & end => 0 1 BadRow";

/// A job of one source that may have three rows at one time: 2^63 is no multiple of three, and a time is refused if one of its moments is not below it.
const TRIPLE_JOB: &str = "version 3 ties 3 tag inc int source a \"a\": inc";

const TRIPLES: &str =
    "3074457345618258601,inc,1/3074457345618258601,inc,2/3074457345618258601,inc,3/end => 0:9223372036854775803=1 0:9223372036854775804=2 0:9223372036854775805=3 end |
3074457345618258602,inc,1/end => 0 1 BadRow";

#[test]
fn rows_at_one_time_have_their_moments(rt: HostRuntime) -> Result<(), Fail> {
    let alloc = rt.alloc();
    expect_all(&rt, alloc, TIED_JOB, TIED)?;
    expect_all(&rt, alloc, TRIPLE_JOB, TRIPLES)
}

/// A job whose source lists `ride`, which has items by a list and a value, and `stop`, which has items by another list and none.
const NAMED_JOB: &str =
    "version 3 names towns: \"harbour\", \"market hall\", \"7\" names lines: \"7\" tag ride item by towns int tag stop item by lines none \
     source a \"a\": ride, stop source b \"b\": stop";

/// Rows with names, and their first defects. There are two sources, so a row of the first one at a time has the moment of twice the time, and one
/// of the second the moment after it.
const NAMED: &str =
    "1,ride,harbour,5/2,ride,\"market hall\",-7/3,ride,7,1/4,stop,7/end & end => 0:2=0,5 0:4=1,-7 0:6=2,1 end |1:8=0,0 end |end |
1,ride,7,5/2,stop,\"7\"/end & 3,stop,7/end => 0:2=2,5 end |1:4=0,0 end |2:7=0,0 end |
5,ride,7,5/5,ride,7,5/end & end => 0 2 TooMany { count: 2 }
1,ride,mill,5/end & end => 0 1 UnknownItem
1,ride,07,5/end & end => 0 1 UnknownItem
1,ride,Harbour,5/end & end => 0 1 UnknownItem
1,ride,\"harbour \",5/end & end => 0 1 UnknownItem
1,ride,,5/end & end => 0 1 UnknownItem
1,ride,\"\",5/end & end => 0 1 UnknownItem
1,stop,harbour/end & end => 0 1 UnknownItem
1,ride,mill,x/end & end => 0 1 BadRow
1,ride,mill/end & end => 0 1 BadRow
1,ride/end & end => 0 1 BadRow
1,stop,/end & end => 0 1 BadRow
1,stop,mill,4/end & end => 0 1 BadRow
5,ride,harbour,1/4,ride,mill,1/end & end => 0 2 UnknownItem
1,ride[2],mill,5/end & end => 0 1 UnknownTag";

#[test]
fn names_give_items(rt: HostRuntime) -> Result<(), Fail> {
    let alloc = rt.alloc();
    let p = read_job(alloc, NAMED_JOB.as_bytes())?;
    for line in NAMED.split('\n') {
        let (text, wanted) = case_of(line);
        let text = text.replace(alloc, "/", "\n")?;
        let (a, b) = text.split_once(" & ").unwrap_or((text.as_str(), ""));
        let mut files = files_of(alloc, &[("a", a.as_bytes()), ("b", b.as_bytes())], 5)?;
        let got = match gather(alloc, &p, &mut files) {
            Ok(streams) => shown_with_items(alloc, &p, &streams)?,
            Err(fault) => told(alloc, fault)?,
        };
        assert_eq!(rt; got.as_str(), wanted, "{line}");
    }
    Ok(())
}

/// The items of each itag with those of their events, in short.
fn shown_with_items(alloc: Global, p: &Program, streams: &Streams) -> Result<String, AllocError>
    requires { length (listed streams.now) ≡ count_of_itags p.now }
{
    let mut text = String::new(alloc);
    for number in 0..itag_count(p) {
        for item in streams.items(Itag(number)) {
            match item {
                Item::Event(x) => {
                    write!(text, "{}:{}={},{} ", x.itag.0, x.time, x.item, x.value)?
                }
                Item::Beat(time) => write!(text, "beat{time} ")?,
                Item::End => text.push_str("end ")?,
            }
        }
        text.push_str("|")?;
    }
    Ok(text)
}
