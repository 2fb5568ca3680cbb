//! Plan texts.

use crate::tables::case_of;
use flu_model::{Itag, Pred, Program, itag_count, matches};
use flu_parse::read_job;
use flu_plan::{PlanFault, print_plan, read_plan};
use std::alloc::{AllocError, Global};
use std::process::Abort;
use std::test::Fail;

const JOB_J: &str = "cell count sum
tag inc int
tag read none
depends inc read
depends read read
on inc: add count value
on read: emit \"count {count}\"; clear count
source a \"a.csv\" rate 1000: inc
source b \"b.csv\" rate 1000: inc
source c \"c.csv\" rate 1: read
";

const JOB_K: &str = "tag view keyed int
tag tick none
source web \"web.csv\": view[0..9]
source app \"app.csv\": view[0..9]
source clock \"clock.csv\": tick
";

/// The plan that a text is, printed, or the fault.
fn said(alloc: Global, p: &Program, text: &str) -> Result<String, AllocError> {
    match read_plan(alloc, p, text.as_bytes()) {
        Ok(plan) => {
            let printed = print_plan(alloc, p, &plan)?;
            String::from_str(alloc, printed.as_str())
        }
        Err(PlanFault::NotATree { name }) => {
            let name = name.as_str();
            format!(in alloc; "not a tree at {name}")
        }
        Err(PlanFault::BadToken { at }) => format!(in alloc; "bad token at {at}"),
        Err(PlanFault::Unexpected { at }) => format!(in alloc; "unexpected at {at}"),
        Err(PlanFault::UnknownName { at }) => format!(in alloc; "unknown name at {at}"),
        Err(PlanFault::OverLimit { what, count }) => {
            format!(in alloc; "over limit {what:?} {count}")
        }
        Err(PlanFault::NoMemory) => Err(AllocError),
    }
}

/// Whether each text of a table is read as its plan, or its fault is reported, if this is the job. A slash stands for the end of a line.
fn expect_all(rt: &impl Abort, alloc: Global, job: &str, table: &str) -> Result<(), Fail> {
    let p = read_job(alloc, job.as_bytes())?;
    for line in table.split('\n') {
        let (text, wanted) = case_of(line);
        let text = text.replace(alloc, "/", "\n")?;
        let wanted = wanted.replace(alloc, "/", "\n")?;
        let said = said(alloc, &p, text.as_str())?;
        assert_eq!(rt; said.as_str(), wanted.as_str(), "{text}");
    }
    Ok(())
}

/// What is read over the job of a count: words that cannot occur there, nodes that are not a tree, and plans, which are printed.
const OF_COUNT: &str = " => unexpected at 0
  # nothing/ => unexpected at 12
node a: foo => unknown name at 8
node a: $ => bad token at 8
node a: inc[ => unexpected at 12
node a: inc[1.. => unexpected at 15
node a: , inc => unexpected at 8
node a: inc, -> b c => unexpected at 13
node a: -> b => unexpected at 12
node a: inc read => unexpected at 12
node a: inc@read => unknown name at 12
node a: inc@b@c => unexpected at 13
node a: inc % b => unexpected at 12
node a: -> b c node b: => unknown name at 13
node a: -> b b node b: inc, read => not a tree at b
node a: inc node a: read => not a tree at a
node a: -> a b node b: => not a tree at a
node a: -> b a node b: => not a tree at a
node a: inc node b: read => not a tree at b
node a: node b: -> c d node c: node d: => not a tree at b
node a: node b: -> c d node c: -> b e node d: node e: => not a tree at b
node a: foo node a: => not a tree at a
node a: -> b b node b: foo => unknown name at 23
node root: read -> l r/node l: inc@a/node r: inc@b/ => node root: read -> l r/node l: inc@a/node r: inc@b/
node root:read->l r#/node r :inc @ b node l:\tinc@a => node root: read -> l r/node l: inc@a/node r: inc@b/
node one: inc, read => node one: inc, read/
node item: inc, read => node item: inc, read/
node root: -> l r node l: read node r: inc => node root: -> l r/node l: read/node r: inc/
node root: read -> l r node l: inc@a node r: => node root: read -> l r/node l: inc@a/node r:/
node a: @c, inc@b => node a: @c, inc@b/
node a: inc[7], read[08..2]@a => node a: inc[7], read[8..2]@a/";

#[test]
fn plans_are_read(rt: HostRuntime) -> Result<(), Fail> {
    expect_all(&rt, rt.alloc(), JOB_J, OF_COUNT)
}

const OF_VIEWS: &str = "node a: view[65535..0] => node a: view[65535..0]/
node a: tick[65536] => over limit Key 65536
node a: view[1], view[2..70000], view[80000] => over limit Key 70000
node a: view[70000..80000] => over limit Key 70000
node a: view[9223372036854775808] => bad token at 13";

#[test]
fn keys_over_the_limit(rt: HostRuntime) -> Result<(), Fail> {
    expect_all(&rt, rt.alloc(), JOB_K, OF_VIEWS)
}

/// A full tree of this many nodes, level by level, with a name for each number from 1; nodes with numbers below `inner` have two
/// children.
fn levels(alloc: Global, inner: u32, nodes: u32) -> Result<String, AllocError> {
    let mut text = String::new(alloc);
    for number in 1..nodes.saturating_add(1) {
        if number < inner {
            let left = number.saturating_mul(2);
            let right = left.saturating_add(1);
            write!(text, "node n{number}: -> n{left} n{right}\n")?;
        } else {
            write!(text, "node n{number}:\n")?;
        }
    }
    Ok(text)
}

/// A chain of nodes down to a depth, each with a leaf beside the next.
fn chain(alloc: Global, depth: u32) -> Result<String, AllocError> {
    let mut text = String::new(alloc);
    for number in 0..depth {
        let next = number.saturating_add(1);
        write!(
            text,
            "node n{number}: -> n{next} leaf{next}\nnode leaf{next}:\n"
        )?;
    }
    write!(text, "node n{depth}:\n")?;
    Ok(text)
}

fn lines_of(alloc: Global, p: &Program, text: &str) -> Result<String, AllocError> {
    let said = said(alloc, p, text)?;
    if text.len() == said.len() {
        String::from_str(alloc, "a plan")
    } else {
        Ok(said)
    }
}

/// Whether a text is a plan of the job, or exceeds this limit.
fn expect_limit(rt: &impl Abort, alloc: Global, text: &str, wanted: &str) -> Result<(), Fail> {
    let p = read_job(alloc, JOB_J.as_bytes())?;
    assert_eq!(rt; lines_of(alloc, &p, text)?.as_str(), wanted);
    Ok(())
}

#[test]
fn nodes_and_depth(rt: HostRuntime) -> Result<(), Fail> {
    let alloc = rt.alloc();
    expect_limit(&rt, alloc, &levels(alloc, 64, 127)?, "a plan")?;
    expect_limit(&rt, alloc, &levels(alloc, 65, 129)?, "over limit Nodes 128")?;
    expect_limit(&rt, alloc, &chain(alloc, 6)?, "a plan")?;
    expect_limit(&rt, alloc, &chain(alloc, 7)?, "over limit Depth 7")
}

fn with_predicates(alloc: Global, count: u32) -> Result<String, AllocError> {
    let mut text = String::from_str(alloc, "node a: inc")?;
    for _ in 1..count {
        text.push_str(", inc")?;
    }
    text.push_str("\n")?;
    Ok(text)
}

#[test]
fn predicates(rt: HostRuntime) -> Result<(), Fail> {
    let alloc = rt.alloc();
    expect_limit(&rt, alloc, &with_predicates(alloc, 4096)?, "a plan")?;
    expect_limit(
        &rt,
        alloc,
        &with_predicates(alloc, 4097)?,
        "over limit Predicates 4097",
    )
}

/// The numbers of the itags that a predicate matches.
fn matched_by(alloc: Global, p: &Program, pred: &Pred) -> Result<String, AllocError> {
    let mut text = String::new(alloc);
    for number in 0..itag_count(p) {
        if matches(p, pred, Itag(number)) {
            write!(text, "{number} ")?;
        }
    }
    Ok(text)
}

/// The numbers of the itags that each predicate of a plan's nodes matches, with a slash after each.
fn matched(alloc: Global, p: &Program, text: &str) -> Result<String, AllocError> {
    let mut all = String::new(alloc);
    if let Ok(plan) = read_plan(alloc, p, text.as_bytes()) {
        for node in plan.nodes.items() {
            for pred in node.preds.items() {
                let numbers = matched_by(alloc, p, pred)?;
                all.push_str(&numbers)?;
                all.push_str("/")?;
            }
        }
    }
    Ok(all)
}

/// Plans, with the itags that their predicates match.
const MATCHES: &str = "node a: view[3] => 3 13 /
node a: view[3]@app => 13 /
node a: view[8..20] => 8 9 18 19 /
node a: view[9..8], view[9..9]@web => /9 /
node a: @clock, @app => 20 /10 11 12 13 14 15 16 17 18 19 /
node a: tick, tick[0], tick[0..9], view@clock => 20 ////
node a: view@web => 0 1 2 3 4 5 6 7 8 9 /";

#[test]
fn predicates_match_itags(rt: HostRuntime) -> Result<(), Fail> {
    let p = read_job(rt.alloc(), JOB_K.as_bytes()).expect(&rt, "a job");
    for line in MATCHES.split('\n') {
        let (text, wanted) = case_of(line);
        let found = matched(rt.alloc(), &p, text)?;
        assert_eq!(rt; found.as_str(), wanted, "{text}");
    }
    Ok(())
}
