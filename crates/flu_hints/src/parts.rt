//! What helps if a part command was not done: the node that it names, or a partial, has a defect.

use crate::hints::refusal_hint;
use crate::places::push_line;
use crate::reasons::Failure;
use crate::row_reasons::has_clocks;
use crate::words::word_at;
use flu_apart::Reason;
use flu_combine::PartialDefect;
use flu_lines::{FileDefect, NodeDefect, PartRefusal};
use flu_model::{Node, Plan, Program};
use flu_receiving::PartialFault;
use std::alloc::{AllocError, Global};
use std::rt;

/// The most names of nodes that are shown.
const MOST_SHOWN: usize = 64;

/// The most nodes above a node.
const MOST_ABOVE: usize = 6;

/// The place of the first partial in the words of `combine`.
const FIRST_PARTIAL: usize = 3;

/// What keeps a node from being apart.
const SHARED: &str =
    "a tag of the node or of one below it reads or owns that cell, and a tag of another node uses it too";

/// What keeps a node from being apart where it or one below it owns what a clock ticks.
const CLOCK: &str =
    "a clock ticks behind the rows of all sources, of which a process of its own reads only some";

/// What to do then.
const LEAVE_THE_CLOCK: &str =
    "let combine make the ticks: take nodes below the one that owns the clock, or a plan in which a node above owns it";

/// What a person who sees that a part command was refused may want to know; empty if nothing is known.
///
/// `failure` is what failed, if a file or a stream did.
pub fn part_hint<R: rt::Files + AllocGlobal>(
    rt: &R,
    words: &[String],
    refusal: &PartRefusal<'_>,
    failure: Option<Failure>,
) -> Result<String, AllocError> {
    match refusal {
        PartRefusal::Command(refusal) => refusal_hint(rt, words, refusal, failure),
        PartRefusal::Node(checked, valid, _, why) => {
            node_hint(rt.alloc(), checked.program(), valid.plan(), *why)
        }
        PartRefusal::File(checked, valid, name, why) => file_hint(
            rt.alloc(),
            words,
            checked.program(),
            valid.plan(),
            name,
            *why,
        ),
    }
}

// What helps with the node that `partial` names.
fn node_hint(
    alloc: Global,
    program: &Program,
    plan: &Plan,
    why: NodeDefect,
) -> Result<String, AllocError> {
    let mut told = String::new(alloc);
    match why {
        NodeDefect::Unknown => push_nodes(alloc, &mut told, plan)?,
        NodeDefect::NotApart(node, why) => {
            push_not_apart(alloc, &mut told, program, plan, node, why)?
        }
    }
    Ok(told)
}

// What helps with a file that `combine` names.
fn file_hint(
    alloc: Global,
    words: &[String],
    program: &Program,
    plan: &Plan,
    name: &str,
    why: FileDefect,
) -> Result<String, AllocError> {
    let mut told = String::new(alloc);
    match why {
        FileDefect::SameName(_) => push_line(
            &mut told,
            "that file has rows, which combine reads by itself: a FILE is what flumina partial wrote",
        )?,
        FileDefect::Partial(defect) => {
            push_partial(alloc, &mut told, words, program, plan, name, defect)?
        }
    }
    Ok(told)
}

// Appends what a partial is that can't be combined, and what to do.
fn push_partial(
    alloc: Global,
    told: &mut String,
    words: &[String],
    program: &Program,
    plan: &Plan,
    name: &str,
    defect: PartialDefect,
) -> Result<(), AllocError> {
    match defect {
        PartialDefect::TooLong | PartialDefect::Text(PartialFault::OverLimit(_)) => {
            return push_line(
                told,
                "a partial has at most 536870912 bytes: let nodes below its node be apart in its place",
            );
        }
        PartialDefect::Text(fault) => push_fault(told, fault)?,
        PartialDefect::OtherJob => push_line(told, "it was written with another job")?,
        PartialDefect::OtherPlan => push_line(told, "it was written with another plan")?,
        PartialDefect::UnknownNode => {
            push_line(told, "it names this plan, which has no node of that name")?;
            push_nodes(alloc, told, plan)?;
        }
        PartialDefect::NotApart(node, why) => {
            push_not_apart(alloc, told, program, plan, node, why)?
        }
        PartialDefect::Twice(_) => {
            push_line(
                told,
                "a node has one partial: leave out this FILE or the other",
            )?;
            return push_earlier(alloc, told, words, name);
        }
        PartialDefect::Within(_, _) => {
            push_line(
                told,
                "the partial of a node has what the nodes below it send: leave out this FILE or the other",
            )?;
            return push_earlier(alloc, told, words, name);
        }
        PartialDefect::WrongTimes => push_line(
            told,
            "its first and its last time, between which clocks tick, don't go together: the file was changed",
        )?,
        PartialDefect::LeftOver => push_line(
            told,
            "it was written when the sources that combine reads had other rows",
        )?,
    }
    push_writing(alloc, told, words, name)
}

// Appends what a file is whose bytes are no partial.
fn push_fault(told: &mut String, fault: PartialFault) -> Result<(), AllocError> {
    match fault {
        PartialFault::NotJson(1) | PartialFault::WrongForm(1) => push_line(
            told,
            "the first line is not that of a partial: this is another file, or it was changed",
        ),
        PartialFault::NotJson(_) | PartialFault::WrongForm(_) => {
            push_line(told, "no node sends such a line: the file was changed")
        }
        PartialFault::OutOfOrder(_) => push_line(
            told,
            "that line can't follow the one before it: the file was changed",
        ),
        PartialFault::Incomplete => push_line(
            told,
            "the file was cut off, or flumina partial has not ended yet",
        ),
        PartialFault::OverLimit(_) | PartialFault::NoMemory => Ok(()),
    }
}

// Appends how the partial is written anew.
fn push_writing(
    alloc: Global,
    told: &mut String,
    words: &[String],
    name: &str,
) -> Result<(), AllocError> {
    let job = word_at(words, 1);
    let plan = word_at(words, 2);
    let line = format!(in alloc; "write it again: flumina partial {job} {plan} NODE > {name}")?;
    push_line(told, line.as_str())
}

// Appends which partials came before the one with a name.
fn push_earlier(
    alloc: Global,
    told: &mut String,
    words: &[String],
    name: &str,
) -> Result<(), AllocError> {
    let mut line = String::from_str(alloc, "the FILEs before it: ")?;
    let mut is_first = true;
    for word in words.iter().skip(FIRST_PARTIAL) {
        if word.as_str() == name {
            break;
        }
        push_name(&mut line, &mut is_first, word.as_str())?;
    }
    push_line(told, line.as_str())
}

// Appends the names of a plan's nodes.
fn push_nodes(alloc: Global, told: &mut String, plan: &Plan) -> Result<(), AllocError> {
    let nodes = plan.nodes.items();
    let mut line = String::from_str(alloc, "the nodes of the plan: ")?;
    let mut is_first = true;
    for node in nodes.iter().take(MOST_SHOWN) {
        push_name(&mut line, &mut is_first, node.name.as_str())?;
    }
    let more = nodes.len().saturating_sub(MOST_SHOWN);
    if more > 0 {
        let rest = format!(in alloc; ", and {more} more")?;
        line.push_str(rest.as_str())?;
    }
    push_line(told, line.as_str())
}

// Appends what it means that a node may not be apart, and what to do.
fn push_not_apart(
    alloc: Global,
    told: &mut String,
    program: &Program,
    plan: &Plan,
    node: u32,
    why: Reason,
) -> Result<(), AllocError> {
    match why {
        Reason::Clock(_) => {
            push_line(told, CLOCK)?;
            push_line(told, LEAVE_THE_CLOCK)
        }
        Reason::Shared(_) => {
            push_line(told, SHARED)?;
            let is_other = push_above(alloc, told, program, plan, node)?;
            push_line(
                told,
                if is_other {
                    "or let the tags of the node and those below it only add to the cell or raise it"
                } else {
                    "let the tags of the node and those below it only add to the cell or raise it"
                },
            )
        }
    }
}

// Appends which nodes are above a node that shares a cell, and says whether there are any. The root may always be apart, but in a job with a clock it
// never is.
fn push_above(
    alloc: Global,
    told: &mut String,
    program: &Program,
    plan: &Plan,
    node: u32,
) -> Result<bool, AllocError> {
    let is_clocked = has_clocks(program);
    let begun = if is_clocked {
        "try a node above it, if no clock is owned there or below: "
    } else {
        "try a node above it, of which the root may always be apart: "
    };
    let mut line = String::from_str(alloc, begun)?;
    let mut is_first = true;
    let mut below = node;
    for _ in 0..MOST_ABOVE {
        let Some((number, above)) = parent_of(plan, below) else {
            break;
        };
        if is_clocked && parent_of(plan, number).is_none() {
            break;
        }
        push_name(&mut line, &mut is_first, above.name.as_str())?;
        below = number;
    }
    if is_first {
        return Ok(false);
    }
    push_line(told, line.as_str())?;
    Ok(true)
}

// The node right above a node, with its number.
fn parent_of(plan: &Plan, node: u32) -> Option<(u32, &Node)> {
    let mut number = 0u32;
    for above in plan.nodes.items() {
        if let Some((left, right)) = above.kids {
            if left == node || right == node {
                return Some((number, above));
            }
        }
        number = number.saturating_add(1);
    }
    None
}

// Appends one more name to a list of names.
fn push_name(line: &mut String, is_first: &mut bool, name: &str) -> Result<(), AllocError> {
    line.push_str(if *is_first { "" } else { ", " })?;
    line.push_str(name)?;
    *is_first = false;
    Ok(())
}
