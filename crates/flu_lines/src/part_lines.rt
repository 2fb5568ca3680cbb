//! The lines on err of part commands, which take no memory (`docs/LANGUAGE.md`).

ghost use Rattle.std.specs.Prelude.{◌≡◌, ◌++◌, codes, OnOk, OnErr};
ghost use Rattle.std.specs.Fmt.{decimal};
ghost use Rattle.flu_outside.specs.Writing.{Writes};
ghost use Rattle.flu_model.specs.Reports.{text_of_tag, text_of_cell};
ghost use Rattle.flu_lines.specs.Lines.{plan_line, IsSaid};
ghost use Rattle.flu_lines.specs.Names.{node_name};
ghost use Rattle.flu_lines.specs.PartAnswer.{line_of_part};
ghost use Rattle.flu_lines.specs.PartLines.{reason_text, not_apart_text, node_defect_line, text_fault_text, partial_defect_text, file_defect_text};
ghost use Rattle.flu_lines.specs.PartLines.{file_defect_line};

use crate::lines::write_line;
use crate::names::{node_name, source_name, write_cell, write_tag};
use crate::parts::{FileDefect, NodeDefect, PartRefusal};
use crate::pieces::{digits_of, write_pieces};
use flu_apart::{Reason, SharedUse};
use flu_combine::PartialDefect;
use flu_model::{Plan, Program};
use flu_outside::{Failed, Sink};
use flu_receiving::PartialFault;
use flu_report::write_all;
use itoa::Buffer;

/// Says on err why a part command was not done, in a line that takes no memory.
pub fn say_part<E: Sink>(err: &mut E, refusal: &PartRefusal<'_>)
    ensures { IsSaid (line_of_part refusal.now) (E.taken err.old) (E.taken err.new) (E.faults err.old) (E.faults err.new) }
{
    match write_part_line(err, refusal) {
        Ok(()) => (),
        Err(_) => (),
    }
}

// Writes the line of a refusal.
fn write_part_line<E: Sink>(err: &mut E, refusal: &PartRefusal<'_>) -> Result<(), Failed>
    ensures { Writes (line_of_part refusal.now) (E.taken err.old) (E.taken err.new) (E.faults err.old) (E.faults err.new) result }
{
    match refusal {
        PartRefusal::Command(refusal) => write_line(err, refusal),
        PartRefusal::Node(checked, valid, name, why) => {
            write_node_defect(err, checked.program(), valid.plan(), name, *why)
        }
        PartRefusal::File(checked, valid, name, why) => {
            write_file_defect(err, checked.program(), valid.plan(), name, *why)
        }
    }
}

// Writes the line of what is wrong with the node that is named.
fn write_node_defect<E: Sink>(
    err: &mut E,
    program: &Program,
    plan: &Plan,
    name: &str,
    why: NodeDefect,
) -> Result<(), Failed>
    ensures { Writes (node_defect_line program.now plan.now.nodes name.now why) (E.taken err.old) (E.taken err.new) (E.faults err.old)
        (E.faults err.new) result }
{
    match why {
        NodeDefect::Unknown => {
            write_pieces(err, &[b"flumina: plan: no node ", name.as_bytes(), b"\n"])
        }
        NodeDefect::NotApart(node, reason) => {
            write_plan_not_apart(err, program, plan, node, reason)
        }
    }
}

// Writes the line of a node that may not be apart.
fn write_plan_not_apart<E: Sink>(
    err: &mut E,
    program: &Program,
    plan: &Plan,
    node: u32,
    reason: Reason,
) -> Result<(), Failed>
    ensures { Writes (plan_line (not_apart_text program.now plan.now.nodes node reason)) (E.taken err.old) (E.taken err.new) (E.faults err.old)
        (E.faults err.new) result }
{
    write_all(err, b"flumina: plan: ")?;
    write_not_apart(err, program, plan, node, reason)
}

// Writes why a node may not be apart, up to the end of the line.
fn write_not_apart<E: Sink>(
    err: &mut E,
    program: &Program,
    plan: &Plan,
    node: u32,
    reason: Reason,
) -> Result<(), Failed>
    ensures { Writes (not_apart_text program.now plan.now.nodes node reason ++ codes "\n") (E.taken err.old) (E.taken err.new) (E.faults err.old)
        (E.faults err.new) result }
{
    let name = node_name(plan, node).as_bytes();
    write_pieces(err, &[name, b" can't be apart: "])?;
    write_reason(err, program, reason)
}

// Writes a clock, or a tag and a cell, by which a node can't be apart, up to the end of the line.
fn write_reason<E: Sink>(err: &mut E, program: &Program, reason: Reason) -> Result<(), Failed>
    ensures { Writes (reason_text program.now reason ++ codes "\n")
        (E.taken err.old) (E.taken err.new) (E.faults err.old) (E.faults err.new) result }
{
    match reason {
        Reason::Clock(number) => {
            let name = source_name(program, number).as_bytes();
            write_pieces(err, &[b"clock ", name, b"\n"])
        }
        Reason::Shared(shared) => write_shared(err, program, shared),
    }
}

// Writes a tag and a cell that is shared, up to the end of the line.
fn write_shared<E: Sink>(err: &mut E, program: &Program, shared: SharedUse) -> Result<(), Failed>
    ensures { Writes (text_of_tag program.now shared.tag ++ codes " on " ++ text_of_cell program.now shared.cell ++ codes "\n")
        (E.taken err.old) (E.taken err.new) (E.faults err.old) (E.faults err.new) result }
{
    write_tag(err, program, shared.tag, b" on ")?;
    write_cell(err, program, shared.cell, b"\n")
}

// Writes the line of what is wrong with a file.
fn write_file_defect<E: Sink>(
    err: &mut E,
    program: &Program,
    plan: &Plan,
    name: &str,
    why: FileDefect,
) -> Result<(), Failed>
    ensures { Writes (file_defect_line program.now plan.now.nodes name.now why) (E.taken err.old) (E.taken err.new) (E.faults err.old)
        (E.faults err.new) result }
{
    let bytes = name.as_bytes();
    write_pieces(err, &[b"flumina: partial ", bytes, b": "])?;
    write_file_text(err, program, plan, why)
}

// Writes what is wrong with a file, up to the end of the line.
fn write_file_text<E: Sink>(
    err: &mut E,
    program: &Program,
    plan: &Plan,
    why: FileDefect,
) -> Result<(), Failed>
    ensures { Writes (file_defect_text program.now plan.now.nodes why ++ codes "\n") (E.taken err.old) (E.taken err.new) (E.faults err.old)
        (E.faults err.new) result }
{
    match why {
        FileDefect::SameName(source) => {
            let name = source_name(program, source).as_bytes();
            write_pieces(err, &[b"same as source ", name, b"\n"])
        }
        FileDefect::Partial(defect) => write_partial_text(err, program, plan, defect),
    }
}

// Writes what is wrong with a partial, up to the end of the line.
fn write_partial_text<E: Sink>(
    err: &mut E,
    program: &Program,
    plan: &Plan,
    defect: PartialDefect,
) -> Result<(), Failed>
    ensures { Writes (partial_defect_text program.now plan.now.nodes defect ++ codes "\n") (E.taken err.old) (E.taken err.new) (E.faults err.old)
        (E.faults err.new) result }
{
    match defect {
        PartialDefect::TooLong => write_all(err, b"over limit bytes 536870913\n"),
        PartialDefect::Text(fault) => write_text_fault(err, fault),
        PartialDefect::OtherJob => write_all(err, b"other job\n"),
        PartialDefect::OtherPlan => write_all(err, b"other plan\n"),
        PartialDefect::UnknownNode => write_all(err, b"unknown node\n"),
        PartialDefect::NotApart(node, reason) => {
            write_node_not_apart(err, program, plan, node, reason)
        }
        PartialDefect::Twice(node) => write_twice(err, plan, node),
        PartialDefect::Within(inner, outer) => write_within(err, plan, inner, outer),
        PartialDefect::WrongTimes => write_all(err, b"wrong times\n"),
        PartialDefect::LeftOver => write_all(err, b"left over\n"),
    }
}

// Writes why bytes are no partial, up to the end of the line.
fn write_text_fault<E: Sink>(err: &mut E, fault: PartialFault) -> Result<(), Failed>
    ensures { Writes (text_fault_text fault ++ codes "\n") (E.taken err.old) (E.taken err.new) (E.faults err.old) (E.faults err.new) result }
{
    match fault {
        PartialFault::OverLimit(_) => write_all(err, b"over limit bytes 536870913\n"),
        PartialFault::NotJson(line) => write_at_line(err, b"not json at line ", line),
        PartialFault::WrongForm(line) => write_at_line(err, b"wrong form at line ", line),
        PartialFault::OutOfOrder(line) => write_at_line(err, b"out of order at line ", line),
        PartialFault::Incomplete => write_all(err, b"incomplete\n"),
        PartialFault::NoMemory => write_all(err, b"no memory\n"),
    }
}

// Writes what is wrong and the number of the line of which it is, up to the end of the line on err.
fn write_at_line<E: Sink>(err: &mut E, fault: &[u8], line: u64) -> Result<(), Failed>
    ensures { Writes (fault.now ++ decimal line ++ codes "\n") (E.taken err.old) (E.taken err.new) (E.faults err.old) (E.faults err.new) result }
{
    let mut buffer = Buffer::new();
    let digits = digits_of(&mut buffer, line);
    write_pieces(err, &[fault, digits, b"\n"])
}

// Writes that a partial's node may not be apart, up to the end of the line.
fn write_node_not_apart<E: Sink>(
    err: &mut E,
    program: &Program,
    plan: &Plan,
    node: u32,
    reason: Reason,
) -> Result<(), Failed>
    ensures { Writes (codes "node " ++ not_apart_text program.now plan.now.nodes node reason ++ codes "\n") (E.taken err.old) (E.taken err.new)
        (E.faults err.old) (E.faults err.new) result }
{
    write_all(err, b"node ")?;
    write_not_apart(err, program, plan, node, reason)
}

// Writes that two partials are of one node, up to the end of the line.
fn write_twice<E: Sink>(err: &mut E, plan: &Plan, node: u32) -> Result<(), Failed>
    ensures { Writes (codes "node " ++ node_name plan.now.nodes node ++ codes " twice" ++ codes "\n") (E.taken err.old) (E.taken err.new)
        (E.faults err.old) (E.faults err.new) result }
{
    let name = node_name(plan, node).as_bytes();
    write_pieces(err, &[b"node ", name, b" twice\n"])
}

// Writes that the node of a partial is within that of another, up to the end of the line.
fn write_within<E: Sink>(err: &mut E, plan: &Plan, inner: u32, outer: u32) -> Result<(), Failed>
    ensures { Writes (codes "node " ++ node_name plan.now.nodes inner ++ codes " within " ++ node_name plan.now.nodes outer ++ codes "\n")
        (E.taken err.old) (E.taken err.new) (E.faults err.old) (E.faults err.new) result }
{
    let below = node_name(plan, inner).as_bytes();
    let above = node_name(plan, outer).as_bytes();
    write_pieces(err, &[b"node ", below, b" within ", above, b"\n"])
}
