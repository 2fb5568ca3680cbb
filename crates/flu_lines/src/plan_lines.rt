//! The lines of plans on err, which take no memory.

ghost use Rattle.std.specs.Prelude.{◌≤◌, ◌++◌, OnOk, OnErr};
ghost use Rattle.flu_outside.specs.Writing.{Writes};
ghost use Rattle.flu_valid.specs.declared.faults.Invalid.{Invalid};
ghost use Rattle.flu_lines.specs.Lines.{plan_line, plan_fault_text, owned_text, invalid_text, plan_defect_line};

use crate::lines::{write_over_limit, write_place};
use crate::names::{node_name, write_itag};
use crate::pieces::write_pieces;
use crate::refusals::PlanDefect;
use flu_model::{Itag, Plan, Program};
use flu_outside::{Failed, Sink};
use flu_plan::PlanFault;
use flu_report::write_all;
use flu_valid::Invalid;

// What the line for what is wrong with a plan begins with.
const PLAN: &[u8] = b"flumina: plan: ";

/// Writes the line of what is wrong with a plan.
pub fn write_plan_defect<E: Sink>(err: &mut E, defect: &PlanDefect) -> Result<(), Failed>
    ensures { Writes (plan_defect_line defect.now) (E.taken err.old) (E.taken err.new) (E.faults err.old) (E.faults err.new) result }
{
    match defect {
        PlanDefect::Text(fault, _) => write_plan_fault(err, fault),
        PlanDefect::Invalid(checked, fault) => {
            write_invalid(err, checked.program(), &fault.plan, fault.why)
        }
    }
}

// Writes the line of a fault in a plan text.
fn write_plan_fault<E: Sink>(err: &mut E, fault: &PlanFault) -> Result<(), Failed>
    ensures { Writes (plan_line (plan_fault_text fault.now)) (E.taken err.old) (E.taken err.new) (E.faults err.old) (E.faults err.new) result }
{
    match fault {
        PlanFault::BadToken { at } => write_place(err, PLAN, b"bad token at ", *at),
        PlanFault::Unexpected { at } => write_place(err, PLAN, b"unexpected at ", *at),
        PlanFault::UnknownName { at } => write_place(err, PLAN, b"unknown name at ", *at),
        PlanFault::NotATree { name } => write_not_a_tree(err, name.as_str().as_bytes()),
        PlanFault::OverLimit { what, count } => write_over_limit(err, PLAN, *what, *count),
        PlanFault::NoMemory => write_all(err, b"flumina: plan: no memory\n"),
    }
}

// Writes the line of nodes that are not a tree.
fn write_not_a_tree<E: Sink>(err: &mut E, name: &[u8]) -> Result<(), Failed>
    ensures { Writes (plan_line (plan_fault_text (PlanFault.NotATree name.now))) (E.taken err.old) (E.taken err.new) (E.faults err.old)
        (E.faults err.new) result }
{
    write_pieces(err, &[b"flumina: plan: not a tree at ", name, b"\n"])
}

// Writes the line of what keeps a plan from being valid for a job.
fn write_invalid<E: Sink>(
    err: &mut E,
    program: &Program,
    plan: &Plan,
    why: Invalid,
) -> Result<(), Failed>
    ensures { Writes (plan_line (invalid_text program.now plan.now.nodes why)) (E.taken err.old) (E.taken err.new) (E.faults err.old)
        (E.faults err.new) result }
{
    match why {
        Invalid::Unowned { itag } => write_unowned(err, program, plan, itag),
        Invalid::OwnedTwice { itag, a, b } => write_owned_twice(err, program, plan, itag, a, b),
        Invalid::Clash { a, i, b, j } => write_clash(err, program, plan, a, i, b, j),
    }
}

// Writes the line of an itag that no node owns.
fn write_unowned<E: Sink>(
    err: &mut E,
    program: &Program,
    plan: &Plan,
    itag: Itag,
) -> Result<(), Failed>
    ensures { Writes (plan_line (invalid_text program.now plan.now.nodes (Invalid.Unowned itag))) (E.taken err.old) (E.taken err.new) (E.faults err.old)
        (E.faults err.new) result }
{
    write_all(err, PLAN)?;
    write_itag(err, program, itag, b" has no owner\n")
}

// Writes the line of an itag that two nodes own.
fn write_owned_twice<E: Sink>(
    err: &mut E,
    program: &Program,
    plan: &Plan,
    itag: Itag,
    a: u32,
    b: u32,
) -> Result<(), Failed>
    ensures { Writes (plan_line (invalid_text program.now plan.now.nodes (Invalid.OwnedTwice itag a b))) (E.taken err.old) (E.taken err.new) (E.faults err.old)
        (E.faults err.new) result }
{
    let first = node_name(plan, a).as_bytes();
    let second = node_name(plan, b).as_bytes();
    write_all(err, PLAN)?;
    write_itag(err, program, itag, b" has two owners, ")?;
    write_pieces(err, &[first, b" and ", second, b"\n"])
}

// Writes the line of two itags of nodes that are not related.
fn write_clash<E: Sink>(
    err: &mut E,
    program: &Program,
    plan: &Plan,
    a: u32,
    i: Itag,
    b: u32,
    j: Itag,
) -> Result<(), Failed>
    ensures { Writes (plan_line (invalid_text program.now plan.now.nodes (Invalid.Clash a i b j))) (E.taken err.old) (E.taken err.new) (E.faults err.old)
        (E.faults err.new) result }
{
    write_all(err, b"flumina: plan: clash of ")?;
    write_owned(err, program, plan, i, a, b" and ")?;
    write_owned(err, program, plan, j, b, b"\n")
}

// Writes an itag with a node that owns it, and what comes after them.
fn write_owned<E: Sink>(
    err: &mut E,
    program: &Program,
    plan: &Plan,
    itag: Itag,
    node: u32,
    behind: &[u8],
) -> Result<(), Failed>
    ensures { Writes (owned_text program.now plan.now.nodes itag node ++ behind.now) (E.taken err.old) (E.taken err.new) (E.faults err.old)
        (E.faults err.new) result }
{
    let name = node_name(plan, node).as_bytes();
    write_itag(err, program, itag, b" at ")?;
    write_pieces(err, &[name, behind])
}
