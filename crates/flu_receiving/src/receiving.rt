//! A partial that is read.

ghost use Rattle.std.specs.Prelude.{◌≡◌, ◌⊎◌, ◌↔◌, List, [], IfOk, IfErr, IsTrue, MatchResult};
ghost use Rattle.std.specs.List.{AllByRecursion};
ghost use Rattle.flu_partial.specs.declared.order.Reached.TheVariants.{Head, End};
ghost use Rattle.flu_partial.specs.declared.values.Contribution.{Contribution};
ghost use Rattle.flu_partial.specs.declared.values.PartialHead.{PartialHead};
ghost use Rattle.flu_partial.specs.Forms.{IsHeadLine};
ghost use Rattle.flu_receiving.specs.declared.fault.PartialFault.{PartialFault};
ghost use Rattle.flu_receiving.specs.Receiving.{last_time, IsRead, IsReceived, IsSendableLine, IsWholePartial};
ghost use Rattle.flu_receiving.specs.Faults.{parts_of, IsFaultFrom, IsFirstFault, IsLineFault, IsUnread};
ghost use Rattle.flu_receiving.specs.Parts.{AreSent, IsTaken};

use crate::cutting::cut_line;
use crate::fault::{PartialFault, fault_at};
use flu_contribution::Handed;
use flu_handover::handed_of;
use flu_model::Program;
use flu_partial::{PartialHead, PartialLines, Place, read_contribution, read_head};
use std::alloc::Global;

/// What was read of a partial.
#[derive(Drop)]
pub struct Received {
    /// Whose it is, and from when on.
    pub head: PartialHead,
    /// What was sent, in order; the last one is to be joined at the end.
    pub sent: Vec<Handed>,
    /// The last time that the partial is of, as the line up to the end has it.
    pub last: Option<u64>,
}

// What was sent by a line, and the last time that it has.
#[derive(Drop)]
struct Taken {
    handed: Handed,
    last: Option<u64>,
}

// What was sent by the lines behind the head.
#[derive(Drop)]
struct Sent {
    sent: Vec<Handed>,
    last: Option<u64>,
}

// The last time that a place has.
fn last_time(place: Place) -> Option<u64>
    ensures { result ≡ last_time place }
{
    match place {
        Place::Before { .. } => None,
        Place::End { last } => last,
    }
}

// The head, of the first line.
fn read_first(alloc: Global, line: &[u8]) -> Result<PartialHead, PartialFault>
    ensures head { IfOk result (λ h. IsHeadLine h line.now) }
    ensures fault { IfErr result (λ e. (e ≡ PartialFault.NoMemory) ⊎ IsUnread IsHeadLine 1 line.now e) }
{
    match read_head(alloc, line) {
        Ok(head) => Ok(head),
        Err(fault) => Err(fault_at(1, fault)),
    }
}

// Takes the next line, if it is the line of something that a node of the job can have sent, and may come there.
fn take_line(
    alloc: Global,
    p: &Program,
    lines: &mut PartialLines,
    number: u64,
    line: &[u8],
) -> Result<Taken, PartialFault>
    ensures taken { IfOk result (IsTaken p.now lines.old lines.new line.now) }
    ensures fault { IfErr result (λ e. (e ≡ PartialFault.NoMemory) ⊎ IsLineFault p.now number lines.old line.now e) }
{
    let contribution = match read_contribution(alloc, line) {
        Ok(contribution) => contribution,
        Err(fault) => return Err(fault_at(number, fault)),
    };
    let Some(handed) = handed_of(alloc, p, &contribution)? else {
        return Err(PartialFault::WrongForm(number));
    };
    if lines.take(&contribution).is_err() {
        return Err(PartialFault::OutOfOrder(number));
    }
    Ok(Taken {
        handed,
        last: last_time(contribution.place),
    })
}

// Whether nothing is missing: the line up to the end came, and no part of a line is behind it.
fn is_complete(lines: &PartialLines, behind: &[u8]) -> bool
    ensures { IsTrue result ↔ ((behind.now ≡ []) × (lines.now ≡ End)) }
{
    behind.is_empty() && lines.end().is_ok()
}

// What was sent by the lines behind the head.
fn read_sent(alloc: Global, p: &Program, bytes: &[u8]) -> Result<Sent, PartialFault>
    ensures sent { IfOk result (AreSent p.now bytes.now) }
    ensures fault { IfErr result (λ e. (e ≡ PartialFault.NoMemory) ⊎ IsFaultFrom p.now 2 Head (parts_of bytes.now) e) }
{
    let mut lines = PartialLines::new();
    let mut sent = Vec::new(alloc);
    let mut last = None;
    let mut number = 2;
    let mut rest = bytes;
    'lines: while let Some(next) = cut_line(rest) {
        let taken = take_line(alloc, p, &mut lines, number, next.line)?;
        sent.push(taken.handed)?;
        last = taken.last;
        number += 1;
        rest = next.rest;
    }
    if is_complete(&lines, rest) {
        Ok(Sent { sent, last })
    } else {
        Err(PartialFault::Incomplete)
    }
}

/// Reads the bytes of a partial as what the nodes of a job can have sent. Whether its head names this job, this plan and a node of it is
/// for the caller to see.
///
/// # Errors
///
/// The first line that is not right, with the first of the reasons of `PartialFault` that applies, in their order; `NoMemory` if memory
/// runs out.
pub fn read_partial(alloc: Global, p: &Program, bytes: &[u8]) -> Result<Received, PartialFault>
    ensures whole { IfOk result (IsRead p.now bytes.now) }
    ensures found { (h : PartialHead) (cs : List Contribution) → IsWholePartial h cs bytes.now → AllByRecursion (IsSendableLine p.now) cs
        → MatchResult result (IsReceived p.now h cs) (λ e. e ≡ PartialFault.NoMemory) }
    ensures fault { IfErr result (λ e. (e ≡ PartialFault.NoMemory) ⊎ IsFirstFault p.now bytes.now e) }
{
    flu_partial::heads_have_one_text();
    flu_partial::contributions_have_one_text();
    let Some(first) = cut_line(bytes) else {
        return Err(PartialFault::Incomplete);
    };
    let head = read_first(alloc, first.line)?;
    let behind = read_sent(alloc, p, first.rest)?;
    Ok(Received {
        head,
        sent: behind.sent,
        last: behind.last,
    })
}
