//! The lines of a partial, printed.

ghost use Rattle.std.specs.Prelude.{◌≡◌, ◌≤◌, ◌++◌, false, map, length, IfOk, OnOk, OnErr};
ghost use Rattle.std.specs.String.{string_bytes};
ghost use Rattle.serde_json.specs.Data.{array};
ghost use Rattle.serde_json.specs.View.{items_of, view};
ghost use Rattle.serde_json.specs.Written.{has_float};
ghost use Rattle.flu_partial.specs.Partial.{amount_value, emitted_value, head_text, contribution_text, line_of};
ghost use Rattle.flu_partial.specs.Pieces.{place_piece};

use crate::lines::{push_member, push_number, push_text, push_time};
use crate::values::{Amount, Contribution, Emitted, PartialHead, Place};
use serde_json::{Value, json};
use std::alloc::{AllocError, Global};

// The text of a head, without its line feed.
pub(crate) fn head_string(alloc: Global, head: &PartialHead) -> Result<String, AllocError>
    ensures { IfOk result (λ s. string_bytes s ≡ head_text head.now) }
{
    let mut out = String::new(alloc);
    push_time(&mut out, alloc, "{", "first", head.first)?;
    push_text(&mut out, alloc, ",", "job", head.job.as_str())?;
    push_text(&mut out, alloc, ",", "node", head.node.as_str())?;
    push_text(&mut out, alloc, ",", "plan", head.plan.as_str())?;
    out.push_str("}")?;
    Ok(out)
}

/// Appends the line of a head: one JSON object without blanks, with the members `first`, a time or `null`; `job`, the job in normal
/// form; `node`, a name; and `plan`, the plan in normal form; and a line feed.
///
/// # Errors
///
/// Only if memory runs out; nothing is appended then.
pub fn push_head(alloc: Global, out: &mut Vec<u8>, head: &PartialHead) -> Result<(), AllocError>
    ensures ok { OnOk result (out.new.items ≡ out.old.items ++ line_of (head_text head.now)) }
    ensures err { OnErr result (out.new.items ≡ out.old.items) }
{
    let mut text = head_string(alloc, head)?;
    text.push_str("\n")?;
    out.extend_from_slice(text.as_bytes())
}

fn amount_value(alloc: Global, amount: Amount) -> Result<Value, AllocError>
    ensures { IfOk result (λ v. view v ≡ amount_value amount) }
{
    let number = amount.value;
    let text = format!(in alloc; "{number}")?;
    json!(in alloc; [amount.cell.family, amount.cell.key, text])
}

// The list of amounts.
fn amounts_value(alloc: Global, amounts: &[Amount]) -> Result<Value, AllocError>
    ensures value { IfOk result (λ v. view v ≡ array (items_of (map amount_value amounts.now))) }
    ensures exact { IfOk result (λ v. has_float (view v) ≡ false) }
{
    let mut values = Vec::new(alloc);
    for amount in amounts {
        let value = amount_value(alloc, *amount)?;
        values.push(value)?;
    }
    Ok(Value::Array(values))
}

fn emitted_value(alloc: Global, out: &Emitted) -> Result<Value, AllocError>
    ensures { IfOk result (λ v. view v ≡ emitted_value out.now) }
{
    json!(in alloc; [out.time, out.tag.as_str(), out.text.as_str()])
}

// The list of the texts that were emitted.
fn outs_value(alloc: Global, outs: &[Emitted]) -> Result<Value, AllocError>
    ensures value { IfOk result (λ v. view v ≡ array (items_of (map emitted_value outs.now))) }
    ensures exact { IfOk result (λ v. has_float (view v) ≡ false) }
{
    let mut entries = Vec::new(alloc);
    for out in outs {
        let entry = emitted_value(alloc, out)?;
        entries.push(entry)?;
    }
    Ok(Value::Array(entries))
}

// The members of a place.
fn push_place(out: &mut String, alloc: Global, place: Place) -> Result<(), AllocError>
    ensures { OnOk result (string_bytes out.new ≡ string_bytes out.old ++ place_piece place) }
{
    match place {
        Place::Before { time, itag } => {
            push_number(out, alloc, ",", "time", time)?;
            push_number(out, alloc, ",", "itag", u64::from(itag.0))
        }
        Place::End { last } => push_time(out, alloc, ",", "last", last),
    }
}

// The text of a contribution, without its line feed.
pub(crate) fn contribution_string(
    alloc: Global,
    contribution: &Contribution,
) -> Result<String, AllocError>
    ensures { IfOk result (λ s. string_bytes s ≡ contribution_text contribution.now) }
{
    let cells = amounts_value(alloc, contribution.cells.items())?;
    let outs = outs_value(alloc, contribution.outs.items())?;
    let mut out = String::new(alloc);
    push_member(&mut out, alloc, "{", "cells", &cells)?;
    push_number(&mut out, alloc, ",", "events", contribution.events)?;
    push_member(&mut out, alloc, ",", "outs", &outs)?;
    push_place(&mut out, alloc, contribution.place)?;
    out.push_str("}")?;
    Ok(out)
}

/// Appends the line of a contribution: one JSON object without blanks, with the members `cells`, a list with an entry
/// `[FAMILY,KEY,"VALUE"]` for each amount; `events`, a number; `outs`, a list with an entry `[TIME,"TAG","TEXT"]` for each text that was
/// emitted; `time` and `itag`, or, for the end, `last`, a time or `null`; and a line feed.
///
/// # Errors
///
/// Only if memory runs out; nothing is appended then.
pub fn push_contribution(
    alloc: Global,
    out: &mut Vec<u8>,
    contribution: &Contribution,
) -> Result<(), AllocError>
    ensures ok { OnOk result (out.new.items ≡ out.old.items ++ line_of (contribution_text contribution.now)) }
    ensures err { OnErr result (out.new.items ≡ out.old.items) }
{
    let mut text = contribution_string(alloc, contribution)?;
    text.push_str("\n")?;
    out.extend_from_slice(text.as_bytes())
}
