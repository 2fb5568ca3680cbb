//! A checkpoint that is read.

ghost use Rattle.std.specs.Prelude.{◌≡◌, ◌<◌, ◌≤◌, ◌^◌, ◌⊎◌, ◌↔◌, ℕ, map, codes, option_map, option_and_then, Some, IfOk, IfErr, IfSome, IfNone, OnOk, IsTrue};
ghost use Rattle.std.specs.Prelude.{MatchResult};
ghost use Rattle.flu_cells.specs.Holding.{held};
ghost use Rattle.flu_model.specs.Contents.{Contents, with_worth, key_count};
ghost use Rattle.flu_model.specs.Erasure.{job_of};
ghost use Rattle.flu_parse.specs.Printing.{normal_form};
ghost use Rattle.serde_json.specs.Data.{Data, depth};
ghost use Rattle.serde_json.specs.Events.{members_len};
ghost use Rattle.serde_json.specs.Find.{get, as_array, as_number, as_object, as_str, as_u64};
ghost use Rattle.serde_json.specs.Read.{max_depth};
ghost use Rattle.serde_json.specs.View.{view, items_view};
ghost use Rattle.flu_save.specs.declared.fault.SaveFault.{SaveFault};
ghost use Rattle.flu_save.specs.Checkpoint.{entries_of, checkpoint, IsSavable, IsCheckpoint};
ghost use Rattle.flu_save.specs.Forms.{IsJsonOf, HasParts, HasForm, IsSave, IsFaultOf};
ghost use Rattle.flu_save.specs.Parts.{IsProper, IsStateWith, IsSavedWith};

use crate::entries::cell_in;
use crate::fault::SaveFault;
use crate::saving::save_text;
use flu_cells::State;
use flu_model::{Cell, Program, Worth};
use flu_parse::print_job;
use serde_json::Value;
use std::alloc::{AllocError, Global};

const MOST_BYTES: usize = 536_870_912;

const MOST_BORDER: u64 = i64::MAX as u64;

/// What a checkpoint holds.
#[derive(Drop)]
pub struct Saved {
    /// Up to which time events are in the state, from 0 to 2^63 - 1.
    pub border: u64,
    /// What the cells hold then.
    pub state: State,
}

// The three members of a checkpoint.
#[derive(Clone, Copy)]
struct Parts<'v> {
    border: u64,
    entries: &'v [Value],
    job: &'v str,
}

// The JSON value of a text.
fn value_of(alloc: Global, bytes: &[u8]) -> Result<Value, SaveFault>
    ensures json { IfOk result (λ v. IsJsonOf bytes.now (view v)) }
    ensures depth { IfOk result (λ v. depth (view v) ≤ max_depth) }
    ensures fault { IfErr result (λ e. (e ≡ SaveFault.NoMemory)
        ⊎ ((e ≡ SaveFault.NotJson) × ((d : Data) → IsJsonOf bytes.now d → ⊥))) }
{
    match Value::from_slice(alloc, bytes) {
        Ok(value) => Ok(value),
        Err(e) if e.is_memory() => Err(SaveFault::NoMemory),
        Err(_) => Err(SaveFault::NotJson),
    }
}

fn border_in(value: &Value) -> Option<u64>
    ensures { result ≡ option_and_then as_u64 (option_and_then as_number (get (codes "border") (view value.now))) }
{
    value.get("border").and_then(Value::as_u64)
}

fn entries_in(value: &Value) -> Option<&Vec<Value>>
    ensures { option_map (λ v. items_view v.now.items) result ≡ option_and_then as_array (get (codes "cells") (view value.now)) }
{
    value.get("cells").and_then(Value::as_array)
}

fn job_in(value: &Value) -> Option<&str>
    ensures { option_map (λ s. s.now) result ≡ option_and_then as_str (get (codes "job") (view value.now)) }
{
    value.get("job").and_then(Value::as_str)
}

// Whether a value is an object of three members.
fn has_three_members(value: &Value) -> bool
    ensures { IsTrue result ↔ (option_map members_len (as_object (view value.now)) ≡ Some 3) }
{
    match value.as_object() {
        Some(members) => members.len() == 3,
        None => false,
    }
}

// The members of a value, if it is an object with just the three of a checkpoint.
fn parts_of(value: &Value) -> Option<Parts<'_>>
    ensures some { IfSome result (λ r. HasParts (view value.now) r.border (items_view r.entries.now) r.job.now) }
    ensures none { IfNone result (HasForm (view value.now) → ⊥) }
{
    let border = border_in(value)?;
    let entries = entries_in(value)?;
    let job = job_in(value)?;
    if border <= MOST_BORDER && has_three_members(value) {
        Some(Parts {
            border,
            entries: entries.as_slice(),
            job,
        })
    } else {
        None
    }
}

// Makes a cell hold a value that is not neutral.
fn put(state: &mut State, cell: Cell, worth: Worth) -> Result<(), AllocError>
    requires key { cell.key < key_count }
    requires proper { IsProper worth }
    ensures { OnOk result (held state.new ≡ with_worth (held state.old) cell (Some worth)) }
{
    state.clear(cell);
    match worth {
        Worth::Sum(n) => state.add(cell, n),
        Worth::Max(v) => state.raise(cell, v),
        Worth::Last(v) => state.put(cell, v),
    }
}

// The state of a list of entries. Of two entries of one cell the last one counts.
fn state_of(alloc: Global, p: &Program, entries: &[Value]) -> Result<Option<State>, AllocError>
    ensures savable { IfOk result (λ o. IfSome o (λ t. IsSavable p.now.families (held t))) }
    ensures found { (s : Contents) → IsSavable p.now.families s → map view entries.now ≡ entries_of p.now.families s
        → IfOk result (λ o. IsStateWith o s) }
{
    let mut state = State::new(alloc);
    for entry in entries {
        let Some((cell, worth)) = cell_in(p, entry) else {
            return Ok(None);
        };
        put(&mut state, cell, worth)?;
    }
    Ok(Some(state))
}

// Whether a value is the checkpoint of a border and a state: it is if both have the same text.
fn is_value_of(
    alloc: Global,
    value: &Value,
    p: &Program,
    border: u64,
    state: &State,
) -> Result<bool, AllocError>
    requires border { border < 2 ^ 63 }
    requires depth { depth (view value.now) ≤ max_depth }
    ensures { IfOk result (λ b. IsTrue b ↔ (view value.now ≡ checkpoint p.now border (held state.now))) }
{
    let saved = save_text(alloc, p, border, state)?;
    let text = value.to_vec(alloc)?;
    Ok(saved.as_slice() == text.as_slice())
}

// What a checkpoint of the job holds; none where the value is no such checkpoint.
fn saved_in(
    alloc: Global,
    value: &Value,
    p: &Program,
    parts: Parts<'_>,
) -> Result<Option<Saved>, AllocError>
    requires depth { depth (view value.now) ≤ max_depth }
    requires parts { HasParts (view value.now) parts.border (items_view parts.entries.now) parts.job.now }
    ensures some { IfOk result (λ o. IfSome o (λ saved. IsCheckpoint p.now saved.border (held saved.state) (view value.now))) }
    ensures found { (t : ℕ) (s : Contents) → IsCheckpoint p.now t s (view value.now) → IfOk result (λ o. IsSavedWith o t s) }
{
    let border = parts.border;
    let Some(state) = state_of(alloc, p, parts.entries)? else {
        return Ok(None);
    };
    if is_value_of(alloc, value, p, border, &state)? {
        Ok(Some(Saved { border, state }))
    } else {
        Ok(None)
    }
}

/// What a checkpoint of a job holds, from its text, with blanks or without: a border from 0 to 2^63 - 1, and a state of the
/// job's sorts. What `save_text` wrote of a border and such a state is read as them, if it has at most 536,870,912 bytes.
///
/// # Errors
///
/// The first of those of `SaveFault` that applies, in their order; and `NoMemory` if memory runs out.
pub fn read_save(alloc: Global, p: &Program, bytes: &[u8]) -> Result<Saved, SaveFault>
    ensures saved { IfOk result (λ saved. IsSave p.now saved.border (held saved.state) bytes.now) }
    ensures fault { IfErr result (IsFaultOf p.now bytes.now) }
    ensures found { (t : ℕ) (s : Contents) → IsSave p.now t s bytes.now
        → MatchResult result (λ saved. (saved.border ≡ t) × (held saved.state ≡ s)) (λ e. e ≡ SaveFault.NoMemory) }
{
    if bytes.len() > MOST_BYTES {
        return Err(SaveFault::OverLimit {
            count: MOST_BYTES as u64 + 1,
        });
    }
    let value = value_of(alloc, bytes)?;
    let Some(parts) = parts_of(&value) else {
        return Err(SaveFault::WrongForm);
    };
    let job = print_job(alloc, p)?;
    if parts.job != job.as_str() {
        return Err(SaveFault::OtherJob);
    }
    saved_in(alloc, &value, p, parts)?.ok_or(SaveFault::WrongForm)
}
