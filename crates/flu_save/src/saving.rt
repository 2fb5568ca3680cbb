//! The text of a checkpoint.

ghost use Rattle.std.specs.Prelude.{◌≡◌, ◌<◌, ◌≤◌, ◌^◌, ◌++◌, ◌↔◌, length, map, slice_get, IfOk, OnOk, IsUtf8, Some};
ghost use Rattle.flu_cells.specs.Holding.{held};
ghost use Rattle.flu_model.specs.Contents.{cell, held_keys};
ghost use Rattle.flu_model.specs.Sorts.{IsStateOf};
ghost use Rattle.serde_json.specs.View.{view};
ghost use Rattle.flu_save.specs.Checkpoint.{number_held, entry as entry_value, entries_of, cells_held, checkpoint, save, HasWordWidth};
ghost use Rattle.flu_save.specs.Forms.{IsJsonOf, IsSave, HasShortText, most_bytes};
ghost use Rattle.flu_save.specs.Widths.{HaveWordWidth, AllHaveWordWidth};

use flu_cells::State;
use flu_model::{Cell, Family, Program, Worth};
use flu_parse::print_job;
use serde_json::{Value, json};
use std::alloc::{AllocError, Global};

// The number that a cell holds; 0 if it is neutral.
fn number_held(worth: Option<Worth>) -> i128
    ensures value { result ≡ number_held worth }
    ensures width { HasWordWidth worth }
{
    match worth {
        None => 0,
        Some(Worth::Sum(n)) => n,
        Some(Worth::Max(v)) => i128::from(v),
        Some(Worth::Last(v)) => i128::from(v),
    }
}

// The entry of a cell.
fn entry(alloc: Global, family: &str, key: u32, value: i128) -> Result<Value, AllocError>
    ensures { IfOk result (λ v. view v ≡ entry_value family.now key value) }
{
    let text = format!(in alloc; "{value}")?;
    json!(in alloc; [family, key, text])
}

// The entries of a family's cells, by rising key, after those that are there.
fn add_family(
    entries: &mut Vec<Value>,
    alloc: Global,
    s: &State,
    number: u32,
    family: &Family,
) -> Result<(), AllocError>
    ensures entries { OnOk result (map view entries.new.items ≡ map view entries.old.items
        ++ map (λ k. entry_value family.now.name k (number_held (held s.now (cell number k)))) (held_keys (held s.now) number)) }
    ensures width { OnOk result (HaveWordWidth (held s.now) number (held_keys (held s.now) number)) }
{
    let keys = s.keys(number)?;
    for key in keys.as_slice() {
        let worth = s.get(Cell {
            family: number,
            key: *key,
        });
        let entry = entry(alloc, family.name.as_str(), *key, number_held(worth))?;
        entries.push(entry)?;
    }
    Ok(())
}

// The entries of the cells of all families.
fn entries(alloc: Global, p: &Program, s: &State) -> Result<Vec<Value>, AllocError>
    ensures entries { IfOk result (λ v. map view v.items ≡ entries_of p.now.families (held s.now)) }
    ensures width { OnOk result (AllHaveWordWidth (held s.now) (cells_held p.now.families (held s.now))) }
{
    let mut entries = Vec::new(alloc);
    let mut number = 0;
    for family in p.families.items() {
        add_family(&mut entries, alloc, s, number, family)?;
        number += 1;
    }
    Ok(entries)
}

// The value of a checkpoint.
fn checkpoint(alloc: Global, p: &Program, border: u64, s: &State) -> Result<Value, AllocError>
    ensures value { IfOk result (λ v. view v ≡ checkpoint p.now border (held s.now)) }
    ensures width { OnOk result (AllHaveWordWidth (held s.now) (cells_held p.now.families (held s.now))) }
{
    let cells = entries(alloc, p, s)?;
    let job = print_job(alloc, p)?;
    json!(in alloc; {"border": border, "cells": cells, "job": job.as_str()})
}

/// A checkpoint as a text: one JSON object without blanks, with the members `border`, a number; `cells`, a list with an entry
/// `[FAMILY, KEY, "VALUE"]` for each cell that is not neutral, by rising family and key; and `job`, the job in normal form.
///
/// The cells are those of the job's families. The border is at most 2^63 - 1. Where the state has values of the job's sorts, the
/// text is a checkpoint of the job with this border and this state, if it has at most 536,870,912 bytes; so `read_save` gives them.
/// It has, where the normal form of the job has at most 26,214,400.
///
/// # Errors
///
/// Only if memory runs out.
pub fn save_text(alloc: Global, p: &Program, border: u64, s: &State) -> Result<Vec<u8>, AllocError>
    requires { border < 2 ^ 63 }
    ensures text { IfOk result (λ v. v.items ≡ save p.now border (held s.now)) }
    ensures value { IfOk result (λ v. IsJsonOf v.items (checkpoint p.now border (held s.now))) }
    ensures read_again { IfOk result (λ v. IsStateOf p.now.families (held s.now) → length v.items ≤ most_bytes
        → IsSave p.now border (held s.now) v.items) }
    ensures saved { IfOk result (λ v. IsStateOf p.now.families (held s.now) → HasShortText p.now → IsSave p.now border (held s.now) v.items) }
{
    let value = checkpoint(alloc, p, border, s)?;
    value.to_vec(alloc)
}
