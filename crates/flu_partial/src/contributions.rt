//! A contribution that is read.

ghost use Rattle.std.specs.Prelude.{◌≡◌, ◌<◌, ◌≤◌, ◌^◌, ℕ, ℤ, List, Option, map, codes, option_map, option_and_then, Some, None, IfOk, IfErr, IfSome, OnOk, IsTrue, FitsSigned, MatchResult};
ghost use Rattle.std.specs.Fmt.{signed_decimal};
ghost use Rattle.std.specs.Int.{w128};
ghost use Rattle.std.specs.List.{AllByRecursion};
ghost use Rattle.serde_json.specs.Data.{number, string, unsigned};
ghost use Rattle.serde_json.specs.Find.{at, as_str, as_number, as_u64, as_array, get};
ghost use Rattle.serde_json.specs.View.{items_view, view};
ghost use Rattle.flu_model.specs.declared.events.Cell.{Cell};
ghost use Rattle.flu_partial.specs.declared.fault.LineFault.{LineFault};
ghost use Rattle.flu_partial.specs.declared.values.Amount.{Amount};
ghost use Rattle.flu_partial.specs.declared.values.Contribution.{Contribution};
ghost use Rattle.flu_partial.specs.declared.values.Emitted.{Emitted};
ghost use Rattle.flu_partial.specs.declared.values.Place.{Place};
ghost use Rattle.flu_partial.specs.declared.values.Place.TheVariants.{Before, End};
ghost use Rattle.flu_partial.specs.Partial.{amount_value, emitted_value, follows, rise, IsAmount, IsContribution, IsEmitted, IsPlace, IsTime, IsTimeOrNone, time_or_null};
ghost use Rattle.flu_partial.specs.Forms.{IsContributionLine, IsFaultOf, IsJsonOf, IsShort};
ghost use Rattle.flu_partial.specs.Entries.{AreEmittedParts, AreParts};
ghost use Rattle.flu_partial.specs.Having.{HasContribution, HasPlace};

use crate::fault::LineFault;
use crate::members::{MOST_BYTES, MOST_TIME, is_text, number_in, text_of, time_in, value_of};
use crate::printing::contribution_string;
use crate::values::{Amount, Contribution, Emitted, Place};
use flu_model::{Cell, Itag, List};
use serde_json::Value;
use std::alloc::{AllocError, Global};

// The members of a contribution.
#[derive(Clone, Copy)]
struct Parts<'v> {
    place: Place,
    cells: &'v [Value],
    events: u64,
    outs: &'v [Value],
}

// The parts of an output.
#[derive(Clone, Copy)]
struct EmittedParts<'v> {
    time: u64,
    tag: &'v str,
    text: &'v str,
}

fn number_at(entry: &Value, place: usize) -> Option<u64>
    ensures { result ≡ option_and_then as_u64 (option_and_then as_number (at place (view entry.now))) }
{
    entry.get(place).and_then(Value::as_u64)
}

fn text_at(entry: &Value, place: usize) -> Option<&str>
    ensures { option_map (λ s. s.now) result ≡ option_and_then as_str (at place (view entry.now)) }
{
    entry.get(place).and_then(Value::as_str)
}

// A number of 32 bits.
fn word_at(entry: &Value, place: usize) -> Option<u32>
    ensures fits { IfSome result (λ n. n < 2 ^ 32) }
    ensures found { (n : ℕ) → n < 2 ^ 32 → at place (view entry.now) ≡ Some (number (unsigned n)) → result ≡ Some n }
{
    let number = number_at(entry, place)?;
    if number <= u64::from(u32::MAX) {
        Some(number as u32)
    } else {
        None
    }
}

// The number of 128 bits that a text is; also one with needless zeros or a sign of plus.
fn number_of(text: &str) -> Option<i128>
    ensures { (n : ℤ) → FitsSigned w128 n → text.now ≡ signed_decimal n → result ≡ Some n }
{
    text.parse().ok()
}

// The amount of an entry. That it has no more parts is found where the texts are compared.
fn amount_in(entry: &Value) -> Option<Amount>
    ensures fits { IfSome result IsAmount }
    ensures found { (a : Amount) → IsAmount a → view entry.now ≡ amount_value a → result ≡ Some a }
{
    let family = word_at(entry, 0)?;
    let key = word_at(entry, 1)?;
    let value = number_of(text_at(entry, 2)?)?;
    Some(Amount {
        cell: Cell { family, key },
        value,
    })
}

// The amounts of all entries.
fn amounts_in(alloc: Global, entries: &[Value]) -> Result<Option<List<Amount>>, AllocError>
    ensures fits { IfOk result (λ o. IfSome o (AllByRecursion IsAmount)) }
    ensures found { (amounts : List Amount) → AllByRecursion IsAmount amounts → map view entries.now ≡ map amount_value amounts
        → IfOk result (λ o. o ≡ Some amounts) }
{
    let mut amounts = Vec::new(alloc);
    for entry in entries {
        let Some(amount) = amount_in(entry) else {
            return Ok(None);
        };
        amounts.push(amount)?;
    }
    Ok(Some(List::of(amounts)))
}

fn emitted_parts(entry: &Value) -> Option<EmittedParts<'_>>
    ensures fits { IfSome result (λ r. IsTime r.time) }
    ensures found { (o : Emitted) → IsEmitted o → view entry.now ≡ emitted_value o → AreEmittedParts result o }
{
    let time = number_at(entry, 0)?;
    let tag = text_at(entry, 1)?;
    let text = text_at(entry, 2)?;
    if time <= MOST_TIME {
        Some(EmittedParts { time, tag, text })
    } else {
        None
    }
}

// The output of an entry.
fn emitted_in(alloc: Global, entry: &Value) -> Result<Option<Emitted>, AllocError>
    ensures fits { IfOk result (λ o. IfSome o IsEmitted) }
    ensures found { (e : Emitted) → IsEmitted e → view entry.now ≡ emitted_value e → IfOk result (λ o. o ≡ Some e) }
{
    let Some(parts) = emitted_parts(entry) else {
        return Ok(None);
    };
    let tag = text_of(alloc, parts.tag)?;
    let text = text_of(alloc, parts.text)?;
    Ok(Some(Emitted {
        time: parts.time,
        tag,
        text,
    }))
}

// The outputs of all entries.
fn outs_in(alloc: Global, entries: &[Value]) -> Result<Option<List<Emitted>>, AllocError>
    ensures fits { IfOk result (λ o. IfSome o (AllByRecursion IsEmitted)) }
    ensures found { (outs : List Emitted) → AllByRecursion IsEmitted outs → map view entries.now ≡ map emitted_value outs
        → IfOk result (λ o. o ≡ Some outs) }
{
    let mut outs = Vec::new(alloc);
    for entry in entries {
        let Some(out) = emitted_in(alloc, entry)? else {
            return Ok(None);
        };
        outs.push(out)?;
    }
    Ok(Some(List::of(outs)))
}

// Whether the cells rise strictly, by family and then by key.
#[tactic(auto, using(crate::proofs::Entries::rise_next, crate::proofs::Entries::rise_end))]
fn rise(amounts: &[Amount]) -> bool
    ensures { result ≡ rise None amounts.now }
{
    let mut last: Option<Cell> = None;
    for amount in amounts {
        if follows(last, amount.cell) {
            last = Some(amount.cell);
        } else {
            return false;
        }
    }
    true
}

fn follows(last: Option<Cell>, cell: Cell) -> bool
    ensures { result ≡ follows last cell }
{
    match last {
        None => true,
        Some(last) => {
            last.family < cell.family || (last.family == cell.family && last.key < cell.key)
        }
    }
}

// The place of a contribution.
fn place_in(value: &Value) -> Option<Place>
    ensures fits { IfSome result IsPlace }
    ensures found { (p : Place) → IsPlace p → HasPlace (view value.now) p → result ≡ Some p }
{
    match value.get("last") {
        Some(last) => end_in(last),
        None => event_in(value),
    }
}

// The end, by its last time.
fn end_in(value: &Value) -> Option<Place>
    ensures fits { IfSome result IsPlace }
    ensures found { (last : Option ℕ) → IsTimeOrNone last → view value.now ≡ time_or_null last → result ≡ Some (End last) }
{
    let last = time_in(value)?;
    Some(Place::End { last })
}

// The place before an event.
fn event_in(value: &Value) -> Option<Place>
    ensures fits { IfSome result IsPlace }
    ensures found { (time itag : ℕ) → IsTime time → itag < 256 → get (codes "time") (view value.now) ≡ Some (number (unsigned time))
        → get (codes "itag") (view value.now) ≡ Some (number (unsigned itag)) → result ≡ Some (Before time (record { 0 = itag })) }
{
    let time = number_in(value, "time")?;
    let itag = number_in(value, "itag")?;
    if time <= MOST_TIME && itag < 256 {
        Some(Place::Before {
            time,
            itag: Itag(itag as u32),
        })
    } else {
        None
    }
}

fn entries_in<'v>(value: &'v Value, name: &str) -> Option<&'v Vec<Value>>
    ensures { option_map (λ v. items_view v.now.items) result ≡ option_and_then as_array (get name.now (view value.now)) }
{
    value.get(name).and_then(Value::as_array)
}

// The members of a value, if it has those of a contribution. That it has no more is found where the texts are compared.
fn parts_of(value: &Value) -> Option<Parts<'_>>
    ensures fits { IfSome result (λ r. IsPlace r.place × (r.events < 2 ^ 64)) }
    ensures found { (c : Contribution) → IsContribution c → HasContribution (view value.now) c → AreParts result c }
{
    let cells = entries_in(value, "cells")?;
    let events = number_in(value, "events")?;
    let outs = entries_in(value, "outs")?;
    let place = place_in(value)?;
    Some(Parts {
        place,
        cells: cells.as_slice(),
        events,
        outs: outs.as_slice(),
    })
}

// The contribution with these parts, if both lists were read and the cells rise.
fn contribution_with(
    place: Place,
    cells: Option<List<Amount>>,
    events: u64,
    outs: Option<List<Emitted>>,
) -> Option<Contribution>
    ensures some { IfSome result (λ c. (c.place ≡ place) × (c.events ≡ events) × (cells ≡ Some c.cells) × (outs ≡ Some c.outs)
        × IsTrue (rise None c.cells)) }
    ensures found { (c : Contribution) → place ≡ c.place → cells ≡ Some c.cells → events ≡ c.events → outs ≡ Some c.outs
        → IsTrue (rise None c.cells) → result ≡ Some c }
{
    let cells = cells?;
    let outs = outs?;
    if rise(cells.items()) {
        Some(Contribution {
            place,
            cells,
            events,
            outs,
        })
    } else {
        None
    }
}

// The contribution that a value is; none where a part is not there or not in range.
fn contribution_in(alloc: Global, value: &Value) -> Result<Option<Contribution>, AllocError>
    ensures fits { IfOk result (λ o. IfSome o IsContribution) }
    ensures found { (c : Contribution) → IsContribution c → HasContribution (view value.now) c → IfOk result (λ o. o ≡ Some c) }
{
    let Some(parts) = parts_of(value) else {
        return Ok(None);
    };
    let cells = amounts_in(alloc, parts.cells)?;
    let outs = outs_in(alloc, parts.outs)?;
    Ok(contribution_with(parts.place, cells, parts.events, outs))
}

// The contribution whose line the bytes are, by their JSON value.
fn contribution_of(
    alloc: Global,
    value: &Value,
    bytes: &[u8],
) -> Result<Option<Contribution>, AllocError>
    requires short { IsShort bytes.now }
    requires json { IsJsonOf bytes.now (view value.now) }
    ensures line { IfOk result (λ o. IfSome o (λ c. IsContributionLine c bytes.now)) }
    ensures found { (c : Contribution) → IsContributionLine c bytes.now → IfOk result (λ o. o ≡ Some c) }
{
    let Some(contribution) = contribution_in(alloc, value)? else {
        return Ok(None);
    };
    let text = contribution_string(alloc, &contribution)?;
    if is_text(&text, bytes) {
        Ok(Some(contribution))
    } else {
        Ok(None)
    }
}

/// The contribution that a line is, without its line feed. Only the text of the contribution itself is its line: no other order of
/// members, and no blanks.
///
/// # Errors
///
/// The first of those of `LineFault` that applies, in their order; and `NoMemory` if memory runs out.
pub fn read_contribution(alloc: Global, bytes: &[u8]) -> Result<Contribution, LineFault>
    ensures contribution { IfOk result (λ c. IsContributionLine c bytes.now) }
    ensures fault { IfErr result (IsFaultOf IsContributionLine bytes.now) }
    ensures found { (c : Contribution) → IsContributionLine c bytes.now → MatchResult result (λ r. r ≡ c) (λ e. e ≡ LineFault.NoMemory) }
{
    if bytes.len() > MOST_BYTES {
        return Err(LineFault::OverLimit {
            count: MOST_BYTES as u64 + 1,
        });
    }
    let value = value_of(alloc, bytes)?;
    contribution_of(alloc, &value, bytes)?.ok_or(LineFault::WrongForm)
}
