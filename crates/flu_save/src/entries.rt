//! The entries of a checkpoint, as they are read.

ghost use Rattle.std.specs.Prelude.{◌≡◌, ◌<◌, ℕ, ℤ, List, length, position, option_map, option_and_then, if◌then◌else◌, Some, None, IfSome, FitsSigned};
ghost use Rattle.std.specs.Fmt.{signed_decimal};
ghost use Rattle.std.specs.Int.{w64, w128};
ghost use Rattle.flu_model.specs.Contents.{Contents};
ghost use Rattle.flu_model.specs.Rules.{is_same_text};
ghost use Rattle.flu_model.specs.Sorts.{IsWorthOf, MayHold, key_is_in};
ghost use Rattle.flu_model.specs.declared.events.Cell.{Cell};
ghost use Rattle.flu_model.specs.declared.events.Worth.{Worth};
ghost use Rattle.flu_model.specs.declared.jobs.Family.{Family};
ghost use Rattle.serde_json.specs.Find.{at, as_str, as_number, as_u64};
ghost use Rattle.serde_json.specs.View.{view};
ghost use Rattle.flu_save.specs.Checkpoint.{number_held, entry as entry_value, entry_of, HasWordWidth, IsSavable};
ghost use Rattle.flu_save.specs.Parts.{AreParts};

use flu_model::{Cell, Family, KEY_COUNT, Program, Sort, Worth};
use serde_json::Value;

// The three parts of an entry.
#[derive(Clone, Copy)]
struct Entry<'v> {
    family: &'v str,
    key: u64,
    value: &'v str,
}

// The cell of an entry and what it holds, if the entry is of a cell of the job.
pub(crate) fn cell_in(p: &Program, entry: &Value) -> Option<(Cell, Worth)>
    ensures fits { IfSome result (λ r. MayHold p.now.families r.0 (Some r.1) × HasWordWidth (Some r.1)) }
    ensures found { (s : Contents) (c : Cell) (w : Worth) → IsSavable p.now.families s → s c ≡ Some w
        → view entry.now ≡ entry_of p.now.families s c → result ≡ Some (c, w) }
{
    let parts = parts_of(entry)?;
    let number = family_named(p.families.items(), parts.family)?;
    let family = &p.families.items()[number];
    let key = key_in(family, parts.key)?;
    let worth = worth_in(family.sort, parts.value)?;
    let cell = Cell {
        family: number as u32,
        key,
    };
    Some((cell, worth))
}

// The first three parts. That an entry has no more is found where the texts are compared.
fn parts_of(entry: &Value) -> Option<Entry<'_>>
    ensures { (family : List ℕ) (key : ℕ) (value : ℤ) → view entry.now ≡ entry_value family key value
        → AreParts result family key (signed_decimal value) }
{
    let family = text_at(entry, 0)?;
    let key = number_at(entry, 1)?;
    let value = text_at(entry, 2)?;
    Some(Entry { family, key, value })
}

fn text_at(entry: &Value, place: usize) -> Option<&str>
    ensures { option_map (λ s. s.now) result ≡ option_and_then as_str (at place (view entry.now)) }
{
    entry.get(place).and_then(Value::as_str)
}

fn number_at(entry: &Value, place: usize) -> Option<u64>
    ensures { result ≡ option_and_then as_u64 (option_and_then as_number (at place (view entry.now))) }
{
    entry.get(place).and_then(Value::as_u64)
}

// The number of the family with a name.
fn family_named(families: &[Family], name: &str) -> Option<usize>
    ensures value { result ≡ position (λ (f : Family). is_same_text f.name name.now) families.now }
    ensures declared { IfSome result (λ number. number < length families.now) }
{
    families
        .iter()
        .position(|family| family.name.as_str() == name)
}

// A key that the cells of a family may have.
fn key_in(family: &Family, key: u64) -> Option<u32>
    ensures { result ≡ (if key_is_in (Some family.now) key then Some key else None) }
{
    let limit = if family.keyed {
        u64::from(KEY_COUNT)
    } else {
        1
    };
    if key < limit { Some(key as u32) } else { None }
}

// What a cell of a sort holds by its text, if it is not neutral.
fn worth_in(sort: Sort, text: &str) -> Option<Worth>
    ensures sort { IfSome result (λ w. IsWorthOf sort w × HasWordWidth (Some w)) }
    ensures found { (w : Worth) → IsWorthOf sort w → HasWordWidth (Some w) → text.now ≡ signed_decimal (number_held (Some w))
        → result ≡ Some w }
{
    match sort {
        Sort::Sum => match sum_in(text) {
            Some(0) => None,
            Some(n) => Some(Worth::Sum(n)),
            None => None,
        },
        Sort::Max => match word_in(text) {
            Some(v) => Some(Worth::Max(v)),
            None => None,
        },
        Sort::Last => match word_in(text) {
            Some(v) => Some(Worth::Last(v)),
            None => None,
        },
    }
}

// The number of 128 bits that a text is; also one with needless zeros or a sign of plus.
fn sum_in(text: &str) -> Option<i128>
    ensures { (n : ℤ) → FitsSigned w128 n → text.now ≡ signed_decimal n → result ≡ Some n }
{
    text.parse().ok()
}

// The number of 64 bits that a text is; also one with needless zeros or a sign of plus.
fn word_in(text: &str) -> Option<i64>
    ensures { (n : ℤ) → FitsSigned w64 n → text.now ≡ signed_decimal n → result ≡ Some n }
{
    text.parse().ok()
}
