//! Written references to cells.

ghost use Rattle.std.specs.Prelude.{◌≡◌};
ghost use Rattle.flu_model.specs.Rules.{is_sort};
ghost use Rattle.flu_parse.specs.Faults.{Gives};
ghost use Rattle.flu_parse.specs.Naming.{naming};
ghost use Rattle.flu_parse.specs.Cells.{resolved_key, brackets_fit, is_wanted, family_for, at_of, resolved_cell};

use crate::faults::JobFault;
use crate::names::{FamilyHead, KindHead, Names};
use crate::naming::{family_of, takes_items};
use flu_layout::written_value;
use flu_model::{At, CellRef, KEY_COUNT, Sort, What};
use flu_syntax::{WrittenKey, WrittenNumber, WrittenRef};

/// The key that a number is.
pub fn resolved_key(number: WrittenNumber) -> Result<u32, JobFault>
    ensures { Gives (λ key. key) result (resolved_key number) }
{
    let key = written_value(number.value);
    if key < u64::from(KEY_COUNT) {
        Ok(key as u32)
    } else {
        Err(JobFault::OverLimit {
            what: What::Key,
            count: key,
        })
    }
}

/// Whether brackets are there exactly if they have to be.
pub fn brackets_fit(keyed: bool, key: &WrittenKey) -> bool
    ensures { result ≡ brackets_fit keyed key.now }
{
    match key {
        WrittenKey::Alone => !keyed,
        WrittenKey::OwnKey { .. } | WrittenKey::OwnItem { .. } | WrittenKey::Fixed(_) => keyed,
    }
}

fn is_wanted(wanted: Option<Sort>, sort: Sort) -> bool
    ensures { result ≡ is_wanted wanted sort }
{
    match wanted {
        None => true,
        Some(wanted) => wanted == sort,
    }
}

/// The family that is named, of the wanted sort and with brackets if it is keyed.
pub fn family_for(
    text: &str,
    names: &Names,
    wanted: Option<Sort>,
    written: &WrittenRef,
) -> Result<FamilyHead, JobFault>
    ensures { Gives (λ head. head) result (family_for text.now (naming names.now) wanted written.now) }
{
    let span = written.family;
    let family = family_of(names, text, span)?;
    if is_wanted(wanted, family.sort) && brackets_fit(family.keyed, &written.key) {
        Ok(family)
    } else {
        Err(JobFault::WrongShape { at: span.from })
    }
}

/// Which cell of a family is meant, under a kind.
pub fn at_of(names: &Names, under: KindHead, key: &WrittenKey) -> Result<At, JobFault>
    ensures { Gives (λ at. at) result (at_of (naming names.now) under key.now) }
{
    match key {
        WrittenKey::Alone => Ok(At::Alone),
        WrittenKey::OwnKey { at } => {
            if under.keyed {
                Ok(At::OwnKey)
            } else {
                Err(JobFault::WrongShape { at: *at })
            }
        }
        WrittenKey::OwnItem { at } => {
            if takes_items(names, under) {
                Ok(At::OwnItem)
            } else {
                Err(JobFault::WrongShape { at: *at })
            }
        }
        WrittenKey::Fixed(number) => {
            let key = resolved_key(*number)?;
            Ok(At::Fixed(key))
        }
    }
}

/// The cell that is meant, under a kind.
pub fn resolved_cell(
    text: &str,
    names: &Names,
    under: KindHead,
    wanted: Option<Sort>,
    written: &WrittenRef,
) -> Result<CellRef, JobFault>
    ensures { Gives (λ cell. cell) result (resolved_cell text.now (naming names.now) under wanted written.now) }
{
    let family = family_for(text, names, wanted, written)?;
    let at = at_of(names, under, &written.key)?;
    Ok(CellRef {
        family: family.number,
        at,
    })
}
