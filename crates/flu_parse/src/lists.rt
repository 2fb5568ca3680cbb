//! Written lists of names, and which of them name keys and items.

ghost use Rattle.std.specs.Prelude.{◌≡◌, ◌++◌, ◌∷◌, [], map, slice_get, unwrap_or, IfOk};
ghost use Rattle.flu_model.specs.Erasure.{plain_kind};
ghost use Rattle.flu_parse.specs.Faults.{Gives};
ghost use Rattle.flu_parse.specs.Naming.{naming, keys_by, items_by};
ghost use Rattle.flu_parse.specs.Lists.{with_text, texts_of, list_of, listed_families, listed_kinds};

use crate::faults::JobFault;
use crate::names::Names;
use crate::naming::is_version_3;
use crate::terms::shape_at;
use flu_layout::{inside, name_of};
use flu_model::{Family, Kind, NameTexts, What};
use flu_rules::is_listed_text;
use flu_syntax::{WrittenBy, WrittenCells, WrittenItem, WrittenSpan};
use std::alloc::{AllocError, Global};

/// The most texts of a list.
const MOST_TEXTS: usize = 65_536;

// One more text of a list.
#[tactic(auto, unfolding(crate::specs::Lists::with_text))]
fn add_text(
    alloc: Global,
    text: &str,
    texts: &mut NameTexts,
    span: WrittenSpan,
) -> Result<(), JobFault>
    ensures { Gives (λ done. texts.new) result (with_text text.now texts.old span) }
{
    let name = inside(text, span);
    shape_at(is_listed_text(name), span.from)?;
    if texts.len() >= MOST_TEXTS {
        return Err(JobFault::OverLimit {
            what: What::Names,
            count: 65_537,
        });
    }
    let added = texts.add(alloc, name)?;
    if added {
        Ok(())
    } else {
        Err(JobFault::TwiceNamed { at: span.from })
    }
}

/// The texts of a list.
pub fn texts_of(alloc: Global, text: &str, spans: &[WrittenSpan]) -> Result<NameTexts, JobFault>
    ensures { Gives (λ texts. texts) result (texts_of text.now spans.now) }
{
    let mut texts = NameTexts::new(alloc);
    for span in spans {
        match add_text(alloc, text, &mut texts, *span) {
            Ok(()) => {}
            Err(fault) => return Err(fault),
        }
    }
    Ok(texts)
}

/// The list that is written for the keys of a family, if one is.
pub fn keys_by(cells: &WrittenCells) -> Option<WrittenBy>
    ensures { result ≡ keys_by cells.now }
{
    match cells {
        WrittenCells::Alone | WrittenCells::Keyed => None,
        WrittenCells::By(by) => Some(*by),
    }
}

/// The list that is written for the items of a kind, if one is.
pub fn items_by(item: &Option<WrittenItem>) -> Option<WrittenBy>
    ensures { result ≡ items_by item.now }
{
    match item {
        None => None,
        Some(item) => item.by,
    }
}

/// The number of the list that is named, if one is.
pub fn list_of(text: &str, names: &Names, by: Option<WrittenBy>) -> Result<Option<u32>, JobFault>
    ensures { Gives (λ list. list) result (list_of text.now (naming names.now) by) }
{
    let Some(by) = by else {
        return Ok(None);
    };
    shape_at(is_version_3(names), by.at)?;
    match names.lists.number(name_of(text, by.list)) {
        Some(number) => Ok(Some(number)),
        None => Err(JobFault::UnknownName { at: by.list.from }),
    }
}

// The list at a place, or the one that is there already.
fn list_at(lists: &[Option<u32>], place: usize, already: Option<u32>) -> Option<u32>
    ensures { result ≡ unwrap_or (slice_get lists.now place) already }
{
    match lists.get(place) {
        Some(list) => *list,
        None => already,
    }
}

/// The families, each with its list.
pub fn listed_families(
    alloc: Global,
    families: Vec<Family>,
    lists: &[Option<u32>],
) -> Result<Vec<Family>, AllocError>
    ensures { IfOk result (λ listed. listed.items ≡ listed_families families.items lists.now) }
{
    let mut listed = Vec::new(alloc);
    let mut place = 0;
    for family in families {
        let mut family = family;
        family.list = list_at(lists, place, family.list);
        listed.push(family)?;
        place += 1;
    }
    Ok(listed)
}

/// The kinds, each with its list.
pub fn listed_kinds(
    alloc: Global,
    kinds: Vec<Kind>,
    lists: &[Option<u32>],
) -> Result<Vec<Kind>, AllocError>
    ensures { IfOk result (λ listed. map plain_kind listed.items ≡ listed_kinds (map plain_kind kinds.items) lists.now) }
{
    let mut listed = Vec::new(alloc);
    let mut place = 0;
    for kind in kinds {
        let mut kind = kind;
        kind.list = list_at(lists, place, kind.list);
        listed.push(kind)?;
        place += 1;
    }
    Ok(listed)
}
