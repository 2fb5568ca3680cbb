//! The tags that rows name.

ghost use Rattle.std.specs.Prelude.{◌≡◌, ◌==◌, ◌<◌, ◌≤◌, length, IfOk, OnOk, IfErr, Some, IfSome, true};
ghost use Rattle.std.specs.List.{flat_map, position};
ghost use Rattle.flu_model.specs.Listing.{listed_keys, listed_tags};
ghost use Rattle.flu_model.specs.Rules.{is_same_tag};
ghost use Rattle.flu_streams.specs.Tags.{kind_named, key_named, tag_named, place_named, given, given_to, is_known, width};
ghost use Rattle.flu_streams.specs.Tests.{faults_of_event};

use crate::faults::Why;
use flu_model::{Keys, Kind, Source, Tag, TagRef};
use flu_rows::Fields;

/// What a row says of its event: the place of its tag among those that the source lists, its item and its value.
#[derive(Clone, Copy)]
pub(crate) struct Found {
    pub(crate) place: u32,
    pub(crate) item: u16,
    pub(crate) value: i64,
}

/// What a row says of its event; or the rule that the row breaks.
pub(crate) fn found_of(
    kinds: &[Kind],
    source: &Source,
    name: &[u8],
    key: Option<u32>,
    fields: Fields,
) -> Result<Found, Why>
    requires few { length kinds.now ≤ 64 }
    requires room { width source.now ≤ 256 }
    ensures place { IfOk result (λ found. place_named kinds.now source.now name.now key ≡ Some found.place) }
    ensures given { IfOk result (λ found. given_to kinds.now name.now fields ≡ Some (found.item, found.value)) }
    ensures known { OnOk result (is_known fields ≡ true) }
    ensures refused { IfErr result (λ why. faults_of_event kinds.now source.now name.now key fields ≡ Some why) }
{
    let Some(tag) = tag_named(kinds, name, key) else {
        return Err(Why::UnknownTag);
    };
    let Some(place) = place_of(source.tags.items(), tag) else {
        return Err(Why::UnknownTag);
    };
    let kind = &kinds[tag.kind as usize];
    let Some((item, value)) = given(kind.has_item, kind.has_value, fields) else {
        return Err(Why::BadRow);
    };
    if !is_known(fields) {
        return Err(Why::UnknownItem);
    }
    Ok(Found { place, item, value })
}

// The item and the value of an event whose kind has them or not.
fn given(has_item: bool, has_value: bool, fields: Fields) -> Option<(u16, i64)>
    ensures { result ≡ given has_item has_value fields }
{
    match fields {
        Fields::Nothing => {
            if has_item || has_value {
                None
            } else {
                Some((0, 0))
            }
        }
        Fields::One { item, value } => match (has_item, has_value) {
            (false, true) => Some((0, value)),
            (true, false) => Some((item?, 0)),
            _ => None,
        },
        Fields::Two { item, value } => {
            if has_item && has_value {
                Some((item, value))
            } else {
                None
            }
        }
        Fields::Named { item } => {
            if has_item && !has_value {
                Some((item.unwrap_or(0), 0))
            } else {
                None
            }
        }
        Fields::NamedWith { item, value } => {
            if has_item && has_value {
                Some((item.unwrap_or(0), value))
            } else {
                None
            }
        }
        Fields::Other => None,
    }
}

// Whether an item that is given by its name is one that its kind's list has.
fn is_known(fields: Fields) -> bool
    ensures { result ≡ is_known fields }
{
    !matches!(
        fields,
        Fields::Named { item: None } | Fields::NamedWith { item: None, .. }
    )
}

// The tag of a name and an optional key.
fn tag_named(kinds: &[Kind], name: &[u8], key: Option<u32>) -> Option<Tag>
    requires { length kinds.now ≤ 64 }
    ensures value { result ≡ tag_named kinds.now name.now key }
    ensures declared { IfSome result (λ tag. kind_named kinds.now name.now ≡ Some tag.kind) }
{
    let number = kind_named(kinds, name)?;
    let key = key_named(kinds[number].keyed, key)?;
    Some(Tag {
        kind: number as u32,
        key,
    })
}

fn kind_named(kinds: &[Kind], name: &[u8]) -> Option<usize>
    ensures value { result ≡ kind_named kinds.now name.now }
    ensures declared { IfSome result (λ number. number < length kinds.now) }
{
    kinds
        .iter()
        .position(|kind| kind.name.as_str().as_bytes() == name)
}

fn key_named(keyed: bool, key: Option<u32>) -> Option<u32>
    ensures { result ≡ key_named keyed key }
{
    match key {
        Some(key) => if keyed { Some(key) } else { None },
        None => if keyed { None } else { Some(0) },
    }
}

// The place of a tag among those that are listed.
fn place_of(tags: &[TagRef], tag: Tag) -> Option<u32>
    requires { length (flat_map listed_tags tags.now) ≤ 256 }
    ensures { result ≡ position (is_same_tag tag) (flat_map listed_tags tags.now) }
{
    let mut count = 0;
    for listed in tags {
        if tag.kind == listed.kind {
            if let Some(place) = place_in(&listed.keys, tag.key) {
                return Some(count + place);
            }
        }
        count += key_count(&listed.keys);
    }
    None
}

// The place of a key among those that are listed.
fn place_in(keys: &Keys, key: u32) -> Option<u32>
    ensures { result ≡ position (λ k. key == k) (listed_keys keys.now) }
{
    match keys {
        Keys::Alone => if key == 0 { Some(0) } else { None },
        Keys::One(only) => if key == *only { Some(0) } else { None },
        Keys::Range(lo, hi) => {
            if *lo <= key && key <= *hi {
                Some(key - *lo)
            } else {
                None
            }
        }
    }
}

/// How many tags are listed.
pub(crate) fn tag_count(tags: &[TagRef]) -> u32
    requires { length (flat_map listed_tags tags.now) ≤ 256 }
    ensures { result ≡ length (flat_map listed_tags tags.now) }
{
    let mut count = 0;
    for listed in tags {
        count += key_count(&listed.keys);
    }
    count
}

// How many keys are listed.
fn key_count(keys: &Keys) -> u32
    requires { length (listed_keys keys.now) ≤ 256 }
    ensures { result ≡ length (listed_keys keys.now) }
{
    match keys {
        Keys::Alone | Keys::One(_) => 1,
        Keys::Range(lo, hi) => if *lo <= *hi { *hi - *lo + 1 } else { 0 },
    }
}
