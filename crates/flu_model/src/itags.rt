//! The numbers of implementation tags.

ghost use Rattle.std.specs.Prelude.{◌≡◌, ◌<◌, ◌≤◌, ◌^◌, IsTrue, length, slice_index_or};
ghost use Rattle.flu_model.specs.Listing.{tag, listed_keys, listed_tags, tags_of_source};
ghost use Rattle.flu_model.specs.Itags.{count_of_itags, tag_of_itag, source_of_itag, tag_and_source};
ghost use Rattle.flu_model.specs.Rules.{tag_fits};

use crate::events::{Itag, Tag};
use crate::jobs::{Keys, Program, Source, TagRef};

/// How many itags a job has.
pub fn itag_count(p: &Program) -> u32
    ensures { result ≡ count_of_itags p.now }
{
    let mut count = 0;
    for source in p.sources.items() {
        count += tag_count(source);
    }
    count
}

/// The tag of an itag.
pub fn tag_of(p: &Program, i: Itag) -> Tag
    requires { i.0 < count_of_itags p.now }
    ensures tag { result ≡ tag_of_itag p.now i }
    ensures fits { IsTrue (tag_fits p.now.kinds result) }
{
    find(p, i).0
}

/// The number of the source of an itag.
pub fn source_of(p: &Program, i: Itag) -> u32
    requires { i.0 < count_of_itags p.now }
    ensures source { result ≡ source_of_itag p.now i }
    ensures declared { result < length p.now.sources }
{
    find(p, i).1
}

// The tag and the source's number.
fn find(p: &Program, i: Itag) -> (Tag, u32)
    requires { i.0 < count_of_itags p.now }
    ensures tag { result.0 ≡ tag_of_itag p.now i }
    ensures source { result.1 ≡ source_of_itag p.now i }
    ensures declared { result.1 < length p.now.sources }
{
    let mut left = i.0;
    let mut number = 0;
    for source in p.sources.items() {
        let count = tag_count(source);
        if left < count {
            return (tag_at(source, left), number);
        }
        left -= count;
        number += 1;
    }
    unreachable!()
}

// How many tags a source lists.
fn tag_count(source: &Source) -> u32
    requires { length (tags_of_source source.now) < 2 ^ 32 }
    ensures { result ≡ length (tags_of_source source.now) }
{
    let mut count = 0;
    for listed in source.tags.items() {
        count += key_count(listed.keys);
    }
    count
}

// The tag at a place among those that a source lists.
fn tag_at(source: &Source, place: u32) -> Tag
    requires within { place < length (tags_of_source source.now) }
    requires room { length (tags_of_source source.now) < 2 ^ 32 }
    ensures { result ≡ slice_index_or (tags_of_source source.now) place (tag 0 0) }
{
    let mut left = place;
    for listed in source.tags.items() {
        let count = key_count(listed.keys);
        if left < count {
            return Tag {
                kind: listed.kind,
                key: key_at(&listed.keys, left),
            };
        }
        left -= count;
    }
    unreachable!()
}

/// How many keys are listed.
pub fn key_count(keys: Keys) -> u32
    requires { length (listed_keys keys) < 2 ^ 32 }
    ensures { result ≡ length (listed_keys keys) }
{
    match keys {
        Keys::Alone | Keys::One(_) => 1,
        Keys::Range(lo, hi) => if lo <= hi { hi - lo + 1 } else { 0 },
    }
}

// The key at a place among those that are listed.
fn key_at(keys: &Keys, place: u32) -> u32
    requires { place < length (listed_keys keys.now) }
    ensures { result ≡ slice_index_or (listed_keys keys.now) place 0 }
{
    match keys {
        Keys::Alone => 0,
        Keys::One(key) => *key,
        Keys::Range(lo, hi) => {
            let _last = *hi;
            *lo + place
        }
    }
}
