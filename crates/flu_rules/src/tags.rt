//! The tags that sources list: how many they are, and whether one is listed twice.

ghost use Rattle.std.specs.Prelude.{◌≡◌, ◌+◌, ◌<◌, ◌≤◌, ◌^◌, length, nat_le, IfSome, IfNone, IsTrue, ◌↔◌};
ghost use Rattle.std.specs.List.{flat_map, list_any};
ghost use Rattle.flu_model.specs.Listing.{listed_keys, listed_tags, tags_of_source, itags_of_sources};
ghost use Rattle.flu_model.specs.Rules.{are_distinct, is_same_tag};
ghost use Rattle.flu_rules.specs.Keys.{first_key, last_key};

use flu_model::{Keys, Source, TagRef};

/// The most itags of a job.
const MOST_ITAGS: u64 = 256;

/// Whether the sources list at most 256 tags in all. No list is written out, and none is gone through further than needed.
pub fn has_few_itags(sources: &[Source]) -> bool
    ensures { result ≡ nat_le (length (itags_of_sources 0 sources.now)) 256 }
{
    let mut left = MOST_ITAGS;
    for source in sources {
        match left_after(source.tags.items(), left) {
            Some(rest) => left = rest,
            None => return false,
        }
    }
    true
}

// How many more tags there may be after those that are listed, or none where these are too many.
fn left_after(tags: &[TagRef], room: u64) -> Option<u64>
    ensures fit { IfSome result (λ left. length (flat_map listed_tags tags.now) + left ≡ room) }
    ensures too_many { IfNone result (room < length (flat_map listed_tags tags.now)) }
{
    let mut left = room;
    for listed in tags {
        let count = key_count(&listed.keys);
        if left < count {
            return None;
        }
        left -= count;
    }
    Some(left)
}

// How many keys are listed. They have not been looked at, so they may be more than 32 bits hold.
fn key_count(keys: &Keys) -> u64
    ensures { result ≡ length (listed_keys keys.now) }
{
    match keys {
        Keys::Alone | Keys::One(_) => 1,
        Keys::Range(lo, hi) => {
            if lo <= hi {
                *hi as u64 - *lo as u64 + 1
            } else {
                0
            }
        }
    }
}

/// Whether no tag is listed twice.
pub fn are_distinct(tags: &[TagRef]) -> bool
    ensures { result ≡ are_distinct is_same_tag (flat_map listed_tags tags.now) }
{
    for (index, listed) in tags.iter().enumerate() {
        if is_listed_by(*listed, &tags[index + 1..]) {
            return false;
        }
    }
    true
}

// Whether one of the tags is listed by others too.
fn is_listed_by(listed: TagRef, others: &[TagRef]) -> bool
    ensures { result ≡ list_any (λ other. list_any (λ t. list_any (is_same_tag t) (listed_tags other)) (listed_tags listed)) others.now }
{
    others.iter().any(|other| share_tag(&listed, other))
}

// Whether both list a tag.
fn share_tag(a: &TagRef, b: &TagRef) -> bool
    ensures { result ≡ list_any (λ t. list_any (is_same_tag t) (listed_tags b.now)) (listed_tags a.now) }
{
    a.kind == b.kind
        && first_key(&a.keys).max(first_key(&b.keys)) <= last_key(&a.keys).min(last_key(&b.keys))
}

fn first_key(keys: &Keys) -> u32
    ensures { result ≡ first_key keys.now }
{
    match keys {
        Keys::Alone => 0,
        Keys::One(key) | Keys::Range(key, _) => *key,
    }
}

fn last_key(keys: &Keys) -> u32
    ensures { result ≡ last_key keys.now }
{
    match keys {
        Keys::Alone => 0,
        Keys::One(key) | Keys::Range(_, key) => *key,
    }
}
