//! Written sources and the tags that they list.

ghost use Rattle.std.specs.Prelude.{◌≡◌, ◌+◌, ◌==◌, ◌&&◌, ◌<◌, ◌≤◌, ◌^◌, nat_le, max, min, List, length, ◌∷◌, []};
ghost use Rattle.std.specs.List.{list_any};
ghost use Rattle.flu_model.specs.Listing.{listed_keys};
ghost use Rattle.flu_model.specs.declared.jobs.Keys.TheVariants.{Range};
ghost use Rattle.flu_rules.specs.Keys.{first_key, last_key, share_tag};
ghost use Rattle.flu_parse.specs.Faults.{Gives};
ghost use Rattle.flu_parse.specs.Naming.{naming};
ghost use Rattle.flu_parse.specs.Listings.{are_bracketed, written_keys, keys_of, tag_count, Listed, with_tag, tags_of, rate_of, slack_of, file_of};
ghost use Rattle.flu_parse.specs.Listings.{period_of, is_tick_head, alone, tick_of};
ghost use Rattle.flu_parse.specs.Resolving.{tags_listed};

use crate::cells::resolved_key;
use crate::drafts::TagList;
use crate::faults::JobFault;
use crate::names::{KindHead, Names};
use crate::naming::kind_of;
use crate::terms::shape_at;
use flu_layout::{inside, written_value};
use flu_model::{Keys, Source, TagRef, What};
use flu_rules::{reads_file, tags_meet_by_their_ends};
use flu_syntax::{WrittenKeys, WrittenNumber, WrittenSpan, WrittenTag};
use std::alloc::Global;

/// The most itags of a job.
const MOST_ITAGS: u64 = 256;

/// The greatest rate of a source, in events a second.
const GREATEST_RATE: u64 = 1_000_000_000;

/// The greatest slack of a source, in the unit of its times.
const GREATEST_SLACK: u64 = 60_000;

/// The greatest period of a clock, in the unit of times.
const GREATEST_PERIOD: u64 = 1 << 62;

fn are_bracketed(keyed: bool, keys: &WrittenKeys) -> bool
    ensures { result ≡ are_bracketed keyed keys.now }
{
    match keys {
        WrittenKeys::Alone => !keyed,
        WrittenKeys::One(_) | WrittenKeys::Range(..) => keyed,
    }
}

fn keys_of(keys: &WrittenKeys) -> Result<Keys, JobFault>
    ensures { Gives (λ keys. keys) result (keys_of keys.now) }
{
    match keys {
        WrittenKeys::Alone => Ok(Keys::Alone),
        WrittenKeys::One(key) => {
            let key = resolved_key(*key)?;
            Ok(Keys::One(key))
        }
        WrittenKeys::Range(lo, hi) => {
            shape_at(written_value(lo.value) <= written_value(hi.value), lo.at)?;
            let first = resolved_key(*lo)?;
            let last = resolved_key(*hi)?;
            Ok(Keys::Range(first, last))
        }
    }
}

// The first key as it is written, 0 if there is none.
fn written_first(keys: &WrittenKeys) -> u64
    ensures { result ≡ first_key (written_keys keys.now) }
{
    match keys {
        WrittenKeys::Alone => 0,
        WrittenKeys::One(key) => written_value(key.value),
        WrittenKeys::Range(lo, _) => written_value(lo.value),
    }
}

// The last key as it is written, 0 if there is none.
fn written_last(keys: &WrittenKeys) -> u64
    ensures { result ≡ last_key (written_keys keys.now) }
{
    match keys {
        WrittenKeys::Alone => 0,
        WrittenKeys::One(key) => written_value(key.value),
        WrittenKeys::Range(_, hi) => written_value(hi.value),
    }
}

// How many tags are listed.
fn tag_count(keys: &WrittenKeys) -> u64
    ensures { result ≡ tag_count keys.now }
{
    match keys {
        WrittenKeys::Alone | WrittenKeys::One(_) => 1,
        WrittenKeys::Range(lo, hi) => count_between(
            written_value(lo.value),
            written_value(hi.value),
        ),
    }
}

// How many numbers there are from one to another, both included.
fn count_between(lo: u64, hi: u64) -> u64
    requires { hi < 2 ^ 63 }
    ensures { result ≡ length (listed_keys (Range lo hi)) }
{
    if lo <= hi { hi - lo + 1 } else { 0 }
}

fn first_key(keys: &Keys) -> u64
    ensures { result ≡ first_key keys.now }
{
    match keys {
        Keys::Alone => 0,
        Keys::One(key) | Keys::Range(key, _) => u64::from(*key),
    }
}

fn last_key(keys: &Keys) -> u64
    ensures { result ≡ last_key keys.now }
{
    match keys {
        Keys::Alone => 0,
        Keys::One(key) | Keys::Range(_, key) => u64::from(*key),
    }
}

// Whether a part of a list has a tag of this kind with a key between these two.
fn meets(kind: u32, first: u64, last: u64, other: &TagRef) -> bool
    ensures { result ≡ ((kind == other.now.kind) && nat_le (max first (first_key other.now.keys)) (min last (last_key other.now.keys))) }
{
    kind == other.kind && first.max(first_key(&other.keys)) <= last.min(last_key(&other.keys))
}

fn is_listed(kind: u32, keys: &WrittenKeys, tags: &[TagRef]) -> bool
    ensures { result ≡ list_any (share_tag (record { kind = kind; keys = written_keys keys.now })) tags.now }
{
    tags_meet_by_their_ends();
    let first = written_first(keys);
    let last = written_last(keys);
    any_meets(kind, first, last, tags)
}

fn any_meets(kind: u32, first: u64, last: u64, tags: &[TagRef]) -> bool
    ensures { result ≡ list_any (λ other. (kind == other.kind) && nat_le (max first (first_key other.keys)) (min last (last_key other.keys))) tags.now }
{
    tags.iter().any(|other| meets(kind, first, last, other))
}

#[tactic(auto, unfolding(crate::specs::Listings::with_tag))]
fn add_tag(
    text: &str,
    names: &Names,
    listed: &mut TagList,
    written: &WrittenTag,
) -> Result<(), JobFault>
    ensures { Gives (λ done. tags_listed listed.new) result (with_tag text.now (naming names.now) (tags_listed listed.old) written.now) }
{
    let at = written.kind.from;
    let kind = kind_of(names, text, written.kind)?;
    shape_at(are_bracketed(kind.keyed, &written.keys), at)?;
    let itags = listed.itags.saturating_add(tag_count(&written.keys));
    if itags > MOST_ITAGS {
        return Err(JobFault::OverLimit {
            what: What::Itags,
            count: 257,
        });
    }
    if is_listed(kind.number, &written.keys, listed.tags.as_slice()) {
        return Err(JobFault::TwiceNamed { at });
    }
    let keys = keys_of(&written.keys)?;
    listed.tags.push(TagRef {
        kind: kind.number,
        keys,
    })?;
    listed.itags = itags;
    Ok(())
}

/// The tags that a source lists, and how many itags there are with them, or the first fault in them.
pub fn tags_of(
    alloc: Global,
    text: &str,
    names: &Names,
    itags: u64,
    written: &[WrittenTag],
) -> Result<TagList, JobFault>
    ensures { Gives tags_listed result (tags_of text.now (naming names.now) itags written.now) }
{
    let mut listed = TagList {
        tags: Vec::new(alloc),
        itags,
    };
    for tag in written {
        match add_tag(text, names, &mut listed, tag) {
            Ok(()) => {}
            Err(fault) => return Err(fault),
        }
    }
    Ok(listed)
}

/// The rate that is written, or 1.
pub fn rate_of(written: &Option<WrittenNumber>) -> Result<u64, JobFault>
    ensures { Gives (λ rate. rate) result (rate_of written.now) }
{
    match written {
        None => Ok(1),
        Some(number) => {
            let rate = written_value(number.value);
            if rate <= GREATEST_RATE {
                Ok(rate)
            } else {
                Err(JobFault::OverLimit {
                    what: What::Rate,
                    count: rate,
                })
            }
        }
    }
}

/// The slack that is written, or 0.
pub fn slack_of(written: &Option<WrittenNumber>) -> Result<u64, JobFault>
    ensures { Gives (λ slack. slack) result (slack_of written.now) }
{
    match written {
        None => Ok(0),
        Some(number) => {
            let slack = written_value(number.value);
            if slack <= GREATEST_SLACK {
                Ok(slack)
            } else {
                Err(JobFault::OverLimit {
                    what: What::Slack,
                    count: slack,
                })
            }
        }
    }
}

/// The period of a clock that is written.
pub fn period_of(written: WrittenNumber) -> Result<u64, JobFault>
    ensures { Gives (λ period. period) result (period_of written) }
{
    let period = written_value(written.value);
    shape_at(1 <= period && period <= GREATEST_PERIOD, written.at)?;
    Ok(period)
}

fn is_tick_head(kind: KindHead) -> bool
    ensures { result ≡ is_tick_head kind }
{
    !kind.keyed && !kind.has_item && !kind.has_value
}

// The tags of one kind that is written without brackets.
fn tag_alone(
    alloc: Global,
    text: &str,
    names: &Names,
    itags: u64,
    kind: WrittenSpan,
) -> Result<TagList, JobFault>
    ensures { Gives tags_listed result (tags_of text.now (naming names.now) itags (alone kind ∷ [])) }
{
    let mut listed = TagList {
        tags: Vec::new(alloc),
        itags,
    };
    let tag = WrittenTag {
        kind,
        keys: WrittenKeys::Alone,
    };
    match add_tag(text, names, &mut listed, &tag) {
        Ok(()) => Ok(listed),
        Err(fault) => Err(fault),
    }
}

/// The tag of a clock, and how many itags there are with it, or the first fault in it.
pub fn tick_of(
    alloc: Global,
    text: &str,
    names: &Names,
    itags: u64,
    written: WrittenSpan,
) -> Result<TagList, JobFault>
    ensures { Gives tags_listed result (tick_of text.now (naming names.now) itags written) }
{
    let kind = kind_of(names, text, written)?;
    shape_at(is_tick_head(kind), written.from)?;
    tag_alone(alloc, text, names, itags, written)
}

/// The file that is written, which no earlier source reads.
pub fn file_of<'t>(
    text: &'t str,
    sources: &[Source],
    span: WrittenSpan,
) -> Result<&'t str, JobFault>
    ensures { Gives (λ file. file.now) result (file_of text.now sources.now span) }
{
    let file = inside(text, span);
    if file.len() == 0 {
        return Err(JobFault::WrongShape { at: span.from });
    }
    if reads_file(sources, file) {
        return Err(JobFault::TwiceNamed { at: span.from });
    }
    Ok(file)
}
