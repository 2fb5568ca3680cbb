//! Dependencies and sources.

ghost use Rattle.std.specs.Prelude.{◌≡◌, Some};
ghost use Rattle.std.specs.List.{list_all, list_any};
ghost use Rattle.flu_model.specs.Rules.{depend_fits, keys_fit, tag_ref_fits, is_file_text, is_tick_kind, is_tick_tag, clock_fits, origin_fits, is_clock};
ghost use Rattle.flu_model.specs.Rules.{source_fits};
ghost use Rattle.flu_model.specs.Versions.{clocks_fit};
ghost use Rattle.flu_names.specs.Names.{is_text_byte};

use crate::tags::are_distinct;
use flu_model::{Depend, KEY_COUNT, Keys, Kind, Source, TagRef};
use flu_names::{LONGEST_TEXT, is_name, is_text_byte};

/// The greatest rate of a source, in events a second.
const GREATEST_RATE: u64 = 1_000_000_000;

/// The greatest slack of a source, in the unit of its times.
const GREATEST_SLACK: u64 = 60_000;

/// The greatest period of a clock, in the unit of times.
const GREATEST_PERIOD: u64 = 1 << 62;

/// The version with clocks.
const VERSION_WITH_CLOCKS: u32 = 3;

/// Whether a dependency names declared kinds, and keyed ones if it is at the same key.
pub fn depend_fits(kinds: &[Kind], depend: &Depend) -> bool
    ensures { result ≡ depend_fits kinds.now depend.now }
{
    match (kinds.get(depend.a as usize), kinds.get(depend.b as usize)) {
        (Some(a), Some(b)) => !depend.same || (a.keyed && b.keyed),
        _ => false,
    }
}

/// Whether a source has a name, a file or a period, a rate and a slack that are not too great, and tags, each a declared one that is
/// listed once. A clock has no slack, and one tag, of a kind without key, item and value.
pub fn source_fits(kinds: &[Kind], source: &Source) -> bool
    ensures { result ≡ source_fits kinds.now source.now }
{
    let tags = source.tags.items();
    is_name(source.name.as_str())
        && origin_fits(kinds, source)
        && source.rate <= GREATEST_RATE
        && source.slack <= GREATEST_SLACK
        && tags.len() > 0
        && tags_fit(kinds, tags)
        && are_distinct(tags)
}

// Whether a source has a file, or is a clock with a period.
fn origin_fits(kinds: &[Kind], source: &Source) -> bool
    ensures { result ≡ origin_fits kinds.now source.now }
{
    match source.every {
        None => is_file_text(source.file.as_str()),
        Some(every) => clock_fits(kinds, every, source),
    }
}

fn clock_fits(kinds: &[Kind], every: u64, source: &Source) -> bool
    ensures { result ≡ clock_fits kinds.now every source.now }
{
    let tags = source.tags.items();
    1 <= every
        && every <= GREATEST_PERIOD
        && source.file.as_str().len() == 0
        && source.slack == 0
        && tags.len() == 1
        && are_tick_tags(kinds, tags)
}

fn are_tick_tags(kinds: &[Kind], tags: &[TagRef]) -> bool
    ensures { result ≡ list_all (is_tick_tag kinds.now) tags.now }
{
    tags.iter().all(|listed| is_tick_tag(kinds, listed))
}

fn is_tick_tag(kinds: &[Kind], listed: &TagRef) -> bool
    ensures { result ≡ is_tick_tag kinds.now listed.now }
{
    match kinds.get(listed.kind as usize) {
        Some(kind) => is_tick_kind(kind),
        None => false,
    }
}

/// Whether the events of a kind may be the ticks of a clock: they have no key, no item and no value.
pub fn is_tick_kind(kind: &Kind) -> bool
    ensures { result ≡ is_tick_kind (Some kind.now) }
{
    !kind.keyed && !kind.has_item && !kind.has_value
}

/// Whether this version of the language has the clocks among the sources.
pub fn clocks_fit(version: u32, sources: &[Source]) -> bool
    ensures { result ≡ clocks_fit version sources.now }
{
    version == VERSION_WITH_CLOCKS || !has_clock(sources)
}

fn has_clock(sources: &[Source]) -> bool
    ensures { result ≡ list_any is_clock sources.now }
{
    sources.iter().any(|source| source.every.is_some())
}

fn tags_fit(kinds: &[Kind], tags: &[TagRef]) -> bool
    ensures { result ≡ list_all (tag_ref_fits kinds.now) tags.now }
{
    tags.iter().all(|listed| tag_ref_fits(kinds, listed))
}

fn tag_ref_fits(kinds: &[Kind], listed: &TagRef) -> bool
    ensures { result ≡ tag_ref_fits kinds.now listed.now }
{
    match kinds.get(listed.kind as usize) {
        Some(kind) => keys_fit(kind.keyed, &listed.keys),
        None => false,
    }
}

fn keys_fit(keyed: bool, keys: &Keys) -> bool
    ensures { result ≡ keys_fit keyed keys.now }
{
    match keys {
        Keys::Alone => !keyed,
        Keys::One(key) => keyed && *key < KEY_COUNT,
        Keys::Range(lo, hi) => keyed && *lo <= *hi && *hi < KEY_COUNT,
    }
}

// Whether a text may name a file: 1 to 256 bytes that may be between quotes.
fn is_file_text(text: &str) -> bool
    ensures { result ≡ is_file_text text.now }
{
    text.len() > 0 && text.len() <= LONGEST_TEXT && are_text_bytes(text.as_bytes())
}

fn are_text_bytes(bytes: &[u8]) -> bool
    ensures { result ≡ list_all is_text_byte bytes.now }
{
    bytes.iter().all(|byte| is_text_byte(*byte))
}
