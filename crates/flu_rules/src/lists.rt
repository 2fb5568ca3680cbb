//! Lists of names, and which of them name keys and items.

ghost use Rattle.std.specs.Prelude.{◌≡◌, slice_get, IfSome, IsSome};
ghost use Rattle.std.specs.List.{list_all};
ghost use Rattle.flu_model.specs.ListRules.{is_listed_byte, is_listed_text, is_list, are_lists, is_declared_list, family_list_fits, kind_list_fits, fit_lists};

use flu_model::{Family, KEY_COUNT, Kind, NameList};
use flu_names::{is_name, is_text_byte};

/// The version with lists of names.
const VERSION_WITH_LISTS: u32 = 3;

/// The most bytes of a text in a list.
const MOST_BYTES: usize = 64;

/// Whether each list has a name, and one text or more that may be in a list.
pub fn are_lists(lists: &[NameList]) -> bool
    ensures { result ≡ are_lists lists.now }
{
    lists.iter().all(|list| is_list(list))
}

fn is_list(list: &NameList) -> bool
    ensures { result ≡ is_list list.now }
{
    list.distinct();
    is_name(list.name())
        && list.len() > 0
        && list.len() <= KEY_COUNT as usize
        && are_listed_texts(list)
}

fn are_listed_texts(list: &NameList) -> bool
    ensures { result ≡ list_all is_listed_text list.now.texts }
{
    for number in 0..list.len() {
        if !is_listed_at(list, number) {
            return false;
        }
    }
    true
}

// Whether the text of a number, which the list has, may be in a list.
fn is_listed_at(list: &NameList, number: usize) -> bool
    ensures { IfSome (slice_get list.now.texts number) (λ text. result ≡ is_listed_text text) }
{
    match list.text(number) {
        Some(text) => is_listed_text(text),
        None => false,
    }
}

/// Whether a text may be in a list: it has 1 to 64 bytes, none of which is `,`, `[`, `]`, `{` or `}` or what a text may not have.
pub fn is_listed_text(text: &str) -> bool
    ensures { result ≡ is_listed_text text.now }
{
    text.len() > 0 && text.len() <= MOST_BYTES && are_listed_bytes(text.as_bytes())
}

fn are_listed_bytes(bytes: &[u8]) -> bool
    ensures { result ≡ list_all is_listed_byte bytes.now }
{
    bytes.iter().all(|byte| is_listed_byte(*byte))
}

fn is_listed_byte(byte: u8) -> bool
    ensures { result ≡ is_listed_byte byte }
{
    is_text_byte(byte)
        && byte != b','
        && byte != b'['
        && byte != b']'
        && byte != b'{'
        && byte != b'}'
}

/// Whether lists are there only where the version of the language has them, and only keys of keyed families and items of kinds that
/// have some are named, by lists that are there.
pub fn fit_lists(version: u32, lists: &[NameList], families: &[Family], kinds: &[Kind]) -> bool
    ensures { result ≡ fit_lists version lists.now families.now kinds.now }
{
    (version == VERSION_WITH_LISTS || lists.len() == 0)
        && fit_families(lists, families)
        && fit_kinds(lists, kinds)
}

fn fit_families(lists: &[NameList], families: &[Family]) -> bool
    ensures { result ≡ list_all (family_list_fits lists.now) families.now }
{
    families
        .iter()
        .all(|family| family_list_fits(lists, family))
}

fn family_list_fits(lists: &[NameList], family: &Family) -> bool
    ensures { result ≡ family_list_fits lists.now family.now }
{
    is_declared_list(lists, family.list) && (family.keyed || family.list.is_none())
}

fn fit_kinds(lists: &[NameList], kinds: &[Kind]) -> bool
    ensures { result ≡ list_all (kind_list_fits lists.now) kinds.now }
{
    kinds.iter().all(|kind| kind_list_fits(lists, kind))
}

fn kind_list_fits(lists: &[NameList], kind: &Kind) -> bool
    ensures { result ≡ kind_list_fits lists.now kind.now }
{
    is_declared_list(lists, kind.list) && (kind.has_item || kind.list.is_none())
}

fn is_declared_list(lists: &[NameList], list: Option<u32>) -> bool
    ensures { result ≡ is_declared_list lists.now list }
{
    match list {
        None => true,
        Some(number) => (number as usize) < lists.len(),
    }
}
