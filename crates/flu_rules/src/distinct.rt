//! Names and files that are to differ from each other.

ghost use Rattle.std.specs.Prelude.{◌≡◌, [], not, ◌&&◌};
ghost use Rattle.std.specs.List.{list_any, filter_map};
ghost use Rattle.flu_model.specs.Rules.{is_same_text, have_own_names, have_own_files, is_clock, file_of_source};
ghost use Rattle.flu_rules.specs.Names.{names_of};

use flu_model::{Family, Kind, NameList, Source};

/// Whether families, kinds, sources and lists have names that all differ.
pub fn have_own_names(
    lists: &[NameList],
    families: &[Family],
    kinds: &[Kind],
    sources: &[Source],
) -> bool
    ensures { result ≡ have_own_names lists.now families.now kinds.now sources.now }
{
    for (index, family) in families.iter().enumerate() {
        if is_declared(
            family.name.as_str(),
            lists,
            &families[index + 1..],
            kinds,
            sources,
        ) {
            return false;
        }
    }
    kinds_have_own_names(lists, kinds, sources)
}

fn kinds_have_own_names(lists: &[NameList], kinds: &[Kind], sources: &[Source]) -> bool
    ensures { result ≡ have_own_names lists.now [] kinds.now sources.now }
{
    for (index, kind) in kinds.iter().enumerate() {
        if is_declared(kind.name.as_str(), lists, &[], &kinds[index + 1..], sources) {
            return false;
        }
    }
    sources_have_own_names(lists, sources)
}

fn sources_have_own_names(lists: &[NameList], sources: &[Source]) -> bool
    ensures { result ≡ have_own_names lists.now [] [] sources.now }
{
    for (index, source) in sources.iter().enumerate() {
        if is_declared(source.name.as_str(), lists, &[], &[], &sources[index + 1..]) {
            return false;
        }
    }
    lists_have_own_names(lists)
}

fn lists_have_own_names(lists: &[NameList]) -> bool
    ensures { result ≡ have_own_names lists.now [] [] [] }
{
    for (index, list) in lists.iter().enumerate() {
        if names_list(&lists[index + 1..], list.name()) {
            return false;
        }
    }
    true
}

// Whether one of these parts has the name.
#[tactic(auto, using(crate::proofs::DistinctLemmas::declared))]
fn is_declared(
    name: &str,
    lists: &[NameList],
    families: &[Family],
    kinds: &[Kind],
    sources: &[Source],
) -> bool
    ensures { result ≡ list_any (is_same_text name.now) (names_of lists.now families.now kinds.now sources.now) }
{
    names_family(families, name)
        || names_kind(kinds, name)
        || names_source(sources, name)
        || names_list(lists, name)
}

/// Whether no two sources have one file. Clocks have none.
pub fn have_own_files(sources: &[Source]) -> bool
    ensures { result ≡ have_own_files sources.now }
{
    for (index, source) in sources.iter().enumerate() {
        if source.every.is_none() && reads_file(&sources[index + 1..], source.file.as_str()) {
            return false;
        }
    }
    true
}

fn names_family(families: &[Family], name: &str) -> bool
    ensures { result ≡ list_any (λ family. is_same_text name.now family.name) families.now }
{
    families.iter().any(|family| name == family.name.as_str())
}

fn names_kind(kinds: &[Kind], name: &str) -> bool
    ensures { result ≡ list_any (λ kind. is_same_text name.now kind.name) kinds.now }
{
    kinds.iter().any(|kind| name == kind.name.as_str())
}

fn names_source(sources: &[Source], name: &str) -> bool
    ensures { result ≡ list_any (λ source. is_same_text name.now source.name) sources.now }
{
    sources.iter().any(|source| name == source.name.as_str())
}

fn names_list(lists: &[NameList], name: &str) -> bool
    ensures { result ≡ list_any (λ list. is_same_text name.now list.name) lists.now }
{
    lists.iter().any(|list| name == list.name())
}

/// Whether one of the sources reads this file. Clocks read none.
pub fn reads_file(sources: &[Source], file: &str) -> bool
    ensures { result ≡ list_any (is_same_text file.now) (filter_map file_of_source sources.now) }
{
    any_reads(sources, file)
}

fn any_reads(sources: &[Source], file: &str) -> bool
    ensures { result ≡ list_any (λ source. not (is_clock source) && is_same_text file.now source.file) sources.now }
{
    sources.iter().any(|source| source.every.is_none() && file == source.file.as_str())
}
