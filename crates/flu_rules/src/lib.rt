//! The rules of the job language (`docs/LANGUAGE.md`) as a test at run time: from parts to a job, if they keep the rules.
#![tactic(auto)]

ghost use Rattle.std.specs.Prelude.{◌≡◌, ◌↔◌, IsTrue, IfSome, IfNone};
ghost use Rattle.std.specs.List.{list_all};
ghost use Rattle.flu_model.specs.Versions.{ties_fit, iso_fits};
ghost use Rattle.flu_model.specs.Rules.{is_version, are_families, are_kinds, are_depends, are_sources};
ghost use Rattle.flu_rules.specs.Kept.{KeepsRules};
ghost use Rattle.flu_rules.specs.Keys.{TagsMeet, TagsDiffer};

mod actions;
mod distinct;
mod expressions;
mod lists;
mod sources;
mod tags;
mod templates;
mod versions;

use crate::actions::kind_fits;
pub use crate::distinct::reads_file;
use crate::distinct::{have_own_files, have_own_names};
pub use crate::lists::is_listed_text;
use crate::lists::{are_lists, fit_lists};
pub use crate::sources::is_tick_kind;
use crate::sources::{clocks_fit, depend_fits, source_fits};
use crate::tags::has_few_itags;
pub use crate::versions::fit_version;
use flu_model::{Depend, Family, Kind, List, NameList, Program, Source, Unit};
pub use flu_names::{are_name, is_name};

/// The most lists, families, kinds and sources of a job.
const MOST_PARTS: usize = 64;

/// The most dependencies of a job.
const MOST_DEPENDS: usize = 4096;

/// The most rows that a source may have at one time.
const MOST_TIES: u32 = 2_147_483_648;

/// Parts of sources' lists share a tag if they are of one kind and their keys meet; and no tag is listed twice if no two
/// parts share one.
pub fn tags_meet_by_their_ends()
    ensures meet { TagsMeet }
    ensures differ { TagsDiffer }
{}

/// The job of this version with these parts, if they keep the rules of the language (`docs/LANGUAGE.md`); none if they
/// break one. Its sources may have up to `ties` rows at one time, from 1 to 2,147,483,648, and only in version 3 more than 1. With a unit,
/// `iso`, its times are text too; only version 3 has this, and only version 3 has clocks.
///
/// The parts may be any, so what the lists hold need not have been looked at before. It takes no memory: ranges of keys
/// are not written out, and expressions are looked at no deeper than they may be high.
pub fn program(
    version: u32,
    ties: u32,
    iso: Option<Unit>,
    lists: List<NameList>,
    families: List<Family>,
    kinds: List<Kind>,
    depends: List<Depend>,
    sources: List<Source>,
) -> Option<Program>
    ensures version { IfSome result (λ p. p.version ≡ version) }
    ensures ties { IfSome result (λ p. p.ties ≡ ties) }
    ensures iso { IfSome result (λ p. p.iso ≡ iso) }
    ensures lists { IfSome result (λ p. p.lists ≡ lists) }
    ensures parts { IfSome result (λ p. (p.families ≡ families) × (p.kinds ≡ kinds) × (p.depends ≡ depends) × (p.sources ≡ sources)) }
    ensures kept { IfSome result (λ p. KeepsRules version ties iso lists families kinds depends sources) }
    ensures refused { IfNone result (¬ (KeepsRules version ties iso lists families kinds depends sources)) }
{
    if keep_rules(
        version,
        ties,
        iso,
        lists.items(),
        families.items(),
        kinds.items(),
        depends.items(),
        sources.items(),
    ) {
        Some(Program {
            version,
            ties,
            iso,
            lists,
            families,
            kinds,
            depends,
            sources,
        })
    } else {
        None
    }
}

fn keep_rules(
    version: u32,
    ties: u32,
    iso: Option<Unit>,
    lists: &[NameList],
    families: &[Family],
    kinds: &[Kind],
    depends: &[Depend],
    sources: &[Source],
) -> bool
    ensures { IsTrue result ↔ KeepsRules version ties iso lists.now families.now kinds.now depends.now sources.now }
{
    is_version(version)
        && ties_fit(version, ties)
        && iso_fits(version, iso)
        && lists.len() <= MOST_PARTS
        && families.len() <= MOST_PARTS
        && kinds.len() <= MOST_PARTS
        && depends.len() <= MOST_DEPENDS
        && sources.len() <= MOST_PARTS
        && has_few_itags(sources)
        && are_lists(lists)
        && are_families(families)
        && are_kinds(families, kinds)
        && fit_version(version, families, kinds)
        && fit_lists(version, lists, families, kinds)
        && are_depends(kinds, depends)
        && are_sources(kinds, sources)
        && clocks_fit(version, sources)
        && have_own_names(lists, families, kinds, sources)
        && have_own_files(sources)
}

fn is_version(version: u32) -> bool
    ensures { result ≡ is_version version }
{
    version == 1 || version == 2 || version == 3
}

fn ties_fit(version: u32, ties: u32) -> bool
    ensures { result ≡ ties_fit version ties }
{
    1 <= ties && ties <= MOST_TIES && (version == 3 || ties == 1)
}

fn iso_fits(version: u32, iso: Option<Unit>) -> bool
    ensures { result ≡ iso_fits version iso }
{
    match iso {
        None => true,
        Some(_) => version == 3,
    }
}

fn are_families(families: &[Family]) -> bool
    ensures { result ≡ are_families families.now }
{
    families.iter().all(|family| is_name(family.name.as_str()))
}

fn are_kinds(families: &[Family], kinds: &[Kind]) -> bool
    ensures { result ≡ are_kinds families.now kinds.now }
{
    kinds.iter().all(|kind| kind_fits(families, kind))
}

fn are_depends(kinds: &[Kind], depends: &[Depend]) -> bool
    ensures { result ≡ are_depends kinds.now depends.now }
{
    depends.iter().all(|depend| depend_fits(kinds, depend))
}

fn are_sources(kinds: &[Kind], sources: &[Source]) -> bool
    ensures { result ≡ are_sources kinds.now sources.now }
{
    sources.iter().all(|source| source_fits(kinds, source))
}
