//! From a written job to the parts of a job.

ghost use Rattle.std.specs.Prelude.{◌≡◌, ◌==◌, ◌∷◌, ◌++◌, [], map, OnOk, OnErr, IfOk};
ghost use Rattle.std.specs.List.{list_any};
ghost use Rattle.flu_model.specs.Erasure.{plain_action, plain_kind};
ghost use Rattle.flu_syntax.specs.Tree.{action_of as action_seen, declaration_of, job_of};
ghost use Rattle.flu_parse.specs.Faults.{Gives};
ghost use Rattle.flu_parse.specs.Naming.{naming, in_version};
ghost use Rattle.flu_parse.specs.Resolving.{drafted, same_of, with_depend, with_actions, with_on, with_source, with_clock, with_cell, with_tag, with_names};
ghost use Rattle.flu_parse.specs.Resolving.{with_declaration, idle_kind};
ghost use Rattle.flu_parse.specs.Resolving.{cell_name_fits, item_word_fits, first_draft, draft_of, version_of};
ghost use Rattle.flu_parse.specs.Resolving.{ties_counted, ties_of, unit_named, unit_of, iso_of, resolved, job_of_parts};

use crate::actions::resolved_actions;
use crate::drafts::{Draft, JobParts};
use crate::faults::JobFault;
use crate::listings::{file_of, period_of, rate_of, slack_of, tags_of, tick_of};
use crate::lists::{items_by, keys_by, list_of, listed_families, listed_kinds, texts_of};
use crate::names::{KindHead, Names};
use crate::naming::{families_of, is_version_3, kind_of, naming_of};
use crate::terms::shape_at;
use flu_layout::{name_of, written_value};
use flu_model::{Action, Depend, Kind, List, Name, NameList, Source, Text, Unit};
use flu_syntax::{
    WrittenAction, WrittenCells, WrittenDeclaration, WrittenHead, WrittenItem, WrittenJob,
    WrittenNumber, WrittenRelation, WrittenSpan, WrittenTag, WrittenTies, WrittenUnit,
};
use std::alloc::{AllocError, Global};

fn same_of(relation: &WrittenRelation, a: KindHead, b: KindHead) -> Result<bool, JobFault>
    ensures { Gives (λ same. same) result (same_of relation.now a b) }
{
    match relation {
        WrittenRelation::None | WrittenRelation::All => Ok(false),
        WrittenRelation::Same { at } => {
            shape_at(a.keyed && b.keyed, *at)?;
            Ok(true)
        }
    }
}

#[tactic(auto, unfolding(crate::specs::Resolving::with_depend))]
fn add_depend(
    text: &str,
    names: &Names,
    draft: &mut Draft,
    a: WrittenSpan,
    b: WrittenSpan,
    relation: &WrittenRelation,
) -> Result<(), JobFault>
    ensures { Gives (λ done. drafted draft.new) result (with_depend text.now (naming names.now) (drafted draft.old) a b relation.now) }
{
    let first = kind_of(names, text, a)?;
    let second = kind_of(names, text, b)?;
    let same = same_of(relation, first, second)?;
    draft.depends.push(Depend {
        a: first.number,
        b: second.number,
        same,
    })?;
    Ok(())
}

// Gives a kind its actions.
fn set_actions(kinds: &mut Vec<Kind>, number: u32, actions: List<Action>)
    ensures { map plain_kind kinds.new.items ≡ with_actions (map plain_kind kinds.old.items) number (map plain_action actions) }
{
    let place = number as usize;
    if place < kinds.len() {
        kinds[place].actions = actions;
    }
}

fn is_given(given: &[u32], number: u32) -> bool
    ensures { result ≡ list_any (λ g. g == number) given.now }
{
    given.iter().any(|g| *g == number)
}

#[tactic(auto, unfolding(crate::specs::Resolving::with_on))]
fn add_on(
    alloc: Global,
    text: &str,
    names: &Names,
    draft: &mut Draft,
    name: WrittenSpan,
    written: &[WrittenAction],
) -> Result<(), JobFault>
    ensures { Gives (λ done. drafted draft.new) result (with_on text.now (naming names.now) (drafted draft.old) name (map action_seen written.now)) }
{
    let kind = kind_of(names, text, name)?;
    if is_given(draft.given.as_slice(), kind.number) {
        return Err(JobFault::TwiceNamed { at: name.from });
    }
    let actions = resolved_actions(alloc, text, names, kind, written)?;
    draft.given.push(kind.number)?;
    set_actions(&mut draft.kinds, kind.number, actions);
    Ok(())
}

#[tactic(auto, unfolding(crate::specs::Resolving::with_source))]
fn add_source(
    alloc: Global,
    text: &str,
    names: &Names,
    draft: &mut Draft,
    name: WrittenSpan,
    file: WrittenSpan,
    rate: &Option<WrittenNumber>,
    slack: &Option<WrittenNumber>,
    tags: &[WrittenTag],
) -> Result<(), JobFault>
    ensures { Gives (λ done. drafted draft.new) result (with_source text.now (naming names.now) (drafted draft.old) name file rate.now slack.now tags.now) }
{
    let file = file_of(text, draft.sources.as_slice(), file)?;
    let rate = rate_of(rate)?;
    let slack = slack_of(slack)?;
    let listed = tags_of(alloc, text, names, draft.itags, tags)?;
    let itags = listed.itags;
    let name = String::from_str(alloc, name_of(text, name))?;
    let file = String::from_str(alloc, file)?;
    draft.sources.push(Source {
        name: Name::of(name),
        file: Text::of(file),
        every: None,
        rate,
        slack,
        tags: List::of(listed.tags),
    })?;
    draft.itags = itags;
    Ok(())
}

#[tactic(auto, unfolding(crate::specs::Resolving::with_clock))]
fn add_clock(
    alloc: Global,
    text: &str,
    names: &Names,
    draft: &mut Draft,
    at: usize,
    name: WrittenSpan,
    every: WrittenNumber,
    rate: &Option<WrittenNumber>,
    tag: WrittenSpan,
) -> Result<(), JobFault>
    ensures { Gives (λ done. drafted draft.new) result (with_clock text.now (naming names.now) (drafted draft.old) at name every rate.now tag) }
{
    shape_at(is_version_3(names), at)?;
    let period = period_of(every)?;
    let rate = rate_of(rate)?;
    let listed = tick_of(alloc, text, names, draft.itags, tag)?;
    let itags = listed.itags;
    let name = String::from_str(alloc, name_of(text, name))?;
    draft.sources.push(Source {
        name: Name::of(name),
        file: Text::of(String::new(alloc)),
        every: Some(period),
        rate,
        slack: 0,
        tags: List::of(listed.tags),
    })?;
    draft.itags = itags;
    Ok(())
}

// Whether a family may have this name.
fn cell_name_fits(text: &str, names: &Names, name: WrittenSpan) -> bool
    ensures { result ≡ cell_name_fits text.now (naming names.now) name }
{
    !(is_version_3(names) && name_of(text, name) == "item")
}

// A wrong shape at the word `item` of a kind, unless the language has items.
fn item_word_fits(names: &Names, item: &Option<WrittenItem>) -> Result<(), JobFault>
    ensures { Gives (λ done. done) result (item_word_fits (naming names.now) item.now) }
{
    match item {
        None => Ok(()),
        Some(item) => shape_at(is_version_3(names), item.at),
    }
}

#[tactic(auto, unfolding(crate::specs::Resolving::with_cell))]
fn add_cell(
    text: &str,
    names: &Names,
    draft: &mut Draft,
    name: WrittenSpan,
    cells: &WrittenCells,
) -> Result<(), JobFault>
    ensures { Gives (λ done. drafted draft.new) result (with_cell text.now (naming names.now) (drafted draft.old) name cells.now) }
{
    shape_at(cell_name_fits(text, names, name), name.from)?;
    let list = list_of(text, names, keys_by(cells))?;
    draft.family_lists.push(list)?;
    Ok(())
}

#[tactic(auto, unfolding(crate::specs::Resolving::with_tag))]
fn add_tag(
    text: &str,
    names: &Names,
    draft: &mut Draft,
    item: &Option<WrittenItem>,
) -> Result<(), JobFault>
    ensures { Gives (λ done. drafted draft.new) result (with_tag text.now (naming names.now) (drafted draft.old) item.now) }
{
    item_word_fits(names, item)?;
    let list = list_of(text, names, items_by(item))?;
    draft.kind_lists.push(list)?;
    Ok(())
}

#[tactic(auto, unfolding(crate::specs::Resolving::with_names))]
fn add_names(
    alloc: Global,
    text: &str,
    names: &Names,
    draft: &mut Draft,
    at: usize,
    name: WrittenSpan,
    texts: &[WrittenSpan],
) -> Result<(), JobFault>
    ensures { Gives (λ done. drafted draft.new) result (with_names text.now (naming names.now) (drafted draft.old) at name texts.now) }
{
    shape_at(is_version_3(names), at)?;
    let named = texts_of(alloc, text, texts)?;
    let name = Name::of(String::from_str(alloc, name_of(text, name))?);
    let list = NameList::of(alloc, name, named)?;
    draft.lists.push(list)?;
    Ok(())
}

#[tactic(auto, unfolding(crate::specs::Resolving::with_declaration))]
fn add_declaration(
    alloc: Global,
    text: &str,
    names: &Names,
    draft: &mut Draft,
    declaration: &WrittenDeclaration,
) -> Result<(), JobFault>
    ensures { Gives (λ done. drafted draft.new) result (with_declaration text.now (naming names.now) (drafted draft.old) (declaration_of declaration.now)) }
{
    match declaration {
        WrittenDeclaration::Cell { name, cells, .. } => {
            add_cell(text, names, draft, *name, cells)
        }
        WrittenDeclaration::Tag { item, .. } => add_tag(text, names, draft, item),
        WrittenDeclaration::Names { at, name, texts } => {
            add_names(alloc, text, names, draft, *at, *name, texts.items())
        }
        WrittenDeclaration::Depends { a, b, relation } => {
            add_depend(text, names, draft, *a, *b, relation)
        }
        WrittenDeclaration::On { kind, actions } => {
            add_on(alloc, text, names, draft, *kind, actions.items())
        }
        WrittenDeclaration::Source {
            name,
            file,
            rate,
            slack,
            tags,
        } => add_source(
            alloc,
            text,
            names,
            draft,
            *name,
            *file,
            rate,
            slack,
            tags.items(),
        ),
        WrittenDeclaration::Clock {
            at,
            name,
            every,
            rate,
            tag,
        } => add_clock(alloc, text, names, draft, *at, *name, *every, rate, *tag),
    }
}

// The kinds, in the order of their declarations, without actions and lists.
fn idle_kinds(alloc: Global, names: &Names) -> Result<Vec<Kind>, AllocError>
    ensures { IfOk result (λ kinds. map plain_kind kinds.items ≡ map idle_kind (naming names.now).kinds) }
{
    let mut kinds = Vec::new(alloc);
    for (name, head) in names.kinds.iter() {
        let name = Name::of(String::from_str(alloc, name)?);
        kinds.push(Kind {
            name,
            keyed: head.keyed,
            has_item: head.has_item,
            list: None,
            has_value: head.has_value,
            actions: List::of(Vec::new(alloc)),
        })?;
    }
    Ok(kinds)
}

fn first_draft(alloc: Global, names: &Names) -> Result<Draft, AllocError>
    ensures { IfOk result (λ draft. drafted draft ≡ first_draft (naming names.now)) }
{
    let kinds = idle_kinds(alloc, names)?;
    Ok(Draft {
        lists: Vec::new(alloc),
        family_lists: Vec::new(alloc),
        kind_lists: Vec::new(alloc),
        kinds,
        given: Vec::new(alloc),
        depends: Vec::new(alloc),
        sources: Vec::new(alloc),
        itags: 0,
    })
}

fn draft_of(
    alloc: Global,
    text: &str,
    names: &Names,
    declarations: &[WrittenDeclaration],
) -> Result<Draft, JobFault>
    ensures { Gives drafted result (draft_of text.now (naming names.now) (map declaration_of declarations.now)) }
{
    let mut draft = first_draft(alloc, names)?;
    for declaration in declarations {
        match add_declaration(alloc, text, names, &mut draft, declaration) {
            Ok(()) => {}
            Err(fault) => return Err(fault),
        }
    }
    Ok(draft)
}

// The version that is written, or 1.
fn version_of(written: &Option<WrittenHead>) -> Result<u32, JobFault>
    ensures { Gives (λ version. version) result (version_of written.now) }
{
    match written {
        None => Ok(1),
        Some(head) => {
            let version = written_value(head.version.value);
            shape_at(
                version == 1 || version == 2 || version == 3,
                head.version.at,
            )?;
            Ok(version as u32)
        }
    }
}

/// The most rows that a source may have at one time.
const MOST_TIES: u64 = 2_147_483_648;

fn ties_counted(version: u32, written: Option<WrittenTies>) -> Result<u32, JobFault>
    ensures { Gives (λ ties. ties) result (ties_counted version written) }
{
    let Some(ties) = written else {
        return Ok(1);
    };
    shape_at(version == 3, ties.at)?;
    let count = written_value(ties.number.value);
    shape_at(1 <= count && count <= MOST_TIES, ties.number.at)?;
    Ok(count as u32)
}

// How many rows a source may have at one time: the number that is written, or 1.
fn ties_of(version: u32, written: &Option<WrittenHead>) -> Result<u32, JobFault>
    ensures { Gives (λ ties. ties) result (ties_of version written.now) }
{
    match written {
        None => Ok(1),
        Some(head) => ties_counted(version, head.ties),
    }
}

fn unit_named(name: &str) -> Option<Unit>
    ensures { result ≡ unit_named name.now }
{
    if name == "seconds" {
        Some(Unit::Seconds)
    } else if name == "milliseconds" {
        Some(Unit::Milliseconds)
    } else if name == "microseconds" {
        Some(Unit::Microseconds)
    } else {
        None
    }
}

fn unit_of(text: &str, version: u32, written: Option<WrittenUnit>) -> Result<Option<Unit>, JobFault>
    ensures { Gives (λ unit. unit) result (unit_of text.now version written) }
{
    let Some(unit) = written else {
        return Ok(None);
    };
    shape_at(version == 3, unit.at)?;
    match unit_named(name_of(text, unit.name)) {
        Some(unit) => Ok(Some(unit)),
        None => Err(JobFault::WrongShape { at: unit.name.from }),
    }
}

// The unit of the times, if one is written.
fn iso_of(text: &str, version: u32, written: &Option<WrittenHead>) -> Result<Option<Unit>, JobFault>
    ensures { Gives (λ unit. unit) result (iso_of text.now version written.now) }
{
    match written {
        None => Ok(None),
        Some(head) => unit_of(text, version, head.iso),
    }
}

/// The parts of the job that is written, or the first fault in it (`docs/LANGUAGE.md`).
///
/// # Errors
///
/// Names are checked first, in the order of the declarations: [`JobFault::TwiceNamed`] at the second declaration of a name,
/// [`JobFault::OverLimit`] for a family, kind, source, list or `depends` that is one too many. Then [`JobFault::WrongShape`] at a
/// version other than 1, 2 and 3, at the word `ties` in versions 1 and 2, at a number behind it that is not from 1 to 2,147,483,648, at
/// the word `iso` in versions 1 and 2, and at a unit that is none, in this order. Then the declarations are checked again, token by
/// token, where an unknown name comes before a wrong shape, that before a limit, and that before what is named twice: in versions 1 and
/// 2 there is a wrong shape at the words `names`, `clock` and `by`, the name after `by` is of a list, and a text of a list has a wrong
/// shape, is the 65,537th of its list, or is there already; the period of a clock has a wrong shape if it is not from 1 to 2^62, and so has
/// its tag if it is of a kind with a key, an item or a value. [`JobFault::NoMemory`] if memory runs out.
#[tactic(auto, unfolding(crate::specs::Resolving::resolved))]
pub fn resolve(alloc: Global, text: &str, job: &WrittenJob) -> Result<JobParts, JobFault>
    ensures { Gives job_of_parts result (resolved text.now (job_of job.now)) }
{
    let declarations = job.declarations.items();
    let mut names = match naming_of(alloc, text, declarations) {
        Ok(names) => names,
        Err(fault) => return Err(fault),
    };
    let version = version_of(&job.head)?;
    let ties = ties_of(version, &job.head)?;
    let iso = iso_of(text, version, &job.head)?;
    names.version = version;
    let draft = draft_of(alloc, text, &names, declarations)?;
    let families = families_of(alloc, &names)?;
    let families = listed_families(alloc, families, draft.family_lists.as_slice())?;
    let kinds = listed_kinds(alloc, draft.kinds, draft.kind_lists.as_slice())?;
    Ok(JobParts {
        version,
        ties,
        iso,
        lists: List::of(draft.lists),
        families: List::of(families),
        kinds: List::of(kinds),
        depends: List::of(draft.depends),
        sources: List::of(draft.sources),
    })
}
