//! Which names are declared, and as what.

ghost use Rattle.std.specs.Prelude.{◌≡◌, ◌<◌, ◌∷◌, ◌++◌, [], map, length, false, IfOk, OnOk, OnErr};
ghost use Rattle.std.specs.List.{list_any};
ghost use Rattle.std.specs.Str.{bytes_eq};
ghost use Rattle.flu_syntax.specs.Tree.{declaration_of};
ghost use Rattle.flu_parse.specs.Faults.{Gives};
ghost use Rattle.flu_parse.specs.Naming.{naming, no_names, look_up, is_declared, fresh_name, with_family, with_kind, with_source, with_list, declare};
ghost use Rattle.flu_parse.specs.Naming.{naming_of};
ghost use Rattle.flu_parse.specs.Naming.{is_version_3, takes_items, families_of, family_of, kind_of, has_keys};

use crate::faults::JobFault;
use crate::list_names::ListNames;
use crate::names::{FamilyHead, KindHead, Names};
use flu_layout::name_of;
use flu_model::{Family, Name, Sort, What};
use flu_syntax::{WrittenCells, WrittenDeclaration, WrittenSpan};
use indexmap::{IndexMap, IndexSet};
use std::alloc::{AllocError, Global};

/// The most families, kinds, sources and lists of a job.
const MOST_PARTS: usize = 64;

/// The most dependencies of a job.
const MOST_DEPENDS: usize = 4096;

fn no_names<'t>(alloc: Global) -> Names<'t>
    ensures { naming result ≡ no_names }
{
    Names {
        families: IndexMap::new(alloc),
        kinds: IndexMap::new(alloc),
        sources: IndexSet::new(alloc),
        lists: ListNames::new(alloc),
        depends: 0,
        version: 1,
    }
}

/// Whether the job is of version 3 of the language.
pub fn is_version_3(names: &Names) -> bool
    ensures { result ≡ is_version_3 (naming names.now) }
{
    names.version == 3
}

/// Whether an item may stand under a kind.
pub fn takes_items(names: &Names, under: KindHead) -> bool
    ensures { result ≡ takes_items (naming names.now) under }
{
    is_version_3(names) && under.has_item
}

/// The family with this name.
pub fn find_family(names: &Names, name: &str) -> Option<FamilyHead>
    ensures { result ≡ look_up name.now (naming names.now).families }
{
    names.families.get(name).copied()
}

/// The kind with this name.
fn find_kind(names: &Names, name: &str) -> Option<KindHead>
    ensures { result ≡ look_up name.now (naming names.now).kinds }
{
    names.kinds.get(name).copied()
}

fn is_source(names: &Names, name: &str) -> bool
    ensures { result ≡ list_any (bytes_eq name.now) (naming names.now).sources }
{
    names.sources.contains(name)
}

fn is_declared(names: &Names, name: &str) -> bool
    ensures { result ≡ is_declared (naming names.now) name.now }
{
    find_family(names, name).is_some()
        || find_kind(names, name).is_some()
        || is_source(names, name)
        || names.lists.contains(name)
}

// The name, which no earlier declaration has.
fn fresh_name<'t>(names: &Names, text: &'t str, span: WrittenSpan) -> Result<&'t str, JobFault>
    ensures found { Gives (λ name. name.now) result (fresh_name text.now (naming names.now) span) }
    ensures free { IfOk result (λ name. is_declared (naming names.now) name.now ≡ false) }
{
    let name = name_of(text, span);
    if is_declared(names, name) {
        Err(JobFault::TwiceNamed { at: span.from })
    } else {
        Ok(name)
    }
}

fn add_family<'t>(names: &mut Names<'t>, name: &'t str, head: FamilyHead) -> Result<(), JobFault>
    requires { is_declared (naming names.old) name.now ≡ false }
    ensures ok { OnOk result (naming names.new ≡ record (naming names.old) { families = (naming names.old).families ++ (name.now, head) ∷ [] }) }
    ensures err { OnErr result (result ≡ Err JobFault.NoMemory) }
{
    match names.families.insert(name, head) {
        Ok(_) => Ok(()),
        Err(_) => Err(JobFault::NoMemory),
    }
}

fn add_kind<'t>(names: &mut Names<'t>, name: &'t str, head: KindHead) -> Result<(), JobFault>
    requires { is_declared (naming names.old) name.now ≡ false }
    ensures ok { OnOk result (naming names.new ≡ record (naming names.old) { kinds = (naming names.old).kinds ++ (name.now, head) ∷ [] }) }
    ensures err { OnErr result (result ≡ Err JobFault.NoMemory) }
{
    match names.kinds.insert(name, head) {
        Ok(_) => Ok(()),
        Err(_) => Err(JobFault::NoMemory),
    }
}

fn add_source<'t>(names: &mut Names<'t>, name: &'t str) -> Result<(), JobFault>
    requires { is_declared (naming names.old) name.now ≡ false }
    ensures ok { OnOk result (naming names.new ≡ record (naming names.old) { sources = (naming names.old).sources ++ name.now ∷ [] }) }
    ensures err { OnErr result (result ≡ Err JobFault.NoMemory) }
{
    match names.sources.insert(name) {
        Ok(_) => Ok(()),
        Err(_) => Err(JobFault::NoMemory),
    }
}

fn add_list<'t>(names: &mut Names<'t>, name: &'t str) -> Result<(), JobFault>
    requires free { is_declared (naming names.old) name.now ≡ false }
    requires few { length (naming names.old).lists < 64 }
    ensures ok { OnOk result (naming names.new ≡ record (naming names.old) { lists = (naming names.old).lists ++ name.now ∷ [] }) }
    ensures err { OnErr result (result ≡ Err JobFault.NoMemory) }
{
    names.lists.add(name)?;
    Ok(())
}

/// Whether a family is keyed.
fn has_keys(cells: &WrittenCells) -> bool
    ensures { result ≡ has_keys cells.now }
{
    match cells {
        WrittenCells::Alone => false,
        WrittenCells::Keyed | WrittenCells::By(_) => true,
    }
}

// The names with one more declaration.
#[tactic(auto, unfolding(crate::specs::Naming::declare))]
fn declare<'t>(
    names: &mut Names<'t>,
    text: &'t str,
    declaration: &WrittenDeclaration,
) -> Result<(), JobFault>
    ensures { Gives (λ done. naming names.new) result (declare text.now (naming names.old) (declaration_of declaration.now)) }
{
    match declaration {
        WrittenDeclaration::Cell { name, cells, sort } => {
            declare_family(names, text, *name, has_keys(cells), *sort)
        }
        WrittenDeclaration::Tag {
            name,
            keyed,
            item,
            has_value,
        } => declare_kind(names, text, *name, *keyed, item.is_some(), *has_value),
        WrittenDeclaration::Names { name, .. } => declare_list(names, text, *name),
        WrittenDeclaration::Depends { .. } => {
            if names.depends >= MOST_DEPENDS {
                return Err(JobFault::OverLimit {
                    what: What::Depends,
                    count: 4097,
                });
            }
            names.depends += 1;
            Ok(())
        }
        WrittenDeclaration::On { .. } => Ok(()),
        WrittenDeclaration::Source { name, .. } | WrittenDeclaration::Clock { name, .. } => {
            declare_source(names, text, *name)
        }
    }
}

#[tactic(auto, unfolding(crate::specs::Naming::with_family))]
fn declare_family<'t>(
    names: &mut Names<'t>,
    text: &'t str,
    span: WrittenSpan,
    keyed: bool,
    sort: Sort,
) -> Result<(), JobFault>
    ensures { Gives (λ done. naming names.new) result (with_family text.now (naming names.old) span keyed sort) }
{
    let name = fresh_name(names, text, span)?;
    let count = names.families.len();
    if count >= MOST_PARTS {
        return Err(JobFault::OverLimit {
            what: What::Families,
            count: 65,
        });
    }
    let number = count as u32;
    add_family(
        names,
        name,
        FamilyHead {
            number,
            keyed,
            sort,
        },
    )
}

#[tactic(auto, unfolding(crate::specs::Naming::with_kind))]
fn declare_kind<'t>(
    names: &mut Names<'t>,
    text: &'t str,
    span: WrittenSpan,
    keyed: bool,
    has_item: bool,
    has_value: bool,
) -> Result<(), JobFault>
    ensures { Gives (λ done. naming names.new) result (with_kind text.now (naming names.old) span keyed has_item has_value) }
{
    let name = fresh_name(names, text, span)?;
    let count = names.kinds.len();
    if count >= MOST_PARTS {
        return Err(JobFault::OverLimit {
            what: What::Kinds,
            count: 65,
        });
    }
    let number = count as u32;
    add_kind(
        names,
        name,
        KindHead {
            number,
            keyed,
            has_item,
            has_value,
        },
    )
}

#[tactic(auto, unfolding(crate::specs::Naming::with_source))]
fn declare_source<'t>(
    names: &mut Names<'t>,
    text: &'t str,
    span: WrittenSpan,
) -> Result<(), JobFault>
    ensures { Gives (λ done. naming names.new) result (with_source text.now (naming names.old) span) }
{
    let name = fresh_name(names, text, span)?;
    if names.sources.len() >= MOST_PARTS {
        return Err(JobFault::OverLimit {
            what: What::Sources,
            count: 65,
        });
    }
    add_source(names, name)
}

#[tactic(auto, unfolding(crate::specs::Naming::with_list))]
fn declare_list<'t>(names: &mut Names<'t>, text: &'t str, span: WrittenSpan) -> Result<(), JobFault>
    ensures { Gives (λ done. naming names.new) result (with_list text.now (naming names.old) span) }
{
    let name = fresh_name(names, text, span)?;
    if names.lists.len() >= MOST_PARTS {
        return Err(JobFault::OverLimit {
            what: What::Lists,
            count: 65,
        });
    }
    add_list(names, name)
}

/// The names that are declared, or the first that is declared twice or is one too many.
pub fn naming_of<'t>(
    alloc: Global,
    text: &'t str,
    declarations: &[WrittenDeclaration],
) -> Result<Names<'t>, JobFault>
    ensures { Gives naming result (naming_of text.now (map declaration_of declarations.now)) }
{
    let mut names = no_names(alloc);
    for declaration in declarations {
        match declare(&mut names, text, declaration) {
            Ok(()) => {}
            Err(fault) => return Err(fault),
        }
    }
    Ok(names)
}

/// The family that is named, which has to be declared.
pub fn family_of(names: &Names, text: &str, span: WrittenSpan) -> Result<FamilyHead, JobFault>
    ensures { Gives (λ head. head) result (family_of text.now (naming names.now) span) }
{
    find_family(names, name_of(text, span)).ok_or(JobFault::UnknownName { at: span.from })
}

/// The kind that is named, which has to be declared.
pub fn kind_of(names: &Names, text: &str, span: WrittenSpan) -> Result<KindHead, JobFault>
    ensures { Gives (λ head. head) result (kind_of text.now (naming names.now) span) }
{
    find_kind(names, name_of(text, span)).ok_or(JobFault::UnknownName { at: span.from })
}

/// The families, in the order of their declarations, none with a list.
pub fn families_of(alloc: Global, names: &Names) -> Result<Vec<Family>, AllocError>
    ensures { IfOk result (λ families. families.items ≡ families_of (naming names.now)) }
{
    let mut families = Vec::new(alloc);
    for (name, head) in names.families.iter() {
        let name = Name::of(String::from_str(alloc, name)?);
        families.push(Family {
            name,
            keyed: head.keyed,
            list: None,
            sort: head.sort,
        })?;
    }
    Ok(families)
}
