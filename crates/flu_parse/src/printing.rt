//! The normal form of a job text.

ghost use Rattle.std.specs.Prelude.{◌≡◌, ◌≤◌, ◌++◌, [], length, OnOk, IfOk, map, slice_get, option_map, unwrap_or, codes, None, Some};
ghost use Rattle.std.specs.List.{flat_map};
ghost use Rattle.std.specs.String.{string_bytes};
ghost use Rattle.flu_model.specs.Erasure.{job_of, plain_kind};
ghost use Rattle.flu_model.specs.Numberings.{text_at};
ghost use Rattle.flu_layout.specs.Laid.{quoted};
ghost use Rattle.flu_layout.specs.Lists.{separated};
ghost use Rattle.flu_parse.specs.Printing.{ties_text, iso_text, version_line, names_line, name_of_list, list_name, by_text, sort_text, keyed_text, cell_line};
ghost use Rattle.flu_parse.specs.Printing.{item_text, value_text, tag_line, kind_name, same_text, depends_line};
ghost use Rattle.flu_parse.specs.Printing.{on_line, tag_text, slack_text, head_of, source_head, source_line, normal_form};
ghost use Rattle.flu_parse.specs.Reading.{job_in};

use crate::laws::printed_is_read;
use crate::printing_actions::add_actions;
use flu_layout::add_keys;
use flu_model::{Depend, Family, Kind, NameList, Program, Sort, Source, TagRef, Text, Unit};
use std::alloc::{AllocError, Global};

fn iso_text(iso: Option<Unit>) -> &'static str
    ensures { result.now ≡ iso_text iso }
{
    match iso {
        None => "",
        Some(Unit::Seconds) => " iso seconds",
        Some(Unit::Milliseconds) => " iso milliseconds",
        Some(Unit::Microseconds) => " iso microseconds",
    }
}

// Adds how many rows a source may have at one time, if they may be several.
fn add_ties(text: &mut String, ties: u32) -> Result<(), AllocError>
    ensures { OnOk result (string_bytes text.new ≡ string_bytes text.old ++ ties_text ties) }
{
    if ties > 1 {
        write!(text, " ties {ties}")?;
    }
    Ok(())
}

fn add_version(
    text: &mut String,
    version: u32,
    ties: u32,
    iso: Option<Unit>,
) -> Result<(), AllocError>
    ensures { OnOk result (string_bytes text.new ≡ string_bytes text.old ++ version_line version ties iso) }
{
    if version == 2 {
        text.push_str("version 2\n")?;
    } else if version == 3 {
        text.push_str("version 3")?;
        add_ties(text, ties)?;
        let iso = iso_text(iso);
        write!(text, "{iso}\n")?;
    }
    Ok(())
}

// Adds the text of a number between quotes, if the list has one.
fn add_quoted(text: &mut String, list: &NameList, number: usize) -> Result<(), AllocError>
    ensures { OnOk result (string_bytes text.new ≡ string_bytes text.old ++ unwrap_or (option_map quoted (text_at list.now number)) []) }
{
    match list.text(number) {
        Some(name) => write!(text, "\"{name}\""),
        None => Ok(()),
    }
}

fn add_texts(text: &mut String, list: &NameList) -> Result<(), AllocError>
    ensures { OnOk result (string_bytes text.new ≡ string_bytes text.old ++ separated (codes ", ") quoted list.now.texts) }
{
    add_quoted(text, list, 0)?;
    for number in 1..list.len() {
        text.push_str(", ")?;
        add_quoted(text, list, number)?;
    }
    Ok(())
}

fn add_names(text: &mut String, list: &NameList) -> Result<(), AllocError>
    ensures { OnOk result (string_bytes text.new ≡ string_bytes text.old ++ names_line list.now) }
{
    let name = list.name();
    write!(text, "names {name}: ")?;
    add_texts(text, list)?;
    text.push_str("\n")
}

fn add_lists(text: &mut String, lists: &[NameList]) -> Result<(), AllocError>
    ensures { OnOk result (string_bytes text.new ≡ string_bytes text.old ++ flat_map names_line lists.now) }
{
    for list in lists {
        add_names(text, list)?;
    }
    Ok(())
}

fn list_name(lists: &[NameList], number: u32) -> &str
    ensures { result.now ≡ name_of_list (slice_get lists.now number) }
{
    match lists.get(number as usize) {
        Some(list) => list.name(),
        None => "",
    }
}

// Adds the list that names keys or items, if one does.
fn add_by(text: &mut String, lists: &[NameList], list: Option<u32>) -> Result<(), AllocError>
    ensures { OnOk result (string_bytes text.new ≡ string_bytes text.old ++ by_text lists.now list) }
{
    match list {
        None => Ok(()),
        Some(number) => {
            let name = list_name(lists, number);
            write!(text, " by {name}")
        }
    }
}

fn keyed_text(keyed: bool) -> &'static str
    ensures { result.now ≡ keyed_text keyed }
{
    if keyed { " keyed" } else { "" }
}

fn sort_text(sort: Sort) -> &'static str
    ensures { result.now ≡ sort_text sort }
{
    match sort {
        Sort::Sum => " sum",
        Sort::Max => " max",
        Sort::Last => " last",
    }
}

fn add_cell(text: &mut String, lists: &[NameList], family: &Family) -> Result<(), AllocError>
    ensures { OnOk result (string_bytes text.new ≡ string_bytes text.old ++ cell_line lists.now family.now) }
{
    let name = family.name.as_str();
    let keyed = keyed_text(family.keyed);
    write!(text, "cell {name}{keyed}")?;
    add_by(text, lists, family.list)?;
    let sort = sort_text(family.sort);
    write!(text, "{sort}\n")
}

fn add_cells(text: &mut String, lists: &[NameList], families: &[Family]) -> Result<(), AllocError>
    ensures { OnOk result (string_bytes text.new ≡ string_bytes text.old ++ flat_map (cell_line lists.now) families.now) }
{
    for family in families {
        add_cell(text, lists, family)?;
    }
    Ok(())
}

fn item_text(has_item: bool) -> &'static str
    ensures { result.now ≡ item_text has_item }
{
    if has_item { " item" } else { "" }
}

fn value_text(has_value: bool) -> &'static str
    ensures { result.now ≡ value_text has_value }
{
    if has_value { " int" } else { " none" }
}

fn add_kind(text: &mut String, lists: &[NameList], kind: &Kind) -> Result<(), AllocError>
    ensures { OnOk result (string_bytes text.new ≡ string_bytes text.old ++ tag_line lists.now (plain_kind kind.now)) }
{
    let name = kind.name.as_str();
    let keyed = keyed_text(kind.keyed);
    let item = item_text(kind.has_item);
    write!(text, "tag {name}{keyed}{item}")?;
    add_by(text, lists, kind.list)?;
    let value = value_text(kind.has_value);
    write!(text, "{value}\n")
}

fn add_tags(text: &mut String, lists: &[NameList], kinds: &[Kind]) -> Result<(), AllocError>
    ensures { OnOk result (string_bytes text.new ≡ string_bytes text.old ++ flat_map (tag_line lists.now) (map plain_kind kinds.now)) }
{
    for kind in kinds {
        add_kind(text, lists, kind)?;
    }
    Ok(())
}

fn kind_name(kinds: &[Kind], kind: u32) -> &str
    ensures { result.now ≡ kind_name (slice_get (map plain_kind kinds.now) kind) }
{
    match kinds.get(kind as usize) {
        Some(kind) => kind.name.as_str(),
        None => "",
    }
}

fn same_text(same: bool) -> &'static str
    ensures { result.now ≡ same_text same }
{
    if same { " same" } else { "" }
}

fn add_depends(text: &mut String, kinds: &[Kind], depends: &[Depend]) -> Result<(), AllocError>
    ensures { OnOk result (string_bytes text.new ≡ string_bytes text.old ++ flat_map (depends_line (map plain_kind kinds.now)) depends.now) }
{
    for depend in depends {
        let a = kind_name(kinds, depend.a);
        let b = kind_name(kinds, depend.b);
        let same = same_text(depend.same);
        write!(text, "depends {a} {b}{same}\n")?;
    }
    Ok(())
}

fn add_on(text: &mut String, families: &[Family], kind: &Kind) -> Result<(), AllocError>
    ensures { OnOk result (string_bytes text.new ≡ string_bytes text.old ++ on_line families.now (plain_kind kind.now)) }
{
    let actions = kind.actions.items();
    if actions.is_empty() {
        return Ok(());
    }
    let name = kind.name.as_str();
    write!(text, "on {name}: ")?;
    add_actions(text, families, actions)?;
    text.push_str("\n")
}

fn add_ons(text: &mut String, families: &[Family], kinds: &[Kind]) -> Result<(), AllocError>
    ensures { OnOk result (string_bytes text.new ≡ string_bytes text.old ++ flat_map (on_line families.now) (map plain_kind kinds.now)) }
{
    for kind in kinds {
        add_on(text, families, kind)?;
    }
    Ok(())
}

fn add_tag(text: &mut String, kinds: &[Kind], tag: TagRef) -> Result<(), AllocError>
    ensures { OnOk result (string_bytes text.new ≡ string_bytes text.old ++ tag_text (map plain_kind kinds.now) tag) }
{
    text.push_str(kind_name(kinds, tag.kind))?;
    add_keys(text, tag.keys)
}

fn add_listed(text: &mut String, kinds: &[Kind], tags: &[TagRef]) -> Result<(), AllocError>
    ensures { OnOk result (string_bytes text.new ≡ string_bytes text.old ++ separated (codes ", ") (tag_text (map plain_kind kinds.now)) tags.now) }
{
    let [first, others @ ..] = tags else {
        return Ok(());
    };
    add_tag(text, kinds, *first)?;
    for tag in others {
        text.push_str(", ")?;
        add_tag(text, kinds, *tag)?;
    }
    Ok(())
}

fn add_slack(text: &mut String, slack: u64) -> Result<(), AllocError>
    ensures { OnOk result (string_bytes text.new ≡ string_bytes text.old ++ slack_text slack) }
{
    if slack > 0 {
        write!(text, " slack {slack}")?;
    }
    Ok(())
}

fn add_file_head(text: &mut String, source: &Source) -> Result<(), AllocError>
    ensures { OnOk result (string_bytes text.new ≡ string_bytes text.old ++ head_of source.now None) }
{
    let name = source.name.as_str();
    let file = source.file.as_str();
    let rate = source.rate;
    write!(text, "source {name} \"{file}\" rate {rate}")?;
    add_slack(text, source.slack)?;
    text.push_str(": ")
}

fn add_clock_head(text: &mut String, source: &Source, every: u64) -> Result<(), AllocError>
    ensures { OnOk result (string_bytes text.new ≡ string_bytes text.old ++ head_of source.now (Some every)) }
{
    let name = source.name.as_str();
    let rate = source.rate;
    write!(text, "clock {name} every {every} rate {rate}: ")
}

fn add_source_head(text: &mut String, source: &Source) -> Result<(), AllocError>
    ensures { OnOk result (string_bytes text.new ≡ string_bytes text.old ++ source_head source.now) }
{
    match source.every {
        None => add_file_head(text, source),
        Some(every) => add_clock_head(text, source, every),
    }
}

fn add_source(text: &mut String, kinds: &[Kind], source: &Source) -> Result<(), AllocError>
    ensures { OnOk result (string_bytes text.new ≡ string_bytes text.old ++ source_line (map plain_kind kinds.now) source.now) }
{
    add_source_head(text, source)?;
    add_listed(text, kinds, source.tags.items())?;
    text.push_str("\n")
}

fn add_sources(text: &mut String, kinds: &[Kind], sources: &[Source]) -> Result<(), AllocError>
    ensures { OnOk result (string_bytes text.new ≡ string_bytes text.old ++ flat_map (source_line (map plain_kind kinds.now)) sources.now) }
{
    for source in sources {
        add_source(text, kinds, source)?;
    }
    Ok(())
}

fn printed(alloc: Global, p: &Program) -> Result<String, AllocError>
    ensures { IfOk result (λ text. string_bytes text ≡ normal_form (job_of p.now)) }
{
    let lists = p.lists.items();
    let families = p.families.items();
    let kinds = p.kinds.items();
    let mut text = String::new(alloc);
    add_version(&mut text, p.version, p.ties, p.iso)?;
    add_lists(&mut text, lists)?;
    add_cells(&mut text, lists, families)?;
    add_tags(&mut text, lists, kinds)?;
    add_depends(&mut text, kinds, p.depends.items())?;
    add_ons(&mut text, families, kinds)?;
    add_sources(&mut text, kinds, p.sources.items())?;
    Ok(text)
}

/// A job as a text, in normal form (`docs/LANGUAGE.md`): the version if it is not 1, with the rows at one time if they may be several and the
/// unit of the times if there is one, lists of names, cells, tags, `depends`, the actions of the kinds that have some, and sources and clocks as
/// they are declared, each on a line of its own with one blank between words. Each operator is in parentheses of its own, numbers have no needless
/// zeros, the rate is
/// always there, and the slack if it is not 0.
///
/// The text is read as this job again, if it has at most 1,048,576 bytes.
///
/// # Errors
///
/// Only if memory runs out.
pub fn print_job(alloc: Global, p: &Program) -> Result<Text, AllocError>
    ensures text { IfOk result (λ text. text ≡ normal_form (job_of p.now)) }
    ensures read_again { IfOk result (λ text. length text ≤ 1048576 → job_in text ≡ Ok (job_of p.now)) }
{
    printed_is_read();
    let text = printed(alloc, p)?;
    Ok(Text::of(text))
}
