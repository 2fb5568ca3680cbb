//! Names in a line, written without memory.

ghost use Rattle.std.specs.Prelude.{◌≡◌, ◌≤◌, ◌++◌, OnOk, OnErr};
ghost use Rattle.flu_outside.specs.Writing.{Writes};
ghost use Rattle.flu_model.specs.Reports.{name_with_key, text_of_tag, text_of_cell};
ghost use Rattle.flu_lines.specs.Names.{source_name, node_name, itag_text};

use crate::pieces::{digits_of, write_pieces};
use flu_model::{Cell, Itag, Plan, Program, Tag, itag_count, source_of, tag_of};
use flu_outside::{Failed, Sink};
use flu_report::write_all;
use itoa::Buffer;

/// Writes a tag and what comes after it: `kind`, or `kind[key]` if the kind is keyed.
pub fn write_tag<E: Sink>(
    err: &mut E,
    program: &Program,
    tag: Tag,
    behind: &[u8],
) -> Result<(), Failed>
    ensures { Writes (text_of_tag program.now tag ++ behind.now) (E.taken err.old) (E.taken err.new) (E.faults err.old) (E.faults err.new) result }
{
    match program.kinds.items().get(tag.kind as usize) {
        Some(kind) => write_name(err, kind.name.as_str(), kind.keyed, tag.key, behind),
        None => write_all(err, behind),
    }
}

/// Writes an itag and what comes after it: its tag, `@` and the name of its source.
pub fn write_itag<E: Sink>(
    err: &mut E,
    program: &Program,
    itag: Itag,
    behind: &[u8],
) -> Result<(), Failed>
    ensures { Writes (itag_text program.now itag ++ behind.now) (E.taken err.old) (E.taken err.new) (E.faults err.old) (E.faults err.new) result }
{
    if itag.0 >= itag_count(program) {
        return write_all(err, behind);
    }
    let source = source_name(program, source_of(program, itag)).as_bytes();
    write_tag(err, program, tag_of(program, itag), b"@")?;
    write_pieces(err, &[source, behind])
}

/// The name of the source with a number.
pub fn source_name(program: &Program, number: u32) -> &str
    ensures { result.now ≡ source_name program.now number }
{
    match program.sources.items().get(number as usize) {
        Some(source) => source.name.as_str(),
        None => "",
    }
}

/// The name of the node with a number.
pub fn node_name(plan: &Plan, number: u32) -> &str
    ensures { result.now ≡ node_name plan.now.nodes number }
{
    match plan.nodes.items().get(number as usize) {
        Some(node) => node.name.as_str(),
        None => "",
    }
}

/// Writes a cell and what comes after it: `family`, or `family[key]` if the family is keyed.
pub fn write_cell<E: Sink>(
    err: &mut E,
    program: &Program,
    cell: Cell,
    behind: &[u8],
) -> Result<(), Failed>
    ensures { Writes (text_of_cell program.now cell ++ behind.now) (E.taken err.old) (E.taken err.new) (E.faults err.old) (E.faults err.new) result }
{
    match program.families.items().get(cell.family as usize) {
        Some(family) => write_name(err, family.name.as_str(), family.keyed, cell.key, behind),
        None => write_all(err, behind),
    }
}

// Writes a name, with its key in brackets if it has one, and what comes after it.
fn write_name<E: Sink>(
    err: &mut E,
    name: &str,
    keyed: bool,
    key: u32,
    behind: &[u8],
) -> Result<(), Failed>
    ensures { Writes (name_with_key name.now keyed key ++ behind.now) (E.taken err.old) (E.taken err.new) (E.faults err.old) (E.faults err.new) result }
{
    let bytes = name.as_bytes();
    if !keyed {
        return write_pieces(err, &[bytes, behind]);
    }
    let mut buffer = Buffer::new();
    let digits = digits_of(&mut buffer, key as u64);
    write_pieces(err, &[bytes, b"[", digits, b"]", behind])
}
