//! Which itags depend on each other, in a table.

ghost use Rattle.std.specs.Prelude.{◌≡◌, false, map, slice_index_or, IfOk};
ghost use Rattle.flu_model.specs.Itags.{is_dependent};
ghost use Rattle.flu_tables.specs.LoopRows.{tags_with_none, rows_of, place_in};

use flu_deps::dep;
use flu_model::{Itag, Program, Tag, itag_count, tag_of};
use std::alloc::{AllocError, Global};
use std::cmp::min;

/// For each itag, by its number, and last for a number that is no itag's, whether it depends on each itag, and on no itag.
pub fn rows(alloc: Global, p: &Program) -> Result<Vec<Vec<bool>>, AllocError>
    ensures { IfOk result (λ rows. map (λ row. row.items) rows.items ≡ rows_of p.now (tags_with_none p.now)) }
{
    let tags = tags(alloc, p)?;
    rows_among(alloc, p, tags.as_slice())
}

// The tags of the itags, and last the tag of no itag.
fn tags(alloc: Global, p: &Program) -> Result<Vec<Tag>, AllocError>
    ensures { IfOk result (λ tags. tags.items ≡ tags_with_none p.now) }
{
    let mut tags = Vec::new(alloc);
    for i in 0..itag_count(p) {
        tags.push(tag_of(p, Itag(i)))?;
    }
    tags.push(Tag { kind: 0, key: 0 })?;
    Ok(tags)
}

// For each of some tags on which of them it depends.
fn rows_among(alloc: Global, p: &Program, tags: &[Tag]) -> Result<Vec<Vec<bool>>, AllocError>
    ensures { IfOk result (λ rows. map (λ row. row.items) rows.items ≡ rows_of p.now tags.now) }
{
    let mut rows = Vec::new(alloc);
    for a in tags {
        rows.push(row(alloc, p, *a, tags)?)?;
    }
    Ok(rows)
}

fn row(alloc: Global, p: &Program, a: Tag, tags: &[Tag]) -> Result<Vec<bool>, AllocError>
    ensures { IfOk result (λ row. row.items ≡ map (is_dependent p.now a) tags.now) }
{
    let mut row = Vec::new(alloc);
    for b in tags {
        row.push(dep(p, a, *b))?;
    }
    Ok(row)
}

/// The entry of rows for two itags, of this many; every number that is not an itag's has the last place.
pub fn place_of(rows: &[Vec<bool>], itags: u32, i: Itag, j: Itag) -> bool
    ensures { result ≡ place_in (map (λ row. row.items) rows.now) itags i j }
{
    match rows.get(min(i.0, itags) as usize) {
        Some(row) => bit(row.as_slice(), min(j.0, itags)),
        None => false,
    }
}

fn bit(row: &[bool], j: u32) -> bool
    ensures { result ≡ slice_index_or row.now j false }
{
    match row.get(j as usize) {
        Some(bit) => *bit,
        None => false,
    }
}
