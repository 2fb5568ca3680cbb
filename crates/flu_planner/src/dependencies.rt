//! Which itags of a job depend on each other, in a table, since each pair is looked up again and again.

ghost use Rattle.std.specs.Prelude.{◌≡◌, ◌<◌, IfOk, slice_get};
ghost use Rattle.flu_model.specs.Itags.{count_of_itags, tag_of_itag};
ghost use Rattle.flu_planner.specs.LoopTables.{are_dependent, tags_of, row_of, table_of, is_set, read, graph_of};

use flu_deps::dep;
use flu_model::{Itag, List, Program, Tag, itag_count, tag_of};
use std::alloc::{AllocError, Global};

/// The table: a row for each itag, with a place for each. A place is set if its itag depends on the row's and is not the lesser.
#[tactic(auto, unfolding(crate::specs::LoopTables::table_of))]
pub fn table(alloc: Global, p: &Program) -> Result<Vec<List<bool>>, AllocError>
    ensures { IfOk result (λ table. table.items ≡ table_of p.now) }
{
    let tags = tags(alloc, p)?;
    let mut rows = Vec::new(alloc);
    for i in 0..itag_count(p) {
        let row = row(alloc, p, &tags, i)?;
        rows.push(List::of(row))?;
    }
    Ok(rows)
}

// The tags of the itags, each of which is looked up once.
fn tags(alloc: Global, p: &Program) -> Result<Vec<Tag>, AllocError>
    ensures { IfOk result (λ tags. tags.items ≡ tags_of p.now) }
{
    let mut tags = Vec::new(alloc);
    for i in 0..itag_count(p) {
        tags.push(tag_of(p, Itag(i)))?;
    }
    Ok(tags)
}

fn row(alloc: Global, p: &Program, tags: &[Tag], i: u32) -> Result<Vec<bool>, AllocError>
    requires tags { tags.now ≡ tags_of p.now }
    requires declared { i < count_of_itags p.now }
    ensures { IfOk result (λ row. row.items ≡ row_of p.now i (count_of_itags p.now)) }
{
    let tag = tags[i as usize];
    let mut row = Vec::new(alloc);
    for j in 0..itag_count(p) {
        row.push(entry(p, i, j, tag, tags[j as usize]))?;
    }
    Ok(row)
}

// The entry at a place of the row of an itag; the two tags are those of the row and of the place.
fn entry(p: &Program, i: u32, j: u32, tag: Tag, other: Tag) -> bool
    requires tag { tag ≡ tag_of_itag p.now (record { 0 = i }) }
    requires other { other ≡ tag_of_itag p.now (record { 0 = j }) }
    ensures { result ≡ are_dependent p.now i j }
{
    i <= j && dep(p, tag, other)
}

/// Whether two itags are dependent. It is looked up in the row of the lesser.
#[tactic(auto, unfolding(crate::specs::LoopTables::graph_of))]
pub fn joined(table: &[List<bool>], i: u32, j: u32) -> bool
    ensures { result ≡ graph_of table.now i j }
{
    if i < j {
        read(table, i, j)
    } else {
        read(table, j, i)
    }
}

fn read(table: &[List<bool>], i: u32, j: u32) -> bool
    ensures { result ≡ read table.now i j }
{
    match table.get(i as usize) {
        Some(row) => is_set(row.items(), j),
        None => false,
    }
}

fn is_set(row: &[bool], j: u32) -> bool
    ensures { result ≡ is_set (slice_get row.now j) }
{
    match row.get(j as usize) {
        Some(set) => *set,
        None => false,
    }
}
