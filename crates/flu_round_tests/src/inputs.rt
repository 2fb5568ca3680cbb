//! The job of these tests, its plan, and its sources' files.

ghost use Rattle.std.specs.Prelude.{IfOk, IfSome};
ghost use Rattle.flu_deps.specs.Checking.{program_of};
ghost use Rattle.flu_deps.specs.Validated.{IsValidFor};

use flu_check::check;
use flu_deps::{Checked, Valid};
use flu_outside::MemFiles;
use flu_parse::read_job;
use flu_plan::read_plan;
use flu_valid::validate;
use std::alloc::{AllocError, Global};
use std::test::Fail;

/// The reads at the root, and each source that adds at a leaf.
const PLAN: &str = "node root: read -> l r\nnode l: inc@a\nnode r: inc@b\n";

/// A count to which two sources add and that a third emits and clears, each with the slack that is given.
pub fn job(alloc: Global, slacks: [u64; 3]) -> Result<String, AllocError> {
    let [a, b, c] = slacks;
    format!(in alloc;
        "cell count sum\ntag inc int\ntag read none\ndepends inc read\ndepends read read\non inc: add count value\non read: emit \"count {{count}}\"; clear count\nsource a \"a\" rate 1000 slack {a}: inc\nsource b \"b\" rate 1000 slack {b}: inc\nsource c \"c\" rate 1 slack {c}: read\n"
    )
}

/// A job that is accepted; none if it is not.
pub fn accepted(alloc: Global, job: &str) -> Result<Option<Checked>, Fail> {
    Ok(check(read_job(alloc, job.as_bytes())?).ok())
}

/// The plan for an accepted job, which is valid for it; none if it is not.
pub fn planned(alloc: Global, checked: &Checked) -> Result<Option<Valid>, Fail>
    ensures { IfOk result (λ valid. IfSome valid (IsValidFor (program_of checked.now))) }
{
    let Ok(plan) = read_plan(alloc, checked.program(), PLAN.as_bytes()) else {
        return Ok(None);
    };
    match validate(checked, plan) {
        Ok(valid) => Ok(Some(valid)),
        Err(_) => Ok(None),
    }
}

/// A job and the rows of its sources.
#[derive(Clone, Copy)]
pub struct Input<'a> {
    pub job: &'a str,
    pub a: &'a str,
    pub b: &'a str,
    pub c: &'a str,
}

/// The files of the sources, of which a take gives a few bytes at once.
pub fn files_of(alloc: Global, input: Input) -> Result<MemFiles, Fail> {
    let mut files = MemFiles::new(alloc);
    for (name, text) in [("a", input.a), ("b", input.b), ("c", input.c)] {
        files.add(name, text.as_bytes().to_vec(alloc)?)?;
    }
    files.piece(7);
    Ok(files)
}
