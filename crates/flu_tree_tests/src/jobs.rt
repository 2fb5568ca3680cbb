//! The jobs of these tests, as texts.

ghost use Rattle.flu_deps.specs.Checking.{program_of};
ghost use Rattle.flu_deps.specs.Validated.{IsValidFor};
ghost use Rattle.std.specs.Prelude.{◌≡◌, IfOk, IfSome};

use flu_check::check;
use flu_deps::{Checked, Valid};
use flu_model::Program;
use flu_parse::read_job;
use flu_plan::read_plan;
use flu_valid::validate;
use std::alloc::Global;
use std::test::Fail;

/// Two sources add to a count, and the third emits it and clears it, without a dependency. Its itags are 0 and 1, which add, and 2.
pub const COUNT: &str = "cell count sum
tag inc int
tag read none
on inc: add count value
on read: emit \"count {count}\"; clear count
source a \"a.csv\": inc
source b \"b.csv\": inc
source c \"c.csv\": read
";

/// The dependencies of [`COUNT`], with which it is accepted.
pub const COUNT_DEPENDS: &str = "depends inc read depends read read";

/// A plan of it: the reads are at the root, and each source that adds is at a leaf.
pub const COUNT_PLAN: &str = "node root: read -> l r
node l: inc@a
node r: inc@b
";

/// Views of pages, which a tick emits and clears, and updates of the zip codes of users, without a dependency or a source.
pub const PAGES: &str = "cell views keyed sum
cell zip keyed last
tag view keyed int
tag update keyed int
tag tick none
on view: add views[key] value
on update: emit \"was {zip[key]}\"; set zip[key] value
on tick: flush views \"page {key} views {cell}\"
";

/// Its dependencies, with which it is accepted, and its sources: ten pages and ten users.
pub const PAGES_ACCEPTED: &str = "depends update update same
depends view tick
depends tick tick
source web \"web.csv\": view[0..9]
source app \"app.csv\": view[0..9], update[0..9]
source clock \"clock.csv\": tick
";

/// The job of a text and of a text after it.
pub fn job(alloc: Global, text: &str, more: &str) -> Result<Program, Fail> {
    let mut whole = String::from_str(alloc, text)?;
    whole.push_str(more)?;
    Ok(read_job(alloc, whole.as_bytes())?)
}

/// A job that is accepted, and a plan that is valid for it; none if one of the two is not.
pub fn judged(alloc: Global, p: Program, plan: &str) -> Result<Option<(Checked, Valid)>, Fail>
    ensures same { IfOk result (λ both. IfSome both (λ b. program_of b.0 ≡ p)) }
    ensures valid { IfOk result (λ both. IfSome both (λ b. IsValidFor (program_of b.0) b.1)) }
{
    let Ok(checked) = check(p) else {
        return Ok(None);
    };
    let Ok(plan) = read_plan(alloc, checked.program(), plan.as_bytes()) else {
        return Ok(None);
    };
    let Ok(valid) = validate(&checked, plan) else {
        return Ok(None);
    };
    Ok(Some((checked, valid)))
}
