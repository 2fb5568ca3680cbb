//! Jobs with plans and streams, and the cases that they make.

ghost use Rattle.std.specs.Prelude.{◌≡◌, length, true};
ghost use Rattle.flu_model.specs.declared.events.Item.TheVariants.{Event as ItemEvent};
ghost use Rattle.flu_model.specs.Itags.{count_of_itags};
ghost use Rattle.flu_model.specs.Listed.{listed};
ghost use Rattle.flu_deps.specs.Checking.{program_of};
ghost use Rattle.flu_deps.specs.Validated.{IsValidFor};
ghost use Rattle.flu_thread_tests.specs.Rows.{row, HasShape};

use flu_cells::State;
use flu_check::check;
use flu_deps::{Checked, Valid};
use flu_fork::Case;
use flu_model::{Event, Itag, Item, Streams, itag_count};
use flu_parse::read_job;
use flu_plan::read_plan;
use flu_valid::validate;
use std::alloc::Global;
use std::process::Abort;

/// What a test says if memory runs out.
pub const MEMORY: &str = "memory";

/// A count to which two sources add and that a third emits and clears.
pub const COUNT: &str =
    "cell count sum\ntag inc int\ntag read none\ndepends inc read\ndepends read read\non inc: add count value\non read: emit \"count {count}\"; clear count\nsource a \"a.csv\" rate 1000: inc\nsource b \"b.csv\" rate 1000: inc\nsource c \"c.csv\" rate 1: read\n";

/// Its plan with the reads at the root and each source that adds at a leaf.
pub const TREE: &str = "node root: read -> l r\nnode l: inc@a\nnode r: inc@b\n";

/// An accepted job with three itags.
pub fn checked(rt: &impl Abort, alloc: Global, job: &str) -> Checked
    ensures { count_of_itags (program_of result) ≡ 3 }
{
    let p = read_job(alloc, job.as_bytes()).ok().expect(rt, "a job");
    let checked = check(p).ok().expect(rt, "an accepted job");
    assert!(rt; itag_count(checked.program()) == 3);
    checked
}

/// A valid plan of a job.
pub fn valid(rt: &impl Abort, alloc: Global, checked: &Checked, plan: &str) -> Valid
    ensures { IsValidFor (program_of checked.now) result }
{
    let plan = read_plan(alloc, checked.program(), plan.as_bytes());
    let plan = plan.ok().expect(rt, "a plan");
    validate(checked, plan).ok().expect(rt, "a valid plan")
}

pub fn event(time: u64, itag: u32, value: i64) -> Item
    ensures { result ≡ ItemEvent (record { time = time; itag = record { 0 = itag }; item = 0; value = value }) }
{
    Item::Event(Event {
        time,
        itag: Itag(itag),
        item: 0,
        value,
    })
}

/// The streams of the count.
pub fn counted(rt: &impl Abort, alloc: Global) -> Streams
    ensures { listed result ≡ row }
{
    let first = vec![in alloc; event(1, 0, 5), event(4, 0, 2), Item::End].expect(rt, MEMORY);
    let second = vec![in alloc; event(2, 1, 7), Item::End].expect(rt, MEMORY);
    let reads = vec![in alloc; event(3, 2, 0), event(5, 2, 0), Item::End].expect(rt, MEMORY);
    Streams::new(vec![in alloc; first, second, reads].expect(rt, MEMORY))
}

/// The case of a job, a plan and streams, which begins with no cell.
pub fn opened<'a>(
    rt: &impl Abort,
    alloc: Global,
    checked: &'a Checked,
    valid: &'a Valid,
    streams: &'a Streams,
) -> Case<'a>
    requires of { IsValidFor (program_of checked.now) valid.now }
    requires one_each { length (listed streams.now) ≡ count_of_itags (program_of checked.now) }
    ensures { listed result.streams ≡ listed streams.now }
{
    Case::new(alloc, checked, valid, streams, State::new(alloc)).expect(rt, MEMORY)
}

/// Whether the plan has the reads at the root and each source that adds at a leaf.
pub fn has_shape(case: &Case) -> bool
    ensures { result ≡ true → HasShape case.now }
{
    let v = case.valid();
    itag_count(case.checked().program()) == 3
        && v.count() == 3
        && matches!(v.kids(0), Some((1, 2)))
        && v.kids(1).is_none()
        && v.owner(Itag(0)) == 1
        && v.owner(Itag(1)) == 2
        && v.owner(Itag(2)) == 0
        && !v.related(2, 1)
}
