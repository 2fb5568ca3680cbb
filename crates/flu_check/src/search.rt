//! The first conflict of independent tags.

ghost use Rattle.std.specs.Prelude.{◌≡◌, ◌<◌, ◌&&◌, IfSome, IfNone, IsTrue};
ghost use Rattle.flu_model.specs.Itags.{count_of_itags, tag_of_itag};
ghost use Rattle.flu_model.specs.Modes.{IsAccepted, IsInUniverse};
ghost use Rattle.flu_model.specs.Rules.{tag_fits};
ghost use Rattle.flu_model.specs.Sorts.{is_cell_of};
ghost use Rattle.flu_deps.specs.LoopClashes.{FindsClashes};
ghost use Rattle.flu_check.specs.Faults.{IsFirstCheckFault};
ghost use Rattle.flu_check.specs.LoopFound.{IsFound, KeepsPassed, PassesPair, PassesTag, is_pair_before, is_sought};

use flu_deps::laws::conflict_is_mutual;
use flu_deps::{Clashes, conflict, dep};
use flu_model::{Cell, Itag, Program, Tag, itag_count, tag_of};

/// A conflict of two independent tags.
#[derive(Clone, Copy)]
pub struct Fault {
    pub a: Tag,
    pub b: Tag,
    pub cell: Cell,
}

/// The first conflict of two independent tags of a job; none if the job is accepted.
pub fn first_fault(p: &Program) -> Option<Fault>
    ensures first { IfSome result (λ f. IsFirstCheckFault p.now f.a f.b f.cell) }
    ensures declared { IfSome result (λ f. IsTrue (is_cell_of p.now.families f.cell)) }
    ensures none { IfNone result (IsAccepted p.now) }
{
    flu_laws::dependency_turns();
    conflict_is_mutual();
    let clashes = Clashes::of(p);
    let count = itag_count(p);
    let mut found = likely_fault(p, &clashes, count);
    for i in 0..count {
        found = first_of_tag(p, &clashes, Itag(i), count, found);
    }
    found
}

// A fault, if two tags are likely to have one: the search then skips all tags that come after them.
fn likely_fault(p: &Program, clashes: &Clashes, count: u32) -> Option<Fault>
    requires clashes { FindsClashes p.now clashes.now }
    requires all { count ≡ count_of_itags p.now }
    ensures { IfSome result (IsFound p.now) }
{
    let mut likely = None;
    for k in 0..count {
        likely = likely_with(p, clashes, Itag(k), count, likely);
    }
    match likely {
        Some((i, j)) => first_of_pair(p, clashes, i, j, None),
        None => None,
    }
}

// The two itags so far, or an itag with another if they are likely to have an earlier fault.
fn likely_with(
    p: &Program,
    clashes: &Clashes,
    i: Itag,
    count: u32,
    likely: Option<(Itag, Itag)>,
) -> Option<(Itag, Itag)>
    requires clashes { FindsClashes p.now clashes.now }
    requires in_range { i.0 < count }
    requires all { count ≡ count_of_itags p.now }
    requires likely { IfSome likely (λ l. (l.0.0 < count) × (l.1.0 < count)) }
    ensures { IfSome result (λ l. (l.0.0 < count) × (l.1.0 < count)) }
{
    let mut likely = likely;
    for k in 0..count {
        if is_likely(p, clashes, i, Itag(k), &likely) {
            likely = Some((i, Itag(k)));
        }
    }
    likely
}

fn is_likely(
    p: &Program,
    clashes: &Clashes,
    i: Itag,
    j: Itag,
    likely: &Option<(Itag, Itag)>,
) -> bool
    requires clashes { FindsClashes p.now clashes.now }
    requires i { i.0 < count_of_itags p.now }
    requires j { j.0 < count_of_itags p.now }
    requires likely { IfSome likely.now (λ l. (l.0.0 < count_of_itags p.now) × (l.1.0 < count_of_itags p.now)) }
{
    let a = tag_of(p, i);
    let b = tag_of(p, j);
    let earlier = match likely {
        Some((k, l)) => a.cmp(&tag_of(p, *k)).then(b.cmp(&tag_of(p, *l))).is_lt(),
        None => true,
    };
    earlier && !b.cmp(&a).is_lt() && !clashes.never_conflict(p, i, a, j, b) && !dep(p, a, b)
}

// The first of the fault so far and the faults of a tag with each tag of the job.
fn first_of_tag(
    p: &Program,
    clashes: &Clashes,
    i: Itag,
    count: u32,
    found: Option<Fault>,
) -> Option<Fault>
    requires clashes { FindsClashes p.now clashes.now }
    requires in_range { i.0 < count_of_itags p.now }
    requires all { count ≡ count_of_itags p.now }
    requires found { IfSome found (IsFound p.now) }
    ensures found { IfSome result (IsFound p.now) }
    ensures kept { KeepsPassed found result }
    ensures passed { PassesTag p.now (tag_of_itag p.now i) result }
{
    let mut found = found;
    for j in 0..count {
        found = first_of_pair(p, clashes, i, Itag(j), found);
    }
    found
}

// The first of the fault so far and the faults of two tags.
fn first_of_pair(
    p: &Program,
    clashes: &Clashes,
    i: Itag,
    j: Itag,
    found: Option<Fault>,
) -> Option<Fault>
    requires clashes { FindsClashes p.now clashes.now }
    requires i { i.0 < count_of_itags p.now }
    requires j { j.0 < count_of_itags p.now }
    requires found { IfSome found (IsFound p.now) }
    ensures found { IfSome result (IsFound p.now) }
    ensures kept { KeepsPassed found result }
    ensures passed { PassesPair p.now (tag_of_itag p.now i) (tag_of_itag p.now j) result }
{
    let a = tag_of(p, i);
    let b = tag_of(p, j);
    if clashes.never_conflict(p, i, a, j, b) {
        return found;
    }
    if !is_sought(p, a, b, &found) {
        return found;
    }
    match conflict(p, a, b) {
        Some(cell) => Some(Fault { a, b, cell }),
        None => found,
    }
}

// Whether a conflict of two tags would be a fault, and before the one so far.
fn is_sought(p: &Program, a: Tag, b: Tag, found: &Option<Fault>) -> bool
    ensures { result ≡ is_sought p.now a b found.now }
{
    !b.cmp(&a).is_lt() && is_pair_before(a, b, found) && !dep(p, a, b)
}

fn is_pair_before(a: Tag, b: Tag, found: &Option<Fault>) -> bool
    ensures { result ≡ is_pair_before a b found.now }
{
    match found {
        Some(fault) => a.cmp(&fault.a).then(b.cmp(&fault.b)).is_lt(),
        None => true,
    }
}
