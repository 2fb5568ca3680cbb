//! A quick test of which itags of a job may conflict.

ghost use Rattle.std.specs.Prelude.{◌≡◌, ◌<◌, ◌==◌, ℕ, true, false, IsTrue, length, ◌&&◌, ◌%◌, slice_index};
ghost use Rattle.std.specs.List.{list_all};
ghost use Rattle.flu_model.specs.Itags.{count_of_itags, tag_of_itag};
ghost use Rattle.flu_model.specs.Rules.{tag_fits};
ghost use Rattle.flu_deps.specs.Conflicts.{NeverConflict};
ghost use Rattle.flu_deps.specs.LoopVisits.{has, action_all};
ghost use Rattle.flu_deps.specs.LoopClashes.{kind_actions, marked_test, met_test, HasTags, IsFixedNoted, IsNoted, IsDone, AreDone, KeepsClashes, FindsClashes, HasFamilies, HasMarks};
ghost use Rattle.flu_deps.specs.LoopClashes.{may_clash};

use crate::visits::{Class, Marks, Meeting, Visit, has, with};
use flu_model::{Itag, KEY_COUNT, Program, Tag, actions_of, itag_count, tag_of};

/// The kinds and keys of the itags, by their numbers.
#[derive(Drop)]
struct Tags {
    kinds: [u32; 256],
    keys: [u32; 256],
}

/// What may conflict: pairs of kinds whatever the tags' keys, pairs of kinds if the keys are equal, and itags by the cell at
/// their key with kinds that name this cell by its number.
#[derive(Drop)]
pub struct Clashes {
    always: [u64; 64],
    same_key: [u64; 64],
    fixed: [u64; 256],
}

// Whether two words have a bit in common.
fn meet(x: u64, y: u64) -> bool
    ensures { (n : ℕ) → has x n ≡ true → has y n ≡ true → result ≡ true }
{
    x & y != 0
}

// The families that each kind touches by a class.
fn families_of(p: &Program, visit: &mut Visit, class: Class) -> [u64; 64]
    requires version { visit.old.version ≡ p.now.version }
    ensures families { HasFamilies p.now class result }
    ensures version { visit.new.version ≡ visit.old.version }
{
    let mut families = [0; 64];
    for a in 0..p.kinds.items().len() as u32 {
        visit.mark(class, actions_of(p, Tag { kind: a, key: 0 }));
        families[(a % 64) as usize] = visit.marks.any;
    }
    families
}

fn tags_of(p: &Program) -> Tags
    ensures { HasTags p.now result }
{
    let mut tags = Tags {
        kinds: [0; 256],
        keys: [0; 256],
    };
    for i in 0..itag_count(p) {
        let tag = tag_of(p, Itag(i));
        tags.kinds[i as usize] = tag.kind;
        tags.keys[i as usize] = tag.key;
    }
    tags
}

impl Clashes {
    /// What may conflict in a job. It takes no memory.
    pub fn of(p: &Program) -> Clashes
        ensures { FindsClashes p.now result }
    {
        let tags = tags_of(p);
        let mut clashes = Clashes {
            always: [0; 64],
            same_key: [0; 64],
            fixed: [0; 256],
        };
        let mut visit = Visit::new(p.version);
        clashes.note(p, &tags, &mut visit, Class::Needs, Class::Writes);
        clashes.note(p, &tags, &mut visit, Class::Writes, Class::Needs);
        clashes.note(p, &tags, &mut visit, Class::Adds, Class::Raises);
        clashes.note(p, &tags, &mut visit, Class::Raises, Class::Adds);
        clashes
    }

    // Notes what clashes by one class of the first kind and the other class of the second. Two kinds that have no family in common do
    // not clash, so the actions of a kind are visited once for each kind with which it has one in common.
    fn note(&mut self, p: &Program, tags: &Tags, visit: &mut Visit, one: Class, other: Class)
        requires tags { HasTags p.now tags.now }
        requires version { visit.old.version ≡ p.now.version }
        ensures done { AreDone p.now one other self.new }
        ensures kept { KeepsClashes self.old self.new }
        ensures version { visit.new.version ≡ visit.old.version }
    {
        let theirs = families_of(p, visit, other);
        for a in 0..p.kinds.items().len() as u32 {
            self.note_kind(p, tags, visit, one, other, &theirs, a);
        }
    }

    fn note_kind(
        &mut self,
        p: &Program,
        tags: &Tags,
        visit: &mut Visit,
        one: Class,
        other: Class,
        theirs: &[u64; 64],
        a: u32,
    )
        requires tags { HasTags p.now tags.now }
        requires version { visit.old.version ≡ p.now.version }
        requires theirs { HasFamilies p.now other theirs.now }
        ensures done { (b : ℕ) → b < length p.now.kinds → IsDone p.now one other a b self.new }
        ensures kept { KeepsClashes self.old self.new }
        ensures version { visit.new.version ≡ visit.old.version }
    {
        visit.mark(one, actions_of(p, Tag { kind: a, key: 0 }));
        for b in 0..p.kinds.items().len() as u32 {
            let families = theirs[(b % 64) as usize];
            self.note_two(p, tags, visit, one, other, families, a, b);
        }
    }

    // The same, given the families that kind b touches by the other class.
    fn note_two(
        &mut self,
        p: &Program,
        tags: &Tags,
        visit: &mut Visit,
        one: Class,
        other: Class,
        theirs: u64,
        a: u32,
        b: u32,
    )
        requires tags { HasTags p.now tags.now }
        requires version { visit.old.version ≡ p.now.version }
        requires marked { list_all (action_all (marked_test p.now.version one visit.old.marks)) (kind_actions p.now a) ≡ true }
        requires theirs { HasMarks p.now other b theirs }
        ensures done { IsDone p.now one other a b self.new }
        ensures kept { KeepsClashes self.old self.new }
        ensures version { visit.new.version ≡ visit.old.version }
        ensures marks { visit.new.marks ≡ visit.old.marks }
    {
        if !meet(visit.marks.any, theirs) {
            return;
        }
        self.note_pair(p, tags, visit, one, other, a, b);
    }

    fn note_pair(
        &mut self,
        p: &Program,
        tags: &Tags,
        visit: &mut Visit,
        one: Class,
        other: Class,
        a: u32,
        b: u32,
    )
        requires tags { HasTags p.now tags.now }
        requires version { visit.old.version ≡ p.now.version }
        requires marked { list_all (action_all (marked_test p.now.version one visit.old.marks)) (kind_actions p.now a) ≡ true }
        ensures done { IsNoted p.now one other a b self.new }
        ensures kept { KeepsClashes self.old self.new }
        ensures version { visit.new.version ≡ visit.old.version }
        ensures marks { visit.new.marks ≡ visit.old.marks }
    {
        visit.meet(other, actions_of(p, Tag { kind: b, key: 0 }));
        let meeting = visit.meeting;
        if meeting.always {
            self.note_always(a, b);
        }
        if meeting.same_key {
            self.note_same_key(a, b);
        }
        self.note_fixed(p, tags, &visit.marks, meeting, a, b);
    }

    fn note_always(&mut self, a: u32, b: u32)
        ensures noted { has (slice_index self.new.always (a % 64)) b ≡ true }
        ensures kept { KeepsClashes self.old self.new }
    {
        let i = (a % 64) as usize;
        self.always[i] = with(self.always[i], b);
    }

    fn note_same_key(&mut self, a: u32, b: u32)
        ensures noted { has (slice_index self.new.same_key (a % 64)) b ≡ true }
        ensures kept { KeepsClashes self.old self.new }
    {
        let i = (a % 64) as usize;
        self.same_key[i] = with(self.same_key[i], b);
    }

    // Notes the itags of kind b whose own cells kind a names by their numbers.
    fn note_fixed(
        &mut self,
        p: &Program,
        tags: &Tags,
        marks: &Marks,
        meeting: Meeting,
        a: u32,
        b: u32,
    )
        requires tags { HasTags p.now tags.now }
        ensures noted { (j : ℕ) → j < count_of_itags p.now → IsFixedNoted p.now marks.now meeting a b self.new j }
        ensures kept { KeepsClashes self.old self.new }
    {
        for j in 0..itag_count(p) {
            let there = marks.fixed[(tags.keys[j as usize] % KEY_COUNT) as usize];
            if tags.kinds[j as usize] == b && meet(there, meeting.own) {
                self.fixed[j as usize] = with(self.fixed[j as usize], a);
            }
        }
    }

    /// Whether two itags with these tags conflict nowhere, as far as a quick test can tell.
    pub fn never_conflict(&self, p: &Program, i: Itag, a: Tag, j: Itag, b: Tag) -> bool
        requires found { FindsClashes p.now self.now }
        requires i { i.0 < count_of_itags p.now }
        requires a { a ≡ tag_of_itag p.now i }
        requires j { j.0 < count_of_itags p.now }
        requires b { b ≡ tag_of_itag p.now j }
        requires fit { IsTrue (tag_fits p.now.kinds a && tag_fits p.now.kinds b) }
        ensures { IsTrue result → NeverConflict p.now a b }
    {
        !self.may_clash(i, a, j, b)
    }

    fn may_clash(&self, i: Itag, a: Tag, j: Itag, b: Tag) -> bool
        requires i { i.0 < 256 }
        requires j { j.0 < 256 }
        ensures { result ≡ may_clash self.now i.0 a j.0 b }
    {
        let first = (a.kind % 64) as usize;
        has(self.always[first], b.kind)
            || (a.key == b.key && has(self.same_key[first], b.kind))
            || has(self.fixed[j.0 as usize], a.kind)
            || has(self.fixed[i.0 as usize], b.kind)
    }
}
