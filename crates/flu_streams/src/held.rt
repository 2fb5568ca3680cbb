//! What is held of the sources from round to round.

ghost use Rattle.std.specs.Prelude.{◌≡◌, ◌≢◌, ◌≤◌, ◌<◌, ◌^◌, ℕ, length, map, slice_get, vec_len, List, Option, Some, IsTrue, IfOk, IfErr, OnOk, OnErr};
ghost use Rattle.std.specs.Prelude.{IsErrOf, Ok};
ghost use Rattle.std.specs.Prelude.{Err, None, [], ◌∷◌, ◌+◌, take, is_some, true, false};
ghost use Rattle.flu_model.specs.Erasure.{job_of};
ghost use Rattle.flu_model.specs.Itags.{count_of_itags};
ghost use Rattle.flu_model.specs.Listed.{listed};
ghost use Rattle.flu_outside.specs.Outside.{WhereTold, SameCounts};
ghost use Rattle.flu_outside.specs.Taking.{TookFronts};
ghost use Rattle.flu_rows.specs.declared.rows.Next.{Next};
ghost use Rattle.flu_rows.specs.Row.{form_of};
ghost use Rattle.flu_streams.specs.Files.{files_of, LeavesOthers, CountsOfNames, OneRose};
ghost use Rattle.flu_streams.specs.Holding.{fresh, unread, AreHeldBehind, ClosedAreReadOut, AreClosed, IsFilled, KeepsJob, Fills, IsNewBorder, IsRefillFault};
ghost use Rattle.flu_streams.specs.Holding.{HidesNoRoundFault, Cuts, HoldsFew, HoldsAtMost, HaveAtMost, most_held};
ghost use Rattle.flu_lemmas.specs.Elements.{AtEach};
ghost use Rattle.flu_model.specs.Streaming.{are_streams};
ghost use Rattle.flu_streams.specs.Lists.{lists_in};
ghost use Rattle.flu_streams.specs.Holding.{unread_source, IsHeldBehind};
ghost use Rattle.flu_streams.specs.LoopHeld.{source_of, earlier_of, HasRefilled, StopsAtSource, AreDropped, AreBehind, AreCaughtUp, AreTimed, AreUncounted};
ghost use Rattle.flu_streams.specs.LoopClocks.{IsEarly, IsByTicks, FewTicks, span_of, ticks_in_span};
ghost use Rattle.flu_streams.specs.Clocks.{items_of_ticks};
ghost use Rattle.flu_streams.specs.Good.{lists_of_rows};
ghost use Rattle.flu_streams.specs.Tags.{width};
ghost use Rattle.flu_streams.specs.Tests.{rows_of};
ghost use Rattle.flu_streams.specs.Rounds.{lists_between, rows_between};
ghost use Rattle.flu_model.specs.Moments.{end_of_times, timing_of};
ghost use Rattle.flu_model.specs.Rules.{is_clock};
ghost use Rattle.std.specs.List.{list_any};

use crate::border::Border;
use crate::clocks::{Span, has_clocks, items_of_ticks, span_with, ticks_within};
use crate::faults::GatherFault;
use crate::inlet::Inlet;
use crate::stop::fault_of;
use crate::tags::tag_count;
use flu_model::{Itag, Item, Program, Source, Streams, timing_of};
use flu_outside::Files;
use flu_rows::form_of;
use std::alloc::{AllocError, Global};
use std::marker::Model;
use std::snapshot::Snapshot;

/// What may be called next of what is held.
#[derive(Clone, Copy, Debug, PartialEq, Eq)]
pub enum Stage {
    /// A refill.
    Filling,
    /// A cut at the border that the last refill answered.
    Filled(Border),
    /// Nothing: the last round was cut, or a call failed.
    Over,
}

/// What is held of the sources of a job between rounds (`docs/MODEL.md`, "Rounds").
///
/// Contracts see its job, how many rows a round needs, the border of the last cut, which call may come next, and for
/// each source what is held, where its rows are read, the greatest time read, and whether `end` and the file's end were read
/// (`Holding` of `specs/Holding.antt`).
#[derive(Drop)]
pub struct Held {
    program: Snapshot<Program>,
    rows: u32,
    border: Option<u64>,
    stage: Stage,
    sources: Vec<Inlet>,
}

impl Model for Held {
    ghost use Rattle.std.specs.Prelude.{map};
    ghost use Rattle.std.specs.Coded.{codes};
    ghost use Rattle.flu_model.specs.contracts.jobs.Program as p;
    ghost use Rattle.flu_streams.specs.Holding.{Holding};
    ghost use Rattle.flu_streams.specs.LoopHeld.{source_of, IsWell};

    ghost Value = { Holding };

    ghost coded = { Prim.hlevel (codes, p.the_row.coded) };

    ghost view = { λ h. record { program = h.program.value; rows = h.rows; border = h.border; stage = h.stage; sources = map source_of h.sources.items } };

    ghost invariant = { λ h. IsWell h.program.value h.rows h.border h.stage h.sources.items };
}

impl Held {
    /// Nothing of the sources of a job, for which a round is possible as soon as each has this many rows that are settled.
    ///
    /// # Errors
    ///
    /// Only if memory runs out.
    pub fn new(alloc: Global, p: &Program, rows: u32) -> Result<Held, AllocError>
        requires some { 1 ≤ rows }
        requires few { rows ≤ 4096 }
        ensures { IfOk result (λ h. h ≡ fresh p.now rows) }
    {
        Held::from_border(alloc, p, rows, None)
    }

    /// The same for a run that is resumed: its rows are those above a border. Rows up to it are read and tested, and not kept.
    ///
    /// # Errors
    ///
    /// Only if memory runs out.
    pub fn resume(alloc: Global, p: &Program, rows: u32, border: u64) -> Result<Held, AllocError>
        requires some { 1 ≤ rows }
        requires few { rows ≤ 4096 }
        requires border { border < 2 ^ 63 }
        ensures { IfOk result (λ h. h ≡ unread p.now rows (Some border)) }
    {
        Held::from_border(alloc, p, rows, Some(border))
    }

    // Nothing of the sources of a job, whose rows are run from a border on, if there is one.
    fn from_border(
        alloc: Global,
        p: &Program,
        rows: u32,
        border: Option<u64>,
    ) -> Result<Held, AllocError>
        requires some { 1 ≤ rows }
        requires few { rows ≤ 4096 }
        ensures { IfOk result (λ h. h ≡ unread p.now rows border) }
    {
        let sources = new_inlets(alloc, p, border)?;
        Ok(Held {
            program: Snapshot::of(p),
            rows,
            border,
            stage: Stage::Filling,
            sources,
        })
    }

    /// The border of the last cut. Before the first one none, or the border of a resumed run.
    pub fn border(&self) -> Option<u64>
        ensures { result ≡ self.now.border }
    {
        self.border
    }

    /// Reads the sources, in declared order, until each holds what the next round needs of it, and answers the time up to which that
    /// round takes rows. A source that is to be closed is read past `end` to the end of its file.
    ///
    /// `above` is the border of the last cut; before the first one none, or the border of a resumed run. A source fault is the defect that
    /// the round meets, of the first source, as declared, that has one. Items are not counted: a round holds few.
    pub fn refill<F: Files>(
        &mut self,
        alloc: Global,
        p: &Program,
        files: &mut F,
        above: Option<u64>,
    ) -> Result<Border, GatherFault>
        requires program { self.old.program ≡ p.now }
        requires above { above ≡ self.old.border }
        requires stage { self.old.stage ≡ Stage.Filling }
        ensures round { IfOk result (λ end. (before : ℕ → List Next) → AreHeldBehind self.old before
            → Fills self.old self.new (F.left files.old) (F.left files.new) end before) }
        ensures border { IfOk result (IsNewBorder self.old.border) }
        ensures stage { IsFilled result self.new.stage }
        ensures over { OnErr result (self.new.stage ≡ Stage.Over) }
        ensures same { KeepsJob self.old self.new }
        ensures read_out { OnOk result (ClosedAreReadOut self.old (F.left files.old) → ClosedAreReadOut self.new (F.left files.new)) }

        ensures closed { result ≡ Ok Border.Closed → AreClosed self.new }

        ensures fault { IfErr result (IsRefillFault self.old (F.left files.old) (F.left files.new)) }

        // What is held is bounded, even if a run that is resumed has not reached its border yet.
        ensures few { OnOk result (HoldsFew self.new) }
        ensures most { HoldsAtMost (most_held self.old.program) self.new }

        // It only takes bytes from the front of the sources' files, and a read fault has its cause there: no other answer comes
        // after a take that failed.
        ensures fronts { WhereTold (F.left files.old) (F.left files.new) TookFronts }
        ensures others { WhereTold (F.left files.old) (F.left files.new) (LeavesOthers (files_of p.now.sources)) }
        ensures counts { CountsOfNames (F.left files.old) (files_of p.now.sources) (F.faults files.old) (F.faults files.new) }
        ensures quiet { result ≢ Err GatherFault.ReadFault → SameCounts (F.faults files.old) (F.faults files.new) }
        ensures puts { SameCounts (F.put_faults files.old) (F.put_faults files.new) }
        ensures hides { IsErrOf result GatherFault.ReadFault → (before : ℕ → List Next) → AreHeldBehind self.old before
            → HidesNoRoundFault self.old (F.left files.old) (F.left files.new) (F.faults files.old) (F.faults files.new) before }
        ensures cause { IsErrOf result GatherFault.ReadFault → OneRose (files_of p.now.sources) (F.faults files.old) (F.faults files.new) }
    {
        self.stage = Stage::Over;
        let end = match refill_all(&mut self.sources, p, self.rows, files) {
            Ok(end) => end,
            Err(fault) => return Err(fault),
        };
        let end = border_by_ticks(p, self.sources.as_slice(), self.rows, self.border, end);
        self.stage = Stage::Filled(end);
        Ok(end)
    }

    /// Takes out the rows of a round: for each itag its events, and the heartbeats of its source, up to the border, sorted by
    /// time, and the end.
    ///
    /// # Errors
    ///
    /// Only if memory runs out.
    pub fn cut(&mut self, alloc: Global, p: &Program, b: Border) -> Result<Streams, AllocError>
        requires program { self.old.program ≡ p.now }
        requires stage { self.old.stage ≡ Stage.Filled b }
        ensures lists { IfOk result (λ streams. (lines : ℕ → List Next) → AreHeldBehind self.old lines
            → listed streams ≡ lists_between p.now self.old.border b lines) }
        ensures itags { IfOk result (λ streams. length (listed streams) ≡ count_of_itags p.now) }
        ensures cut { OnOk result (Cuts self.old self.new b) }
        ensures over { OnErr result (self.new.stage ≡ Stage.Over) }
        ensures few { OnOk result (HoldsFew self.new) }
        ensures most { HoldsAtMost (most_held self.old.program) self.new }
        ensures few_items { IfOk result (λ streams. HaveAtMost (most_held p.now) (listed streams)) }
    {
        self.stage = Stage::Over;
        let lists = lists_to(alloc, p, &self.sources, self.border, b)?;
        let Border::At(time) = b else {
            return Ok(Streams::new(lists));
        };
        drop_all(&mut self.sources, time);
        self.border = Some(time);
        self.stage = Stage::Filling;
        Ok(Streams::new(lists))
    }
}

// Nothing of each source.
fn new_inlets(alloc: Global, p: &Program, border: Option<u64>) -> Result<Vec<Inlet>, AllocError>
    ensures unread { IfOk result (λ inlets. map source_of inlets.items ≡ map (unread_source (form_of (job_of p.now)) border) p.now.sources) }
    ensures timed { IfOk result (λ inlets. AreTimed p.now inlets.items) }
    ensures uncounted { IfOk result (λ inlets. AreUncounted inlets.items) }
{
    let form = form_of(alloc, p)?;
    let mut inlets = Vec::new(alloc);
    for source in p.sources.items() {
        let timing = timing_of(p, inlets.len() as u32);
        inlets.push(Inlet::new(alloc, &form, timing, source, border, None)?)?;
    }
    Ok(inlets)
}

// Reads the sources in turn, and answers the earliest border up to which one of them is settled.
fn refill_all<F: Files>(
    inlets: &mut Vec<Inlet>,
    p: &Program,
    rows: u32,
    files: &mut F,
) -> Result<Border, GatherFault>
    requires some { 1 ≤ rows }
    requires most { rows ≤ 4096 }
    requires count { length inlets.old.items ≡ length p.now.sources }
    requires uncounted { AreUncounted inlets.old.items }
    requires timed { AreTimed p.now inlets.old.items }
    requires files { AtEach (λ i s. (h : Inlet) → slice_get inlets.old.items i ≡ Some h → h.rows.file ≡ s.file) p.now.sources }
    requires clocks { AtEach (λ i s. (h : Inlet) → slice_get inlets.old.items i ≡ Some h → is_clock s ≡ true → h.closed ≡ true) p.now.sources }
    ensures uncounted { AreUncounted inlets.new.items }
    ensures timed { AreTimed p.now inlets.new.items }
    ensures filled { IfOk result (λ end. HasRefilled p.now rows inlets.old.items inlets.new.items (F.left files.old) (F.left files.new) end) }
    ensures stop { IfErr result (StopsAtSource p.now rows inlets.old.items (F.left files.old) (F.left files.new) (F.faults files.old) (F.faults files.new)) }
    ensures fronts { WhereTold (F.left files.old) (F.left files.new) TookFronts }
    ensures others { WhereTold (F.left files.old) (F.left files.new) (LeavesOthers (files_of p.now.sources)) }
    ensures counts { CountsOfNames (F.left files.old) (files_of p.now.sources) (F.faults files.old) (F.faults files.new) }
    ensures quiet { result ≢ Err GatherFault.ReadFault → SameCounts (F.faults files.old) (F.faults files.new) }
    ensures puts { SameCounts (F.put_faults files.old) (F.put_faults files.new) }
    ensures cause { IsErrOf result GatherFault.ReadFault → OneRose (files_of p.now.sources) (F.faults files.old) (F.faults files.new) }
{
    let mut end = Border::Closed;
    let mut first = 0;
    let mut number = 0;
    for source in p.sources.items() {
        let inlet = &mut inlets[number];
        match inlet.refill(p.kinds.items(), source, first, Some(rows), files) {
            Ok(turn) => end = earlier(end, turn),
            Err(stop) => return Err(fault_of(number as u32, stop)),
        }
        first += tag_count(source.tags.items());
        number += 1;
    }
    Ok(end)
}

// The earlier of two borders.
fn earlier(a: Border, b: Border) -> Border
    ensures { result ≡ earlier_of a b }
{
    match (a, b) {
        (Border::At(t), Border::At(u)) => Border::At(t.min(u)),
        (Border::Closed, _) => b,
        (_, Border::Closed) => a,
    }
}

// The span of the rows that were read of all sources.
fn span_of(p: &Program, inlets: &[Inlet]) -> Option<Span>
    requires count { length inlets.now ≡ length p.now.sources }
    requires timed { AreTimed p.now inlets.now }
    requires version { p.now.version ≡ 3 }
    ensures span { result ≡ span_of p.now inlets.now }
    ensures early { IsEarly (length p.now.sources) (end_of_times p.now) result }
{
    let sources = p.sources.items().len() as u64;
    let mut span = None;
    let mut number = 0;
    for inlet in inlets {
        span = span_with(sources, number, span, inlet.first, inlet.last);
        number += 1;
    }
    span
}

// The border of a round up to which the sources are settled, or an earlier one: no clock has more ticks up to it than a round takes.
fn border_by_ticks(
    p: &Program,
    inlets: &[Inlet],
    rows: u32,
    above: Option<u64>,
    end: Border,
) -> Border
    requires some { 1 ≤ rows }
    requires count { length inlets.now ≡ length p.now.sources }
    requires timed { AreTimed p.now inlets.now }
    ensures { IsByTicks p.now rows above (span_of p.now inlets.now) end result }
{
    if !has_clocks(p) {
        return end;
    }
    let span = span_of(p, inlets);
    let mut end = end;
    let mut number = 0;
    for source in p.sources.items() {
        let ticks = ticks_within(p, number, source, span, above, Border::Closed);
        if let Some(time) = ticks.get(u64::from(rows - 1)) {
            end = earlier(end, Border::At(time));
        }
        number += 1;
    }
    end
}

// The span of the rows that were read of all sources, where a clock needs it.
fn span_for_clocks(p: &Program, inlets: &[Inlet]) -> Option<Span>
    requires count { length inlets.now ≡ length p.now.sources }
    requires timed { AreTimed p.now inlets.now }
    ensures span { list_any is_clock p.now.sources ≡ true → result ≡ span_of p.now inlets.now }
    ensures early { IsEarly (length p.now.sources) (end_of_times p.now) result }
{
    if !has_clocks(p) {
        return None;
    }
    span_of(p, inlets)
}

// The items of each itag above one border and up to another.
fn lists_to(
    alloc: Global,
    p: &Program,
    inlets: &[Inlet],
    above: Option<u64>,
    end: Border,
) -> Result<Vec<Vec<Item>>, AllocError>
    requires count { length inlets.now ≡ length p.now.sources }
    requires few { FewTicks p.now 4096 above (span_of p.now inlets.now) end }
    requires caught { AreCaughtUp inlets.now }
    requires timed { AreTimed p.now inlets.now }
    requires uncounted { AreUncounted inlets.now }
    ensures len { IfOk result (λ lists. vec_len lists ≡ count_of_itags p.now) }
    ensures streams { IfOk result (λ lists. IsTrue (are_streams 0 (lists_in lists))) }
    ensures few { IfOk result (λ lists. HaveAtMost (most_held p.now) (lists_in lists)) }
    ensures lists { IfOk result (λ lists. (lines : ℕ → List Next) → AreBehind p.now above lines inlets.now
        → lists_in lists ≡ lists_between p.now above end lines) }
{
    let span = span_for_clocks(p, inlets);
    let mut lists = Vec::new(alloc);
    let mut number = 0;
    for source in p.sources.items() {
        let first = lists.len() as u32;
        let inlet = &inlets[number as usize];
        let mut own = lists_of_one(alloc, p, inlet, number, source, first, span, above, end)?;
        lists.append(&mut own)?;
        number += 1;
    }
    Ok(lists)
}

// The same for the itags of one source, the first of which has the number `first`.
fn lists_of_one(
    alloc: Global,
    p: &Program,
    inlet: &Inlet,
    number: u32,
    source: &Source,
    first: u32,
    span: Option<Span>,
    above: Option<u64>,
    end: Border,
) -> Result<Vec<Vec<Item>>, AllocError>
    requires source { slice_get p.now.sources number ≡ Some source.now }
    requires narrow { first + width source.now ≤ 256 }
    requires early { IsEarly (length p.now.sources) (end_of_times p.now) span }
    requires few { length (ticks_in_span p.now above span end (take number p.now.sources, source.now)) ≤ 4096 }
    requires timed { inlet.now.timing ≡ timing_of p.now number }
    requires caught { inlet.now.goal ≡ None }
    requires uncounted { is_some inlet.now.held ≡ false }
    ensures len { IfOk result (λ lists. vec_len lists ≡ width source.now) }
    ensures streams { IfOk result (λ lists. IsTrue (are_streams first (lists_in lists))) }
    ensures few { IfOk result (λ lists. HaveAtMost (most_held p.now) (lists_in lists)) }
    ensures ticks { IfOk result (λ lists. is_clock source.now ≡ true → lists_in lists
        ≡ items_of_ticks (timing_of p.now number) first (ticks_in_span p.now above span end (take number p.now.sources, source.now)) ∷ []) }
    ensures rows { IfOk result (λ lists. is_clock source.now ≡ false → (lines : List Next)
        → IsHeldBehind (timing_of p.now number) p.now.kinds first source.now above lines (source_of inlet.now)
        → lists_in lists ≡ lists_of_rows (timing_of p.now number) p.now.kinds source.now first (rows_between above end (rows_of lines))) }
{
    if source.every.is_none() {
        let width = tag_count(source.tags.items());
        return inlet.lists(alloc, first, width, end);
    }
    let ticks = ticks_within(p, number, source, span, above, end);
    let list = items_of_ticks(alloc, timing_of(p, number), Itag(first), ticks)?;
    let mut lists = Vec::new(alloc);
    lists.push(list)?;
    Ok(lists)
}

// Drops the items of each source up to a time.
fn drop_all(inlets: &mut Vec<Inlet>, time: u64)
    ensures { AreDropped time inlets.old.items inlets.new.items }
{
    for number in 0..inlets.len() {
        let inlet = &mut inlets[number];
        inlet.drop_until(time);
    }
}
