//! Reading all sources.

ghost use Rattle.std.specs.Prelude.{◌≡◌, ◌≢◌, ◌≤◌, ◌<◌, ◌+◌, ◌/◌, ◌^◌, ◌++◌, ℕ, List, Some, None, length, vec_len, true, false, IsTrue, OnOk, IfOk, IfErr, IsErrOf, Err};
ghost use Rattle.flu_model.specs.Itags.{count_of_itags};
ghost use Rattle.flu_model.specs.Listed.{listed};
ghost use Rattle.flu_model.specs.Moments.{IsTiming, end_of_times, timing_of};
ghost use Rattle.flu_model.specs.Rules.{is_clock};
ghost use Rattle.flu_outside.specs.Outside.{WhereTold, Rose, SameCounts};
ghost use Rattle.flu_outside.specs.Taking.{TakesFrom, TookFronts, CountsOf, IsReadOut};
ghost use Rattle.flu_streams.specs.Files.{files_of, LeavesOthers, CountsOfNames, OneRose, AreReadOut};
ghost use Rattle.flu_streams.specs.Faults.{IsFirstFault, IsFirstFaultBeside, HidesNothing};
ghost use Rattle.flu_streams.specs.LoopGathering.{span_among, AddsSource, IsFaultOf, HidesNoDefect, IsGathered, HasTicks, IsTickFault, IsRowFault};
ghost use Rattle.flu_streams.specs.LoopClocks.{HasSpan, IsEarly};
ghost use Rattle.flu_streams.specs.Clocks.{ranks_among, AreEarly};
ghost use Rattle.flu_streams.specs.Good.{AreGood, rows_in, lists_of, first_fault_beside, lists_beside};
ghost use Rattle.flu_streams.specs.Lists.{lists_in};
ghost use Rattle.flu_model.specs.Erasure.{job_of};
ghost use Rattle.flu_model.specs.Streaming.{are_streams};
ghost use Rattle.flu_rows.specs.Row.{form_of};
ghost use Rattle.std.specs.List.{list_any};
ghost use Rattle.flu_streams.specs.Tags.{width};

use crate::border::Border;
use crate::clocks::{Span, has_clocks, items_of_ticks, span_beside, span_with, ticks_within};
use crate::faults::{GatherFault, SourceFault, Why};
use crate::gathered::Gathered;
use crate::inlet::Inlet;
use crate::stop::fault_of;
use crate::tags::tag_count;
use flu_model::{Itag, Kind, Program, Source, Streams, Timing, timing_of};
use flu_outside::Files;
use flu_rows::{RowForm, form_of};
use std::alloc::Global;

/// How many items may be held.
const MOST_ITEMS: u64 = 16_777_216;

/// Reads each source of a job to its end, in declared order, and gives the items of each itag, sorted by time: a row may be
/// late within its source's slack (`docs/LANGUAGE.md`, "Late rows").
///
/// Clocks tick behind the rows of all sources. A source fault is the first defect of the first source, as declared, that has one; or if none has, that
/// of the first clock with which the items are too many. Which sources are good and what they give is defined in `specs/Good.antt`, over the bytes that
/// the files have left when the call begins.
pub fn gather<F: Files>(alloc: Global, p: &Program, files: &mut F) -> Result<Streams, GatherFault>
    ensures good { OnOk result (WhereTold (F.left files.old) (F.left files.new) (λ old new. AreGood p.now old)) }
    ensures lists { IfOk result (λ streams. WhereTold (F.left files.old) (F.left files.new) (λ old new. listed streams ≡ lists_of p.now old)) }
    ensures itags { IfOk result (λ streams. length (listed streams) ≡ count_of_itags p.now) }
    ensures read_out { OnOk result (AreReadOut (files_of p.now.sources) (F.left files.new)) }

    ensures fault { IfErr result (IsFirstFault p.now (F.left files.old) (F.left files.new)) }

    // It only takes bytes from the front of the sources' files, and puts none; and a read fault has its cause there: no other
    // answer comes after a take that failed.
    ensures fronts { WhereTold (F.left files.old) (F.left files.new) TookFronts }
    ensures others { WhereTold (F.left files.old) (F.left files.new) (LeavesOthers (files_of p.now.sources)) }
    ensures counts { CountsOfNames (F.left files.old) (files_of p.now.sources) (F.faults files.old) (F.faults files.new) }
    ensures quiet { result ≢ Err GatherFault.ReadFault → SameCounts (F.faults files.old) (F.faults files.new) }
    ensures puts { SameCounts (F.put_faults files.old) (F.put_faults files.new) }
    ensures hides { IsErrOf result GatherFault.ReadFault → HidesNothing p.now (F.left files.old) (F.left files.new) (F.faults files.old) (F.faults files.new) }
    ensures cause { IsErrOf result GatherFault.ReadFault → OneRose (files_of p.now.sources) (F.faults files.old) (F.faults files.new) }
{
    gather_beside(alloc, p, &[], files)
}

/// The same where more rows of the sources are read elsewhere: clocks tick among these too. `beside` says where they stand among the rows of all
/// sources, each by its time and its source: at `time * sources + source`. The first and the last of them are enough.
pub fn gather_beside<F: Files>(
    alloc: Global,
    p: &Program,
    beside: &[u64],
    files: &mut F,
) -> Result<Streams, GatherFault>
    requires early { AreEarly p.now beside.now }
    ensures good { OnOk result (WhereTold (F.left files.old) (F.left files.new) (λ old new. first_fault_beside p.now beside.now old ≡ None)) }
    ensures lists { IfOk result (λ streams. WhereTold (F.left files.old) (F.left files.new) (λ old new. listed streams ≡ lists_beside p.now beside.now old)) }
    ensures itags { IfOk result (λ streams. length (listed streams) ≡ count_of_itags p.now) }
    ensures read_out { OnOk result (AreReadOut (files_of p.now.sources) (F.left files.new)) }

    ensures fault { IfErr result (IsFirstFaultBeside p.now beside.now (F.left files.old) (F.left files.new)) }

    ensures fronts { WhereTold (F.left files.old) (F.left files.new) TookFronts }
    ensures others { WhereTold (F.left files.old) (F.left files.new) (LeavesOthers (files_of p.now.sources)) }
    ensures counts { CountsOfNames (F.left files.old) (files_of p.now.sources) (F.faults files.old) (F.faults files.new) }
    ensures quiet { result ≢ Err GatherFault.ReadFault → SameCounts (F.faults files.old) (F.faults files.new) }
    ensures puts { SameCounts (F.put_faults files.old) (F.put_faults files.new) }
    ensures hides { IsErrOf result GatherFault.ReadFault → HidesNothing p.now (F.left files.old) (F.left files.new) (F.faults files.old) (F.faults files.new) }
    ensures cause { IsErrOf result GatherFault.ReadFault → OneRose (files_of p.now.sources) (F.faults files.old) (F.faults files.new) }
{
    let gathered = match read_all(alloc, p, files) {
        Ok(gathered) => gathered,
        Err(fault) => return Err(fault),
    };
    with_ticks(alloc, p, with_rows_beside(p, beside, gathered))
}

// What was read, with the span of the rows elsewhere too.
fn with_rows_beside(p: &Program, beside: &[u64], gathered: Gathered) -> Gathered
    requires rows { AreEarly p.now beside.now }
    requires early { IsEarly (length p.now.sources) (end_of_times p.now) gathered.span }
    ensures lists { result.lists ≡ gathered.lists }
    ensures held { result.held ≡ gathered.held }
    ensures span { (ranks : List ℕ) → HasSpan gathered.span ranks → HasSpan result.span (beside.now ++ ranks) }
    ensures early { IsEarly (length p.now.sources) (end_of_times p.now) result.span }
{
    Gathered {
        lists: gathered.lists,
        held: gathered.held,
        number: gathered.number,
        span: span_beside(p, beside, gathered.span),
    }
}

// Reads each source to its end, in declared order.
fn read_all<F: Files>(alloc: Global, p: &Program, files: &mut F) -> Result<Gathered, GatherFault>
    ensures read { IfOk result (λ gathered. WhereTold (F.left files.old) (F.left files.new)
        (IsGathered (timing_of p.now) (form_of (job_of p.now)) p.now.kinds p.now.sources gathered)) }
    ensures len { IfOk result (λ gathered. vec_len gathered.lists ≡ count_of_itags p.now) }
    ensures streams { IfOk result (λ gathered. IsTrue (are_streams 0 (lists_in gathered.lists))) }
    ensures span { IfOk result (λ gathered. WhereTold (F.left files.old) (F.left files.new)
        (λ was now. list_any is_clock p.now.sources ≡ true → HasSpan gathered.span (ranks_among p.now (λ e. rows_in (form_of (job_of p.now)) was e.1)))) }
    ensures early { IfOk result (λ gathered. IsEarly (length p.now.sources) (end_of_times p.now) gathered.span) }
    ensures read_out { OnOk result (AreReadOut (files_of p.now.sources) (F.left files.new)) }
    ensures fault { IfErr result (IsRowFault p.now (F.left files.old) (F.left files.new)) }
    ensures fronts { WhereTold (F.left files.old) (F.left files.new) TookFronts }
    ensures others { WhereTold (F.left files.old) (F.left files.new) (LeavesOthers (files_of p.now.sources)) }
    ensures counts { CountsOfNames (F.left files.old) (files_of p.now.sources) (F.faults files.old) (F.faults files.new) }
    ensures quiet { result ≢ Err GatherFault.ReadFault → SameCounts (F.faults files.old) (F.faults files.new) }
    ensures puts { SameCounts (F.put_faults files.old) (F.put_faults files.new) }
    ensures hides { IsErrOf result GatherFault.ReadFault → HidesNothing p.now (F.left files.old) (F.left files.new) (F.faults files.old) (F.faults files.new) }
    ensures cause { IsErrOf result GatherFault.ReadFault → OneRose (files_of p.now.sources) (F.faults files.old) (F.faults files.new) }
{
    let Ok(form) = form_of(alloc, p) else {
        return Err(GatherFault::NoMemory);
    };
    let clocked = sources_with_clocks(p);
    let mut gathered = Gathered {
        lists: Vec::new(alloc),
        held: 0,
        number: 0,
        span: None,
    };
    for source in p.sources.items() {
        if let Err(fault) = add_source(
            alloc,
            clocked,
            &form,
            timing_of(p, gathered.number),
            p.kinds.items(),
            source,
            &mut gathered,
            files,
        ) {
            return Err(fault);
        }
    }
    Ok(gathered)
}

// Puts the ticks of each clock in the place of its list, which has the end alone, and counts them behind the rows of all files.
fn with_ticks(alloc: Global, p: &Program, gathered: Gathered) -> Result<Streams, GatherFault>
    requires len { vec_len gathered.lists ≡ count_of_itags p.now }
    requires streams { are_streams 0 (lists_in gathered.lists) ≡ true }
    requires early { IsEarly (length p.now.sources) (end_of_times p.now) gathered.span }
    ensures ticks { IfOk result (λ streams. (beside : List ℕ) → HasTicks p.now beside gathered streams) }
    ensures itags { IfOk result (λ streams. length (listed streams) ≡ count_of_itags p.now) }
    ensures fault { IfErr result (λ fault. (beside : List ℕ) → IsTickFault p.now beside gathered fault) }
{
    let mut lists = gathered.lists;
    let mut held = gathered.held;
    let mut first = 0;
    let mut number = 0;
    for source in p.sources.items() {
        let width = tag_count(source.tags.items());
        if source.every.is_some() {
            let ticks = ticks_within(p, number, source, gathered.span, None, Border::Closed);
            let left = MOST_ITEMS - held;
            if ticks.count() > left {
                return Err(too_many(number, left + 1));
            }
            held += ticks.count();
            let Ok(items) = items_of_ticks(alloc, timing_of(p, number), Itag(first), ticks) else {
                return Err(GatherFault::NoMemory);
            };
            lists[first as usize] = items;
        }
        first += width;
        number += 1;
    }
    Ok(Streams::new(lists))
}

// The tick of a clock that is one too many.
fn too_many(source: u32, row: u64) -> GatherFault
    ensures { result ≡ GatherFault.Source (record { source = source; row = row; why = Why.TooMany 16777217 }) }
{
    GatherFault::Source(SourceFault {
        source,
        row,
        why: Why::TooMany {
            count: MOST_ITEMS + 1,
        },
    })
}

// How many sources a job has, if some of them are clocks.
fn sources_with_clocks(p: &Program) -> Option<u64>
    ensures any { list_any is_clock p.now.sources ≡ true → result ≡ Some (length p.now.sources) }
    ensures some { (n : ℕ) → result ≡ Some n → (list_any is_clock p.now.sources ≡ true) × (n ≡ length p.now.sources) }
{
    if !has_clocks(p) {
        return None;
    }
    Some(p.sources.items().len() as u64)
}

// Where the job has clocks, among so many sources, the span with the rows of one more source.
fn span_behind(
    clocked: Option<u64>,
    number: u32,
    span: Option<Span>,
    first: Option<u64>,
    last: Option<u64>,
) -> Option<Span>
    requires number { (n : ℕ) → clocked ≡ Some n → number < n }
    requires ordered { (t : ℕ) → last ≡ Some t → (f : ℕ) → first ≡ Some f → f ≤ t }
    requires range { (n : ℕ) → clocked ≡ Some n → (t : ℕ) → last ≡ Some t → t < 2 ^ 63 / n }
    ensures { result ≡ span_among clocked number span first last }
{
    match clocked {
        Some(sources) => span_with(sources, number, span, first, last),
        None => span,
    }
}

// Reads one more source, whole.
fn add_source<F: Files>(
    alloc: Global,
    clocked: Option<u64>,
    form: &RowForm,
    timing: Timing,
    kinds: &[Kind],
    source: &Source,
    gathered: &mut Gathered,
    files: &mut F,
) -> Result<(), GatherFault>
    requires fits { IsTiming timing }
    requires kinds { length kinds.now ≤ 64 }
    requires numbered { vec_len gathered.old.lists + width source.now ≤ 256 }
    requires counted { gathered.old.number + 1 < 2 ^ 32 }
    requires slack { source.now.slack ≤ 60000 }
    requires ranked { (n : ℕ) → clocked ≡ Some n → (gathered.old.number < n) × (timing.end ≤ 2 ^ 63 / n) }
    ensures added { OnOk result (AddsSource clocked timing form.now kinds.now source.now (F.left files.old) (F.left files.new) gathered.old gathered.new) }
    ensures read_out { OnOk result (is_clock source.now ≡ false → IsReadOut source.now.file (F.left files.new)) }
    ensures fault { IfErr result (IsFaultOf timing form.now kinds.now source.now gathered.old.number gathered.old.held (F.left files.old) (F.left files.new)) }
    ensures taken { WhereTold (F.left files.old) (F.left files.new) (TakesFrom source.now.file) }
    ensures counts { CountsOf (F.left files.old) source.now.file (F.faults files.old) (F.faults files.new) }
    ensures quiet { result ≢ Err GatherFault.ReadFault → SameCounts (F.faults files.old) (F.faults files.new) }
    ensures puts { SameCounts (F.put_faults files.old) (F.put_faults files.new) }
    ensures hides { IsErrOf result GatherFault.ReadFault
        → HidesNoDefect timing form.now kinds.now source.now gathered.old.held (F.left files.old) (F.left files.new) }
    ensures cause { IsErrOf result GatherFault.ReadFault → Rose (F.faults files.old source.now.file) (F.faults files.new source.now.file) }
    ensures read { IsErrOf result GatherFault.ReadFault → is_clock source.now ≡ false }
    ensures shut { is_clock source.now ≡ true → files.new ≡ files.old }
{
    let Ok(mut inlet) = Inlet::new(alloc, form, timing, source, None, Some(gathered.held)) else {
        return Err(GatherFault::NoMemory);
    };
    let first = gathered.lists.len() as u32;
    if let Err(stop) = inlet.refill(kinds, source, first, None, files) {
        return Err(fault_of(gathered.number, stop));
    }
    let width = tag_count(source.tags.items());
    let span = span_behind(
        clocked,
        gathered.number,
        gathered.span,
        inlet.first,
        inlet.last,
    );
    let Ok(mut lists) = inlet.take_lists(alloc, first, width) else {
        return Err(GatherFault::NoMemory);
    };
    if gathered.lists.append(&mut lists).is_err() {
        return Err(GatherFault::NoMemory);
    }
    gathered.held = inlet.held.unwrap_or(0);
    gathered.span = span;
    gathered.number += 1;
    Ok(())
}
