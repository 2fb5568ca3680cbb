//! The state of a run between rounds.

ghost use Rattle.std.specs.Prelude.{◌≡◌, ◌≢◌, ◌<◌, ◌≤◌, ◌^◌, ◌⊎◌, ℕ, length, List, Option, Some, IfOk, IfErr, OnOk, IsErrOf, Ok, Err};
ghost use Rattle.flu_outside.specs.Outside.{WhereTold, Rose, SameCounts};
ghost use Rattle.flu_outside.specs.Taking.{TookFronts};
ghost use Rattle.flu_outside.specs.Writing.{AppendsAll, AppendsPart};
ghost use Rattle.flu_model.specs.Itags.{count_of_itags};
ghost use Rattle.flu_model.specs.Listed.{listed};
ghost use Rattle.flu_model.specs.Sorts.{IsStateOf};
ghost use Rattle.flu_cells.specs.Holding.{held};
ghost use Rattle.flu_rows.specs.declared.rows.Next.{Next};
ghost use Rattle.flu_streams.specs.declared.border.Border.{Border};
ghost use Rattle.flu_streams.specs.declared.held.Stage.{Stage};
ghost use Rattle.flu_streams.specs.Files.{files_of, LeavesOthers, CountsOfNames, OneRose};
ghost use Rattle.flu_streams.specs.Holding.{AreHeldBehind, ClosedAreReadOut, AreClosed, IsNewBorder, HidesNoRoundFault, HoldsFew};
ghost use Rattle.flu_streams.specs.Holding.{HoldsAtMost, HaveAtMost, most_held};
ghost use Rattle.flu_streams.specs.Holding.{Fills, KeepsJob, Cuts};
ghost use Rattle.flu_streams.specs.Rounds.{lists_between};
ghost use Rattle.flu_rounds.specs.Halves.{Begins, AppendsReport, AppendsPartOfReport};
ghost use Rattle.flu_rounds.specs.Standing.{IsFirst, IsFirstFrom, round_report, Runs, IsRoundOf, IsSourceFault, StandsBehind};

use crate::faults::RoundsFault;
use flu_cells::State;
use flu_model::{Outs, Program, Streams};
use flu_outside::{Files, Sink};
use flu_report::{report_text, write_all};
use flu_seq::Engine;
use flu_streams::{Border, Held};
use std::alloc::{AllocError, Global};
use std::marker::Model;
use std::mem;

/// How far a run in rounds has come: what is held of its sources, and the state after the rounds so far, which is the empty one
/// before the first.
///
/// Contracts see both (`Standing` of `specs/Standing.antt`). One fact always holds of it: the state has values of the job's sorts.
#[derive(Drop)]
pub struct Rounds {
    held: Held,
    state: State,
}

/// What a round has to run.
#[derive(Drop)]
pub struct Begun {
    /// The time up to which it takes rows.
    pub border: Border,
    /// The state after the rounds before it.
    pub opening: State,
    /// Its rows.
    pub rows: Streams,
}

impl Model for Rounds {
    ghost use Rattle.std.specs.Coded.{codes};
    ghost use Rattle.flu_cells.specs.Holding as cells;
    ghost use Rattle.flu_cells.specs.contracts.state.State as s;
    ghost use Rattle.flu_model.specs.contracts.jobs.Program as p;
    ghost use Rattle.flu_model.specs.contracts.jobs.Expr as e;
    ghost use Rattle.flu_model.specs.Sorts.{IsStateOf};
    ghost use Rattle.flu_rounds.specs.Standing.{Standing};

    ghost Value = { Standing };

    ghost coded = { Prim.hlevel (codes, s.the_row.coded, p.the_row.coded, e.the_row.coded) };

    ghost view = { λ r. record { held = r.held; state = r.state } };

    ghost invariant = { λ r. IsStateOf r.held.program.families (cells.held r.state) };
}

impl Rounds {
    /// The run of a job before its first round. A round is possible as soon as each source has this many rows that are settled.
    ///
    /// # Errors
    ///
    /// Only if memory runs out.
    pub fn new(alloc: Global, p: &Program, rows: u32) -> Result<Rounds, AllocError>
        requires some { 1 ≤ rows }
        requires few { rows ≤ 4096 }
        ensures { IfOk result (IsFirst p.now rows) }
    {
        Ok(Rounds {
            held: Held::new(alloc, p, rows)?,
            state: State::new(alloc),
        })
    }

    /// A run that is resumed: its first round starts from this state, and the rounds take the rows above this border. Rows up to it are
    /// read and tested, and not run.
    ///
    /// # Errors
    ///
    /// Only if memory runs out.
    pub fn resume(
        alloc: Global,
        p: &Program,
        rows: u32,
        border: u64,
        state: State,
    ) -> Result<Rounds, AllocError>
        requires some { 1 ≤ rows }
        requires few { rows ≤ 4096 }
        requires border { border < 2 ^ 63 }
        requires sorts { IsStateOf p.now.families (held state) }
        ensures { IfOk result (IsFirstFrom p.now rows (Some border) (held state)) }
    {
        Ok(Rounds {
            held: Held::resume(alloc, p, rows, border)?,
            state,
        })
    }

    /// Runs one round: reads the sources until each holds what the round needs of it, runs its rows on the engine from the state
    /// after the rounds before it, and writes their report to `out`. It answers the round's border, and `Closed` for the last one.
    ///
    /// # Errors
    ///
    /// See [`RoundsFault`]. After an error no further round may be run.
    pub fn round<F: Files, K: Sink, R, N: Engine<R>>(
        &mut self,
        rt: &R,
        alloc: Global,
        files: &mut F,
        out: &mut K,
        engine: &mut N,
    ) -> Result<Border, RoundsFault>
        requires program { N.program_of engine.old ≡ self.old.held.program }
        requires stage { self.old.held.stage ≡ Stage.Filling }

        ensures written { IfOk result (λ end. (before : ℕ → List Next) → AreHeldBehind self.old.held before
            → (runs : Runs self.old self.new (F.left files.old) (F.left files.new) end before)
            × WhereTold (K.taken out.old) (K.taken out.new) (AppendsAll (round_report self.old end runs.fills.now))) }
        ensures border { IfOk result (IsNewBorder self.old.held.border) }
        ensures stands { IfOk result (StandsBehind self.old.held self.new.held) }
        ensures read_out { OnOk result (ClosedAreReadOut self.old.held (F.left files.old) → ClosedAreReadOut self.new.held (F.left files.new)) }
        ensures closed { result ≡ Ok Border.Closed → AreClosed self.new.held }
        ensures engine { N.program_of engine.new ≡ N.program_of engine.old }

        // What is held of the sources is bounded, whatever the answer.
        ensures few { OnOk result (HoldsFew self.new.held) }
        ensures most { HoldsAtMost (most_held self.old.held.program) self.new.held }

        // A source fault is the defect that the round meets; nothing was written to out.
        ensures fault { IfErr result (λ f. IsSourceFault self.old.held (F.left files.old) (F.left files.new) f) }
        ensures nothing { IfErr result (λ f. f ≢ RoundsFault.WriteFault → K.taken out.new ≡ K.taken out.old) }

        // If out failed it has taken a prefix of the round's report.
        ensures part { IsErrOf result RoundsFault.WriteFault → (before : ℕ → List Next) → AreHeldBehind self.old.held before
            → (end : Border) × (now : ℕ → List Next) × IsRoundOf self.old (F.left files.old) (F.left files.new) end before now
            × WhereTold (K.taken out.old) (K.taken out.new) (AppendsPart (round_report self.old end now)) }
        ensures failed { IsErrOf result RoundsFault.WriteFault → Rose (K.faults out.old) (K.faults out.new) }
        ensures written_quiet { result ≢ Err RoundsFault.WriteFault → K.faults out.new ≡ K.faults out.old }
        ensures written_counts { K.faults out.old ≤ K.faults out.new }

        // Only bytes from the front of the sources' files are taken, and a read fault has its cause there: no other answer comes
        // after a take that failed.
        ensures fronts { WhereTold (F.left files.old) (F.left files.new) TookFronts }
        ensures others { WhereTold (F.left files.old) (F.left files.new) (LeavesOthers (files_of self.old.held.program.sources)) }
        ensures counts { CountsOfNames (F.left files.old) (files_of self.old.held.program.sources) (F.faults files.old) (F.faults files.new) }
        ensures quiet { result ≢ Err RoundsFault.ReadFault → SameCounts (F.faults files.old) (F.faults files.new) }
        ensures puts { SameCounts (F.put_faults files.old) (F.put_faults files.new) }
        ensures hides { IsErrOf result RoundsFault.ReadFault → (before : ℕ → List Next) → AreHeldBehind self.old.held before
            → HidesNoRoundFault self.old.held (F.left files.old) (F.left files.new) (F.faults files.old) (F.faults files.new) before }
        ensures cause { IsErrOf result RoundsFault.ReadFault → OneRose (files_of self.old.held.program.sources) (F.faults files.old) (F.faults files.new) }
    {
        let Begun {
            border,
            opening,
            rows,
        } = self.begin(alloc, engine.program(), files)?;
        let (state, outs) = engine.batch(rt, alloc, opening, &rows)?;
        self.finish(alloc, engine.program(), out, state, outs)?;
        Ok(border)
    }

    /// The first half of a round: reads the sources until each holds what the round needs of it, and hands out what has to be run.
    /// Whoever runs the rows from the opening state passes the results to [`Rounds::finish`].
    ///
    /// # Errors
    ///
    /// See [`RoundsFault`]; a write fault is not possible. After an error no further round may be run.
    pub fn begin<F: Files>(
        &mut self,
        alloc: Global,
        p: &Program,
        files: &mut F,
    ) -> Result<Begun, RoundsFault>
        requires program { self.old.held.program ≡ p.now }
        requires stage { self.old.held.stage ≡ Stage.Filling }

        ensures rows { IfOk result (λ begun. Begins self.old self.new.held (F.left files.old) (F.left files.new) begun.border begun.opening (listed begun.rows)) }
        ensures itags { IfOk result (λ begun. length (listed begun.rows) ≡ count_of_itags p.now) }
        ensures sorts { IfOk result (λ begun. IsStateOf p.now.families (held begun.opening)) }
        ensures border { IfOk result (λ begun. IsNewBorder self.old.held.border begun.border) }
        ensures stands { IfOk result (λ begun. StandsBehind self.old.held self.new.held begun.border) }
        ensures read_out { OnOk result (ClosedAreReadOut self.old.held (F.left files.old) → ClosedAreReadOut self.new.held (F.left files.new)) }
        ensures closed { IfOk result (λ begun. begun.border ≡ Border.Closed → AreClosed self.new.held) }

        // What is held of the sources is bounded, whatever the answer, and so are the rows of the round.
        ensures few { OnOk result (HoldsFew self.new.held) }
        ensures most { HoldsAtMost (most_held self.old.held.program) self.new.held }
        ensures few_items { IfOk result (λ begun. HaveAtMost (most_held p.now) (listed begun.rows)) }

        // A source fault is the defect that the round meets.
        ensures fault { IfErr result (λ f. IsSourceFault self.old.held (F.left files.old) (F.left files.new) f) }
        ensures unwritten { result ≢ Err RoundsFault.WriteFault }

        // Only bytes from the front of the sources' files are taken, and a read fault has its cause there: no other answer comes
        // after a take that failed.
        ensures fronts { WhereTold (F.left files.old) (F.left files.new) TookFronts }
        ensures others { WhereTold (F.left files.old) (F.left files.new) (LeavesOthers (files_of p.now.sources)) }
        ensures counts { CountsOfNames (F.left files.old) (files_of p.now.sources) (F.faults files.old) (F.faults files.new) }
        ensures quiet { result ≢ Err RoundsFault.ReadFault → SameCounts (F.faults files.old) (F.faults files.new) }
        ensures puts { SameCounts (F.put_faults files.old) (F.put_faults files.new) }
        ensures hides { IsErrOf result RoundsFault.ReadFault → (before : ℕ → List Next) → AreHeldBehind self.old.held before
            → HidesNoRoundFault self.old.held (F.left files.old) (F.left files.new) (F.faults files.old) (F.faults files.new) before }
        ensures cause { IsErrOf result RoundsFault.ReadFault → OneRose (files_of p.now.sources) (F.faults files.old) (F.faults files.new) }
    {
        let border = self.fill(alloc, p, files)?;
        let Begun { opening, rows, .. } = self.hand_out(alloc, p, border)?;
        Ok(Begun {
            border,
            opening,
            rows,
        })
    }

    /// The first part of [`Rounds::begin`]: reads the sources until each holds what the round needs of it, and answers the round's
    /// border. It reads and changes what is held of the sources alone, so the round before may still run meanwhile.
    ///
    /// # Errors
    ///
    /// See [`RoundsFault`]; a write fault is not possible. After an error no further round may be run.
    pub fn fill<F: Files>(
        &mut self,
        alloc: Global,
        p: &Program,
        files: &mut F,
    ) -> Result<Border, RoundsFault>
        requires program { self.old.held.program ≡ p.now }
        requires stage { self.old.held.stage ≡ Stage.Filling }

        ensures filled { IfOk result (λ end. (before : ℕ → List Next) → AreHeldBehind self.old.held before
            → Fills self.old.held self.new.held (F.left files.old) (F.left files.new) end before) }
        ensures border { IfOk result (IsNewBorder self.old.held.border) }
        ensures stage { IfOk result (λ end. self.new.held.stage ≡ Stage.Filled end) }
        ensures same { KeepsJob self.old.held self.new.held }
        ensures state { self.new.state ≡ self.old.state }
        ensures read_out { OnOk result (ClosedAreReadOut self.old.held (F.left files.old) → ClosedAreReadOut self.new.held (F.left files.new)) }
        ensures closed { result ≡ Ok Border.Closed → AreClosed self.new.held }

        // What is held of the sources is bounded, whatever the answer.
        ensures few { OnOk result (HoldsFew self.new.held) }
        ensures most { HoldsAtMost (most_held self.old.held.program) self.new.held }

        // A source fault is the defect that the round meets.
        ensures fault { IfErr result (λ f. IsSourceFault self.old.held (F.left files.old) (F.left files.new) f) }
        ensures unwritten { result ≢ Err RoundsFault.WriteFault }

        // Only bytes from the front of the sources' files are taken, and a read fault has its cause there: no other answer comes
        // after a take that failed.
        ensures fronts { WhereTold (F.left files.old) (F.left files.new) TookFronts }
        ensures others { WhereTold (F.left files.old) (F.left files.new) (LeavesOthers (files_of p.now.sources)) }
        ensures counts { CountsOfNames (F.left files.old) (files_of p.now.sources) (F.faults files.old) (F.faults files.new) }
        ensures quiet { result ≢ Err RoundsFault.ReadFault → SameCounts (F.faults files.old) (F.faults files.new) }
        ensures puts { SameCounts (F.put_faults files.old) (F.put_faults files.new) }
        ensures hides { IsErrOf result RoundsFault.ReadFault → (before : ℕ → List Next) → AreHeldBehind self.old.held before
            → HidesNoRoundFault self.old.held (F.left files.old) (F.left files.new) (F.faults files.old) (F.faults files.new) before }
        ensures cause { IsErrOf result RoundsFault.ReadFault → OneRose (files_of p.now.sources) (F.faults files.old) (F.faults files.new) }
    {
        let above = self.held.border();
        let border = self.held.refill(alloc, p, files, above)?;
        Ok(border)
    }

    /// The second part of [`Rounds::begin`]: hands out what has to be run of a round that was filled up to this border, once the state
    /// after the rounds before it is known.
    ///
    /// # Errors
    ///
    /// Only lack of memory, after which no further round may be run.
    pub fn hand_out(
        &mut self,
        alloc: Global,
        p: &Program,
        border: Border,
    ) -> Result<Begun, AllocError>
        requires program { self.old.held.program ≡ p.now }
        requires stage { self.old.held.stage ≡ Stage.Filled border }
        ensures border { IfOk result (λ begun. begun.border ≡ border) }
        ensures opening { IfOk result (λ begun. held begun.opening ≡ held self.old.state) }
        ensures sorts { IfOk result (λ begun. IsStateOf p.now.families (held begun.opening)) }
        ensures lists { IfOk result (λ begun. (lines : ℕ → List Next) → AreHeldBehind self.old.held lines
            → listed begun.rows ≡ lists_between p.now self.old.held.border border lines) }
        ensures itags { IfOk result (λ begun. length (listed begun.rows) ≡ count_of_itags p.now) }
        ensures cut { OnOk result (Cuts self.old.held self.new.held border) }
        ensures few { OnOk result (HoldsFew self.new.held) }
        ensures most { HoldsAtMost (most_held self.old.held.program) self.new.held }
        ensures few_items { IfOk result (λ begun. HaveAtMost (most_held p.now) (listed begun.rows)) }
    {
        let opening = mem::replace(&mut self.state, State::new(alloc));
        let rows = self.held.cut(alloc, p, border)?;
        Ok(Begun {
            border,
            opening,
            rows,
        })
    }

    /// The second half of a round: takes the state and the outputs that its rows gave, in whatever order, and writes their report to
    /// `out`.
    ///
    /// # Errors
    ///
    /// Only a write fault, after which `out` has a prefix of the report, and lack of memory, after which it got nothing. After an error
    /// no further round may be run.
    pub fn finish<K: Sink>(
        &mut self,
        alloc: Global,
        p: &Program,
        out: &mut K,
        state: State,
        outs: Outs,
    ) -> Result<(), RoundsFault>
        requires program { self.old.held.program ≡ p.now }
        requires sorts { IsStateOf p.now.families (held state) }
        ensures held { self.new.held ≡ self.old.held }
        ensures state { OnOk result (held self.new.state ≡ held state) }
        ensures written { OnOk result (AppendsReport p.now outs (K.taken out.old) (K.taken out.new)) }
        ensures part { IsErrOf result RoundsFault.WriteFault → AppendsPartOfReport p.now outs (K.taken out.old) (K.taken out.new) }
        ensures causes { IfErr result (λ f. (f ≡ RoundsFault.WriteFault) ⊎ (f ≡ RoundsFault.NoMemory)) }
        ensures nothing { IfErr result (λ f. f ≢ RoundsFault.WriteFault → K.taken out.new ≡ K.taken out.old) }
        ensures failed { IsErrOf result RoundsFault.WriteFault → Rose (K.faults out.old) (K.faults out.new) }
        ensures quiet { result ≢ Err RoundsFault.WriteFault → K.faults out.new ≡ K.faults out.old }
        ensures counts { K.faults out.old ≤ K.faults out.new }
    {
        self.state = state;
        let report = report_text(alloc, p, outs)?;
        write_all(out, report.as_str().as_bytes())?;
        Ok(())
    }

    /// The state after the rounds so far. It takes no memory.
    pub fn state(&self) -> &State
        ensures value { result.now ≡ self.now.state }
        ensures sorts { IsStateOf self.now.held.program.families (held result.now) }
    {
        &self.state
    }

    /// The border of the last round that had one. Before it none, or the border of a run that is resumed.
    pub fn border(&self) -> Option<u64>
        ensures { result ≡ self.now.held.border }
    {
        self.held.border()
    }
}
