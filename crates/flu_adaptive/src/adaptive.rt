//! The engine that makes new plans from the events that it has run.

ghost use Rattle.std.specs.Prelude.{◌≡◌, ◌≤◌, false, length, replicate, IfOk, IfSome, OnOk, IsTrue};
ghost use Rattle.std.specs.List.Sorted.{IsPermutation};
ghost use Rattle.flu_model.specs.Folding.{final_state, final_outputs};
ghost use Rattle.flu_model.specs.Itags.{count_of_itags};
ghost use Rattle.flu_model.specs.Listed.{listed};
ghost use Rattle.flu_model.specs.Sorts.{IsStateOf};
ghost use Rattle.flu_cells.specs.Holding.{held};
ghost use Rattle.flu_deps.specs.Checking.{program_of};
ghost use Rattle.flu_deps.specs.Validated.{plan_of, IsValidFor};
ghost use Rattle.flu_streams.specs.Counts.{grown, no_counts};
ghost use Rattle.flu_adaptive.specs.Observed.{IsObservedPlan};
ghost use Rattle.flu_adaptive.specs.Ways.{IsWayOf};

use crate::beside::{Given, in_way_beside};
use crate::choosing::Chooser;
use crate::counting::{count_events, counts_of, no_counts};
use crate::observing::observed_plan;
use crate::ways::{Way, in_way};
use flu_cells::State;
use flu_deps::{Checked, Valid};
use flu_fork::TreeTables;
use flu_model::{Outs, Streams, itag_count};
use flu_seq::{Engine, Gate};
use std::alloc::{AllocError, Global};
use std::marker::{Model, PhantomData};
use std::sync::Wait;
use std::thread::Threads;

/// Runs batches on a tree of threads, the first one on a given plan. If it adapts, the plan follows the counts of the events that it
/// has run: each later batch runs on the observed plan of the counts so far (`docs/TREE.md`). If it does not, each batch runs on the
/// given plan, and nothing is counted.
///
/// If it chooses, each batch is run by its own counts, whether the engine adapts or not: on the tree by the greedy plan of such
/// counts, or by the backup alone if the tree does not pay off (`docs/TREE.md`, "Which rounds run on the tree").
///
/// Like [`TreeEngine`] it keeps the promise of an [`Engine`] for any runtime that has threads, and is not itself one.
///
/// Contracts see its job, the plan in force, the counts, and whether it adapts (`AdaptiveNote` of `specs/Notes.antt`).
#[derive(Drop)]
pub struct Adaptive<'a, G: Gate, R, B: Engine<R>> {
    checked: &'a Checked,
    valid: Valid,
    // What the tree needs of the job and the plan in force, once a batch was run by it.
    tables: Option<TreeTables>,
    gate: &'a G,
    // What runs a batch if a thread is refused. It is lent to each batch.
    backup: Option<B>,
    // How many events of each itag were run, if it adapts.
    counts: Vec<u64>,
    // Whether the plan follows the counts.
    adapts: bool,
    // What chooses how a batch is run, if it is not run by the plan in force.
    chooser: Option<Chooser>,
    // The runtime that the backup runs on.
    by: PhantomData<R>,
}

impl<'a, G: Gate, R, B: Engine<R>> Model for Adaptive<'a, G, R, B> {
    ghost use Rattle.std.specs.Prelude.{◌≡◌, IsSome, IfSome};
    ghost use Rattle.std.specs.Coded.{codes};
    ghost use Rattle.flu_deps.specs.Checking.{program_of};
    ghost use Rattle.flu_deps.specs.Validated.{plan_of};
    ghost use Rattle.flu_fork.specs.Tables.{AreTreeTablesOf};
    ghost use Rattle.flu_deps.specs.contracts.checked.Checked as c;
    ghost use Rattle.flu_deps.specs.contracts.valid.Valid as v;
    ghost use Rattle.flu_adaptive.specs.Notes.{AdaptiveNote, HasItsPlan};
    ghost use Rattle.flu_adaptive.specs.Ways.{IsPlannedFor};

    ghost Value = { AdaptiveNote };

    ghost coded = { Prim.hlevel (codes, c.the_row.coded, v.the_row.coded) };

    ghost view = { λ a. record { checked = a.checked.now; valid = a.valid; counts = a.counts.items; adapts = a.adapts } };

    ghost invariant = { λ a. HasItsPlan (record { checked = a.checked.now; valid = a.valid; counts = a.counts.items; adapts = a.adapts }) × IsSome a.backup
        × IfSome a.backup (λ b. B.program_of b ≡ program_of a.checked.now)
        × IfSome a.chooser (λ c. IfSome c.last (IsPlannedFor (program_of a.checked.now)))
        × IfSome a.tables (AreTreeTablesOf (program_of a.checked.now) (plan_of a.valid).nodes) };
}

impl<'a, G: Gate, R, B: Engine<R> + Drop> Adaptive<'a, G, R, B> {
    /// The engine of a job, a plan that is valid for it, on which its first batch runs, a gate and a backup of the same job, which
    /// runs a batch if a thread is refused; and whether its plan follows the counts after that.
    ///
    /// # Errors
    ///
    /// Only if memory runs out.
    pub fn new(
        alloc: Global,
        checked: &'a Checked,
        first: Valid,
        gate: &'a G,
        backup: B,
        adapts: bool,
    ) -> Result<Adaptive<'a, G, R, B>, AllocError>
        requires first { IsValidFor (program_of checked.now) first }
        requires backup { B.program_of backup ≡ program_of checked.now }
        ensures checked { IfOk result (λ a. a.checked ≡ checked.now) }
        ensures valid { IfOk result (λ a. a.valid ≡ first) }
        ensures counts { IfOk result (λ a. a.counts ≡ no_counts (program_of checked.now)) }
        ensures adapts { IfOk result (λ a. a.adapts ≡ adapts) }
    {
        let counts = no_counts(alloc, itag_count(checked.program()))?;
        Ok(Adaptive {
            checked,
            valid: first,
            tables: None,
            gate,
            backup: Some(backup),
            counts,
            adapts,
            chooser: None,
            by: PhantomData,
        })
    }

    /// The job. It takes no memory.
    pub fn checked(&self) -> &'a Checked
        ensures { result.now ≡ self.now.checked }
    {
        self.checked
    }

    /// The plan in force, which is the plan of the next batch. It takes no memory.
    pub fn valid(&self) -> &Valid
        ensures plan { result.now ≡ self.now.valid }
        ensures of { IsValidFor (program_of self.now.checked) self.now.valid }
    {
        &self.valid
    }

    /// How many events of each itag were run, by the itags' numbers, if it adapts; otherwise no events are counted. A count that
    /// reaches the greatest `u64` stays there. It takes no memory.
    pub fn counts(&self) -> &[u64]
        ensures counts { result.now ≡ self.now.counts }
        ensures one_each { length self.now.counts ≡ count_of_itags (program_of self.now.checked) }
    {
        self.counts.as_slice()
    }

    /// Whether its plan follows the counts. It takes no memory.
    pub fn adapts(&self) -> bool
        ensures { result ≡ self.now.adapts }
    {
        self.adapts
    }
}

impl<'a, G: Gate, R: Threads + Wait + Sync, B: Engine<R> + Drop> Adaptive<'a, G, R, B> {
    /// The same engine, but it chooses how each batch is run: on the tree of threads by the greedy plan, of at most this depth, of
    /// the batch's own counts or of those of a batch a little earlier, or by the backup alone if the tree does not pay off.
    ///
    /// # Errors
    ///
    /// Only if memory runs out.
    pub fn choosing(
        self,
        rt: &R,
        alloc: Global,
        depth: u32,
    ) -> Result<Adaptive<'a, G, R, B>, AllocError>
        requires { depth ≤ 6 }
        ensures { IfOk result (λ a. a ≡ self.entry) }
    {
        let mut engine = self;
        let chooser = Chooser::new(rt, alloc, engine.checked, depth)?;
        engine.chooser = Some(chooser);
        Ok(engine)
    }

    /// Runs all events of the streams, which have one list for each itag of the job, from a state that holds values of the job's
    /// sorts, on the tree of threads of the plan in force: the state is the fold's, which holds such values too, and the outputs are
    /// the fold's in some order. If the engine adapts, afterwards the counts have grown by these events, and the plan in force is the
    /// observed one of the counts; otherwise both stay as they are. It waits for its threads.
    ///
    /// # Errors
    ///
    /// Only if memory runs out. After an error an engine that adapts must be discarded.
    pub fn batch(
        &mut self,
        rt: &R,
        alloc: Global,
        opening: State,
        s: &Streams,
    ) -> Result<(State, Outs), AllocError>
        requires lists { length (listed s.now) ≡ count_of_itags (program_of self.old.checked) }
        requires sorts { IsStateOf (program_of self.old.checked).families (held opening) }
        ensures state { IfOk result (λ r. held r.0 ≡ final_state (program_of self.old.checked) (held opening) (listed s.now)) }
        ensures sorts { IfOk result (λ r. IsStateOf (program_of self.old.checked).families (held r.0)) }
        ensures outputs { IfOk result (λ r. IsPermutation (final_outputs (program_of self.old.checked) (held opening) (listed s.now)) r.1) }
        ensures same { self.new.checked ≡ self.old.checked }
        ensures adapts { self.new.adapts ≡ self.old.adapts }
        ensures counts { OnOk result (IsTrue self.old.adapts → self.new.counts ≡ grown self.old.counts (listed s.now)) }
        ensures observed { OnOk result (IsTrue self.old.adapts → IsObservedPlan (program_of self.old.checked) self.new.counts (plan_of self.new.valid).nodes) }
        ensures stays { self.old.adapts ≡ false → self.new ≡ self.old }
    {
        let ran = self.run(rt, alloc, opening, s)?;
        self.follow(alloc, s)?;
        Ok(ran)
    }

    // Counts the events of a batch that was run, and makes the plan anew by the counts, if the engine adapts.
    fn follow(&mut self, alloc: Global, s: &Streams) -> Result<(), AllocError>
        requires { length (listed s.now) ≡ count_of_itags (program_of self.old.checked) }
        ensures same { self.new.checked ≡ self.old.checked }
        ensures adapts { self.new.adapts ≡ self.old.adapts }
        ensures counts { OnOk result (IsTrue self.old.adapts → self.new.counts ≡ grown self.old.counts (listed s.now)) }
        ensures observed { OnOk result (IsTrue self.old.adapts → IsObservedPlan (program_of self.old.checked) self.new.counts (plan_of self.new.valid).nodes) }
        ensures stays { self.old.adapts ≡ false → self.new ≡ self.old }
    {
        if !self.adapts {
            return Ok(());
        }
        count_events(self.checked.program(), &mut self.counts, s);
        let anew = observed_plan(alloc, self.checked, self.counts.as_slice())?;
        self.tables = None;
        self.valid = anew;
        Ok(())
    }

    // Runs all events of the streams in the way that is chosen for them.
    fn run(
        &mut self,
        rt: &R,
        alloc: Global,
        opening: State,
        s: &Streams,
    ) -> Result<(State, Outs), AllocError>
        requires lists { length (listed s.now) ≡ count_of_itags (program_of self.old.checked) }
        requires sorts { IsStateOf (program_of self.old.checked).families (held opening) }
        ensures state { IfOk result (λ r. held r.0 ≡ final_state (program_of self.old.checked) (held opening) (listed s.now)) }
        ensures sorts { IfOk result (λ r. IsStateOf (program_of self.old.checked).families (held r.0)) }
        ensures outputs { IfOk result (λ r. IsPermutation (final_outputs (program_of self.old.checked) (held opening) (listed s.now)) r.1) }
        ensures same { self.new ≡ self.old }
    {
        let way = self.way(alloc, s)?;
        let tables = self.tables.take();
        let backup = self.backup.take().unwrap();
        let (ran, backup, tables, way) = in_way(
            rt,
            alloc,
            self.checked,
            &self.valid,
            tables,
            way,
            self.gate,
            backup,
            opening,
            s,
        );
        self.backup = Some(backup);
        self.tables = tables;
        self.take_back(way);
        ran
    }

    // How a batch of these streams is to be run.
    fn way(&mut self, alloc: Global, s: &Streams) -> Result<Way, AllocError>
        requires { length (listed s.now) ≡ count_of_itags (program_of self.old.checked) }
        ensures same { self.new ≡ self.old }
        ensures valid { IfOk result (IsWayOf (program_of self.old.checked)) }
    {
        let Some(chooser) = &mut self.chooser else {
            return Ok(Way::InForce);
        };
        let counts = counts_of(alloc, self.checked.program(), s)?;
        match chooser.choose(alloc, self.checked, counts.as_slice())? {
            Some(planned) => Ok(Way::Planned(planned)),
            None => Ok(Way::Alone),
        }
    }

    // Gives the plan by which a batch was run back to the chooser.
    fn take_back(&mut self, way: Way)
        requires { IsWayOf (program_of self.old.checked) way }
        ensures { self.new ≡ self.old }
    {
        if let Way::Planned(planned) = way {
            if let Some(chooser) = &mut self.chooser {
                chooser.last = Some(planned);
            }
        }
    }
}

impl<'a, G: Gate, R: Threads + Wait + Sync, B: Engine<R> + Drop + Send> Adaptive<'a, G, R, B> {
    /// The same as [`Adaptive::batch`], in a thread of its own, while `meanwhile` is called once on the calling thread. If the thread is
    /// refused, the batch is run on the calling thread after that.
    ///
    /// # Errors
    ///
    /// Only if memory runs out. `meanwhile` was called nevertheless.
    pub fn batch_beside<T, M: FnMut() -> T>(
        &mut self,
        rt: &R,
        alloc: Global,
        opening: State,
        s: &Streams,
        meanwhile: &mut M,
    ) -> (Result<(State, Outs), AllocError>, T)
        requires lists { length (listed s.now) ≡ count_of_itags (program_of self.old.checked) }
        requires sorts { IsStateOf (program_of self.old.checked).families (held opening) }
        requires meanwhile { M.pre meanwhile.old }
        ensures state { IfOk result.0 (λ r. held r.0 ≡ final_state (program_of self.old.checked) (held opening) (listed s.now)) }
        ensures sorts { IfOk result.0 (λ r. IsStateOf (program_of self.old.checked).families (held r.0)) }
        ensures outputs { IfOk result.0 (λ r. IsPermutation (final_outputs (program_of self.old.checked) (held opening) (listed s.now)) r.1) }
        ensures same { self.new.checked ≡ self.old.checked }
        ensures adapts { self.new.adapts ≡ self.old.adapts }
        ensures counts { OnOk result.0 (IsTrue self.old.adapts → self.new.counts ≡ grown self.old.counts (listed s.now)) }
        ensures observed { OnOk result.0 (IsTrue self.old.adapts → IsObservedPlan (program_of self.old.checked) self.new.counts (plan_of self.new.valid).nodes) }
        ensures stays { self.old.adapts ≡ false → self.new ≡ self.old }
        ensures meanwhile { M.step meanwhile.old result.1 meanwhile.new }
    {
        let (ran, told) = self.run_beside(rt, alloc, opening, s, meanwhile);
        let ran = match ran {
            Ok(ran) => ran,
            Err(e) => return (Err(e), told),
        };
        match self.follow(alloc, s) {
            Ok(()) => (Ok(ran), told),
            Err(e) => (Err(e), told),
        }
    }

    // Runs all events of the streams in the way that is chosen for them, in a thread of its own.
    fn run_beside<T, M: FnMut() -> T>(
        &mut self,
        rt: &R,
        alloc: Global,
        opening: State,
        s: &Streams,
        meanwhile: &mut M,
    ) -> (Result<(State, Outs), AllocError>, T)
        requires lists { length (listed s.now) ≡ count_of_itags (program_of self.old.checked) }
        requires sorts { IsStateOf (program_of self.old.checked).families (held opening) }
        requires meanwhile { M.pre meanwhile.old }
        ensures state { IfOk result.0 (λ r. held r.0 ≡ final_state (program_of self.old.checked) (held opening) (listed s.now)) }
        ensures sorts { IfOk result.0 (λ r. IsStateOf (program_of self.old.checked).families (held r.0)) }
        ensures outputs { IfOk result.0 (λ r. IsPermutation (final_outputs (program_of self.old.checked) (held opening) (listed s.now)) r.1) }
        ensures same { self.new ≡ self.old }
        ensures meanwhile { M.step meanwhile.old result.1 meanwhile.new }
    {
        let way = match self.way(alloc, s) {
            Ok(way) => way,
            Err(e) => return (Err(e), meanwhile()),
        };
        let given = Given {
            tables: self.tables.take(),
            way,
            backup: self.backup.take().unwrap(),
            opening,
        };
        let (gives, told) = in_way_beside(
            rt,
            alloc,
            self.checked,
            &self.valid,
            given,
            self.gate,
            s,
            meanwhile,
        );
        let (ran, backup, tables, way) = gives;
        self.backup = Some(backup);
        self.tables = tables;
        self.take_back(way);
        (ran, told)
    }
}
