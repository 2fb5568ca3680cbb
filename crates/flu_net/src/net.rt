//! The net.

ghost use Rattle.std.specs.Prelude.{◌≡◌, ◌↔◌, ◌<◌, ◌≤◌, true, false, Some, slice_get, IfOk, OnOk, OnErr, IsErrOf};
ghost use Rattle.flu_net.specs.Effects.{arrived, Makes, Handles, Asks, Takes, Gives, Holds, Lends};
ghost use Rattle.flu_net.specs.Enabled.{aims, if_there, is_enabled, may_arrive, may_handle, may_ask, may_take_part, may_give_up, may_hold, may_lend_part};
ghost use Rattle.flu_net.specs.Blocking.{IsQuiet};
ghost use Rattle.flu_net.specs.Final.{IsFinal};
ghost use Rattle.flu_net.specs.Measure.{most_steps, steps_left};
ghost use Rattle.flu_net.specs.Notes.{asked_of};
ghost use Rattle.flu_net.specs.Rule.{IsWell, Tells};
ghost use Rattle.flu_net.specs.Starting.{IsStart};
ghost use Rattle.std.specs.List.Sorted.{IsPermutation};
ghost use Rattle.flu_model.specs.Folding.{final_state, final_outputs};
ghost use Rattle.flu_model.specs.Listed.{listed};
ghost use Rattle.flu_model.specs.Sorts.{IsStateOf};
ghost use Rattle.flu_cells.specs.Holding.{held};
ghost use Rattle.flu_fork.specs.Lots.{job};
ghost use Rattle.flu_worker.specs.Choosing.{may_give};

use crate::edges::{
    Edge, ask_at, given_at, given_lot, held_at, kid_of, lent_at, lent_lot, may_lend, may_take, put,
};
use crate::finishing::{all_over, all_seen};
use crate::joining::whole_lot;
use crate::laws::{laws_below, steps_are_bounded};
use crate::showing::{one_more, show};
use crate::starting::{first_edges, first_workers, no_counts};
use crate::steps::{Step, StepFault};
use crate::workers::{all_keep, keeps};
use flu_cells::State;
use flu_fork::{Ask, Case, CaseNote, Counts, Lot};
use flu_model::{Itag, Outs, itag_count};
use flu_worker::{Side, Worker};
use std::alloc::{AllocError, Global};
use std::marker::Model;

/// The whole tree of workers as one value (`docs/TREE.md`).
///
/// It has a worker for each node of the plan, the edge above each node but the root, how many items of each itag are seen, and what
/// was emitted. Its calls are for the case that it was made with.
///
/// A step that runs out of memory leaves a net that must be discarded: nothing is enabled any more.
#[derive(Drop)]
pub struct Net {
    case: CaseNote,
    gone: bool,
    seen: Counts,
    workers: Vec<Worker>,
    edges: Vec<Edge>,
    outs: Outs,
}

impl Model for Net {
    ghost use Rattle.std.specs.Coded.{codes};
    ghost use Rattle.flu_fork.specs.contracts.content.Content as e;
    ghost use Rattle.flu_cells.specs.contracts.state.State as f;
    ghost use Rattle.flu_net.specs.Notes.{NetNote};
    ghost use Rattle.flu_net.specs.Rule.{IsWell};

    ghost Value = { NetNote };

    ghost coded = { Prim.hlevel (codes, e.the_row.coded, f.the_row.coded) };

    ghost view = { λ n. record { case = n.case; gone = n.gone; seen = n.seen; workers = n.workers.items; edges = n.edges.items; outs = n.outs } };

    ghost invariant = { λ n. IsWell (record { case = n.case; gone = n.gone; seen = n.seen; workers = n.workers.items; edges = n.edges.items; outs = n.outs }) };
}

impl Net {
    /// The net at the start: no item is seen, and each worker and each edge is in its first state.
    ///
    /// # Errors
    ///
    /// Only if memory runs out.
    pub fn new(alloc: Global, case: &Case) -> Result<Net, AllocError>
        ensures start { IfOk result (IsStart case.now) }
        ensures most { IfOk result (λ n. steps_left n ≤ most_steps case.now) }
    {
        laws_below();
        steps_are_bounded();
        let seen = no_counts(alloc, itag_count(case.checked().program()))?;
        let workers = first_workers(alloc, case)?;
        let edges = first_edges(alloc, case)?;
        Ok(Net {
            case: case.note(),
            gone: false,
            seen,
            workers,
            edges,
            outs: Outs::of(Vec::new(alloc)),
        })
    }

    /// What was emitted: for each event that its owner counted, its outputs in the fold, each event's once.
    pub fn outputs(&self) -> &Outs
        ensures same { result.now ≡ self.now.outs }
        ensures once { self.now.gone ≡ false → Tells self.now.case self.now.workers self.now.outs }
    {
        &self.outs
    }

    /// The rule of the net, which holds after any list of steps: each lot fits its node, and the workers and edges are tied to each
    /// other. This call does nothing.
    pub fn rule(&self)
        ensures { IsWell self.now }
    {
        let _gone = &self.gone;
    }

    /// The net never blocks: no step is enabled exactly if it is final, that is, all items are seen, each worker has counted all events
    /// of its own itags and of those above it, and each leaf has its lot. This call only goes over the workers.
    pub fn never_blocks(&self)
        ensures { self.now.gone ≡ false → (IsQuiet self.now ↔ IsFinal self.now) }
    {
        laws_below();
        all_keep(self.workers.as_slice());
    }

    /// Whether a step may be made. It takes no memory.
    pub fn enabled(&self, case: &Case, s: Step) -> bool
        requires { case.now ≡ self.now.case }
        ensures { result ≡ is_enabled self.now s }
    {
        if self.gone {
            return false;
        }
        match s {
            Step::Arrive(i) => self.may_arrive(case, i),
            Step::Handle(w) => self.may_handle(case, w),
            Step::Ask(w, side) => self.may_ask(case, w, side),
            Step::Take(w, side) => self.may_take_part(case, w, side),
            Step::Give(w) => self.may_give_up(case, w),
            Step::Hold(w) => self.may_hold(w),
            Step::Lend(w, side) => self.may_lend_part(case, w, side),
        }
    }

    /// Makes a step, if it is enabled. Afterwards fewer steps are left, whichever step it was: so a list of steps that are made is no longer
    /// than the number of steps left at the start.
    ///
    /// # Errors
    ///
    /// `NotEnabled` exactly if the step is not enabled: the net is as it was. `NoMemory` if memory runs out: the net must then be
    /// discarded.
    pub fn step(&mut self, alloc: Global, case: &Case, s: Step) -> Result<(), StepFault>
        requires { case.now ≡ self.old.case }
        ensures not_enabled { IsErrOf result StepFault.NotEnabled ↔ (is_enabled self.old s ≡ false) }
        ensures same { is_enabled self.old s ≡ false → self.new ≡ self.old }
        ensures made { OnOk result (Makes s self.old self.new) }
        ensures left { OnOk result (steps_left self.new < steps_left self.old) }
        ensures case { OnOk result (self.new.case ≡ self.old.case) }
        ensures stays { OnOk result (self.new.gone ≡ false) }
        ensures gone { IsErrOf result StepFault.NoMemory → self.new.gone ≡ true }
    {
        steps_are_bounded();
        self.rule();
        if !self.enabled(case, s) {
            return Err(StepFault::NotEnabled);
        }
        match self.make(alloc, case, s) {
            Ok(()) => Ok(()),
            Err(_) => Err(StepFault::NoMemory),
        }
    }

    // ---- the end

    /// Whether nothing is left to do: all items of each itag are seen, and each worker has counted all events of its node's own itags
    /// and of those above it, and each leaf has its lot. A net that must be discarded is not final. It takes no memory.
    pub fn is_final(&self, case: &Case) -> bool
        requires { case.now ≡ self.now.case }
        ensures exact { self.now.gone ≡ false → ((result ≡ true) ↔ IsFinal self.now) }
        ensures gone { self.now.gone ≡ true → result ≡ false }
    {
        laws_below();
        if self.gone {
            return false;
        }
        if !all_seen(case, &self.seen) {
            return false;
        }
        all_over(case, self.workers.as_slice())
    }

    /// The state and the outputs of a final net: the state is the fold's, which holds values of the job's sorts, and the outputs are
    /// the fold's in some order.
    ///
    /// # Errors
    ///
    /// Only if memory runs out.
    pub fn joined(self, alloc: Global, case: &Case) -> Result<(State, Outs), AllocError>
        requires case { case.now ≡ self.case }
        requires gone { self.gone ≡ false }
        requires is_final { IsFinal self }
        ensures state { IfOk result (λ r. held r.0 ≡ final_state (job self.case) (held self.case.opening) (listed self.case.streams)) }
        ensures sorts { IfOk result (λ r. IsStateOf (job self.case).families (held r.0)) }
        ensures outputs { IfOk result (λ r. IsPermutation (final_outputs (job self.case) (held self.case.opening) (listed self.case.streams)) r.1) }
    {
        laws_below();
        let Net {
            workers,
            edges,
            outs,
            ..
        } = self;
        let lot = whole_lot(alloc, case, workers, edges)?;
        let Lot { state, .. } = lot;
        Ok((state, outs))
    }

    // ---- which steps are enabled

    fn may_arrive(&self, case: &Case, i: Itag) -> bool
        requires case { case.now ≡ self.now.case }
        requires gone { self.now.gone ≡ false }
        ensures { result ≡ may_arrive self.now i }
    {
        if (i.0 as usize) < self.seen.items().len() {
            self.seen.at(i.0 as usize) < case.streams().items(i).len() as u64
        } else {
            false
        }
    }

    fn may_handle(&self, case: &Case, w: u32) -> bool
        requires case { case.now ≡ self.now.case }
        requires gone { self.now.gone ≡ false }
        ensures { result ≡ may_handle self.now w }
    {
        match self.workers.get(w as usize) {
            Some(worker) => worker.can_handle(case).is_some(),
            None => false,
        }
    }

    fn may_ask(&self, case: &Case, w: u32, side: Side) -> bool
        requires case { case.now ≡ self.now.case }
        requires gone { self.now.gone ≡ false }
        ensures { result ≡ may_ask self.now w side }
    {
        held_at(self.edges.as_slice(), kid_of(case, w, side)) && self.aims(case, w, side)
    }

    // Whether the worker may take the part, and has a target.
    fn aims(&self, case: &Case, w: u32, side: Side) -> bool
        requires case { case.now ≡ self.now.case }
        requires gone { self.now.gone ≡ false }
        ensures { result ≡ aims self.now w side (slice_get self.now.workers w) }
    {
        laws_below();
        let asked = ask_at(self.edges.as_slice(), w);
        match self.workers.get(w as usize) {
            Some(worker) => {
                may_take(side, worker.hand()) && worker.target(case, asked).is_some()
            }
            None => false,
        }
    }

    fn may_take_part(&self, case: &Case, w: u32, side: Side) -> bool
        requires case { case.now ≡ self.now.case }
        ensures { result ≡ may_take_part self.now w side }
    {
        given_at(self.edges.as_slice(), kid_of(case, w, side))
    }

    fn may_give_up(&self, case: &Case, w: u32) -> bool
        requires case { case.now ≡ self.now.case }
        requires gone { self.now.gone ≡ false }
        ensures { result ≡ may_give_up self.now w }
    {
        match ask_at(self.edges.as_slice(), w) {
            Some(y) => self.gives(case, w, y),
            None => false,
        }
    }

    // Whether the worker may give its lot for what is asked of it.
    fn gives(&self, case: &Case, w: u32, y: Ask) -> bool
        requires case { case.now ≡ self.now.case }
        requires gone { self.now.gone ≡ false }
        requires asked { asked_of self.now w ≡ Some y }
        ensures { result ≡ if_there (λ v. may_give v y) (slice_get self.now.workers w) }
    {
        laws_below();
        match self.workers.get(w as usize) {
            Some(worker) => worker.can_give(case, y),
            None => false,
        }
    }

    fn may_hold(&self, w: u32) -> bool
        ensures { result ≡ may_hold self.now w }
    {
        lent_at(self.edges.as_slice(), w)
    }

    fn may_lend_part(&self, case: &Case, w: u32, side: Side) -> bool
        requires { case.now ≡ self.now.case }
        ensures { result ≡ may_lend_part self.now w side }
    {
        if kid_of(case, w, side).is_none() {
            return false;
        }
        match self.workers.get(w as usize) {
            Some(worker) => may_lend(side, worker.hand()),
            None => false,
        }
    }

    // ---- the steps

    fn make(&mut self, alloc: Global, case: &Case, s: Step) -> Result<(), AllocError>
        requires case { case.now ≡ self.old.case }
        requires may { is_enabled self.old s ≡ true }
        ensures made { OnOk result (Makes s self.old self.new) }
        ensures gone { OnErr result (self.new.gone ≡ true) }
    {
        match s {
            Step::Arrive(i) => {
                self.arrive(case, i);
                Ok(())
            }
            Step::Handle(w) => self.handle(alloc, case, w),
            Step::Ask(w, side) => {
                self.ask(case, w, side);
                Ok(())
            }
            Step::Take(w, side) => self.take(alloc, case, w, side),
            Step::Give(w) => {
                self.give(case, w);
                Ok(())
            }
            Step::Hold(w) => self.hold(alloc, case, w),
            Step::Lend(w, side) => {
                self.lend(case, w, side);
                Ok(())
            }
        }
    }

    fn arrive(&mut self, case: &Case, i: Itag)
        requires case { case.now ≡ self.old.case }
        requires gone { self.old.gone ≡ false }
        requires may { may_arrive self.old i ≡ true }
        ensures { self.new ≡ arrived self.old i }
    {
        let count = one_more(self.seen.at(i.0 as usize), case.streams().items(i));
        show(&mut self.workers, case, i, count);
        self.seen.count_one(i.0 as usize);
    }

    fn handle(&mut self, alloc: Global, case: &Case, w: u32) -> Result<(), AllocError>
        requires case { case.now ≡ self.old.case }
        requires gone { self.old.gone ≡ false }
        requires may { may_handle self.old w ≡ true }
        ensures made { OnOk result (Handles w self.old self.new) }
        ensures gone { OnErr result (self.new.gone ≡ true) }
    {
        laws_below();
        let Some(event) = self.workers[w as usize].can_handle(case) else {
            unreachable!();
        };
        self.gone = true;
        self.workers[w as usize].handle(alloc, case, event, &mut self.outs)?;
        keeps(&self.workers, w);
        self.gone = false;
        Ok(())
    }

    fn ask(&mut self, case: &Case, w: u32, side: Side)
        requires case { case.now ≡ self.old.case }
        requires gone { self.old.gone ≡ false }
        requires may { may_ask self.old w side ≡ true }
        ensures { Asks w side self.old self.new }
    {
        laws_below();
        let Some(kid) = kid_of(case, w, side) else {
            unreachable!();
        };
        let asked = ask_at(self.edges.as_slice(), w);
        let Some(target) = self.workers[w as usize].ask_of(case, asked) else {
            unreachable!();
        };
        keeps(&self.workers, w);
        put(&mut self.edges, kid, Edge::Asked(target));
    }

    fn take(&mut self, alloc: Global, case: &Case, w: u32, side: Side) -> Result<(), AllocError>
        requires case { case.now ≡ self.old.case }
        requires gone { self.old.gone ≡ false }
        requires may { may_take_part self.old w side ≡ true }
        ensures made { OnOk result (Takes w side self.old self.new) }
        ensures gone { OnErr result (self.new.gone ≡ true) }
    {
        laws_below();
        let Some(kid) = kid_of(case, w, side) else {
            unreachable!();
        };
        self.gone = true;
        let lot = given_lot(put(&mut self.edges, kid, Edge::Home));
        self.workers[w as usize].take_reply(alloc, case, side, lot)?;
        keeps(&self.workers, w);
        self.gone = false;
        Ok(())
    }

    fn give(&mut self, case: &Case, w: u32)
        requires case { case.now ≡ self.old.case }
        requires gone { self.old.gone ≡ false }
        requires may { may_give_up self.old w ≡ true }
        ensures { Gives w self.old self.new }
    {
        laws_below();
        let Some(y) = ask_at(self.edges.as_slice(), w) else {
            unreachable!();
        };
        let lot = self.workers[w as usize].give(case, y);
        keeps(&self.workers, w);
        put(&mut self.edges, w, Edge::Given(lot));
    }

    fn hold(&mut self, alloc: Global, case: &Case, w: u32) -> Result<(), AllocError>
        requires case { case.now ≡ self.old.case }
        requires gone { self.old.gone ≡ false }
        requires may { may_hold self.old w ≡ true }
        ensures made { OnOk result (Holds w self.old self.new) }
        ensures gone { OnErr result (self.new.gone ≡ true) }
    {
        laws_below();
        self.gone = true;
        let lot = lent_lot(put(&mut self.edges, w, Edge::Held));
        self.workers[w as usize].hold(alloc, case, lot)?;
        keeps(&self.workers, w);
        self.gone = false;
        Ok(())
    }

    fn lend(&mut self, case: &Case, w: u32, side: Side)
        requires case { case.now ≡ self.old.case }
        requires gone { self.old.gone ≡ false }
        requires may { may_lend_part self.old w side ≡ true }
        ensures { Lends w side self.old self.new }
    {
        laws_below();
        let Some(kid) = kid_of(case, w, side) else {
            unreachable!();
        };
        let part = self.workers[w as usize].lend(side);
        keeps(&self.workers, w);
        put(&mut self.edges, kid, Edge::Lent(part));
    }
}
