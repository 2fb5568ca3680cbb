//! The worker.

ghost use Rattle.std.specs.Prelude.{◌≡◌, ◌<◌, ◌≤◌, ◌↔◌, ℕ, Some, [], false, true, is_some, length, slice_index, slice_index_or, slice_set, IfOk, OnOk, OnErr, IsSome};
ghost use Rattle.std.specs.Prelude.{IfSome};
ghost use Rattle.flu_model.specs.Listed.{listed};
ghost use Rattle.flu_fork.specs.declared.lots.Ask.{Ask as AskNote};
ghost use Rattle.flu_fork.specs.Lots.{job, nodes, kids, LotFits};
ghost use Rattle.flu_fork.specs.Serving.{AsksAbove, GrownFrom, Served};
ghost use Rattle.flu_worker.specs.declared.hand.Side.TheVariants.{Left, Right};
ghost use Rattle.flu_worker.specs.Calls.{IsNew, HoldsLot, GivesLot, HandlesEvent, CountsEvent, LendsPart, IsFitPart, TakesPart, IsWholeState, IsWholeLot};
ghost use Rattle.flu_worker.specs.Calls.{KeepsTarget, IsAskable, HasDoneAll, IsFinished};
ghost use Rattle.flu_worker.specs.Hands.{is_lost, is_open, is_whole, may_lend, may_take, at_side};
ghost use Rattle.flu_worker.specs.Notes.{lent_to};
ghost use Rattle.flu_worker.specs.Choosing.{may_give, next_of, target_of};
ghost use Rattle.flu_worker.specs.Keeping.{HasRule};
ghost use Rattle.flu_worker.specs.Starting.{IsFirst};

use crate::choosing::{gives, next_ask, target};
use crate::counting::no_counts;
use crate::done::done_in;
use crate::finishing::has_done_all;
use crate::hand::{Hand, Side};
use crate::holding::{Holding, hand_of, held_as, taken};
use crate::laws::laws_below;
use crate::moving::{come_left, come_right, split_left, split_right, whole_of};
use flu_cells::State;
use flu_fork::{Ask, Case, CaseNote, Counts, Lot, opening_lot};
use flu_mail::Mailbox;
use flu_model::{Itag, Outs, itag_count};
use std::alloc::{AllocError, Global};
use std::marker::Model;
use std::snapshot::Snapshot;

/// The worker of a node of a plan: it takes the node's own events one by one, in event order, and hands its lot to its children
/// and back to the worker above (`docs/TREE.md`).
///
/// It has a mailbox, which records what it has seen and counted, a hand, and perhaps a target: the event for which an inner worker
/// asks the parts of its lot back. Its calls are for the case that it was made with. Nodes and itags are numbered from 0.
///
/// Only contracts see the lots that it held, gave, lent and took last, by their counts; they take no room.
///
/// A call that runs out of memory leaves the worker without its lot. Such a worker must be discarded: its hand is `Taking` with both
/// parts, and it does nothing more.
#[derive(Drop)]
pub struct Worker {
    case: CaseNote,
    node: u32,
    mail: Mailbox,
    holding: Holding,
    kept: Option<Ask>,
    held_since: Snapshot<Counts>,
    held_upto: Snapshot<Counts>,
    given: Snapshot<Counts>,
    left_since: Snapshot<Counts>,
    left_upto: Snapshot<Counts>,
    right_since: Snapshot<Counts>,
    right_upto: Snapshot<Counts>,
    taken_left: Snapshot<Counts>,
    taken_right: Snapshot<Counts>,
}

impl Model for Worker {
    ghost use Rattle.std.specs.Coded.{codes};
    ghost use Rattle.flu_cells.specs.contracts.state.State as f;
    ghost use Rattle.flu_fork.specs.contracts.content.Content as e;
    ghost use Rattle.flu_worker.specs.Notes.{WorkerNote};
    ghost use Rattle.flu_worker.specs.Holding.{hand_of};
    ghost use Rattle.flu_worker.specs.Rule.{Rule};
    ghost use Rattle.flu_mail.specs.Mailboxes.{seen_of, counts_of};

    ghost Value = { WorkerNote };

    ghost coded = { Prim.hlevel (codes, e.the_row.coded, f.the_row.coded) };

    ghost view = { λ w. record {
      case = w.case;
      node = w.node;
      hand = hand_of w.holding;
      holding = w.holding;
      kept = w.kept;
      seen = seen_of w.mail;
      counts = counts_of w.mail;
      held =
          record { since = w.held_since.value; upto = w.held_upto.value };
      given = w.given.value;
      lent_left =
          record { since = w.left_since.value; upto = w.left_upto.value };
      lent_right = record { since = w.right_since.value; upto = w.right_upto.value };
      taken_left = w.taken_left.value;
      taken_right = w.taken_right.value;
    } };

    ghost invariant = { λ w. Rule (record {
      case = w.case;
      node = w.node;
      hand = hand_of w.holding;
      holding = w.holding;
      kept = w.kept;
      seen = seen_of w.mail;
      counts = counts_of w.mail;
      held =
          record { since = w.held_since.value; upto = w.held_upto.value };
      given = w.given.value;
      lent_left =
          record { since = w.left_since.value; upto = w.left_upto.value };
      lent_right = record { since = w.right_since.value; upto = w.right_upto.value };
      taken_left = w.taken_left.value;
      taken_right = w.taken_right.value;
    }) w.mail w.holding };
}

impl Worker {
    /// The worker of a node at the start: the root's has the opening lot, and forks it if it has children; every other hand is
    /// empty.
    ///
    /// # Errors
    ///
    /// Only if memory runs out.
    pub fn new(alloc: Global, case: &Case, node: u32) -> Result<Worker, AllocError>
        requires { node < length (nodes case.now) }
        ensures { IfOk result (IsNew case.now node) }
    {
        let mail = Mailbox::new(alloc, case.checked(), case.valid(), case.streams(), node)?;
        let none = no_counts(alloc, itag_count(case.checked().program()))?;
        let holding = first_holding(alloc, case, node)?;
        Ok(Worker {
            case: case.note(),
            node,
            mail,
            holding,
            kept: None,
            held_since: Snapshot::of(&none),
            held_upto: Snapshot::of(&none),
            given: Snapshot::of(&none),
            left_since: Snapshot::of(&none),
            left_upto: Snapshot::of(&none),
            right_since: Snapshot::of(&none),
            right_upto: Snapshot::of(&none),
            taken_left: Snapshot::of(&none),
            taken_right: Snapshot::of(&none),
        })
    }

    /// This many items of an itag are seen now, from its first one on: at least those that were seen, and no more than there are. It
    /// takes no memory.
    pub fn see(&mut self, case: &Case, i: Itag, count: u64)
        requires case { case.now ≡ self.old.case }
        requires in_range { i.0 < length self.old.seen }
        requires forward { slice_index self.old.seen i.0 ≤ count }
        requires there { count ≤ length (slice_index_or (listed self.old.case.streams) i.0 []) }
        ensures { self.new ≡ record self.old { seen = slice_set self.old.seen i.0 count } }
    {
        self.mail.see(i, count);
    }

    /// The rule of the worker, in terms of what contracts see of it. This call does nothing.
    pub fn rule(&self)
        ensures { HasRule self.now }
    {
        laws_below();
        let _node = &self.node;
    }

    /// The shape of what it has in its hand.
    pub fn hand(&self) -> Hand
        ensures { result ≡ self.now.hand }
    {
        hand_of(&self.holding)
    }

    /// The state of the lot of a whole hand; none if the hand is not whole.
    pub fn held(&self) -> Option<&State>
        ensures some { is_some result ≡ is_whole self.now.hand }
        ensures state { IfSome result (λ s. IsWholeState self.now s.now) }
    {
        match &self.holding {
            Holding::Whole(lot) => Some(&lot.state),
            _ => None,
        }
    }

    /// The lot of a whole hand; none if the hand is not whole.
    pub fn into_lot(self) -> Option<Lot>
        ensures some { is_some result ≡ is_whole self.hand }
        ensures lot { IfSome result (IsWholeLot self) }
    {
        let Worker { holding, .. } = self;
        match holding {
            Holding::Whole(lot) => Some(lot),
            _ => None,
        }
    }

    /// Takes in a lot that came down to it: a leaf keeps it whole, and an inner worker forks it, with both parts to lend. The events of
    /// the itags above are counted as in the lot.
    ///
    /// The hand is empty, and the lot's counts continue from those of the lot given last.
    ///
    /// # Errors
    ///
    /// Only if memory runs out; the worker must then be discarded.
    pub fn hold(&mut self, alloc: Global, case: &Case, lot: Lot) -> Result<(), AllocError>
        requires case { case.now ≡ self.old.case }
        requires empty { is_open self.old.hand ≡ false }
        requires fits { LotFits self.old.case self.old.node lot }
        requires grown { GrownFrom self.old.case self.old.node self.old.given lot.upto }
        ensures holds { OnOk result (HoldsLot lot self.old self.new) }
        ensures lost { OnErr result (is_lost self.new.hand ≡ true) }
    {
        laws_below();
        let since = Snapshot::of(&lot.since);
        let upto = Snapshot::of(&lot.upto);
        self.holding = Holding::Gone;
        self.mail
            .count_above(case.tables(), case.streams(), lot.upto.items());
        self.holding = held_as(alloc, case, self.node, lot)?;
        self.held_since = since;
        self.held_upto = upto;
        Ok(())
    }

    /// The event that it takes next, by what it has seen and counted: at a leaf that has its lot, the least next event of the node's own
    /// itags that is ready; at an inner worker that has its lot, its target, if that is its own. `laws::next_events_are_least` says that
    /// this is what `next_of` gives, and that there is no other. It takes no memory.
    ///
    /// At a leaf the least next event is mostly at hand, and so is whether it is ready. Where an itag may have items that were not
    /// seen, each of the node's own itags is checked once, and then each itag for which the least event waits; if this one is not
    /// ready, the others are tried.
    pub fn can_handle(&self, case: &Case) -> Option<Ask>
        requires { case.now ≡ self.now.case }
        ensures { result ≡ next_of self.now }
    {
        next_ask(case, self.node, &self.mail, self.hand(), self.kept)
    }

    /// Handles the event that comes next: updates its lot with it, appends its outputs, and counts it. An inner worker then forks its
    /// lot, with both parts to lend.
    ///
    /// # Errors
    ///
    /// Only if memory runs out; the worker must then be discarded.
    pub fn handle(
        &mut self,
        alloc: Global,
        case: &Case,
        x: Ask,
        outs: &mut Outs,
    ) -> Result<(), AllocError>
        requires case { case.now ≡ self.old.case }
        requires next { next_of self.old ≡ Some x }
        ensures note { OnOk result (HandlesEvent x self.old self.new) }
        ensures texts { OnOk result (CountsEvent self.old.case x self.old.counts self.new.counts outs.old outs.new) }
        ensures lost { OnErr result (is_lost self.new.hand ≡ true) }
    {
        laws_below();
        let Some(event) = self.mail.pending(case.streams(), x.itag) else {
            unreachable!();
        };
        self.kept = None;
        done_in(alloc, case, self.node, &mut self.holding, x, &event, outs)?;
        self.mail.count_one(case.streams(), x.itag);
        Ok(())
    }

    /// Whether it may give up its lot for y, which names the next event of an itag above it: it has the lot, and a leaf is ready to
    /// serve that event, while an inner worker has it as its target. It takes no memory.
    pub fn can_give(&self, case: &Case, y: Ask) -> bool
        requires case { case.now ≡ self.now.case }
        requires above { AsksAbove self.now.case self.now.node y }
        requires next { y.index ≡ slice_index self.now.held.upto y.itag.0 }
        ensures { result ≡ may_give self.now y }
    {
        laws_below();
        gives(case, self.node, &self.mail, self.hand(), self.kept, y)
    }

    /// Gives up its lot for an ancestor's event, if it may. The lot fits the node, and has all events of its subtree that are before
    /// this one and on which it depends, and none of those after it. It takes no memory.
    pub fn give(&mut self, case: &Case, y: Ask) -> Lot
        requires case { case.now ≡ self.old.case }
        requires may { may_give self.old y ≡ true }
        ensures note { GivesLot result self.old self.new }
        ensures fits { LotFits self.old.case self.old.node result }
        ensures served { Served self.old.case self.old.node self.old.held y result }
    {
        laws_below();
        let lot = whole_of(taken(&mut self.holding));
        self.given = Snapshot::of(&lot.upto);
        self.kept = None;
        self.holding = Holding::Empty;
        lot
    }

    /// Hands out the part for a child. The last one leaves the hand down. It takes no memory.
    pub fn lend(&mut self, side: Side) -> Lot
        requires { may_lend side self.old.hand ≡ true }
        ensures note { LendsPart side result self.old self.new }
        ensures part { IsFitPart side result self.old }
    {
        match side {
            Side::Left => self.lend_left(),
            Side::Right => self.lend_right(),
        }
    }

    // Hands out the part for the left child.
    fn lend_left(&mut self) -> Lot
        requires { may_lend Left self.old.hand ≡ true }
        ensures note { LendsPart Left result self.old self.new }
        ensures part { IsFitPart Left result self.old }
    {
        let (lot, rest) = split_left(taken(&mut self.holding));
        self.left_since = Snapshot::of(&lot.since);
        self.left_upto = Snapshot::of(&lot.upto);
        self.holding = rest;
        lot
    }

    // Hands out the part for the right child.
    fn lend_right(&mut self) -> Lot
        requires { may_lend Right self.old.hand ≡ true }
        ensures note { LendsPart Right result self.old self.new }
        ensures part { IsFitPart Right result self.old }
    {
        let (lot, rest) = split_right(taken(&mut self.holding));
        self.right_since = Snapshot::of(&lot.since);
        self.right_upto = Snapshot::of(&lot.upto);
        self.holding = rest;
        lot
    }

    /// Its target: the one that it keeps; or if both parts of its lot are lent, the least next event of the node's own, if that is
    /// ready, or else what is asked of it, if it is ready to serve that. This call does not keep it. It takes no memory.
    ///
    /// What is asked names the next event of an itag above the node.
    pub fn target(&self, case: &Case, asked: Option<Ask>) -> Option<Ask>
        requires case { case.now ≡ self.now.case }
        requires above { IfSome asked (λ y. AsksAbove self.now.case self.now.node y) }
        requires next { IfSome asked (λ y. y.index ≡ slice_index self.now.held.upto y.itag.0) }
        ensures { result ≡ target_of self.now asked }
    {
        laws_below();
        target(case, self.node, &self.mail, self.hand(), self.kept, asked)
    }

    /// Its target, which is kept from then on, until an event is handled or the lot given. Both children may be asked for it. It takes
    /// no memory.
    ///
    /// What is asked names the next event of an itag above the node.
    pub fn ask_of(&mut self, case: &Case, asked: Option<Ask>) -> Option<Ask>
        requires case { case.now ≡ self.old.case }
        requires above { IfSome asked (λ y. AsksAbove self.old.case self.old.node y) }
        requires next { IfSome asked (λ y. y.index ≡ slice_index self.old.held.upto y.itag.0) }
        ensures target { result ≡ target_of self.old asked }
        ensures note { KeepsTarget result self.old self.new }
        ensures askable { IfSome result (IsAskable self.new) }
    {
        laws_below();
        let found = self.target(case, asked);
        self.kept = found;
        found
    }

    /// The part of a child came back, served for the target. With both parts the lot is whole.
    ///
    /// # Errors
    ///
    /// Only if memory runs out; the worker must then be discarded.
    pub fn take_reply(
        &mut self,
        alloc: Global,
        case: &Case,
        side: Side,
        lot: Lot,
    ) -> Result<(), AllocError>
        requires case { case.now ≡ self.old.case }
        requires may { may_take side self.old.hand ≡ true }
        requires kept { IsSome self.old.kept }
        requires fits { (l r : ℕ) → kids self.old.case self.old.node ≡ Some (l, r) → LotFits self.old.case (at_side side l r) lot }
        requires served { (l r : ℕ) (y : AskNote) → kids self.old.case self.old.node ≡ Some (l, r) → self.old.kept ≡ Some y
            → Served self.old.case (at_side side l r) (lent_to side self.old) y lot }
        ensures takes { OnOk result (TakesPart side lot self.old self.new) }
        ensures lost { OnErr result (is_lost self.new.hand ≡ true) }
    {
        match side {
            Side::Left => self.take_left(alloc, case, lot),
            Side::Right => self.take_right(alloc, case, lot),
        }
    }

    // The left part came back.
    fn take_left(&mut self, alloc: Global, case: &Case, lot: Lot) -> Result<(), AllocError>
        requires case { case.now ≡ self.old.case }
        requires may { may_take Left self.old.hand ≡ true }
        requires kept { IsSome self.old.kept }
        requires fits { (l r : ℕ) → kids self.old.case self.old.node ≡ Some (l, r) → LotFits self.old.case l lot }
        requires served { (l r : ℕ) (y : AskNote) → kids self.old.case self.old.node ≡ Some (l, r) → self.old.kept ≡ Some y
            → Served self.old.case l self.old.lent_left y lot }
        ensures takes { OnOk result (TakesPart Left lot self.old self.new) }
        ensures lost { OnErr result (is_lost self.new.hand ≡ true) }
    {
        laws_below();
        let upto = Snapshot::of(&lot.upto);
        let kept = self.kept;
        self.kept = None;
        let holding = taken(&mut self.holding);
        self.holding = come_left(alloc, case, self.node, holding, lot)?;
        self.kept = kept;
        self.taken_left = upto;
        Ok(())
    }

    // The right part came back.
    fn take_right(&mut self, alloc: Global, case: &Case, lot: Lot) -> Result<(), AllocError>
        requires case { case.now ≡ self.old.case }
        requires may { may_take Right self.old.hand ≡ true }
        requires kept { IsSome self.old.kept }
        requires fits { (l r : ℕ) → kids self.old.case self.old.node ≡ Some (l, r) → LotFits self.old.case r lot }
        requires served { (l r : ℕ) (y : AskNote) → kids self.old.case self.old.node ≡ Some (l, r) → self.old.kept ≡ Some y
            → Served self.old.case r self.old.lent_right y lot }
        ensures takes { OnOk result (TakesPart Right lot self.old self.new) }
        ensures lost { OnErr result (is_lost self.new.hand ≡ true) }
    {
        laws_below();
        let upto = Snapshot::of(&lot.upto);
        let kept = self.kept;
        self.kept = None;
        let holding = taken(&mut self.holding);
        self.holding = come_right(alloc, case, self.node, holding, lot)?;
        self.kept = kept;
        self.taken_right = upto;
        Ok(())
    }

    /// Whether it has nothing left to do: the lot is whole or both parts are lent, and all items of the node's own itags and of those
    /// above it are seen, and all their events counted. It takes no memory.
    ///
    /// Then a leaf has its lot, and an inner worker keeps no target, with the parts of one fork lent.
    pub fn finished(&self, case: &Case) -> bool
        requires { case.now ≡ self.now.case }
        ensures exact { (result ≡ true) ↔ HasDoneAll self.now }
        ensures end { result ≡ true → IsFinished self.now }
    {
        laws_below();
        has_done_all(case, self.node, &self.mail, self.hand())
    }
}

// What the worker of a node has at the start.
fn first_holding(alloc: Global, case: &Case, node: u32) -> Result<Holding, AllocError>
    requires { node < length (nodes case.now) }
    ensures { IfOk result (IsFirst case.now node) }
{
    if node == 0 {
        held_as(alloc, case, node, opening_lot(alloc, case)?)
    } else {
        Ok(Holding::Empty)
    }
}
