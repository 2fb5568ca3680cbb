//! Mailboxes.

ghost use Rattle.std.specs.Prelude.{◌≡◌, ◌<◌, ◌≤◌, ◌+◌, ℕ, true, [], List, Some, IfOk, IfSome, length, replicate, slice_index, slice_index_or, slice_set};
ghost use Rattle.std.specs.Prelude.{if◌then◌else◌, slice_get, IfNone};
ghost use Rattle.std.specs.List.{list_any, AllByRecursion};
ghost use Rattle.flu_model.specs.declared.jobs.Program.{Program};
ghost use Rattle.flu_model.specs.declared.plans.Node.{Node};
ghost use Rattle.flu_model.specs.declared.events.Item.{Item};
ghost use Rattle.flu_model.specs.Itags.{count_of_itags};
ghost use Rattle.flu_model.specs.Listed.{listed};
ghost use Rattle.flu_model.specs.Merging.{events_of};
ghost use Rattle.flu_deps.specs.Checking.{program_of};
ghost use Rattle.flu_deps.specs.Validated.{plan_of, IsValidFor};
ghost use Rattle.flu_tables.specs.Tables.{program_in, nodes_in};
ghost use Rattle.flu_mail.specs.Passing.{seen_items, next_event, pending_event, passes};
ghost use Rattle.flu_mail.specs.Waiting.{is_ready, is_ready_to_serve};
ghost use Rattle.flu_mail.specs.Entries.{AreKeysOf, is_of};
ghost use Rattle.flu_mail.specs.declared.entries.Entry.{Entry as EntryNote};

use crate::entries::{Entry, Owner, is_of, key_among, key_of, new_entry};
use crate::keys::Key;
use crate::order::Order;
use crate::owners::{ancestors_own, owns};
use crate::passing::{event_at, first_items, last_passes};
use crate::places::{place_after, time_at};
use crate::waiting::{Purpose, asks, least_passes};
use flu_deps::{Checked, Valid};
use flu_model::{Event, Itag, Item, Streams, before, itag_count};
use flu_tables::Tables;
use std::alloc::{AllocError, Global};

/// What the worker of a node has seen of each itag's stream, and how many of its events it has counted (`docs/TREE.md`).
///
/// It is made over the streams of a job with a valid plan, and its calls are for these. For each itag it keeps the place of the
/// next event, so that `next`, `pending` and `passes` look at one item each, and the calls that count go forward from there. It
/// keeps the node's itags and those above it by their next events, so that the first of these is at hand, and a call that sees or
/// counts costs the logarithm of the itags. It borrows nothing, so a worker that has one can go to another thread; the streams and
/// the tables are handed to each call.
#[derive(Drop)]
pub struct Mailbox {
    node: u32,
    leaf: bool,
    entries: Vec<Entry>,
    own: Order,
    above: Order,
}

impl Mailbox {
    ghost use Rattle.flu_tables.specs.Lists.{itags_where};
    ghost use Rattle.flu_mail.specs.First.{HasNoFirst, IsFirstOwn};
    ghost use Rattle.flu_mail.specs.Mailboxes.{node_of, seen_of, counts_of, is_above, keys_of, owned_by, IsAt, IsOver};
    ghost use Rattle.flu_mail.specs.LoopParts.{holds_up};
    ghost use Rattle.flu_mail.specs.Orders.{IsLeastOf};
    ghost use Rattle.flu_mail.specs.declared.entries.Owner.{Owner as OwnerNote};

    /// The mailbox of a node, which has seen and counted nothing. It looks at the items before each itag's first event.
    pub fn new(
        alloc: Global,
        c: &Checked,
        v: &Valid,
        s: &Streams,
        node: u32,
    ) -> Result<Mailbox, AllocError>
        requires of { IsValidFor (program_of c.now) v.now }
        requires node { node < length (plan_of v.now).nodes }
        requires one_each { length (listed s.now) ≡ count_of_itags (program_of c.now) }
        ensures at { IfOk result (λ m. IsAt (program_of c.now) (plan_of v.now).nodes m) }
        ensures over { IfOk result (λ m. IsOver (listed s.now) m) }
        ensures node { IfOk result (λ m. node_of m ≡ node) }
        ensures seen { IfOk result (λ m. seen_of m ≡ replicate (count_of_itags (program_of c.now)) 0) }
        ensures counts { IfOk result (λ m. counts_of m ≡ replicate (count_of_itags (program_of c.now)) 0) }
    {
        let leaf = v.kids(node).is_none();
        let p = c.program();
        let itags = itag_count(p);
        let mut entries = Vec::new(alloc);
        for i in 0..itags {
            let own = owns(p, v, node, Itag(i));
            let above = ancestors_own(p, v, node, Itag(i));
            entries.push(new_entry(s, Itag(i), own, above))?;
        }
        let own = ordered(alloc, entries.as_slice(), itags, Owner::Node)?;
        let above = ordered(alloc, entries.as_slice(), itags, Owner::Ancestor)?;
        Ok(Mailbox {
            node,
            leaf,
            entries,
            own,
            above,
        })
    }

    /// So many items of an itag's stream were seen now.
    pub fn see(&mut self, i: Itag, count: u64)
        requires in_range { i.0 < length (seen_of self.old) }
        requires forward { slice_index (seen_of self.old) i.0 ≤ count }
        ensures seen { seen_of self.new ≡ slice_set (seen_of self.old) i.0 count }
        ensures counts { counts_of self.new ≡ counts_of self.old }
        ensures node { node_of self.new ≡ node_of self.old }
        ensures at { (p : Program) (nodes : List Node) → IsAt p nodes self.old → IsAt p nodes self.new }
        ensures over { (lists : List (List Item)) → count ≤ length (slice_index_or lists i.0 []) → IsOver lists self.old → IsOver lists self.new }
    {
        let entry = self.entries[i.0 as usize];
        if entry.seen == count {
            return;
        }
        self.put(
            i,
            Entry {
                seen: count,
                ..entry
            },
        );
    }

    // The entry of an itag is this one now, which has the same owner.
    fn put(&mut self, i: Itag, entry: Entry)
        requires in_range { i.0 < length self.old.entries.items }
        requires owner { (o : OwnerNote) (e : EntryNote) → slice_get self.old.entries.items i.0 ≡ Some e → is_of o entry ≡ is_of o e }
        ensures node { self.new.node ≡ self.old.node }
        ensures leaf { self.new.leaf ≡ self.old.leaf }
        ensures entries { self.new.entries.items ≡ slice_set self.old.entries.items i.0 entry }
        ensures in_order { (o : OwnerNote) → AreKeysOf (is_of o) self.old.entries.items (keys_of o self.old)
            → AreKeysOf (is_of o) self.new.entries.items (keys_of o self.new) }
    {
        self.entries[i.0 as usize] = entry;
        reorder(&mut self.own, Owner::Node, i, &entry);
        reorder(&mut self.above, Owner::Ancestor, i, &entry);
    }

    /// How many items of an itag's stream were seen; 0 if there is no such itag.
    pub fn seen(&self, i: Itag) -> u64
        ensures { result ≡ slice_index (seen_of self.now) i.0 }
    {
        match self.entries.get(i.0 as usize) {
            Some(entry) => entry.seen,
            None => 0,
        }
    }

    /// How many events of an itag were counted; 0 if there is no such itag.
    pub fn count(&self, i: Itag) -> u64
        ensures { result ≡ slice_index (counts_of self.now) i.0 }
    {
        match self.entries.get(i.0 as usize) {
            Some(entry) => entry.count,
            None => 0,
        }
    }

    /// The first event of an itag that is not counted, seen or not.
    pub fn pending(&self, s: &Streams, i: Itag) -> Option<Event>
        requires over { IsOver (listed s.now) self.now }
        requires in_range { i.0 < length (listed s.now) }
        ensures event { result ≡ pending_event (listed s.now) (counts_of self.now) i.0 }
        ensures itag { IfSome result (λ x. x.itag ≡ i) }
    {
        event_at(s.items(i), self.entries[i.0 as usize].place)
    }

    /// The first event of an itag that is seen and not counted.
    pub fn next(&self, s: &Streams, i: Itag) -> Option<Event>
        requires over { IsOver (listed s.now) self.now }
        requires in_range { i.0 < length (listed s.now) }
        ensures event { result ≡ next_event (seen_items (listed s.now) (seen_of self.now) i.0) (slice_index (counts_of self.now) i.0) }
        ensures pending { IfSome result (λ x. pending_event (listed s.now) (counts_of self.now) i.0 ≡ Some x) }
        ensures itag { IfSome result (λ x. x.itag ≡ i) }
    {
        event_at(self.seen_items(s, i), self.entries[i.0 as usize].place)
    }

    // The items of an itag that were seen.
    fn seen_items<'a>(&self, s: &'a Streams, i: Itag) -> &'a [Item]
        requires over { IsOver (listed s.now) self.now }
        requires in_range { i.0 < length (listed s.now) }
        ensures { result.now ≡ seen_items (listed s.now) (seen_of self.now) i.0 }
    {
        first_items(s.items(i), self.entries[i.0 as usize].seen)
    }

    /// Whether an itag lets x pass: its next event is after x in event order; or there is none, and the end of its stream was
    /// seen or the time of the last seen item is at least that of x.
    pub fn passes(&self, s: &Streams, j: Itag, x: &Event) -> bool
        requires over { IsOver (listed s.now) self.now }
        requires in_range { j.0 < length (listed s.now) }
        ensures { result ≡ passes (seen_items (listed s.now) (seen_of self.now) j.0) (slice_index (counts_of self.now) j.0) x.now }
    {
        match self.next(s, j) {
            Some(next) => before(x, &next),
            None => last_passes(x.time, self.seen_items(s, j)),
        }
    }

    /// The least next event of the node's own itags, where it is at hand: none where the next event of an own itag was not seen, nor
    /// all of its items, or where no own itag has a next event.
    pub fn first(&self, s: &Streams) -> Option<Event>
        requires over { IsOver (listed s.now) self.now }
        ensures some { (p : Program) (nodes : List Node) → IsAt p nodes self.now
            → IfSome result (IsFirstOwn p nodes (listed s.now) (node_of self.now) (seen_of self.now) (counts_of self.now)) }
        ensures none { (p : Program) (nodes : List Node) → IsAt p nodes self.now
            → IfNone result (HasNoFirst p nodes (listed s.now) (node_of self.now) (seen_of self.now) (counts_of self.now)) }
    {
        match self.own.least() {
            Some(Key::Next { itag, .. }) => self.next(s, itag),
            Some(Key::Unseen) => None,
            Some(Key::Over) => None,
            None => None,
        }
    }

    /// Whether the node may take its event x: each other itag that the node or an ancestor owns lets x pass; at a leaf only the
    /// dependent ones are asked.
    ///
    /// It looks at the least next event of the itags above, and at that of the node's own ones. Only where one of these may be before
    /// x, each of those itags is asked: first those above, for which a node mostly waits.
    pub fn ready(&self, t: &Tables, s: &Streams, x: &Event) -> bool
        requires over { IsOver (listed s.now) self.now }
        requires at { IsAt (program_in t.now) (nodes_in t.now) self.now }
        ensures { result ≡ is_ready (program_in t.now) (nodes_in t.now) (listed s.now) (node_of self.now) (seen_of self.now) (counts_of self.now) x.now }
    {
        !self.is_held_up(t, s, Purpose::Take, x, Owner::Ancestor)
            && !self.is_held_up(t, s, Purpose::Take, x, Owner::Node)
    }

    /// Whether the node may give up its state for an ancestor's event y: each itag that the node owns lets y pass; at a leaf only
    /// the dependent ones are asked.
    pub fn ready_to_serve(&self, t: &Tables, s: &Streams, y: &Event) -> bool
        requires over { IsOver (listed s.now) self.now }
        requires at { IsAt (program_in t.now) (nodes_in t.now) self.now }
        ensures { result ≡ is_ready_to_serve (program_in t.now) (nodes_in t.now) (listed s.now) (node_of self.now) (seen_of self.now)
            (counts_of self.now) y.now }
    {
        !self.is_held_up(t, s, Purpose::Serve, y, Owner::Node)
    }

    // Whether some itag with this owner, for which x waits, does not let it pass. The least key says so where all of them let x pass.
    fn is_held_up(&self, t: &Tables, s: &Streams, purpose: Purpose, x: &Event, owner: Owner) -> bool
        requires over { IsOver (listed s.now) self.now }
        requires at { IsAt (program_in t.now) (nodes_in t.now) self.now }
        ensures { result ≡ list_any (holds_up (program_in t.now) self.now (listed s.now) purpose x.now)
            (itags_where (program_in t.now) (owned_by (program_in t.now) (nodes_in t.now) self.now.node owner)) }
    {
        if least_passes(purpose, self.least(owner), x) {
            return false;
        }
        self.some_holds_up(t, s, purpose, x, self.itags(t, owner))
    }

    // The least key of the itags with this owner.
    fn least(&self, owner: Owner) -> Option<Key>
        ensures { IfSome result (IsLeastOf (keys_of owner self.now)) }
    {
        match owner {
            Owner::Node => self.own.least(),
            Owner::Ancestor => self.above.least(),
        }
    }

    // The itags with this owner.
    fn itags<'a>(&self, t: &'a Tables, owner: Owner) -> &'a [Itag]
        ensures { result.now ≡ itags_where (program_in t.now) (owned_by (program_in t.now) (nodes_in t.now) self.now.node owner) }
    {
        match owner {
            Owner::Node => t.own(self.node),
            Owner::Ancestor => t.above(self.node),
        }
    }

    // Whether some itag of a list, for which x waits, does not let it pass.
    fn some_holds_up(
        &self,
        t: &Tables,
        s: &Streams,
        purpose: Purpose,
        x: &Event,
        among: &[Itag],
    ) -> bool
        requires over { IsOver (listed s.now) self.now }
        requires in_range { AllByRecursion (λ j. j.0 < length (listed s.now)) among.now }
        ensures { result ≡ list_any (holds_up (program_in t.now) self.now (listed s.now) purpose x.now) among.now }
    {
        for j in among {
            if self.holds_up(t, s, purpose, x, *j) {
                return true;
            }
        }
        false
    }

    // Whether x waits for itag j, which does not let it pass.
    fn holds_up(&self, t: &Tables, s: &Streams, purpose: Purpose, x: &Event, j: Itag) -> bool
        requires over { IsOver (listed s.now) self.now }
        requires in_range { j.0 < length (listed s.now) }
        ensures { result ≡ holds_up (program_in t.now) self.now (listed s.now) purpose x.now j }
    {
        asks(purpose, x.itag, j) && (!self.leaf || t.depend(x.itag, j)) && !self.passes(s, j, x)
    }

    /// One more event of an itag is counted.
    pub fn count_one(&mut self, s: &Streams, i: Itag)
        requires over { IsOver (listed s.now) self.old }
        requires in_range { i.0 < length (listed s.now) }
        requires there { slice_index (counts_of self.old) i.0 < length (events_of (slice_index_or (listed s.now) i.0 [])) }
        ensures counts { counts_of self.new ≡ slice_set (counts_of self.old) i.0 (slice_index (counts_of self.old) i.0 + 1) }
        ensures seen { seen_of self.new ≡ seen_of self.old }
        ensures node { node_of self.new ≡ node_of self.old }
        ensures at { (p : Program) (nodes : List Node) → IsAt p nodes self.old → IsAt p nodes self.new }
        ensures over { IsOver (listed s.now) self.new }
    {
        let n = self.entries[i.0 as usize].count + 1;
        self.set_count(s, i, n);
    }

    /// So many events of an itag are counted now. It looks at the items from the old next event to the new one.
    pub fn set_count(&mut self, s: &Streams, i: Itag, n: u64)
        requires over { IsOver (listed s.now) self.old }
        requires in_range { i.0 < length (listed s.now) }
        requires forward { slice_index (counts_of self.old) i.0 ≤ n }
        requires there { n ≤ length (events_of (slice_index_or (listed s.now) i.0 [])) }
        ensures counts { counts_of self.new ≡ slice_set (counts_of self.old) i.0 n }
        ensures seen { seen_of self.new ≡ seen_of self.old }
        ensures node { node_of self.new ≡ node_of self.old }
        ensures at { (p : Program) (nodes : List Node) → IsAt p nodes self.old → IsAt p nodes self.new }
        ensures over { IsOver (listed s.now) self.new }
    {
        let entry = self.entries[i.0 as usize];
        if entry.count == n {
            return;
        }
        let items = s.items(i);
        let place = place_after(items, entry.place, entry.count, n);
        let time = time_at(items, place);
        self.put(
            i,
            Entry {
                count: n,
                place,
                time,
                ..entry
            },
        );
    }

    /// The events of each itag that an ancestor of the node owns are counted now as far as these counts say.
    pub fn count_above(&mut self, t: &Tables, s: &Streams, counts: &[u64])
        requires over { IsOver (listed s.now) self.old }
        requires at { IsAt (program_in t.now) (nodes_in t.now) self.old }
        requires one_each { length counts.now ≡ length (counts_of self.old) }
        requires forward { (i : ℕ) → i < length counts.now → is_above t.now self.old i ≡ true → slice_index (counts_of self.old) i ≤ slice_index counts.now i }
        requires there { (i : ℕ) → i < length counts.now → is_above t.now self.old i ≡ true
            → slice_index counts.now i ≤ length (events_of (slice_index_or (listed s.now) i [])) }
        ensures counts { (i : ℕ) → slice_index (counts_of self.new)
            i ≡ (if is_above t.now self.old i then slice_index counts.now i else slice_index (counts_of self.old) i) }
        ensures seen { seen_of self.new ≡ seen_of self.old }
        ensures node { node_of self.new ≡ node_of self.old }
        ensures at { (p : Program) (nodes : List Node) → IsAt p nodes self.old → IsAt p nodes self.new }
        ensures over { IsOver (listed s.now) self.new }
    {
        let above = t.above(self.node);
        for i in above {
            self.set_count(s, *i, counts[i.0 as usize]);
        }
    }
}

// The order of the itags with this owner, by the entries of all itags.
fn ordered(alloc: Global, entries: &[Entry], itags: u32, owner: Owner) -> Result<Order, AllocError>
    requires { length entries.now ≡ itags }
    ensures { IfOk result (AreKeysOf (is_of owner) entries.now) }
{
    let mut keys = Vec::new(alloc);
    for i in 0..itags {
        keys.push(key_among(owner, &entries[i as usize], Itag(i)))?;
    }
    Order::new(alloc, keys.as_slice())
}

// The itag has this entry now, with the owner that it had.
fn reorder(order: &mut Order, owner: Owner, i: Itag, entry: &Entry)
    ensures { (entries : List EntryNote) (e : EntryNote) → slice_get entries i.0 ≡ Some e → is_of owner entry.now ≡ is_of owner e
        → AreKeysOf (is_of owner) entries order.old → AreKeysOf (is_of owner) (slice_set entries i.0 entry.now) order.new }
{
    if !is_of(owner, entry) {
        return;
    }
    order.set(i.0 as usize, key_of(entry, i));
}
