//! When the mailbox of a leaf lets it give up its state for a read that the root owns.

ghost use Rattle.std.specs.Prelude.{◌≡◌, ◌<◌, ◌∷◌, [], length, slice_index_or};
ghost use Rattle.flu_model.specs.Itags.{count_of_itags};
ghost use Rattle.flu_model.specs.Listed.{listed};
ghost use Rattle.flu_model.specs.Merging.{events_of};
ghost use Rattle.flu_deps.specs.Checking.{program_of};
ghost use Rattle.flu_deps.specs.Validated.{plan_of, IsValidFor};
ghost use Rattle.flu_mail.specs.Mailboxes.{seen_of, counts_of, IsAt, IsOver};
ghost use Rattle.flu_tables.specs.Tables.{program_in, nodes_in, AreTablesOf};
ghost use Rattle.flu_thread_tests.specs.Rows as rows;

use crate::jobs::{COUNT, MEMORY, TREE, checked, counted, event, valid};
use flu_deps::{Checked, Valid};
use flu_mail::Mailbox;
use flu_model::{Event, Itag, Item, Streams};
use flu_tables::Tables;
use std::alloc::Global;
use std::process::Abort;

/// The read at 3.
const READ: Event = Event {
    time: 3,
    itag: Itag(2),
    item: 0,
    value: 0,
};

/// What the leaf owns.
const INC: Itag = Itag(0);

/// An event and a read at one time.
fn at_one_time(rt: &impl Abort, alloc: Global) -> Streams
    ensures { listed result ≡ rows.at_one_time }
{
    let first = vec![in alloc; event(3, 0, 1), Item::End].expect(rt, MEMORY);
    let second = vec![in alloc; Item::End].expect(rt, MEMORY);
    let reads = vec![in alloc; event(3, 2, 0), Item::End].expect(rt, MEMORY);
    Streams::new(vec![in alloc; first, second, reads].expect(rt, MEMORY))
}

/// Whether the leaf may serve the read once its first item, an event, was seen and counted. It may not before that is counted.
fn serves_behind_first(
    rt: &impl Abort,
    mailbox: &mut Mailbox,
    tables: &Tables,
    streams: &Streams,
) -> bool
    requires over { IsOver (listed streams.now) mailbox.old }
    requires at { IsAt (program_in tables.now) (nodes_in tables.now) mailbox.old }
    requires seen { seen_of mailbox.old ≡ 0 ∷ 0 ∷ 0 ∷ [] }
    requires counts { counts_of mailbox.old ≡ 0 ∷ 0 ∷ 0 ∷ [] }
    requires item { 0 < length (slice_index_or (listed streams.now) 0 []) }
    requires event { 0 < length (events_of (slice_index_or (listed streams.now) 0 [])) }
    ensures over { IsOver (listed streams.now) mailbox.new }
    ensures at { IsAt (program_in tables.now) (nodes_in tables.now) mailbox.new }
    ensures seen { seen_of mailbox.new ≡ 1 ∷ 0 ∷ 0 ∷ [] }
{
    mailbox.see(INC, 1);
    assert!(rt; !mailbox.ready_to_serve(tables, streams, &READ));
    mailbox.count_one(streams, INC);
    mailbox.ready_to_serve(tables, streams, &READ)
}

/// The event at 1 is counted, and the next one is seen to be at 4.
fn next_is_later(rt: &impl Abort, alloc: Global, checked: &Checked, valid: &Valid, tables: &Tables)
    requires valid { IsValidFor (program_of checked.now) valid.now }
    requires tables { AreTablesOf (program_of checked.now) (plan_of valid.now).nodes tables.now }
    requires itags { count_of_itags (program_of checked.now) ≡ 3 }
    requires leaf { 1 < length (plan_of valid.now).nodes }
{
    let streams = counted(rt, alloc);
    let mut mailbox = Mailbox::new(alloc, checked, valid, &streams, 1).expect(rt, MEMORY);
    assert!(rt; !serves_behind_first(rt, &mut mailbox, tables, &streams));
    mailbox.see(INC, 2);
    assert!(rt; mailbox.ready_to_serve(tables, &streams, &READ));
}

/// The event is at the time of the read.
fn last_is_as_late(
    rt: &impl Abort,
    alloc: Global,
    checked: &Checked,
    valid: &Valid,
    tables: &Tables,
)
    requires valid { IsValidFor (program_of checked.now) valid.now }
    requires tables { AreTablesOf (program_of checked.now) (plan_of valid.now).nodes tables.now }
    requires itags { count_of_itags (program_of checked.now) ≡ 3 }
    requires leaf { 1 < length (plan_of valid.now).nodes }
{
    let streams = at_one_time(rt, alloc);
    let mut mailbox = Mailbox::new(alloc, checked, valid, &streams, 1).expect(rt, MEMORY);
    assert!(rt; serves_behind_first(rt, &mut mailbox, tables, &streams));
}

#[test]
fn a_leaf_serves_a_read_once_nothing_can_be_before_it(rt: HostRuntime) {
    let alloc = rt.alloc();
    let checked = checked(&rt, alloc, COUNT);
    let valid = valid(&rt, alloc, &checked, TREE);
    assert!(rt; valid.count() == 3);
    let tables = Tables::new(alloc, &checked, &valid).expect(&rt, MEMORY);
    next_is_later(&rt, alloc, &checked, &valid, &tables);
    last_is_as_late(&rt, alloc, &checked, &valid, &tables);
}
