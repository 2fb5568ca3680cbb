//! Arrival words with two watches in one thread, and with three in threads of their own.

ghost use Rattle.std.specs.Prelude.{◌≡◌, [], ◌∷◌, length};
ghost use Rattle.std.specs.Thread.{IsSync};

use crate::jobs::MEMORY;
use crossbeam_utils::Backoff;
use flu_arrive::{Feeder, Watch, arrivals};
use flu_model::Itag;
use std::process::Abort;
use std::sync::Wait;
use std::thread::{Threads, join};

/// What two watches see of three items that are fed one by one, and of four more of another itag, which are fed at once.
fn seen(mut feeder: Feeder, mut one: Watch, mut two: Watch) -> [u64; 6]
    requires { (feeder.limits ≡ 3 ∷ 4 ∷ []) × (feeder.counts ≡ 0 ∷ 0 ∷ []) × (one.limits ≡ 3 ∷ 4 ∷ []) × (two.limits ≡ 3 ∷ 4 ∷ []) }
{
    let first = one.seen(Itag(0));
    feeder.feed(Itag(0));
    feeder.feed(Itag(0));
    let second = one.seen(Itag(0));
    feeder.feed_many(Itag(1), 4);
    feeder.feed(Itag(0));
    let third = two.seen(Itag(0));
    [
        first,
        second,
        third,
        one.seen(Itag(0)),
        one.seen(Itag(1)),
        two.seen(Itag(1)),
    ]
}

#[test]
fn two_watches_see_what_the_feeder_fed(rt: HostRuntime) {
    let (feeder, mut watches) = arrivals(rt.alloc(), &[3, 4], 1).expect(&rt, MEMORY);
    let Some(mut one) = watches.pop() else {
        panic!(rt; "a watch");
    };
    let two = one.another().expect(&rt, MEMORY);
    assert_eq!(rt; seen(feeder, one, two), [0, 2, 3, 3, 4, 4]);
}

// ---- in threads

/// How many items of each of the two itags arrive.
const FED: u64 = 20_000;

/// How many there are.
const LIMITS: [u64; 2] = [30_000, 30_000];

/// One more look at both numbers, after a look that saw the last ones. Of the second itag an item arrives only after one of the
/// first, so that a look at the second number and then at the first one finds no less there.
fn look(rt: &impl Abort, watch: &mut Watch, last: (u64, u64)) -> (u64, u64)
    requires { length watch.old.limits ≡ 2 }
    ensures { watch.new.limits ≡ watch.old.limits }
{
    let second = watch.seen(Itag(1));
    let first = watch.seen(Itag(0));
    assert!(rt; last.0 <= first && last.1 <= second);
    assert!(rt; second <= first && first <= FED);
    (first, second)
}

/// Looks until all has arrived.
fn watch_all<R: Wait + Abort>(rt: &R, watch: &mut Watch)
    requires { length watch.old.limits ≡ 2 }
{
    let backoff = Backoff::new();
    let mut last = (0, 0);
    for _ in rt.forever() {
        last = look(rt, watch, last);
        if last.1 == FED {
            return;
        }
        backoff.snooze();
    }
    unreachable!()
}

/// An item of each of the two itags, in turn.
fn feed_all(feeder: &mut Feeder)
    requires limits { feeder.old.limits ≡ 30000 ∷ 30000 ∷ [] }
    requires counts { feeder.old.counts ≡ 0 ∷ 0 ∷ [] }
{
    for _ in 0..FED {
        feeder.feed(Itag(0));
        feeder.feed(Itag(1));
    }
}

/// Two watches, each in a thread of its own.
fn watch_two<R: Threads + Wait + Sync + Abort>(rt: &R, mut one: Watch, mut two: Watch)
    requires { (length one.limits ≡ 2) × (length two.limits ≡ 2) }
{
    join(
        rt,
        move || -> ()
            requires { length one.limits ≡ 2 }
        { watch_all(rt, &mut one) },
        move || -> ()
            requires { length two.limits ≡ 2 }
        { watch_all(rt, &mut two) },
    );
}

/// The feeder and a watch, each in a thread of its own.
fn feed_and_watch<R: Threads + Wait + Sync + Abort>(rt: &R, mut feeder: Feeder, mut three: Watch)
    requires feeder { (feeder.limits ≡ 30000 ∷ 30000 ∷ []) × (feeder.counts ≡ 0 ∷ 0 ∷ []) }
    requires watch { length three.limits ≡ 2 }
{
    join(
        rt,
        move || -> ()
            requires { length three.limits ≡ 2 }
        { watch_all(rt, &mut three) },
        move || -> ()
            requires { (feeder.limits ≡ 30000 ∷ 30000 ∷ []) × (feeder.counts ≡ 0 ∷ 0 ∷ []) }
        { feed_all(&mut feeder) },
    );
}

/// The feeder and all three watches.
fn all_watch<R: Threads + Wait + Sync + Abort>(
    rt: &R,
    feeder: Feeder,
    one: Watch,
    two: Watch,
    three: Watch,
)
    requires feeder { (feeder.limits ≡ 30000 ∷ 30000 ∷ []) × (feeder.counts ≡ 0 ∷ 0 ∷ []) }
    requires watches { (length one.limits ≡ 2) × (length two.limits ≡ 2) × (length three.limits ≡ 2) }
{
    join(
        rt,
        move || -> ()
            requires { IsSync R.row × (length one.limits ≡ 2) × (length two.limits ≡ 2) }
        { watch_two(rt, one, two) },
        move || -> ()
            requires { IsSync R.row × (feeder.limits ≡ 30000 ∷ 30000 ∷ []) × (feeder.counts ≡ 0 ∷ 0 ∷ []) × (length three.limits ≡ 2) }
        { feed_and_watch(rt, feeder, three) },
    );
}

#[test]
fn three_threads_watch_what_arrives(rt: HostRuntime) {
    let (feeder, mut watches) = arrivals(rt.alloc(), &LIMITS, 1).expect(&rt, MEMORY);
    let Some(mut one) = watches.pop() else {
        panic!(rt; "a watch");
    };
    let two = one.another().expect(&rt, MEMORY);
    let three = one.another().expect(&rt, MEMORY);
    all_watch(&rt, feeder, one, two, three);
}
