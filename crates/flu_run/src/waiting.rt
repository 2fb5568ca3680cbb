//! How a worker waits, and how its neighbours wake it.

ghost use Rattle.std.specs.Prelude.{◌<◌, length};
ghost use Rattle.flu_deps.specs.Validated.{plan_of};

use crossbeam_utils::CachePadded;
use flu_deps::Valid;
use flu_worker::Side;
use std::alloc::{AllocError, Global};
use std::hint::spin_loop;
use std::sync::Wait;
use std::sync::atomic::{AtomicU64, Ordering};
use std::time::Duration;

// A worker for which nothing moves looks again at least and at most so often before it sleeps, and so often the first time.
const FEWEST: u32 = 2;

const MOST: u32 = 80;

const FIRST: u32 = 20;

// A worker that nobody wakes looks again after this many milliseconds.
const LONGEST: u64 = 100;

// What the word of a worker says: nothing was handed to it since it last looked; something was; or it sleeps, or is about to.
const AWAKE: u64 = 0;

const WOKEN: u64 = 1;

const ASLEEP: u64 = 2;

/// How a worker waits: how often it has looked again since something moved, how often it may before it sleeps, and whether its word
/// says that it sleeps.
#[derive(Drop)]
pub struct Pause {
    looks: u32,
    most: u32,
    asleep: bool,
}

impl Pause {
    /// It has not waited yet.
    pub fn new() -> Pause {
        Pause {
            looks: 0,
            most: FIRST,
            asleep: false,
        }
    }

    // Something moved. If that took looks, they paid, and the next time there may be more of them.
    fn end(&mut self) {
        if self.looks > 0 {
            self.most = self.most.saturating_mul(2).min(MOST);
        }
        self.looks = 0;
        self.asleep = false;
    }

    // The looks did not pay, since the worker slept: the next time there are fewer of them.
    fn slept(&mut self) {
        self.most = (self.most / 2).max(FEWEST);
        self.looks = 0;
        self.asleep = false;
    }
}

// The word on which the worker of a node sleeps, and the nodes beside it.
#[derive(Drop)]
struct Place {
    word: AtomicU64,
    above: Option<u32>,
    below: Option<(u32, u32)>,
}

impl Place {
    // Wakes the worker. If it is not asleep, it looks once more before it sleeps.
    fn wake(&self) {
        let word = &self.word;
        if word.load(Ordering::SeqCst) != WOKEN && word.swap(WOKEN, Ordering::SeqCst) == ASLEEP {
            word.wake_one();
        }
    }

    // From now on the worker has to be woken, unless it was since it last looked. Returns whether it has to be.
    fn lie_down(&self) -> bool {
        let word = &self.word;
        let lies = word
            .compare_exchange(AWAKE, ASLEEP, Ordering::SeqCst, Ordering::SeqCst)
            .is_ok();
        if !lies {
            self.get_up();
        }
        lies
    }

    // The worker is about to look.
    fn get_up(&self) {
        self.word.store(AWAKE, Ordering::SeqCst);
    }

    // The worker sleeps until it is woken, or for the longest time.
    fn sleep<R: Wait>(&self, rt: &R) {
        let longest = Duration::from_millis(LONGEST);
        self.word.park_timeout(rt, ASLEEP as u32, longest);
        self.get_up();
    }
}

/// Where the workers of a plan sleep while nothing moves, and who wakes whom.
///
/// No promise depends on it: a worker that nobody wakes looks again by itself.
#[derive(Drop)]
pub struct Parkers {
    places: Vec<CachePadded<Place>>,
}

impl Parkers {
    /// A place for each node of a plan.
    pub fn new(alloc: Global, plan: &Valid) -> Result<Parkers, AllocError> {
        let mut places = Vec::new(alloc);
        for node in 0..plan.count() {
            places.push(CachePadded::new(place_at(plan, node)))?;
        }
        Ok(Parkers { places })
    }

    /// Wakes the worker above a node, if there is one, where something was handed to it.
    pub fn wake_above(&self, node: u32, handed: bool) {
        if !handed {
            return;
        }
        if let Some(place) = self.places.get(node as usize) {
            if let Some(above) = place.above {
                self.wake(above);
            }
        }
    }

    /// Wakes the worker of a node's child, if it has children, where something was handed to it.
    pub fn wake_below(&self, node: u32, side: Side, handed: bool) {
        if !handed {
            return;
        }
        if let Some(place) = self.places.get(node as usize) {
            if let Some((left, right)) = place.below {
                match side {
                    Side::Left => self.wake(left),
                    Side::Right => self.wake(right),
                }
            }
        }
    }

    fn wake(&self, node: u32) {
        if let Some(place) = self.places.get(node as usize) {
            place.wake();
        }
    }

    /// Wakes all workers.
    pub fn wake_all(&self) {
        for place in &self.places {
            place.wake();
        }
    }

    /// What the worker of a node does between two turns: nothing if something moved. If nothing did, it looks again at once, until
    /// that was often enough; then it says that it sleeps, looks once more, and sleeps until it is woken.
    pub fn wait<R: Wait>(&self, rt: &R, node: u32, pause: &mut Pause, moved: bool) {
        if moved {
            self.go_on(node, pause);
        } else if pause.looks < pause.most {
            pause.looks += 1;
            spin_loop();
        } else {
            self.rest(rt, node, pause);
        }
    }

    // Something moved.
    fn go_on(&self, node: u32, pause: &mut Pause) {
        if pause.asleep {
            if let Some(place) = self.places.get(node as usize) {
                place.get_up();
            }
        }
        pause.end();
    }

    // The worker looked again often enough.
    fn rest<R: Wait>(&self, rt: &R, node: u32, pause: &mut Pause) {
        if let Some(place) = self.places.get(node as usize) {
            if pause.asleep {
                place.sleep(rt);
                pause.slept();
            } else {
                pause.asleep = place.lie_down();
            }
        }
    }
}

fn place_at(plan: &Valid, node: u32) -> Place
    requires { node < length (plan_of plan.now).nodes }
{
    Place {
        word: AtomicU64::new(AWAKE),
        above: plan.parent(node),
        below: plan.kids(node),
    }
}
