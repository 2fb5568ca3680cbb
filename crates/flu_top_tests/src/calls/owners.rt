//! A run by the greedy plan, which is named, with a gate that notes which worker handles which event, and what the states of the leaves
//! hold.

use super::{assert_left, call, files_of, pages};
use flu_cells::State;
use flu_model::{Cell, Itag};
use flu_seq::{Gate, OpenGate};
use std::alloc::{AllocError, Global};
use std::sync::atomic::{AtomicU64, Ordering};
use std::test::Fail;

/// The node that owns each itag in the greedy plan: the views of ten pages by the first source, those by the second one, the updates of
/// ten pages, and the tick.
const OWNERS: [u32; 31] = [
    3, 6, 4, 7, 3, 6, 4, 7, 3, 6, // views by the web
    4, 7, 4, 7, 3, 6, 4, 7, 3, 6, // views by the app
    10, 13, 11, 14, 10, 13, 11, 14, 10, 13, // updates
    1,
];

/// The node of the ticks, the only one with children that owns an itag.
const TICKING: u32 = 1;

/// How many events of one itag there are at most.
const MOST: usize = 3;

/// How many events an itag has: of the updates, only that of page 3 has one.
fn events_of(itag: usize) -> usize {
    match itag {
        23 => 1,
        20..=29 => 0,
        _ => MOST,
    }
}

/// Whether the node owns the itag.
fn owns(node: u32, itag: usize) -> bool {
    OWNERS.get(itag) == Some(&node)
}

/// Whether an own tag of the leaf touches a cell: views add to the sum of their page, and updates set its zip code.
fn touches(leaf: u32, cell: Cell) -> bool {
    let page = (cell.key as usize).min(10);
    if cell.family == 0 {
        owns(leaf, page) || owns(leaf, page.saturating_add(10))
    } else {
        owns(leaf, page.saturating_add(20))
    }
}

/// Whether a state holds no cell of the ten pages but those that the leaf's own tags touch.
fn holds_own_alone(state: &State, leaf: u32) -> bool {
    for key in 0..10u32 {
        for family in 0..2u32 {
            let cell = Cell { family, key };
            if !touches(leaf, cell) && state.get(cell).is_some() {
                return false;
            }
        }
    }
    true
}

/// How often each event was passed before its update and after it, by its owner, with a state that a leaf may hold; and whether there
/// was another pass.
#[derive(Drop)]
struct Passes {
    before: Vec<AtomicU64>,
    after: Vec<AtomicU64>,
    strangers: AtomicU64,
}

fn zeros(alloc: Global) -> Result<Vec<AtomicU64>, AllocError> {
    let mut numbers = Vec::new(alloc);
    for _ in 0..OWNERS.len() * MOST {
        numbers.push(AtomicU64::new(0))?;
    }
    Ok(numbers)
}

impl Passes {
    fn new(alloc: Global) -> Result<Passes, AllocError> {
        Ok(Passes {
            before: zeros(alloc)?,
            after: zeros(alloc)?,
            strangers: AtomicU64::new(0),
        })
    }
}

/// Whether a node may have this in its hand: a leaf what its own tags touch, and the other node nothing once its lot is forked again.
fn may_hold(node: u32, point: u32, held: Option<&State>) -> bool {
    match held {
        Some(state) => (node == TICKING && point == 1) || holds_own_alone(state, node),
        None => node == TICKING && point == 2,
    }
}

/// The place of an event among those of all itags.
fn place_of(itag: usize, index: u64) -> usize {
    itag.saturating_mul(MOST)
        .saturating_add(index.min(MOST as u64 - 1) as usize)
}

impl Gate for Passes {
    fn pass(&self, node: u32, point: u32, itag: Itag, index: u64, held: Option<&State>) {
        let itag = itag.0 as usize;
        let is_known = owns(node, itag) && index < events_of(itag) as u64;
        if !is_known || !may_hold(node, point, held) {
            self.strangers.store(1, Ordering::SeqCst);
            return;
        }
        let passes = if point == 1 {
            &self.before
        } else {
            &self.after
        };
        if let Some(pass) = passes.get(place_of(itag, index)) {
            pass.fetch_add(1, Ordering::SeqCst);
        }
    }
}

/// Whether each event was passed once.
fn are_once(passes: &[AtomicU64]) -> bool {
    for (place, pass) in passes.iter().enumerate() {
        let wanted = u64::from(place % MOST < events_of(place / MOST));
        if pass.load(Ordering::SeqCst) != wanted {
            return false;
        }
    }
    true
}

/// Whether each event was passed once before its update and once after it, and no other pass was made.
fn are_kept(passes: &Passes) -> bool {
    are_once(passes.before.as_slice())
        && are_once(passes.after.as_slice())
        && passes.strangers.load(Ordering::SeqCst) == 0
}

#[test]
fn each_event_is_handled_by_its_owner(rt: HostRuntime) -> Result<(), Fail> {
    let alloc = rt.alloc();
    let mut files = files_of(alloc, pages::files())?;
    let planned = call(&rt, alloc, "plan J", &mut files, &OpenGate)?;
    let mut files = files_of(alloc, pages::files())?;
    files.add("P", planned.out.bytes().to_vec(alloc)?)?;
    let passes = Passes::new(alloc)?;
    let left = call(&rt, alloc, "run J P", &mut files, &passes)?;
    assert_left(&rt, &left, 0, pages::REPORT.as_bytes(), "");
    assert!(rt; are_kept(&passes));
    Ok(())
}
