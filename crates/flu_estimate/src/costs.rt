//! What the rounds of a run cost.

ghost use Rattle.std.specs.Prelude.{◌≡◌, ◌<◌, ◌≤◌, ◌*◌, length, nat_lt};
ghost use Rattle.flu_deps.specs.Validated.{plan_of};

use crate::lengths::{event_cost, targets};
use crate::loads::Load;
use crate::prices::{CELL, QUESTION, STEP, WORKER};
use flu_deps::{Checked, Valid};
use flu_model::{Itag, actions_of, itag_count, tag_of};
use std::alloc::{AllocError, Global};

/// What is known about the cost of a job's rounds before any of them is run. Times are in nanoseconds.
#[derive(Drop)]
pub struct Costs {
    itags: u32,
    // By the itags' numbers.
    events: Vec<EventCost>,
    // What it costs to check for each pair of itags whether they depend on each other.
    questions: u64,
    processors: u64,
    ghost few: { itags ≤ 256 },
}

// What an event of an itag costs the fold, and how many cells it changes.
#[derive(Clone, Copy)]
struct EventCost {
    time: u64,
    cells: u64,
}

impl Costs {
    /// The costs of a job's rounds on a machine with this many processors.
    ///
    /// # Errors
    ///
    /// Only if memory runs out.
    pub fn new(alloc: Global, checked: &Checked, processors: u64) -> Result<Costs, AllocError> {
        let p = checked.program();
        let itags = itag_count(p);
        let mut events = Vec::new(alloc);
        for number in 0..itags {
            let actions = actions_of(p, tag_of(p, Itag(number)));
            events.push(EventCost {
                time: event_cost(actions),
                cells: targets(actions),
            })?;
        }
        let pairs = u64::from(itags).saturating_mul(u64::from(itags));
        let depends = p.depends.items().len() as u64;
        let questions = pairs.saturating_mul(QUESTION.saturating_mul(depends.saturating_add(1)));
        Ok(Costs {
            itags,
            events,
            questions,
            processors,
        })
    }

    /// What the fold of this many events of each itag costs. It takes no memory.
    pub fn fold(&self, counts: &[u64]) -> u64 {
        let mut cost: u64 = 0;
        for (event, count) in self.events.iter().zip(counts) {
            cost = cost.saturating_add(event.time.saturating_mul(*count));
        }
        cost
    }

    /// What planning costs. It takes no memory.
    pub fn planning(&self) -> u64 {
        let itags = u64::from(self.itags);
        let steps = itags.saturating_mul(itags).saturating_mul(itags);
        self.questions.saturating_add(steps.saturating_mul(STEP))
    }

    /// What a run of this many events of each itag on the tree of threads of a plan costs.
    ///
    /// # Errors
    ///
    /// Only if memory runs out.
    pub fn tree(&self, alloc: Global, plan: &Valid, counts: &[u64]) -> Result<u64, AllocError> {
        let loads = self.loads(alloc, plan, counts)?;
        let workers = WORKER.saturating_mul(u64::from(plan.count()));
        let start = workers.saturating_add(self.questions);
        let run = match loads.first() {
            Some(root) => root.time_on(self.processors),
            None => 0,
        };
        Ok(start.saturating_add(run))
    }

    // What the workers of a plan have to do, by the nodes' numbers.
    fn loads(&self, alloc: Global, plan: &Valid, counts: &[u64]) -> Result<Vec<Load>, AllocError> {
        let nodes = plan.count();
        let mut loads = vec![in alloc; Load::nothing(); nodes as usize]?;
        for number in 0..self.itags {
            let owner = plan.owner(Itag(number)) as usize;
            let event = self.events.get(number as usize);
            let count = counts.get(number as usize);
            if let (Some(load), Some(event), Some(count)) = (loads.get_mut(owner), event, count) {
                load.own(*count, event.time, event.cells);
            }
        }
        for done in 0..nodes {
            add_up(&mut loads, plan, nodes - 1 - done);
        }
        Ok(loads)
    }
}

/// Whether a tree of this cost is to be preferred to a fold of that cost: if it takes less than four fifths of it, since the estimates
/// are rough and the tree takes more of the processors' time.
pub fn is_worth_it(tree: u64, fold: u64) -> bool
    ensures { result ≡ nat_lt (5 * tree) (4 * fold) }
{
    5 * u128::from(tree) < 4 * u128::from(fold)
}

// Adds up the load of a node, whose children are already added up.
fn add_up(loads: &mut Vec<Load>, plan: &Valid, node: u32)
    requires { node < length (plan_of plan.now).nodes }
{
    let kids = match plan.kids(node) {
        None => None,
        Some((left, right)) => match (loads.get(left as usize), loads.get(right as usize)) {
            (Some(left), Some(right)) => Some((*left, *right)),
            _ => None,
        },
    };
    if let Some(load) = loads.get_mut(node as usize) {
        match kids {
            None => load.end(),
            Some((left, right)) => load.join(&left, &right),
        }
    }
}
