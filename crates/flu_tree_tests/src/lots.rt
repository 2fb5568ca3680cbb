//! The lot of the root of a plan, which opens with what earlier events came to, is parted and joined again.

ghost use Rattle.std.specs.Prelude.{◌≡◌, length, IfOk};
ghost use Rattle.flu_model.specs.Itags.{count_of_itags};
ghost use Rattle.flu_model.specs.Listed.{listed};
ghost use Rattle.flu_model.specs.Sorts.{IsStateOf};
ghost use Rattle.flu_cells.specs.Holding.{held};

use crate::jobs::{COUNT, COUNT_DEPENDS, COUNT_PLAN, PAGES, PAGES_ACCEPTED, job, judged};
use crate::streams::{lists, streams};
use flu_cells::{Cell, State, Worth};
use flu_fork::{Case, Lot, fork, join, opening_lot};
use flu_model::{Program, Streams, itag_count};
use flu_seq::{Engine, FoldEngine};
use std::alloc::{AllocError, Global};
use std::process::Abort;
use std::test::Fail;

/// What the events of the streams come to, and the job.
fn begun(alloc: Global, program: Program, streams: &Streams) -> Result<(State, Program), AllocError>
    requires one_each { length (listed streams.now) ≡ count_of_itags program }
    ensures same { IfOk result (λ r. r.1 ≡ program) }
    ensures sorts { IfOk result (λ r. IsStateOf program.families (held r.0)) }
{
    let mut engine = FoldEngine { program };
    let (state, _outs) = engine.batch(&(), alloc, State::new(alloc), streams)?;
    Ok((state, engine.program))
}

/// What some cells hold in the left part, in the right part, and when these are joined again.
#[derive(Drop)]
struct Halves {
    left: Vec<Option<Worth>>,
    right: Vec<Option<Worth>>,
    joined: Vec<Option<Worth>>,
}

/// What a lot holds in some cells, each by its family and its key.
fn worths(
    alloc: Global,
    lot: &Lot,
    cells: &[(u32, u32)],
) -> Result<Vec<Option<Worth>>, AllocError> {
    let mut worths = Vec::new(alloc);
    for (family, key) in cells {
        worths.push(
            lot.state.get(Cell {
                family: *family,
                key: *key,
            }),
        )?;
    }
    Ok(worths)
}

/// Parts the lot of the root at the start, and joins it again; none if the root is a leaf.
fn parted(alloc: Global, case: &Case, cells: &[(u32, u32)]) -> Result<Option<Halves>, AllocError> {
    if case.valid().count() == 0 || case.valid().kids(0).is_none() {
        return Ok(None);
    }
    let (first, second) = fork(alloc, case, 0, opening_lot(alloc, case)?)?;
    let left = worths(alloc, &first, cells)?;
    let right = worths(alloc, &second, cells)?;
    let whole = join(alloc, case, 0, first, second)?;
    let joined = worths(alloc, &whole, cells)?;
    Ok(Some(Halves {
        left,
        right,
        joined,
    }))
}

/// The parts of a job's state after its events, by a plan; none if the job is not accepted or the plan is not valid for it.
fn looked(
    alloc: Global,
    p: Program,
    plan: &str,
    events: &[(u32, u64, i64)],
    cells: &[(u32, u32)],
) -> Result<Option<Halves>, Fail> {
    let Some(streams) = streams(&p, lists(alloc, itag_count(&p), events)?) else {
        return Ok(None);
    };
    let (opening, p) = begun(alloc, p, &streams)?;
    let Some((checked, valid)) = judged(alloc, p, plan)? else {
        return Ok(None);
    };
    let case = Case::new(alloc, &checked, &valid, &streams, opening)?;
    Ok(parted(alloc, &case, cells)?)
}

/// The greedy plan of the pages at depth 3, if the sources have the rates 1000, 500 and 1: the root owns nothing, the tick is above
/// the views, and the pages are shared out among four leaves, as are the users.
const PAGES_PLAN: &str = "node n0: -> n1 n8
node n1: tick@clock -> n2 n5
node n2: -> n3 n4
node n3: view[0]@web, view[4]@web, view[8]@web, view[4]@app, view[8]@app
node n4: view[2]@web, view[6]@web, view[0]@app, view[2]@app, view[6]@app
node n5: -> n6 n7
node n6: view[1]@web, view[5]@web, view[9]@web, view[5]@app, view[9]@app
node n7: view[3]@web, view[7]@web, view[1]@app, view[3]@app, view[7]@app
node n8: -> n9 n12
node n9: -> n10 n11
node n10: update[0]@app, update[4]@app, update[8]@app
node n11: update[2]@app, update[6]@app
node n12: -> n13 n14
node n13: update[1]@app, update[5]@app, update[9]@app
node n14: update[3]@app, update[7]@app
";

/// Quotes set a price, trades from two sources read it and add to a volume, which a shut emits and clears.
const PRICES: &str = "version 2
cell price last
cell vol sum
tag quote int
tag trade int
tag shut none
depends quote quote
depends quote trade
depends trade shut
depends shut shut
on quote: set price value
on trade: add vol value * price; emit \"at {price}\"
on shut: emit \"vol {vol}\"; clear vol
source q \"q.csv\": quote
source t1 \"t1.csv\": trade
source t2 \"t2.csv\": trade
source s \"s.csv\": shut
";

/// The same with a price that is a sum.
const PRICES_AS_SUMS: &str = "version 2
cell price sum
cell vol sum
tag quote int
tag trade int
tag shut none
depends quote quote
depends quote trade
depends trade shut
depends shut shut
on quote: clear price; add price value
on trade: add vol value * price; emit \"at {price}\"
on shut: emit \"vol {vol}\"; clear vol
source q \"q.csv\": quote
source t1 \"t1.csv\": trade
source t2 \"t2.csv\": trade
source s \"s.csv\": shut
";

/// The quotes and the shuts are at the root, and the trades of each source at a leaf.
const PRICE_PLAN: &str = "node n0: quote, shut -> n1 n2
node n1: trade@t1
node n2: trade@t2
";

/// A quote and a trade.
const PRICED: &[(u32, u64, i64)] = &[(0, 1, 10), (1, 2, 7)];

/// A job in two texts, a plan, events, some cells, and what these hold in the left part, in the right one, and
/// when the parts are joined.
type Row = (
    &'static str,
    &'static str,
    &'static str,
    &'static [(u32, u64, i64)],
    &'static [(u32, u32)],
    [&'static [Option<Worth>]; 3],
);

fn expect_all(rt: &impl Abort, alloc: Global, rows: &[Row]) -> Result<(), Fail> {
    for (text, more, plan, events, cells, [left, right, joined]) in rows {
        let parts = looked(alloc, job(alloc, text, more)?, plan, events, cells)?;
        assert!(rt; parts.is_some());
        let parts = parts.unwrap();
        assert_eq!(rt; parts.left.as_slice(), *left);
        assert_eq!(rt; parts.right.as_slice(), *right);
        assert_eq!(rt; parts.joined.as_slice(), *joined);
    }
    Ok(())
}

#[test]
fn cells_go_to_the_child_whose_itags_need_them(rt: HostRuntime) -> Result<(), Fail> {
    let rows: [Row; 2] = [
        (
            COUNT,
            COUNT_DEPENDS,
            COUNT_PLAN,
            &[(0, 1, 5), (1, 2, 7)],
            &[(0, 0)],
            [&[Some(Worth::Sum(12))], &[None], &[Some(Worth::Sum(12))]],
        ),
        (
            PAGES,
            PAGES_ACCEPTED,
            PAGES_PLAN,
            &[(0, 1, 11), (23, 2, 94_105)],
            &[(0, 0), (1, 3)],
            [
                &[Some(Worth::Sum(11)), None],
                &[None, Some(Worth::Last(94_105))],
                &[Some(Worth::Sum(11)), Some(Worth::Last(94_105))],
            ],
        ),
    ];
    expect_all(&rt, rt.alloc(), &rows)
}

// A copy is dropped when the parts are joined, so that a sum is not added twice.
#[test]
fn a_cell_that_is_only_read_below_is_copied(rt: HostRuntime) -> Result<(), Fail> {
    let rows: [Row; 2] = [
        (
            PRICES,
            "",
            PRICE_PLAN,
            PRICED,
            &[(0, 0), (1, 0)],
            [
                &[Some(Worth::Last(10)), Some(Worth::Sum(70))],
                &[Some(Worth::Last(10)), None],
                &[Some(Worth::Last(10)), Some(Worth::Sum(70))],
            ],
        ),
        (
            PRICES_AS_SUMS,
            "",
            PRICE_PLAN,
            PRICED,
            &[(0, 0), (1, 0)],
            [
                &[Some(Worth::Sum(10)), Some(Worth::Sum(70))],
                &[Some(Worth::Sum(10)), None],
                &[Some(Worth::Sum(10)), Some(Worth::Sum(70))],
            ],
        ),
    ];
    expect_all(&rt, rt.alloc(), &rows)
}
