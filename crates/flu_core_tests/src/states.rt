ghost use Rattle.std.specs.Prelude.{◌<◌};

use flu_cells::{CellSet, State};
use flu_model::{Cell, Worth};
use std::alloc::{AllocError, Global};
use std::test::Fail;

const COUNT: Cell = Cell { family: 0, key: 0 };

const HIGH: u32 = 1;

const SEEN: u32 = 2;

/// A cell of the keyed family of maxima.
fn high(key: u16) -> Cell
    ensures { result.key < 65536 }
{
    Cell {
        family: HIGH,
        key: u32::from(key),
    }
}

/// A cell of the keyed family of last values.
fn seen(key: u16) -> Cell
    ensures { result.key < 65536 }
{
    Cell {
        family: SEEN,
        key: u32::from(key),
    }
}

/// A state with a sum, a maximum and a last value at a key.
fn filled(
    alloc: Global,
    sum: i128,
    greatest: i64,
    key: u16,
    last: i64,
) -> Result<State, AllocError> {
    let mut state = State::new(alloc);
    state.add(COUNT, sum)?;
    state.raise(high(0), greatest)?;
    state.put(seen(key), last)?;
    Ok(state)
}

#[test]
fn sums_add_up_wrap_and_come_back_to_neutral(rt: HostRuntime) -> Result<(), Fail> {
    let cases = [
        (5, 7, Some(Worth::Sum(12))),
        (5, -7, Some(Worth::Sum(-2))),
        (5, -5, None),
        (0, 0, None),
        (i128::MAX, 1, Some(Worth::Sum(i128::MIN))),
        (i128::MIN, -1, Some(Worth::Sum(i128::MAX))),
        (i128::MIN, i128::MIN, None),
    ];
    for (first, second, want) in cases {
        let mut state = State::new(rt.alloc());
        state.add(COUNT, first)?;
        state.add(COUNT, second)?;
        assert_eq!(rt; state.get(COUNT), want, "{first} and {second}");
        state.clear(COUNT);
        assert_eq!(rt; state.get(COUNT), None);
    }
    Ok(())
}

#[test]
fn maxima_rise_and_last_values_follow(rt: HostRuntime) -> Result<(), Fail> {
    let cases = [
        (-3, 4, 4),
        (4, -3, 4),
        (i64::MIN, i64::MIN, i64::MIN),
        (i64::MIN, i64::MAX, i64::MAX),
        (0, -1, 0),
    ];
    for (first, second, greatest) in cases {
        let mut state = State::new(rt.alloc());
        state.raise(high(9), first)?;
        state.raise(high(9), second)?;
        state.put(seen(9), first)?;
        state.put(seen(9), second)?;
        assert_eq!(rt; state.get(high(9)), Some(Worth::Max(greatest)));
        assert_eq!(rt; state.get(seen(9)), Some(Worth::Last(second)));
    }
    Ok(())
}

#[test]
fn keys_rise_and_are_those_of_one_family(rt: HostRuntime) -> Result<(), Fail> {
    let mut state = State::new(rt.alloc());
    state.add(COUNT, 1)?;
    for key in [65_535, 7, 300, 0, 8] {
        state.raise(high(key), 1)?;
    }
    state.put(seen(3), 1)?;
    state.clear(high(300));
    let cases: [(u32, &[u32]); 4] = [
        (COUNT.family, &[0]),
        (HIGH, &[0, 7, 8, 65_535]),
        (SEEN, &[3]),
        (3, &[]),
    ];
    for (family, want) in cases {
        assert_eq!(rt;
            *state.keys(family)?.as_slice() == *want,
            true,
            "family {family}"
        );
    }
    Ok(())
}

#[test]
fn a_join_adds_raises_and_takes_the_left_last_value_first(rt: HostRuntime) -> Result<(), Fail> {
    let mut left = filled(rt.alloc(), 5, -1, 1, 10)?;
    let mut right = filled(rt.alloc(), -5, 3, 1, 11)?;
    right.put(seen(2), 12)?;
    left.absorb(right)?;
    assert_eq!(rt; left.get(COUNT), None);
    assert_eq!(rt; left.get(high(0)), Some(Worth::Max(3)));
    assert_eq!(rt; left.get(seen(1)), Some(Worth::Last(10)));
    assert_eq!(rt; left.get(seen(2)), Some(Worth::Last(12)));
    left.absorb(State::new(rt.alloc()))?;
    assert_eq!(rt; left.get(seen(2)), Some(Worth::Last(12)));
    Ok(())
}

/// A state with a sum, a maximum and two last values.
fn of_four(alloc: Global) -> Result<State, AllocError> {
    let mut state = filled(alloc, 5, -1, 1, 10)?;
    state.put(seen(2), 12)?;
    Ok(state)
}

/// The set of the maxima and of one of the last values, which is added twice.
fn of_two(alloc: Global) -> Result<CellSet, AllocError> {
    let mut set = CellSet::new(alloc);
    set.add_family(HIGH)?;
    set.add(seen(2))?;
    set.add(seen(2))?;
    Ok(set)
}

/// What a state holds in the four cells: the sum, the maximum and the two last values.
fn worths(state: &State) -> [Option<Worth>; 4] {
    [
        state.get(COUNT),
        state.get(high(0)),
        state.get(seen(1)),
        state.get(seen(2)),
    ]
}

const SUM: Option<Worth> = Some(Worth::Sum(5));

const MAX: Option<Worth> = Some(Worth::Max(-1));

const FIRST: Option<Worth> = Some(Worth::Last(10));

const SECOND: Option<Worth> = Some(Worth::Last(12));

#[test]
fn the_cells_of_a_set_are_copied_and_cleared(rt: HostRuntime) -> Result<(), Fail> {
    let state = of_four(rt.alloc())?;
    let set = of_two(rt.alloc())?;
    let cases = [
        (COUNT, false),
        (high(0), true),
        (seen(1), false),
        (seen(2), true),
    ];
    for (cell, is_in) in cases {
        assert_eq!(rt; set.has(cell), is_in, "{cell:?}");
    }
    let no_others = CellSet::new(rt.alloc());
    let copied = state.copy_of(&set, &no_others)?;
    assert_eq!(rt; worths(&copied), [None, MAX, None, SECOND]);
    let mut cleared = state.copy()?;
    cleared.clear_all(&set, &no_others);
    assert_eq!(rt; worths(&cleared), [SUM, None, FIRST, None]);
    assert_eq!(rt; worths(&state), [SUM, MAX, FIRST, SECOND]);
    Ok(())
}

#[test]
fn cells_of_a_whole_family_are_left_out(rt: HostRuntime) -> Result<(), Fail> {
    let mut state = of_four(rt.alloc())?;
    state.raise(high(3), 4)?;
    let set = of_two(rt.alloc())?;
    assert_eq!(rt;
        (set.has_family(HIGH), set.has_family(COUNT.family)),
        (true, false)
    );
    let mut others = CellSet::new(rt.alloc());
    others.add(high(0))?;
    others.add(seen(2))?;
    let copied = state.copy_of(&set, &others)?;
    assert_eq!(rt; worths(&copied), [None, None, None, SECOND]);
    assert_eq!(rt; copied.get(high(3)), Some(Worth::Max(4)));
    state.clear_all(&set, &others);
    assert_eq!(rt; worths(&state), [SUM, MAX, FIRST, None]);
    assert_eq!(rt; state.get(high(3)), None);
    Ok(())
}

#[test]
fn the_cells_of_a_set_are_taken_out_and_joined_again(rt: HostRuntime) -> Result<(), Fail> {
    let mut state = of_four(rt.alloc())?;
    let taken = state.take_out(&of_two(rt.alloc())?)?;
    assert_eq!(rt; worths(&taken), [None, MAX, None, SECOND]);
    assert_eq!(rt; worths(&state), [SUM, None, FIRST, None]);
    state.absorb(taken)?;
    assert_eq!(rt; worths(&state), [SUM, MAX, FIRST, SECOND]);
    Ok(())
}

#[test]
fn a_family_is_cleared_alone(rt: HostRuntime) -> Result<(), Fail> {
    let mut state = filled(rt.alloc(), 5, -1, 1, 10)?;
    for key in [65_535, 7, 300] {
        state.raise(high(key), 1)?;
    }
    state.clear_family(HIGH);
    assert!(rt; state.keys(HIGH)?.is_empty());
    assert_eq!(rt; state.get(COUNT), Some(Worth::Sum(5)));
    assert_eq!(rt; state.get(seen(1)), Some(Worth::Last(10)));
    Ok(())
}
