ghost use Rattle.std.specs.Prelude.{◌<◌};

use flu_cells::{CellSet, State};
use flu_dense::Dense;
use flu_model::{Cell, Worth};
use std::alloc::Global;
use std::test::Fail;

/// A table that holds ten times each of some slots.
fn table_of(alloc: Global, slots: &[u32]) -> Result<Dense<u32>, Fail> {
    let mut table = Dense::new(alloc);
    for slot in slots {
        if *slot < 4096 {
            table.set(*slot, slot.wrapping_mul(10))?;
        }
    }
    Ok(table)
}

#[test]
fn slots_are_held_walked_and_copied(rt: HostRuntime) -> Result<(), Fail> {
    let mut table = table_of(rt.alloc(), &[4095, 64, 0, 127, 63, 64])?;
    let copied = table.copy()?;
    assert_eq!(rt; table.unset(64), Some(640));
    assert_eq!(rt; table.unset(64), None);
    assert_eq!(rt; table.unset(3000), None);
    table.set(127, 5)?;
    // a slot, the first that is held from it on in the table and in its copy
    let cases = [
        (0, Some(0), Some(0)),
        (1, Some(63), Some(63)),
        (64, Some(127), Some(64)),
        (65, Some(127), Some(127)),
        (128, Some(4095), Some(4095)),
        (4095, Some(4095), Some(4095)),
        (4096, None, None),
    ];
    for (from, want, want_of_copy) in cases {
        assert_eq!(rt; table.next(from), want, "{from}");
        assert_eq!(rt; copied.next(from), want_of_copy, "{from}");
    }
    // a slot, and what the table and its copy hold there
    let values = [
        (0, Some(0), Some(0)),
        (1, None, None),
        (64, None, Some(640)),
        (127, Some(5), Some(1270)),
        (4095, Some(40950), Some(40950)),
    ];
    for (slot, want, want_of_copy) in values {
        assert_eq!(rt; table.get(slot), want, "{slot}");
        assert_eq!(rt; copied.get(slot), want_of_copy, "{slot}");
    }
    assert_eq!(rt; table_of(rt.alloc(), &[])?.next(0), None);
    Ok(())
}

/// A cell of the keyed family 1.
fn sum_at(key: u16) -> Cell
    ensures { result.key < 65536 }
{
    Cell {
        family: 1,
        key: u32::from(key),
    }
}

/// Whether a state holds something at just these keys of the family 1.
fn has_keys(state: &State, want: &[u32]) -> Result<bool, Fail> {
    Ok(*state.keys(1)?.as_slice() == *want)
}

/// Whether the table of a state holds just the slots 64 and 127, each with 5.
fn holds_both(state: &State) -> bool {
    let near = state.near();
    near.next(0) == Some(64)
        && near.next(65) == Some(127)
        && near.next(128).is_none()
        && near.get(64) == Some(Worth::Sum(5))
        && near.get(127) == Some(Worth::Sum(5))
}

#[test]
fn near_cells_stand_in_the_table_and_all_keys_rise(rt: HostRuntime) -> Result<(), Fail> {
    let mut state = State::new(rt.alloc());
    for key in [70, 63, 64, 0] {
        state.add(sum_at(key), 5)?;
    }
    assert_eq!(rt; has_keys(&state, &[0, 63, 64, 70])?, true);
    assert_eq!(rt; holds_both(&state), true);
    let mut wanted = CellSet::new(rt.alloc());
    wanted.add(sum_at(63))?;
    wanted.add(sum_at(70))?;
    let taken = state.take_out(&wanted)?;
    assert_eq!(rt; has_keys(&state, &[0, 64])?, true);
    assert_eq!(rt; has_keys(&taken, &[63, 70])?, true);
    assert_eq!(rt; state.near().next(65), None);
    state.absorb(taken)?;
    assert_eq!(rt; has_keys(&state, &[0, 63, 64, 70])?, true);
    assert_eq!(rt; holds_both(&state), true);
    Ok(())
}
