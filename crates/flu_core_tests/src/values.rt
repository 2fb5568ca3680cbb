ghost use Rattle.std.specs.Prelude.{◌<◌};

use flu_cells::State;
use flu_model::{At, Cell, CellRef, Event, Expr, Itag, Op};
use flu_step::value_of;
use std::alloc::{AllocError, Global};
use std::test::Fail;

const TOTAL: CellRef = CellRef {
    family: 0,
    at: At::Alone,
};

const HIGH: CellRef = CellRef {
    family: 1,
    at: At::OwnKey,
};

const SEEN: CellRef = CellRef {
    family: 2,
    at: At::Fixed(7),
};

fn at_time(time: u64) -> Event {
    Event {
        time,
        itag: Itag(0),
        item: 7,
        value: -6,
    }
}

/// An expression's value in a state at an event with the key 9 and the item 7.
fn value(e: &Expr, s: &State) -> i64 {
    value_of(e, s, &at_time(5), 9)
}

fn of_two(alloc: Global, op: Op, a: i64, b: i64) -> Result<i64, AllocError> {
    let e = Expr::Two(
        op,
        Box::new(alloc, Expr::Lit(a))?,
        Box::new(alloc, Expr::Lit(b))?,
    );
    Ok(value(&e, &State::new(alloc)))
}

/// A state with a sum, and at the keys 9 and 7 a maximum and a last value.
fn filled(alloc: Global, sum: i128) -> Result<State, AllocError> {
    let mut state = State::new(alloc);
    state.add(Cell { family: 0, key: 0 }, sum)?;
    state.raise(Cell { family: 1, key: 9 }, i64::MIN)?;
    state.put(Cell { family: 2, key: 7 }, 0)?;
    Ok(state)
}

#[test]
fn arithmetic_is_clamped_at_both_ends(rt: HostRuntime) -> Result<(), Fail> {
    let cases = [
        (Op::Plus, 2, 3, 5),
        (Op::Plus, i64::MAX, 1, i64::MAX),
        (Op::Plus, i64::MIN, -1, i64::MIN),
        (Op::Minus, 2, 3, -1),
        (Op::Minus, i64::MIN, 1, i64::MIN),
        (Op::Minus, i64::MAX, -1, i64::MAX),
        (Op::Minus, 0, i64::MIN, i64::MAX),
        (Op::Times, -3, 4, -12),
        (Op::Times, i64::MAX, 2, i64::MAX),
        (Op::Times, i64::MAX, -2, i64::MIN),
        (Op::Times, i64::MIN, -1, i64::MAX),
        (Op::Times, i64::MIN, 2, i64::MIN),
    ];
    for (op, a, b, want) in cases {
        assert_eq!(rt; of_two(rt.alloc(), op, a, b)?, want, "{op:?} {a} {b}");
    }
    Ok(())
}

#[test]
fn quotients_are_cut_toward_0_and_remainders_have_the_sign_of_the_left(
    rt: HostRuntime,
) -> Result<(), Fail> {
    // the left number, the right one, the quotient and the remainder
    let cases = [
        (7, 2, 3, 1),
        (7, -2, -3, 1),
        (-7, 2, -3, -1),
        (-7, -2, 3, -1),
        (1, 2, 0, 1),
        (-1, 2, 0, -1),
        (6, 3, 2, 0),
        (0, 5, 0, 0),
        (7, 0, 0, 0),
        (-7, 0, 0, 0),
        (0, 0, 0, 0),
        (i64::MIN, -1, i64::MAX, 0),
        (i64::MIN, 1, i64::MIN, 0),
        (i64::MIN, i64::MIN, 1, 0),
        (i64::MIN, i64::MAX, -1, -1),
        (i64::MAX, -1, -9223372036854775807, 0),
        (i64::MAX, i64::MIN, 0, i64::MAX),
        (i64::MIN, 0, 0, 0),
    ];
    for (a, b, quotient, remainder) in cases {
        assert_eq!(rt;
            of_two(rt.alloc(), Op::Divide, a, b)?,
            quotient,
            "{a} / {b}"
        );
        assert_eq!(rt;
            of_two(rt.alloc(), Op::Remainder, a, b)?,
            remainder,
            "{a} % {b}"
        );
    }
    Ok(())
}

#[test]
fn comparisons_and_connectives_give_0_or_1(rt: HostRuntime) -> Result<(), Fail> {
    // the first number, the second, and what <, <=, >, >=, ==, !=, and, or give
    let cases = [
        (1, 2, [1, 1, 0, 0, 0, 1, 1, 1]),
        (2, 2, [0, 1, 0, 1, 1, 0, 1, 1]),
        (3, 2, [0, 0, 1, 1, 0, 1, 1, 1]),
        (i64::MIN, i64::MAX, [1, 1, 0, 0, 0, 1, 1, 1]),
        (0, -7, [0, 0, 1, 1, 0, 1, 0, 1]),
        (0, 0, [0, 1, 0, 1, 1, 0, 0, 0]),
    ];
    let ops = [
        Op::Less,
        Op::LessEq,
        Op::More,
        Op::MoreEq,
        Op::Same,
        Op::Differs,
        Op::Both,
        Op::Either,
    ];
    for (a, b, wants) in cases {
        for (op, want) in ops.into_iter().zip(wants) {
            assert_eq!(rt; of_two(rt.alloc(), op, a, b)?, want, "{op:?} {a} {b}");
        }
    }
    Ok(())
}

#[test]
fn one_number_is_negated(rt: HostRuntime) -> Result<(), Fail> {
    // the number, its negative, and whether it is false
    let cases = [
        (5, -5, 0),
        (0, 0, 1),
        (-3, 3, 0),
        (i64::MAX, -9223372036854775807, 0),
        (i64::MIN, i64::MAX, 0),
    ];
    let s = State::new(rt.alloc());
    for (n, negative, is_false) in cases {
        let neg = Expr::Neg(Box::new(rt.alloc(), Expr::Lit(n))?);
        assert_eq!(rt; value(&neg, &s), negative, "-{n}");
        let not = Expr::Not(Box::new(rt.alloc(), Expr::Lit(n))?);
        assert_eq!(rt; value(&not, &s), is_false, "not {n}");
    }
    Ok(())
}

#[test]
fn a_sum_that_is_read_is_clamped(rt: HostRuntime) -> Result<(), Fail> {
    // the sum, what is read of it, and whether the cell holds anything
    let cases = [
        (42, 42, 1),
        (0, 0, 0),
        (9223372036854775807, i64::MAX, 1),
        (9223372036854775808, i64::MAX, 1),
        (i128::MAX, i64::MAX, 1),
        (-9223372036854775808, i64::MIN, 1),
        (-9223372036854775809, i64::MIN, 1),
        (i128::MIN, i64::MIN, 1),
    ];
    for (sum, want, held) in cases {
        let s = filled(rt.alloc(), sum)?;
        assert_eq!(rt; value(&Expr::Read(TOTAL), &s), want, "{sum}");
        assert_eq!(rt; value(&Expr::Has(TOTAL), &s), held, "{sum}");
    }
    Ok(())
}

#[test]
fn maxima_and_last_values_are_read_at_their_keys(rt: HostRuntime) -> Result<(), Fail> {
    let s = filled(rt.alloc(), 1)?;
    let fixed = CellRef {
        family: 2,
        at: At::Fixed(8),
    };
    // the item is 7, so the last value at it is held, and no maximum
    let seen_of_item = CellRef {
        family: 2,
        at: At::OwnItem,
    };
    let high_of_item = CellRef {
        family: 1,
        at: At::OwnItem,
    };
    let cases = [
        (Expr::Read(HIGH), i64::MIN),
        (Expr::Has(HIGH), 1),
        (Expr::Read(SEEN), 0),
        (Expr::Has(SEEN), 1),
        (Expr::Read(fixed), 0),
        (Expr::Has(fixed), 0),
        (Expr::Has(seen_of_item), 1),
        (Expr::Has(high_of_item), 0),
        (Expr::Value, -6),
        (Expr::Key, 9),
        (Expr::Item, 7),
        (Expr::Time, 5),
    ];
    for (e, want) in cases {
        assert_eq!(rt; value(&e, &s), want);
    }
    Ok(())
}

#[test]
fn a_time_is_clamped(rt: HostRuntime) -> Result<(), Fail> {
    let cases = [
        (0, 0),
        (9223372036854775807, i64::MAX),
        (9223372036854775808, i64::MAX),
        (u64::MAX, i64::MAX),
    ];
    let s = State::new(rt.alloc());
    for (time, want) in cases {
        assert_eq!(rt;
            value_of(&Expr::Time, &s, &at_time(time), 0),
            want,
            "{time}"
        );
    }
    Ok(())
}
