//! The text of a partial that is cut, changed, doubled or put in another order is refused, or says the same, or says something else that
//! a node could have sent.

ghost use Rattle.std.specs.Prelude.{◌<◌, ◌^◌};

use crate::cases::{STATIONS, judged};
use crate::parts::{Drawn, partial};
use flu_deps::Checked;
use flu_model::Program;
use flu_receiving::{PartialFault, read_partial};
use std::alloc::Global;
use std::process::Abort;
use std::test::Fail;

/// Whether some bytes are read as a partial.
fn is_read(alloc: Global, program: &Program, bytes: &[u8]) -> bool {
    read_partial(alloc, program, bytes).is_ok()
}

/// Each proper prefix is refused: where it ends within a line or before the last one, as incomplete.
fn cut<R: Abort>(rt: &R, alloc: Global, program: &Program, text: &str) -> Result<(), Fail> {
    let bytes = text.as_bytes();
    assert!(rt; is_read(alloc, program, bytes));
    for end in 0..bytes.len() {
        let Err(fault) = read_partial(alloc, program, &bytes[..end]) else {
            assert!(rt; false, "{end}");
            return Ok(());
        };
        assert_eq!(rt; fault, PartialFault::Incomplete, "{end}");
    }
    Ok(())
}

/// The lines of a text, of which the one with this number stands where another stood: twice, if that stays too.
fn with_line(
    alloc: Global,
    text: &str,
    from: usize,
    to: usize,
    is_twice: bool,
) -> Result<String, Fail> {
    let mut changed = String::new(alloc);
    let moved = text.lines().nth(from).unwrap_or("");
    for (number, line) in text.lines().enumerate() {
        if number == to {
            writeln!(changed, "{moved}")?;
        }
        if number != from || is_twice {
            writeln!(changed, "{line}")?;
        }
    }
    Ok(changed)
}

/// Each line that stands before the one before it, and each that stands twice, is refused at the first place where that is seen.
fn moved<R: Abort>(rt: &R, alloc: Global, program: &Program, text: &str) -> Result<(), Fail> {
    let count = text.lines().count();
    for from in 1..count {
        let to = from.saturating_sub(1);
        let swapped = with_line(alloc, text, from, to, false)?;
        assert!(rt;
            !is_read(alloc, program, swapped.as_bytes()),
            "swapped {from}"
        );
        let doubled = with_line(alloc, text, from, from, true)?;
        assert!(rt;
            !is_read(alloc, program, doubled.as_bytes()),
            "doubled {from}"
        );
    }
    Ok(())
}

/// The job, and the text that a node sends of rows that a seed draws.
fn sent<R: Abort>(rt: &R, alloc: Global, seed: u32, w: u32) -> Result<(Checked, String), Fail>
    requires { seed < 2 ^ 31 }
{
    let both = judged(alloc, STATIONS)?;
    assert!(rt; both.is_some());
    let (checked, valid) = both.unwrap();
    let drawn = Drawn {
        case: STATIONS,
        seed,
    };
    let bytes = partial(alloc, drawn, &checked, &valid, w)?;
    let text = str::from_utf8(bytes.as_slice());
    assert!(rt; text.is_ok());
    let text = String::from_str(alloc, text.unwrap())?;
    Ok((checked, text))
}

#[test]
fn a_text_that_is_cut(rt: HostRuntime) -> Result<(), Fail> {
    for seed in 0..6 {
        let (checked, text) = sent(&rt, rt.alloc(), seed, 1)?;
        cut(&rt, rt.alloc(), checked.program(), text.as_str())?;
    }
    Ok(())
}

#[test]
fn lines_in_another_order(rt: HostRuntime) -> Result<(), Fail> {
    let mut long = 0u32;
    for seed in 0..6 {
        let (checked, text) = sent(&rt, rt.alloc(), seed, 2)?;
        moved(&rt, rt.alloc(), checked.program(), text.as_str())?;
        if text.lines().count() > 2 {
            long = long.saturating_add(1);
        }
    }
    assert!(&rt; long > 2, "{long}");
    Ok(())
}
