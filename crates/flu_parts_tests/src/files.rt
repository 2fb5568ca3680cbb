//! Partials in files: what each node writes, combined with the sources of all others, is the report of the fold.

ghost use Rattle.std.specs.Prelude.{◌<◌, ◌^◌};
ghost use Rattle.flu_deps.specs.Checking.{program_of};
ghost use Rattle.flu_deps.specs.Validated.{IsValidFor};

use crate::cases::{Case, HOURS, PAGES, STATIONS, files_of, judged};
use crate::parts::{Drawn, folded};
use flu_apart::{Reason, apart};
use flu_combine::{CombineFault, PartialDefect, combine};
use flu_deps::{Checked, Valid};
use flu_model::Text;
use flu_node_run::partial_of;
use flu_outside::{HonestFiles, MemSink};
use std::alloc::Global;
use std::process::Abort;
use std::test::Fail;

/// How many times rows are drawn for each case.
const SEEDS: u32 = 5;

/// The room of the report.
const ROOM: usize = 20_000;

/// Adds a file with the partial of a node, and its name to some names.
fn add_partial<R: Abort>(
    rt: &R,
    alloc: Global,
    drawn: Drawn,
    checked: &Checked,
    valid: &Valid,
    w: u32,
    files: &mut HonestFiles,
    names: &mut Vec<Text>,
) -> Result<(), Fail>
    requires valid { IsValidFor (program_of checked.now) valid.now }
{
    assert!(rt; w < valid.count(), "{w}");
    let mut sources = files_of(alloc, drawn.case, drawn.seed)?;
    let text = partial_of(alloc, &mut sources, checked, valid, w)?;
    let number = names.len();
    let name = format!(in alloc; "partial {number}")?;
    files.add(name.as_str(), text)?;
    names.push(Text::of(name))?;
    Ok(())
}

/// What combining the partials of some nodes answers and writes.
fn combined<R: Abort>(
    rt: &R,
    alloc: Global,
    drawn: Drawn,
    checked: &Checked,
    valid: &Valid,
    nodes: &[u32],
) -> Result<(Result<(), CombineFault>, MemSink), Fail>
    requires valid { IsValidFor (program_of checked.now) valid.now }
{
    let mut files = files_of(alloc, drawn.case, drawn.seed)?;
    let mut names = Vec::new(alloc);
    for w in nodes {
        add_partial(rt, alloc, drawn, checked, valid, *w, &mut files, &mut names)?;
    }
    assert!(rt; !names.is_empty());
    let mut out = MemSink::with_room(alloc, ROOM)?;
    let answer = combine(
        alloc,
        &mut files,
        &mut out,
        checked,
        valid,
        names.as_slice(),
    );
    Ok((answer, out))
}

/// Compares what is combined with the fold, for each list of nodes apart.
fn each_list<R: Abort>(rt: &R, alloc: Global, case: Case, seed: u32) -> Result<(), Fail>
    requires { seed < 2 ^ 31 }
{
    let both = judged(alloc, case)?;
    assert!(rt; both.is_some());
    let (checked, valid) = both.unwrap();
    let drawn = Drawn { case, seed };
    let wanted = folded(alloc, drawn, checked.program())?;
    for nodes in case.apart {
        let (answer, out) = combined(rt, alloc, drawn, &checked, &valid, nodes)?;
        assert!(rt; answer.is_ok(), "{nodes:?}, seed {seed}");
        assert!(rt;
            out.bytes() == wanted.as_str().as_bytes(),
            "{nodes:?}, seed {seed}"
        );
    }
    Ok(())
}

#[test]
fn partials_in_files(rt: HostRuntime) -> Result<(), Fail> {
    for seed in 0..SEEDS {
        each_list(&rt, rt.alloc(), STATIONS, seed)?;
        each_list(&rt, rt.alloc(), PAGES, seed)?;
    }
    Ok(())
}

#[test]
fn partials_beside_clocks(rt: HostRuntime) -> Result<(), Fail> {
    for seed in 0..SEEDS {
        each_list(&rt, rt.alloc(), HOURS, seed)?;
    }
    Ok(())
}

#[test]
fn a_clock_is_not_apart(rt: HostRuntime) -> Result<(), Fail> {
    let both = judged(rt.alloc(), HOURS)?;
    assert!(&rt; both.is_some());
    let (checked, valid) = both.unwrap();
    assert!(&rt; 0 < valid.count());
    assert!(&rt; matches!(apart(&checked, &valid, 0), Err(Reason::Clock(0))));
    Ok(())
}

#[test]
fn partials_of_one_node_twice(rt: HostRuntime) -> Result<(), Fail> {
    let alloc = rt.alloc();
    let both = judged(alloc, STATIONS)?;
    assert!(&rt; both.is_some());
    let (checked, valid) = both.unwrap();
    let drawn = Drawn {
        case: STATIONS,
        seed: 1,
    };
    let (answer, out) = combined(&rt, alloc, drawn, &checked, &valid, &[2, 1, 2])?;
    assert!(&rt;
        matches!(
            answer,
            Err(CombineFault::Partial(2, PartialDefect::Twice(2)))
        )
    );
    assert!(&rt; out.bytes().is_empty());
    Ok(())
}
