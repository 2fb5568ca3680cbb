//! Jobs of version 3 that seeds draw: actions are put together from pieces, and tags depend on each other where `check` asks for it.

use crate::draws::Draws;
use flu_check::{CheckFault, check};
use flu_model::Tag;
use flu_parse::read_job;
use std::alloc::{AllocError, Global};
use std::test::Fail;

/// How the report shows times.
const VERSIONS: &str = "version 3
version 3 ties 2
version 3 ties 3 iso seconds
version 3 iso milliseconds";

/// Three keyed families and a single cell, and the kinds in the order of `KINDS`. The last one prints all cells. The names of a list are the
/// items that rows may have, so each of them is another number where the list names it.
const HEAD: &str = r#"
names towns: "65535", "64", "0", "5000", "2", "1", "63", "3"
cell s keyed by towns sum
cell m keyed max
cell l keyed by towns last
cell t sum
tag tick none
tag mark item by towns none
tag hit item int
tag trip keyed item int
tag done none
on done: emit "t {t}"; flush s "s {key} {cell} {m} {l}"; flush m "m {key} {cell} {l}"; flush l "l {key} {cell}"
"#;

/// The first four have drawn actions. Each of them has what the one before it has, and more: nothing, an item, a value, a key.
const KINDS: [&str; 5] = ["tick", "mark", "hit", "trip", "done"];

/// Changes that commute, without their numbers, by what a kind needs for them: nothing, an item, a value, a key.
const CHANGES: [&str; 4] = [
    "add t
add s[2]
raise m[3]",
    "add s[item]
raise m[item]",
    "add s[item]
raise m[item]",
    "add s[key]
raise m[key]",
];

/// Numbers without cells, some with a guard, by what a kind needs for them.
const NUMBERS: [&str; 4] = [
    "1
time % 5 - 2
7 / (time % 3)
0 - 9223372036854775807 when time % 2",
    "item
item % 7
5 / item
item * item - 4000",
    "value
value / 3
(- value) % 3
value % (value / 2)
item / value
value * value
value when value < 0
value / item when not value % item",
    "value / key
key % item
(key - value) / (item - 3)",
];

/// Actions that read cells or overwrite them, by what a kind needs for them.
const DEEDS: [&str; 4] = [
    r#"clear s
clear m
clear l
clear t
clear s[2]
set l[2] t % 9
add t s[3] / m[2]
emit "{t} {s[2]} {m[3]} {l[2]}"
flush s "s {key} {cell} {m} {l} {t}"
flush m "m {key} {cell} {s} {time}"
flush l "l {key} {cell} {m} {l}""#,
    r#"set l[item] item
clear l[item]
clear s when has l[item]
add t s[item] / m[item]
raise m[item] t % s[item]
emit "{item} {s[item]} {l[item]}"
flush s "{item}: {key} {cell} {s} {m}"
flush l "{item} {t}: {key} {cell}""#,
    r#"set l[item] value
set l[3] value / item
add t l[item] % value
clear m when m[item] > value
emit "{value} {m[item]} {t}"
flush m "{value} {item}: {key} {cell} {l}""#,
    r#"set l[key] value
clear m[key]
clear s when key == item
emit "{key} {s[key]} {l[item]}"
flush s "{value}: {key} {cell} {l}""#,
];

/// The periods of clocks: between most rows, at some of them, and behind all of them alone.
const PERIODS: &str = "3
20
100
400";

/// A piece of a table that a kind may have.
fn piece(draws: &mut Draws, table: &[&'static str; 4], kind: u32) -> &'static str {
    let class = draws.below(kind.saturating_add(1));
    match table.get(class as usize) {
        Some(text) => draws.line(text),
        None => "",
    }
}

/// An action of a kind; one that commutes with itself and others if the kind is to share its cells.
fn action(alloc: Global, draws: &mut Draws, kind: u32, shares: bool) -> Result<String, AllocError> {
    if !shares && draws.below(3) > 0 {
        return String::from_str(alloc, piece(draws, &DEEDS, kind));
    }
    let change = piece(draws, &CHANGES, kind);
    let number = piece(draws, &NUMBERS, kind);
    format!(in alloc; "{change} {number}")
}

/// The actions of a kind, one to three.
fn actions(alloc: Global, draws: &mut Draws, kind: u32) -> Result<String, AllocError> {
    let name = name_of(kind);
    let shares = kind > 0 && draws.below(3) > 0;
    let first = action(alloc, draws, kind, shares)?;
    let mut text = format!(in alloc; "on {name}: {first}")?;
    for _ in 0..draws.below(3) {
        let next = action(alloc, draws, kind, shares)?;
        write!(text, "; {next}")?;
    }
    text.push_str("\n")?;
    Ok(text)
}

fn name_of(kind: u32) -> &'static str {
    KINDS.get(kind as usize).map_or("", |name| *name)
}

/// The line of a clock whose ticks have this tag, or none.
fn clock(alloc: Global, draws: &mut Draws, name: &str, tag: &str) -> Result<String, AllocError> {
    if draws.below(3) == 0 {
        return Ok(String::new(alloc));
    }
    let every = draws.line(PERIODS);
    format!(in alloc; "clock {name} every {every}: {tag}\n")
}

/// A job with drawn actions, whose sources have these slacks, with clocks in front of them and behind them.
pub fn drawn_job(alloc: Global, draws: &mut Draws, slacks: [u32; 3]) -> Result<String, AllocError> {
    let [a, b, c] = slacks;
    let mut job = String::from_str(alloc, draws.line(VERSIONS))?;
    job.push_str(HEAD)?;
    for kind in 0..4 {
        job.push_str(&actions(alloc, draws, kind)?)?;
    }
    job.push_str(&clock(alloc, draws, "early", "tick")?)?;
    write!(job, "source a \"a\" rate 100 slack {a}: hit, trip[0..1]\n")?;
    write!(
        job,
        "source b \"b\" rate 100 slack {b}: hit, trip[1..2], mark\n"
    )?;
    write!(job, "source c \"c\" rate 1 slack {c}: tick, mark, done\n")?;
    job.push_str(&clock(alloc, draws, "late", "done")?)?;
    Ok(job)
}

/// The dependency of two tags that conflict: first that of tags with the same key.
fn dependency(alloc: Global, job: &str, a: Tag, b: Tag) -> Result<String, AllocError> {
    let of_trips = a.kind == 3 && b.kind == 3;
    let same = if of_trips && !job.contains("trip same") {
        " same"
    } else {
        ""
    };
    let a = name_of(a.kind);
    let b = name_of(b.kind);
    format!(in alloc; "depends {a} {b}{same}\n")
}

/// The dependency that `check` asks for; none if the job is accepted.
fn asked(alloc: Global, job: &str) -> Result<Option<String>, Fail> {
    match check(read_job(alloc, job.as_bytes())?) {
        Ok(_) => Ok(None),
        Err(CheckFault { a, b, .. }) => Ok(Some(dependency(alloc, job, a, b)?)),
    }
}

/// As many dependencies as five kinds can have, one of them for equal keys and for all.
const MOST: u32 = 16;

/// Adds the dependencies that `check` asks for, one after another.
pub fn accept(alloc: Global, job: &mut String) -> Result<(), Fail> {
    for _ in 0..MOST {
        let Some(line) = asked(alloc, job.as_str())? else {
            return Ok(());
        };
        job.push_str(&line)?;
    }
    Ok(())
}
