//! Jobs with plans, nodes that may be apart, and rows that a seed draws.

ghost use Rattle.std.specs.Prelude.{◌<◌, ◌^◌, IfOk, IfSome};
ghost use Rattle.flu_deps.specs.Checking.{program_of};
ghost use Rattle.flu_deps.specs.Validated.{IsValidFor};

use flu_check::check;
use flu_deps::{Checked, Valid};
use flu_draw::{draw_of, next_draw};
use flu_outside::HonestFiles;
use flu_parse::read_job;
use flu_plan::read_plan;
use flu_valid::validate;
use std::alloc::{AllocError, Global};
use std::test::Fail;

/// A source's file, and the lines of which its rows are drawn: what is behind the time, with `#` in place of a value.
pub type Source = (&'static str, &'static str);

/// A job and a plan, nodes that may be apart, and the sources.
#[derive(Clone, Copy)]
pub struct Case {
    pub job: &'static str,
    pub plan: &'static str,
    /// Lists of nodes, none within another.
    pub apart: &'static [&'static [u32]],
    /// How many rows of a source have one time, one or more.
    pub ties: u32,
    pub sources: &'static [Source],
}

/// Each station's rides and minutes, of which a long total is printed at once; a day prints the rides.
pub const STATIONS: Case = Case {
    job: "cell rides keyed sum
cell minutes keyed sum
tag ride keyed int
tag day none
depends ride ride same
depends ride day
depends day day
on ride: add rides[key] 1; add minutes[key] value; emit \"station {key}: {minutes[key]} minutes\" when minutes[key] > 30
on day: flush rides \"station {key}: {cell} rides\"
source north \"north\": ride[1]
source south \"south\": ride[2..3]
source clock \"clock\": day
",
    plan: "node root: day -> left right
node left: ride@north
node right: ride@south
",
    apart: &[&[1], &[2], &[1, 2], &[0]],
    ties: 1,
    sources: &[
        ("north", "ride[1],#"),
        ("south", "ride[2],#\nride[3],#"),
        ("clock", "day"),
    ],
};

/// Maxima and sums by item, which two sources add to, and a third one prints; each source has three rows at a time.
pub const ITEMS: Case = Case {
    job: "version 3 ties 3
cell hits keyed sum
cell top keyed max
tag hit item int
tag tick none
depends hit tick
depends tick tick
on hit: add hits[item] value; raise top[item] value
on tick: flush hits \"{key}: {cell}, at most {top}\"; clear top
source a \"a\": hit
source b \"b\": hit
source c \"c\": tick
",
    plan: "node root: tick -> l r
node l: hit@a
node r: hit@b
",
    apart: &[&[1], &[1, 2]],
    ties: 3,
    sources: &[
        ("a", "hit,0,#\nhit,63,#\nhit,65535,#"),
        ("b", "hit,0,#\nhit,64,#"),
        ("c", "tick"),
    ],
};

/// Views of pages that a tick prints, and the codes of users, of whom some are at a leaf.
pub const PAGES: Case = Case {
    job: "cell views keyed sum
cell zip keyed last
tag view keyed int
tag update keyed int
tag tick none
depends update update same
depends view tick
depends tick tick
on view: add views[key] value
on update: emit \"was {zip[key]}\"; set zip[key] value
on tick: flush views \"page {key} views {cell}\"
source web \"web\": view[0..3], update[0..1]
source app \"app\": view[0..3], update[2..3]
source clock \"clock\": tick
",
    plan: "node root: tick -> few rest
node few: update@web, view@web
node rest: -> mine views
node mine: update@app
node views: view@app
",
    apart: &[&[1], &[2], &[1, 3, 4], &[1, 2], &[3]],
    ties: 1,
    sources: &[
        ("web", "view[0],#\nview[3],#\nupdate[0],#\nupdate[1],#"),
        ("app", "view[1],#\nview[3],#\nupdate[2],#\nupdate[3],#"),
        ("clock", "tick"),
    ],
};

/// Rides that two clocks print, one declared before the sources and one behind them: both tick behind the rows of all sources.
pub const HOURS: Case = Case {
    job: "version 3 ties 3
cell rides keyed sum
cell top keyed max
tag ride keyed int
tag hour none
tag day none
depends ride hour
depends ride day
depends hour hour
depends day day
on ride: add rides[key] value; raise top[key] value
on hour: flush top \"station {key}: at most {cell}\"
on day: flush rides \"station {key}: {cell}\"
clock hours every 5: hour
source north \"north\": ride[1]
source south \"south\": ride[2..3]
clock days every 7: day
",
    plan: "node root: hour, day -> left right
node left: ride@north
node right: ride@south
",
    apart: &[&[1], &[2], &[1, 2]],
    ties: 3,
    sources: &[("north", "ride[1],#"), ("south", "ride[2],#\nride[3],#")],
};

/// A job that is accepted, and a plan that is valid for it; none if one of the two is not.
pub fn judged(alloc: Global, case: Case) -> Result<Option<(Checked, Valid)>, Fail>
    ensures valid { IfOk result (λ both. IfSome both (λ b. IsValidFor (program_of b.0) b.1)) }
{
    let Ok(checked) = check(read_job(alloc, case.job.as_bytes())?) else {
        return Ok(None);
    };
    let Ok(plan) = read_plan(alloc, checked.program(), case.plan.as_bytes()) else {
        return Ok(None);
    };
    let Ok(valid) = validate(&checked, plan) else {
        return Ok(None);
    };
    Ok(Some((checked, valid)))
}

/// The files of the sources, with rows that a seed draws.
pub fn files_of(alloc: Global, case: Case, seed: u32) -> Result<HonestFiles, AllocError>
    requires { seed < 2 ^ 31 }
{
    let mut files = HonestFiles::new(alloc);
    let mut draws = Draws { last: seed };
    for (name, lines) in case.sources {
        let text = rows(alloc, &mut draws, case.ties, lines)?;
        files.add(name, text.as_bytes().to_vec(alloc)?)?;
    }
    Ok(files)
}

// The numbers that a seed draws, one after another.
#[derive(Drop)]
struct Draws {
    last: u32,
    ghost small: { last < 2 ^ 31 },
}

impl Draws {
    // A number below another one; 0 if that is 0.
    fn below(&mut self, most: u32) -> u32 {
        self.last = next_draw(self.last);
        draw_of(self.last).checked_rem(most).unwrap_or(0)
    }
}

// The rows of a source, this many at a time, with times that rise, some beats among them, and the end.
fn rows(alloc: Global, draws: &mut Draws, ties: u32, lines: &str) -> Result<String, AllocError> {
    let mut text = String::new(alloc);
    let mut time = 0u32;
    let count = draws.below(24);
    for number in 0..count {
        if number.checked_rem(ties) == Some(0) {
            time = time.saturating_add(draws.below(4)).saturating_add(1);
        }
        push_row(&mut text, draws, time, lines)?;
    }
    text.push_str("end\n")?;
    Ok(text)
}

// Appends a beat, or one of the lines with a drawn value in place of its mark.
fn push_row(
    text: &mut String,
    draws: &mut Draws,
    time: u32,
    lines: &str,
) -> Result<(), AllocError> {
    let count = u32::try_from(lines.lines().count()).unwrap_or(0);
    let drawn = draws.below(count.saturating_add(1));
    let Some(line) = lines.lines().nth(drawn as usize) else {
        write!(text, "{time},beat\n")?;
        return Ok(());
    };
    match line.split_once('#') {
        Some((front, _)) => {
            let value = draws.below(40);
            write!(text, "{time},{front}{value}\n")?;
        }
        None => {
            write!(text, "{time},{line}\n")?;
        }
    }
    Ok(())
}
