//! The input of a demo.

ghost use Rattle.std.specs.Prelude.{◌≤◌, ◌<◌, ◌^◌};

use crate::outcomes::report;
use flu_gen::{demo_job, demo_streams};
use flu_parse::{print_job, read_job};
use std::alloc::{AllocError, Global};
use std::test::Fail;

/// The demo's job as a text.
const JOB: &str = "cell views keyed sum
cell zip keyed last
tag view keyed int
tag update keyed int
tag tick none
depends update update same
depends view tick
depends tick tick
on view: add views[key] value
on update: emit \"was {zip[key]}\"; set zip[key] value
on tick: flush views \"page {key} views {cell}\"
source web \"web.csv\" rate 1000: view[0..9]
source app \"app.csv\" rate 500: view[0..9], update[0..9]
source clock \"clock.csv\" rate 1: tick
";

/// The report of a demo.
fn demo(alloc: Global, n: u32, seed: u32) -> Result<String, AllocError>
    requires few { n ≤ 1000000 }
    requires seed { seed < 2 ^ 31 }
{
    let p = demo_job(alloc)?;
    let streams = demo_streams(alloc, &p, n, seed)?;
    report(alloc, &p, &streams)
}

#[test]
fn the_job_is_its_text(rt: HostRuntime) -> Result<(), Fail> {
    let alloc = rt.alloc();
    let made = print_job(alloc, &demo_job(alloc)?)?;
    let read = print_job(alloc, &read_job(alloc, JOB.as_bytes())?)?;
    assert_eq!(rt; made.as_str(), JOB);
    assert_eq!(rt; read.as_str(), JOB);
    Ok(())
}

#[test]
fn demos_are_reported(rt: HostRuntime) -> Result<(), Fail> {
    let cases = [
        (0, 1, ""),
        (2, 1, "3,tick,page 2 views 38\n3,tick,page 9 views 58\n"),
        (
            10,
            1,
            "11,tick,page 0 views 51\n11,tick,page 1 views 27\n11,tick,page 2 views 51\n11,tick,page 3 views 31\n11,tick,page 4 views 15\n11,tick,page 5 views 86\n11,tick,page 8 views 10\n11,tick,page 9 views 58\n",
        ),
    ];
    for (n, seed, wanted) in cases {
        assert_eq!(rt;
            demo(rt.alloc(), n, seed)?.as_str(),
            wanted,
            "demo {n} {seed}"
        );
    }
    Ok(())
}
