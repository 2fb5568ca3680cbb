//! Clocks: sources without a file, whose ticks follow the rows of the files.

use super::scripts::{Wanted, check_call, play};
use std::alloc::{AllocError, Global};
use std::test::Fail;

/// Rides of two days by the names of their stations, with times as text, under all commands that read sources; what `check` prints; and the greedy plan.
const MIDNIGHTS: &str = "@ J
version 3 ties 1000 iso seconds
names stations: \"harbour\", \"market\", \"mill\"
cell rides keyed by stations sum
cell minutes keyed by stations sum
cell longest keyed by stations max
tag ride item by stations int
tag day none
depends ride day
depends day day
on ride: add rides[item] 1; add minutes[item] value; raise longest[item] value
on day: flush rides \"{key}: {cell} rides, {minutes} minutes, longest {longest}\"; clear minutes; clear longest
source north \"north.csv\" rate 1000: ride
source south \"south.csv\" rate 1000: ride
clock midnight every 86400: day
@ P
node root: day -> left right
node left: ride@north
node right: ride@south
@ ONE
node one: ride, day
@ T
arrive 0
arrive 0
arrive 0
arrive 0
arrive 1
arrive 1
arrive 1
arrive 1
arrive 2
arrive 2
arrive 2
handle 0
handle 0
handle 0
handle 0
handle 0
handle 0
handle 0
handle 0
@ north.csv
2026-03-02 08:05:00,ride,harbour,12
2026-03-02 08:50:00,ride,market,34
2026-03-02 08:50:00,ride,harbour,7
end
@ south.csv
2026-03-02 08:20:00,ride,mill,51
2026-03-02 09:20:00,ride,mill,18
2026-03-03 10:00:00,ride,mill,25
end
@ $ fold J
@ $ run J P
@ $ run J
@ $ run J P --round 1
@ $ run J P --round 2
@ $ run J --round 3
@ $ run J P --round 1 --save S
@ $ simulate J P S -> steps arrive 11 handle 8 ask 4 take 4 give 4 hold 6 lend 6 mark ..
@ $ replay J ONE T
@ = 0
2026-03-03T00:00:00Z,day,harbour: 2 rides, 19 minutes, longest 12
2026-03-03T00:00:00Z,day,market: 1 rides, 34 minutes, longest 34
2026-03-03T00:00:00Z,day,mill: 2 rides, 69 minutes, longest 51
2026-03-04T00:00:00Z,day,mill: 1 rides, 25 minutes, longest 25
@ $ check J
@ = 0
version 3 ties 1000 iso seconds
names stations: \"harbour\", \"market\", \"mill\"
cell rides keyed by stations sum
cell minutes keyed by stations sum
cell longest keyed by stations max
tag ride item by stations int
tag day none
depends ride day
depends day day
on ride: add rides[item] 1; add minutes[item] value; raise longest[item] value
on day: flush rides \"{key}: {cell} rides, {minutes} minutes, longest {longest}\"; clear minutes; clear longest
source north \"north.csv\" rate 1000: ride
source south \"south.csv\" rate 1000: ride
clock midnight every 86400 rate 1: day
@ $ plan J --depth 1
@ = 0
node n0: day@midnight -> n1 n2
node n1: ride@north
node n2: ride@south
";

#[test]
fn rides_up_to_each_midnight(rt: HostRuntime) -> Result<(), Fail> {
    play(&rt, rt.alloc(), MIDNIGHTS)
}

/// Which ticks there are: behind the first row, up to the first one behind all rows. Rows at the time of a tick are before it if their source is declared
/// before the clock, and behind it if it is declared after; a heartbeat is a row; without rows there is no tick. The clock `slow` has every second tick of
/// `quick`.
const TICKS: &str = "@ J
version 3
cell n sum
tag a none
tag t none
tag u none
depends a t
depends a u
depends t u
depends t t
depends u u
on a: add n 1
on t: emit \"{n}\"
on u: emit \"{n} slow\"; clear n
source early \"early.csv\": a
clock quick every 10: t
clock slow every 20: u
source late \"late.csv\": a
@ early.csv
10,a
11,a
end
@ late.csv
20,a
21,beat
end
@ $ fold J
@ $ run J
@ $ run J --round 1
@ $ run J --round 2
@ $ run J --round 7
@ = 0
10,t,1
20,t,2
20,u,2 slow
30,t,1
40,u,1 slow
@ J
version 3
cell n sum
tag a none
tag t none
tag u none
depends a t
depends a u
depends t u
depends t t
depends u u
on a: add n 1
on t: emit \"{n}\"
on u: emit \"{n} slow\"; clear n
source early \"early.csv\": a
clock quick every 10: t
clock slow every 20: u
source late \"late.csv\": a
@ early.csv
0,a
end
@ late.csv
end
@ $ fold J
@ $ run J --round 1
@ = 0
0,t,1
0,u,1 slow
@ J
version 3
cell n sum
tag a none
tag t none
tag u none
depends a t
depends a u
depends t u
depends t t
depends u u
on a: add n 1
on t: emit \"{n}\"
on u: emit \"{n} slow\"; clear n
source early \"early.csv\": a
clock quick every 10: t
clock slow every 20: u
source late \"late.csv\": a
@ early.csv
end
@ late.csv
0,a
end
@ $ fold J
@ $ run J --round 1
@ = 0
10,t,1
20,u,1 slow
@ J
version 3
cell n sum
tag a none
tag t none
tag u none
depends a t
depends a u
depends t u
depends t t
depends u u
on a: add n 1
on t: emit \"{n}\"
on u: emit \"{n} slow\"; clear n
source early \"early.csv\": a
clock quick every 10: t
clock slow every 20: u
source late \"late.csv\": a
@ early.csv
5,beat
end
@ late.csv
end
@ $ fold J
@ $ run J --round 1
@ = 0
10,t,0
20,u,0 slow
@ J
version 3
cell n sum
tag a none
tag t none
tag u none
depends a t
depends a u
depends t u
depends t t
depends u u
on a: add n 1
on t: emit \"{n}\"
on u: emit \"{n} slow\"; clear n
source early \"early.csv\": a
clock quick every 10: t
clock slow every 20: u
source late \"late.csv\": a
@ early.csv
end
@ late.csv
end
@ $ fold J
@ $ run J --round 1
@ = 0
@ early.csv
1000,a
end
@ late.csv
1,a
end
@ J
version 3
cell n sum
tag a none
tag t none
depends a t
depends t t
on a: add n 1
on t: emit \"{n}\" when time % 500 == 0
source early \"early.csv\": a
clock quick every 1: t
source late \"late.csv\": a
@ $ fold J
@ $ run J
@ $ run J --round 1
@ $ run J --round 7
@ = 0
500,t,1
1000,t,2
";

#[test]
fn ticks_follow_the_rows(rt: HostRuntime) -> Result<(), Fail> {
    play(&rt, rt.alloc(), TICKS)
}

/// A count of the rows of two sources, emitted by two clocks.
const COUNT: [(&str, &str); 3] = [
    (
        "J",
        "version 3
cell n sum
tag a none
tag t none
tag u none
depends a t
depends a u
depends t u
depends t t
depends u u
on a: add n 1
on t: emit \"{n}\"
on u: emit \"{n} slow\"; clear n
source early \"early.csv\" rate 1: a
clock quick every 10 rate 1: t
clock slow every 20 rate 1: u
source late \"late.csv\" rate 1: a
",
    ),
    ("early.csv", "10,a\n11,a\nend\n"),
    ("late.csv", "20,a\n21,beat\nend\n"),
];

/// What is written above a border, where the count is this there.
const ABOVE: [(u64, u32, &str); 4] = [
    (9, 0, "10,t,1\n20,t,2\n20,u,2 slow\n30,t,1\n40,u,1 slow\n"),
    (12, 2, "20,t,2\n20,u,2 slow\n30,t,1\n40,u,1 slow\n"),
    (20, 1, "30,t,1\n40,u,1 slow\n"),
    (35, 1, "40,u,1 slow\n"),
];

/// The checkpoint of that count at a border.
fn checkpoint(alloc: Global, border: u64, count: u32) -> Result<String, AllocError> {
    let [(_, job), _, _] = COUNT;
    let mut text = format!(in alloc; "{{\"border\":{border},\"cells\":[")?;
    if count > 0 {
        write!(text, "[\"n\",0,\"{count}\"]")?;
    }
    text.push_str("],\"job\":\"")?;
    for c in job.chars() {
        match c {
            '\n' => text.push_str("\\n")?,
            '"' => text.push_str("\\\"")?,
            other => text.push(other)?,
        }
    }
    text.push_str("\"}\n")?;
    Ok(text)
}

/// A run that is resumed has the ticks that it had, and runs those above the border: of one before the first tick, between two, at the time of one, and
/// behind all rows.
#[test]
fn resumed_runs_have_the_ticks_above_the_border(rt: HostRuntime) -> Result<(), Fail> {
    let alloc = rt.alloc();
    let [job, early, late] = COUNT;
    for (border, count, out) in ABOVE {
        let text = checkpoint(alloc, border, count)?;
        let files = [job, early, late, ("s", text.as_str())];
        for words in [
            "run J --resume s",
            "run J --round 1 --resume s",
            "run J --round 1 --save t --resume s",
        ] {
            let wanted = Wanted {
                status: 0,
                out,
                err: "",
            };
            check_call(&rt, alloc, &files, words, wanted)?;
        }
    }
    Ok(())
}

/// What is refused: a clock before version 3, a period out of range, a tag with a key, an item or a value, a tick too many, and a time behind which no tick
/// has a moment.
const REFUSED: &str = "@ J|tag t none clock c every 5: t
@ $ fold J
@ = 3 flumina: job: wrong shape at 11
@ J|version 3 tag t none clock c every 0: t
@ $ fold J
@ = 3 flumina: job: wrong shape at 35
@ J|version 3 tag t none clock c every 4611686018427387905: t
@ $ fold J
@ = 3 flumina: job: wrong shape at 35
@ J|version 3 tag t int clock c every 5: t
@ $ fold J
@ = 3 flumina: job: wrong shape at 37
@ J|version 3 tag t keyed none clock c every 5: t
@ $ fold J
@ = 3 flumina: job: wrong shape at 44
@ J|version 3 tag t item none clock c every 5: t
@ $ fold J
@ = 3 flumina: job: wrong shape at 43
@ J|version 3 tag t none clock c every 5: u
@ $ fold J
@ = 3 flumina: job: unknown name at 38
@ J|version 3 tag t none tag a none source s \"s.csv\": a clock c every 1: t
@ s.csv
0,a
16777215,a
end
@ $ fold J
@ = 6 flumina: source c row 16777215: too many, 16777217
@ J|version 3 tag t none tag a none source s \"s.csv\": a clock c every 4611686018427387904: t
@ s.csv
4611686018427387903,a
end
@ $ run J
@ = 6 flumina: source s row 1: bad row
";

#[test]
fn clocks_that_are_refused(rt: HostRuntime) -> Result<(), Fail> {
    play(&rt, rt.alloc(), REFUSED)
}
