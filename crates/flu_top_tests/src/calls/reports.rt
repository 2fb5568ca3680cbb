//! Calls that write a report: `fold`, `run`, `simulate` and `demo`.

use super::jobs::{COUNTED, REPORT};
use super::scripts::{Wanted, check_call, play};
use std::test::Fail;

/// Sums of two sources, sources without an event, by a tree of three nodes and by one of one, events at the same time, in both orders of
/// the sources, sums beyond 64 bits, last values, another plan, and equal lines.
const ROWS: &str = "@ $ fold J
@ $ run J P
@ $ run J
@ $ simulate J P S -> steps arrive 8 handle 5 ask 4 take 4 give 4 hold 6 lend 6 mark ..
@ = 0
3,read,count 12
5,read,count 2
@ a.csv
end
@ b.csv
end
@ c.csv
end
@ $ fold J
@ $ run J P
@ $ run J
@ $ simulate J P 1 -> steps arrive 3 handle 0 ask 0 take 0 give 0 hold 2 lend 2 mark 3995476782
@ = 0
@ P
node one: inc, read
@ a.csv
end
@ b.csv
end
@ c.csv
end
@ $ simulate J P 1 -> steps arrive 3 handle 0 ask 0 take 0 give 0 hold 0 lend 0 mark 2178
@ = 0
@ a.csv
3,inc,1
end
@ b.csv
end
@ c.csv
3,read
end
@ $ fold J
@ $ run J P
@ $ run J
@ $ simulate J P S -> steps arrive 5 handle 2 ask 2 take 2 give 2 hold 4 lend 4 mark ..
@ = 0
3,read,count 1
@ J
cell count sum
tag inc int
tag read none
depends inc read
depends read read
on inc: add count value
on read: emit \"count {count}\"; clear count
source c \"c.csv\" rate 1: read
source a \"a.csv\" rate 1000: inc
source b \"b.csv\" rate 1000: inc
@ a.csv
3,inc,1
end
@ b.csv
end
@ c.csv
3,read
end
@ $ fold J
@ $ run J P
@ $ run J
@ $ simulate J P S -> steps arrive 5 handle 2 ask 2 take 2 give 2 hold 4 lend 4 mark ..
@ = 0
3,read,count 0
@ a.csv
1,inc,9223372036854775807
2,inc,9223372036854775807
end
@ b.csv
end
@ c.csv
3,read
end
@ $ fold J
@ $ run J P
@ $ run J
@ $ simulate J P S -> steps arrive 6 handle 3 ask 2 take 2 give 2 hold 4 lend 4 mark ..
@ = 0
3,read,count 18446744073709551614
@ J
cell p last
cell q last
tag r int
tag r2 int
tag z none
depends r r
depends r2 r2
depends z z
depends r z
depends r2 z
on r: set p value; emit \"p {p}\"
on r2: set q value; emit \"q {q}\"
on z: emit \"z {p} {q}\"
source s1 \"s1.csv\" rate 1: r
source s2 \"s2.csv\" rate 1: r2
source s3 \"s3.csv\" rate 10: z
@ P
node root: r, r2 -> l e
node l: z
node e:
@ s1.csv
10,r,9
end
@ s2.csv
4,r2,7
end
@ s3.csv
5,z
end
@ $ fold J
@ $ run J P
@ $ run J
@ $ simulate J P S -> steps arrive 6 handle 3 ask 4 take 4 give 4 hold 6 lend 6 mark ..
@ = 0
4,r2,q 7
5,z,z none 7
10,r,p 9
@ P
node one: inc, read
@ $ fold J
@ $ run J P
@ $ run J
@ $ simulate J P S -> steps arrive 8 handle 5 ask 0 take 0 give 0 hold 0 lend 0 mark ..
@ = 0
3,read,count 12
5,read,count 2
@ J
cell count sum
tag inc int
tag read none
depends inc read
depends read read
on inc: add count value
on read: emit \"count {count}\"; clear count
source a \"a.csv\" rate 1000: inc
source b \"b.csv\" rate 1000: inc
source c \"c.csv\" rate 1: read
source d \"d.csv\": read
@ a.csv
end
@ b.csv
end
@ c.csv
3,read
end
@ d.csv
3,read
end
@ $ fold J
@ $ run J P
@ $ run J
@ $ simulate J P S -> steps arrive 6 handle 2 ask 4 take 4 give 4 hold 6 lend 6 mark ..
@ = 0
3,read,count 0
3,read,count 0
";

#[test]
fn fold_run_and_simulate_write_one_report(rt: HostRuntime) -> Result<(), Fail> {
    play(&rt, rt.alloc(), ROWS)
}

#[test]
fn a_hundred_seeds_write_one_report(rt: HostRuntime) -> Result<(), Fail> {
    let wanted = Wanted {
        status: 0,
        out: REPORT,
        err: "steps arrive 8 handle 5 ask 4 take 4 give 4 hold 6 lend 6 mark ..",
    };
    for seed in 0..100 {
        let words = format!(in rt.alloc(); "simulate J P {seed}")?;
        check_call(&rt, rt.alloc(), COUNTED, &words, wanted)?;
    }
    Ok(())
}

/// Jobs that only `fold` takes, a job without a line, quotes, line ends, empty lines and empty columns, maxima, values that are clamped,
/// reads that are shared, and rows that come late; and the summaries of three demos.
const OTHERS: &str = "@ J
cell count sum
tag inc int
tag read none
depends inc read
on inc: add count value
on read: emit \"count {count}\"; clear count
source a \"a.csv\" rate 1000: inc
source b \"b.csv\" rate 1000: inc
source c \"c.csv\" rate 1: read
@ $ fold J
@ = 0
3,read,count 12
5,read,count 2
@ J
cell count sum
tag inc int
tag read none
on inc: add count value
on read: emit \"count {count}\"; clear count
source a \"a.csv\": inc, read
@ a.csv
1,inc,5
2,inc,7
3,read
end
@ $ fold J
@ = 0
3,read,count 12
@ J
@ $ fold J
@ $ run J
@ = 0
@ a.csv
\"1\",inc,5\r
\r
4,inc,2,\r
end,,\r
@ $ fold J
@ $ run J
@ = 0
3,read,count 12
5,read,count 2
@ J
cell hi max
cell seen last
tag t int
depends t t
on t: raise hi value when value > 2; set seen value; emit \"hi {hi} seen {seen}\"
source s \"s.csv\" rate 1: t
@ s.csv
1,t,1
2,t,5
3,t,-4
end
@ $ fold J
@ $ run J
@ = 0
1,t,hi none seen 1
2,t,hi 5 seen 5
3,t,hi 5 seen -4
@ J
cell hi max
cell seen last
tag t int
depends t t
on t: raise hi value when value > 2; set seen value * 2; emit \"hi {hi} seen {seen}\"
source s \"s.csv\" rate 1: t
@ s.csv
1,t,9223372036854775807
end
@ $ fold J
@ $ run J
@ = 0
1,t,hi 9223372036854775807 seen 9223372036854775807
@ J
version 2
cell price last
cell vol sum
tag quote int
tag trade int
tag shut none
depends quote quote
depends quote trade
depends trade shut
depends shut shut
on quote: set price value
on trade: add vol value * price; emit \"at {price}\"
on shut: emit \"vol {vol}\"; clear vol
source q \"q.csv\" rate 1: quote
source t1 \"t1.csv\" rate 100: trade
source t2 \"t2.csv\" rate 100: trade
source s \"s.csv\" rate 1: shut
@ q.csv
1,quote,10
5,quote,20
end
@ t1.csv
2,trade,3
6,trade,1
end
@ t2.csv
3,trade,4
end
@ s.csv
4,shut
7,shut
end
@ $ fold J
@ $ run J
@ = 0
2,trade,at 10
3,trade,at 10
4,shut,vol 70
6,trade,at 20
7,shut,vol 20
@ J
version 2
cell price sum
cell vol sum
tag quote int
tag trade int
tag shut none
depends quote quote
depends quote trade
depends trade shut
depends shut shut
on quote: clear price; add price value
on trade: add vol value * price; emit \"at {price}\"
on shut: emit \"vol {vol}\"; clear vol
source q \"q.csv\" rate 1: quote
source t1 \"t1.csv\" rate 100: trade
source t2 \"t2.csv\" rate 100: trade
source s \"s.csv\" rate 1: shut
@ q.csv
1,quote,10
end
@ t1.csv
2,trade,3
6,trade,1
end
@ t2.csv
3,trade,4
end
@ s.csv
4,shut
7,shut
end
@ $ fold J
@ = 0
2,trade,at 10
3,trade,at 10
4,shut,vol 70
6,trade,at 10
7,shut,vol 10
@ J
cell count sum
tag inc int
tag read none
depends inc read
depends read read
on inc: add count value
on read: emit \"count {count}\"; clear count
source a \"a.csv\" rate 1000 slack 4: inc
source b \"b.csv\" rate 1000: inc
source c \"c.csv\" rate 1: read
@ a.csv
4,inc,2
1,inc,5
end
@ $ fold J
@ $ run J
@ = 0
3,read,count 12
5,read,count 2
@ $ demo 0 1
@ = 0
demo events 1 lines 0 bytes 0
@ $ demo 2 1
@ = 0
demo events 3 lines 2 bytes 46
@ $ demo 10 1
@ = 0
demo events 11 lines 8 bytes 192
@ $ demo 100000 1
@ = 0
demo events 100101 lines 7220 bytes 170546
";

#[test]
fn other_jobs_and_rows(rt: HostRuntime) -> Result<(), Fail> {
    play(&rt, rt.alloc(), OTHERS)
}
