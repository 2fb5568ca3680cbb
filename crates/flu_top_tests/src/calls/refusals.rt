//! Calls that are refused: words, jobs, plans and sources with a fault.

use super::scripts::play;
use std::test::Fail;

/// No words at all, words that no command begins with, and words that a command does not take.
const WORDS: &str = "@ $ \n@ $ checks J
@ = 2 flumina: bad words at 0
@ $ fold
@ $ check
@ $ check -J
@ $ valid
@ $ valid -J P
@ $ plan
@ $ plan --depth 3
@ $ run
@ $ run -J
@ $ simulate
@ $ demo
@ $ demo 1000001 1
@ = 2 flumina: bad words at 1
@ $ fold J x
@ $ check J x
@ $ valid J
@ $ valid J \n@ $ plan J x
@ $ run J -P
@ $ simulate J
@ $ demo 1
@ $ demo 1 2147483648
@ = 2 flumina: bad words at 2
@ $ valid J P x
@ $ plan J --depth
@ $ plan J --depth 7
@ $ plan J --depth -1
@ $ plan J --depth 00000000003
@ $ plan J --depth \n@ $ plan J --depth 4294967297
@ $ run J P x
@ $ simulate J P
@ $ simulate J P -1
@ $ simulate J P 2147483648
@ $ demo 1 1 x
@ = 2 flumina: bad words at 3
@ $ plan J --depth 3 x
@ $ simulate J P 1 x
@ = 2 flumina: bad words at 4
";

#[test]
fn words_that_are_no_command(rt: HostRuntime) -> Result<(), Fail> {
    play(&rt, rt.alloc(), WORDS)
}

/// Texts that are not a job, and jobs that are not accepted, under all commands that want one.
const JOBS: &str = "@ J|cell count sum $
@ $ fold J
@ $ check J
@ $ valid J P
@ $ plan J
@ $ run J P
@ $ run J
@ $ simulate J P 1
@ = 3 flumina: job: bad token at 15
@ J|cell count
@ $ fold J
@ $ check J
@ $ valid J P
@ $ plan J
@ $ run J P
@ $ run J
@ $ simulate J P 1
@ = 3 flumina: job: unexpected at 10
@ J|on inc: clear count
@ $ fold J
@ $ check J
@ $ valid J P
@ $ plan J
@ $ run J P
@ $ run J
@ $ simulate J P 1
@ = 3 flumina: job: unknown name at 3
@ J|cell a sum cell a max
@ $ fold J
@ $ check J
@ $ valid J P
@ $ plan J
@ $ run J P
@ $ run J
@ $ simulate J P 1
@ = 3 flumina: job: twice named at 16
@ J|cell m max tag t none on t: add m 1
@ $ fold J
@ $ check J
@ $ valid J P
@ $ plan J
@ $ run J P
@ $ run J
@ $ simulate J P 1
@ = 3 flumina: job: wrong shape at 32
@ J
version 4
cell c sum
@ $ fold J
@ $ check J
@ $ valid J P
@ $ plan J
@ $ run J P
@ $ run J
@ $ simulate J P 1
@ = 3 flumina: job: wrong shape at 8
@ J|tag t keyed int source s \"s.csv\": t[0..256]
@ $ fold J
@ $ check J
@ $ valid J P
@ $ plan J
@ $ run J P
@ $ run J
@ $ simulate J P 1
@ = 3 flumina: job: over limit itags 257
@ J
cell count sum
tag inc int
tag read none
depends inc read
depends read read
on inc: add count value
on read: emit \"count {count}\"; clear count
source a \"a.csv\" rate 1000 slack 60001: inc
source b \"b.csv\" rate 1000: inc
source c \"c.csv\" rate 1: read
@ $ fold J
@ $ check J
@ $ valid J P
@ $ plan J
@ $ run J P
@ $ run J
@ $ simulate J P 1
@ = 3 flumina: job: over limit slack 60001
@ J|cell c sum tag t int on t: add c (((((((((((((((((((((((((((((((((((((((((((((((((((((((((((((((((
@ $ fold J
@ $ check J
@ $ valid J P
@ $ plan J
@ $ run J P
@ $ run J
@ $ simulate J P 1
@ = 3 flumina: job: over limit nesting 65
@ J
cell count sum
tag inc int
tag read none
depends inc read
on inc: add count value
on read: emit \"count {count}\"; clear count
source a \"a.csv\" rate 1000: inc
source b \"b.csv\" rate 1000: inc
source c \"c.csv\" rate 1: read
@ $ check J
@ $ valid J P
@ $ plan J
@ $ run J P
@ $ run J
@ $ simulate J P 1
@ = 4 flumina: conflict: read and read on count
@ J
cell count sum
tag inc int
tag read none
depends read read
on inc: add count value
on read: emit \"count {count}\"; clear count
source a \"a.csv\" rate 1000: inc
source b \"b.csv\" rate 1000: inc
source c \"c.csv\" rate 1: read
@ $ check J
@ $ valid J P
@ $ plan J
@ $ run J P
@ $ run J
@ $ simulate J P 1
@ = 4 flumina: conflict: inc and read on count
@ J
cell count sum
cell zip keyed last
tag update keyed int
on update: add count value; set zip[key] value
source app \"app.csv\": update[3..9]
@ $ check J
@ $ valid J P
@ $ plan J
@ $ run J P
@ $ run J
@ $ simulate J P 1
@ = 4 flumina: conflict: update[3] and update[3] on zip[3]
@ J
cell price last
cell vol sum
tag quote int
tag trade int
tag shut none
depends quote quote
depends quote trade
depends trade shut
depends shut shut
on quote: set price value
on trade: add vol value * price; emit \"at {price}\"
on shut: emit \"vol {vol}\"; clear vol
source q \"q.csv\" rate 1: quote
source t1 \"t1.csv\" rate 100: trade
source t2 \"t2.csv\" rate 100: trade
source s \"s.csv\" rate 1: shut
@ $ check J
@ $ valid J P
@ $ plan J
@ $ run J P
@ $ run J
@ $ simulate J P 1
@ = 4 flumina: conflict: trade and trade on price
";

#[test]
fn jobs_with_a_fault_or_a_conflict(rt: HostRuntime) -> Result<(), Fail> {
    play(&rt, rt.alloc(), JOBS)
}

/// Texts that are not a plan and plans that are not valid, before the sources are read; and a plan in the job's file, whose bytes are
/// read by then.
const PLANS: &str = "@ P
node a: -> b b
node b: inc, read
@ $ valid J P
@ $ run J P
@ $ simulate J P 1
@ = 5 flumina: plan: not a tree at b
@ P
node a: foo
@ $ valid J P
@ $ run J P
@ $ simulate J P 1
@ = 5 flumina: plan: unknown name at 8
@ P
@ $ valid J P
@ $ run J P
@ $ simulate J P 1
@ = 5 flumina: plan: unexpected at 0
@ P|node a: $
@ $ valid J P
@ $ run J P
@ $ simulate J P 1
@ = 5 flumina: plan: bad token at 8
@ P|node a: inc[65536]
@ $ valid J P
@ $ run J P
@ $ simulate J P 1
@ = 5 flumina: plan: over limit key 65536
@ P
node n0: -> n1 m1
node n1: -> n2 m2
node n2: -> n3 m3
node n3: -> n4 m4
node n4: -> n5 m5
node n5: -> n6 m6
node n6: -> n7 m7
node n7:
node m7:
node m6:
node m5:
node m4:
node m3:
node m2:
node m1:
@ $ valid J P
@ $ run J P
@ $ simulate J P 1
@ = 5 flumina: plan: over limit depth 7
@ P
node root: read -> l r
node l: inc@a
node r:
@ $ valid J P
@ $ run J P
@ $ simulate J P 1
@ = 5 flumina: plan: inc@b has no owner
@ P
node root: read -> l r
node l: inc
node r: inc@b
@ $ valid J P
@ $ run J P
@ $ simulate J P 1
@ = 5 flumina: plan: inc@b has two owners, l and r
@ P
node root: -> l r
node l: read
node r: inc
@ a.csv
1,inc
@ $ valid J P
@ $ run J P
@ $ simulate J P 1
@ = 5 flumina: plan: clash of read@c at l and inc@a at r
@ J
cell views keyed sum
cell zip keyed last
tag view keyed int
tag update keyed int
tag tick none
depends update update same
depends view tick
depends tick tick
on view: add views[key] value
on update: emit \"was {zip[key]}\"; set zip[key] value
on tick: flush views \"page {key} views {cell}\"
source web \"web.csv\" rate 1000: view[0..9]
source app \"app.csv\" rate 500: view[0..9], update[0..9]
source clock \"clock.csv\" rate 1: tick
@ P
node n: view, tick, update[0..6], update[8..9]
@ $ valid J P
@ $ run J P
@ $ simulate J P 1
@ = 5 flumina: plan: update[7]@app has no owner
@ d.csv
@ $ valid J J
@ = 5 flumina: plan: unexpected at 0
";

#[test]
fn plans_with_a_fault(rt: HostRuntime) -> Result<(), Fail> {
    play(&rt, rt.alloc(), PLANS)
}

/// Rows that are out of order, that come after the end or that are not rows, and sources without an end; rows that come too late; and a
/// job and a plan that are named as a source, whose bytes are read by then.
const SOURCES: &str = "@ a.csv
1,inc,5
1,inc,6
end
@ b.csv
end
@ c.csv
3,read
end
@ $ fold J
@ $ run J P
@ $ run J
@ $ simulate J P 1
@ = 6 flumina: source a row 2: disordered, last 1, got 1
@ b.csv
2,inc,7
@ $ fold J
@ $ run J P
@ $ run J
@ $ simulate J P 1
@ = 6 flumina: source b row 2: unclosed
@ c.csv
3,read
end
4,read
@ $ fold J
@ $ run J P
@ $ run J
@ $ simulate J P 1
@ = 6 flumina: source c row 3: after end
@ b.csv
2,inc,7
@ c.csv
3,read
@ $ fold J
@ $ run J P
@ $ run J
@ $ simulate J P 1
@ = 6 flumina: source b row 2: unclosed
@ a.csv
1,inc
end
@ $ fold J
@ $ run J P
@ $ run J
@ $ simulate J P 1
@ = 6 flumina: source a row 1: bad row
@ a.csv
x,inc,1
end
@ $ fold J
@ $ run J P
@ $ run J
@ $ simulate J P 1
@ = 6 flumina: source a row 1: bad row
@ a.csv
9223372036854775808,inc,1
@ b.csv
end
@ c.csv
end
@ $ fold J
@ $ run J P
@ $ run J
@ $ simulate J P 1
@ = 6 flumina: source a row 1: bad row
@ a.csv
1,read
end
@ $ fold J
@ $ run J P
@ $ run J
@ $ simulate J P 1
@ = 6 flumina: source a row 1: unknown tag
@ J
cell count sum
tag inc int
tag read none
depends inc read
depends read read
on inc: add count value
on read: emit \"count {count}\"; clear count
source a \"a.csv\" rate 1000 slack 3: inc
source b \"b.csv\" rate 1000: inc
source c \"c.csv\" rate 1: read
@ a.csv
4,inc,2
1,inc,5
end
@ $ fold J
@ $ run J P
@ $ run J
@ $ simulate J P 1
@ = 6 flumina: source a row 2: disordered, last 4, got 1
@ J
cell count sum
tag inc int
tag read none
depends inc read
depends read read
on inc: add count value
on read: emit \"count {count}\"; clear count
source a \"a.csv\" rate 1000 slack 4: inc
source b \"b.csv\" rate 1000: inc
source c \"c.csv\" rate 1: read
@ a.csv
4,inc,2
4,inc,5
end
@ $ fold J
@ $ run J P
@ $ run J
@ $ simulate J P 1
@ = 6 flumina: source a row 2: disordered, last 4, got 4
@ J
cell count sum
tag inc int
on inc: add count value
source a \"J\": inc
@ $ fold J
@ $ run J
@ = 6 flumina: source a row 1: unclosed
@ a.csv
node root: read -> l r
node l: inc@a
node r: inc@b
@ $ run J a.csv
@ = 6 flumina: source a row 1: unclosed
";

#[test]
fn sources_with_a_defect(rt: HostRuntime) -> Result<(), Fail> {
    play(&rt, rt.alloc(), SOURCES)
}
