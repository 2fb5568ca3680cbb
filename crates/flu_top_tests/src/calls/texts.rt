//! Calls that write a text of a job or of a plan: `check`, `valid` and `plan`.

use super::scripts::play;
use std::test::Fail;

/// What they write of the count of two sources is in `devices.rt`.
const TEXTS: &str = "@ J
cell p last
cell q last
tag r int
tag r2 int
tag z none
depends r r
depends r2 r2
depends z z
depends r z
depends r2 z
on r: set p value; emit \"p {p}\"
on r2: set q value; emit \"q {q}\"
on z: emit \"z {p} {q}\"
source s1 \"s1.csv\" rate 1: r
source s2 \"s2.csv\" rate 1: r2
source s3 \"s3.csv\" rate 10: z
@ $ check J
@ = 0
cell p last
cell q last
tag r int
tag r2 int
tag z none
depends r r
depends r2 r2
depends z z
depends r z
depends r2 z
on r: set p value; emit \"p {p}\"
on r2: set q value; emit \"q {q}\"
on z: emit \"z {p} {q}\"
source s1 \"s1.csv\" rate 1: r
source s2 \"s2.csv\" rate 1: r2
source s3 \"s3.csv\" rate 10: z
@ J
cell hi max
cell seen last
tag t int
depends t t
on t: raise hi value when value > 2; set seen value; emit \"hi {hi} seen {seen}\"
source s \"s.csv\" rate 1: t
@ $ check J
@ = 0
cell hi max
cell seen last
tag t int
depends t t
on t: raise hi value when (value > 2); set seen value; emit \"hi {hi} seen {seen}\"
source s \"s.csv\" rate 1: t
@ J
version 2
cell price last
cell vol sum
tag quote int
tag trade int
tag shut none
depends quote quote
depends quote trade
depends trade shut
depends shut shut
on quote: set price value
on trade: add vol value * price; emit \"at {price}\"
on shut: emit \"vol {vol}\"; clear vol
source q \"q.csv\" rate 1: quote
source t1 \"t1.csv\" rate 100: trade
source t2 \"t2.csv\" rate 100: trade
source s \"s.csv\" rate 1: shut
@ $ check J
@ = 0
version 2
cell price last
cell vol sum
tag quote int
tag trade int
tag shut none
depends quote quote
depends quote trade
depends trade shut
depends shut shut
on quote: set price value
on trade: add vol (value * price); emit \"at {price}\"
on shut: emit \"vol {vol}\"; clear vol
source q \"q.csv\" rate 1: quote
source t1 \"t1.csv\" rate 100: trade
source t2 \"t2.csv\" rate 100: trade
source s \"s.csv\" rate 1: shut
@ J
# one tag
tag t none source s \"J\" rate 07:t
@ $ check J
@ = 0
tag t none
source s \"J\" rate 7: t
@ J
@ $ check J
@ = 0
@ J
cell p last
cell q last
tag r int
tag r2 int
tag z none
depends r r
depends r2 r2
depends z z
depends r z
depends r2 z
on r: set p value; emit \"p {p}\"
on r2: set q value; emit \"q {q}\"
on z: emit \"z {p} {q}\"
source s1 \"s1.csv\" rate 1: r
source s2 \"s2.csv\" rate 1: r2
source s3 \"s3.csv\" rate 10: z
@ P
node root: r, r2 -> l e
node l: z
node e:
@ $ valid J P
@ = 0
node root: r, r2 -> l e
node l: z
node e:
@ P
# the right child first
node top:read->l r node r:@b node l :inc@a
@ $ valid J P
@ = 0
node top: read -> l r
node l: inc@a
node r: @b
@ $ plan J --depth 0
@ = 0
node n0: inc@a, inc@b, read@c
@ $ plan J --depth 0000000006
@ = 0
node n0: read@c -> n1 n2
node n1: inc@a
node n2: inc@b
@ J
version 2
cell price last
cell vol sum
tag quote int
tag trade int
tag shut none
depends quote quote
depends quote trade
depends trade shut
depends shut shut
on quote: set price value
on trade: add vol value * price; emit \"at {price}\"
on shut: emit \"vol {vol}\"; clear vol
source q \"q.csv\" rate 1: quote
source t1 \"t1.csv\" rate 100: trade
source t2 \"t2.csv\" rate 100: trade
source s \"s.csv\" rate 1: shut
@ $ plan J
@ = 0
node n0: quote@q, shut@s -> n1 n2
node n1: trade@t1
node n2: trade@t2
@ J
@ $ plan J
@ = 0
node n0:
";

#[test]
fn jobs_and_plans_are_printed(rt: HostRuntime) -> Result<(), Fail> {
    play(&rt, rt.alloc(), TEXTS)
}

/// Greedy plans: of one itag and of two that depend on each other; keys are printed, and the greater rate is at the left; equal
/// totals go by the least itag; of a complete graph no itag is removed, a rate of 0 is removed first, and equal rates by number, or not
/// at all.
const PLANS: &str = "@ J
tag t none
depends t t
source a \"a\": t
@ $ plan J
@ = 0
node n0: t@a
@ J
tag t none
tag u none
depends u t
source a \"a\": t
source b \"b\" rate 2: u
@ $ plan J
@ = 0
node n0: t@a, u@b
@ J
tag t keyed none
source a \"a\": t[7]
source b \"b\" rate 2: t[8]
@ $ plan J --depth 1
@ = 0
node n0: -> n1 n2
node n1: t[8]@b
node n2: t[7]@a
@ J
tag t none
tag u none
tag v none
tag w none
depends t w
source a \"a\" rate 2: t
source b \"b\" rate 4: u, v
source c \"c\" rate 2: w
@ $ plan J --depth 1
@ = 0
node n0: -> n1 n2
node n1: t@a, w@c
node n2: u@b, v@b
@ J
tag t none
tag u none
tag v none
depends t u
depends t v
depends u v
source a \"a\": t
source b \"b\" rate 2: u
source c \"c\" rate 3: v
@ $ plan J
@ = 0
node n0: t@a, u@b, v@c
@ J
tag t none
tag u none
tag v none
depends t v
depends u v
source a \"a\" rate 7: t, u
source b \"b\" rate 0: v
@ $ plan J
@ = 0
node n0: v@b -> n1 n2
node n1: t@a
node n2: u@a
@ J
tag t none
tag u none
tag v none
depends t u
depends t v
source a \"a\" rate 7: t, u, v
@ $ plan J
@ = 0
node n0: t@a -> n1 n2
node n1: u@a
node n2: v@a
@ J
tag t none
tag u none
tag v none
depends t v
depends u v
source a \"a\" rate 7: t, u, v
@ $ plan J
@ = 0
node n0: t@a, u@a, v@a
";

#[test]
fn greedy_plans(rt: HostRuntime) -> Result<(), Fail> {
    play(&rt, rt.alloc(), PLANS)
}
