//! A count of two sources.

/// Two sources add to a count, and a third emits it and clears it.
pub const COUNTING: &str = "cell count sum
tag inc int
tag read none
depends inc read
depends read read
on inc: add count value
on read: emit \"count {count}\"; clear count
source a \"a.csv\" rate 1000: inc
source b \"b.csv\" rate 1000: inc
source c \"c.csv\" rate 1: read
";

/// A plan of it: the root reads, and each child adds for one source.
pub const COUNTING_PLAN: &str = "node root: read -> l r
node l: inc@a
node r: inc@b
";

pub const A: &str = "1,inc,5\n4,inc,2\nend\n";

pub const B: &str = "2,inc,7\nend\n";

pub const C: &str = "3,read\n5,read\nend\n";

pub const END: &str = "end\n";

pub const REPORT: &str = "3,read,count 12\n5,read,count 2\n";

/// A job with reads that do not depend on each other.
pub const READS_APART: &str = "cell count sum
tag inc int
tag read none
depends inc read
on inc: add count value
on read: emit \"count {count}\"; clear count
source a \"a.csv\" rate 1000: inc
source b \"b.csv\" rate 1000: inc
source c \"c.csv\" rate 1: read
";

/// The files of the count, with its plan.
pub const COUNTED: &[(&str, &str)] = &[
    ("J", COUNTING),
    ("P", COUNTING_PLAN),
    ("a.csv", A),
    ("b.csv", B),
    ("c.csv", C),
];
