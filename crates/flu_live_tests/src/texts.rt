//! The jobs of these tests, with plans and rows.

use crate::stages::Sources;

/// A count to which two sources add and that a third emits and clears.
pub const COUNT: &str =
    "cell count sum\ntag inc int\ntag read none\ndepends inc read\ndepends read read\non inc: add count value\non read: emit \"count {count}\"; clear count\nsource a \"a\" rate 1000: inc\nsource b \"b\" rate 1000: inc\nsource c \"c\" rate 1: read\n";

/// The same job with the reads first.
pub const READS_FIRST: &str =
    "cell count sum\ntag inc int\ntag read none\ndepends inc read\ndepends read read\non inc: add count value\non read: emit \"count {count}\"; clear count\nsource c \"c\" rate 1: read\nsource a \"a\" rate 1000: inc\nsource b \"b\" rate 1000: inc\n";

/// The same job with a second source of reads.
pub const FOUR: &str =
    "cell count sum\ntag inc int\ntag read none\ndepends inc read\ndepends read read\non inc: add count value\non read: emit \"count {count}\"; clear count\nsource a \"a\" rate 1000: inc\nsource b \"b\" rate 1000: inc\nsource c \"c\" rate 1: read\nsource d \"d\" rate 1: read\n";

/// Two last values, each set by a source of its own, and a source that emits both.
pub const LAST: &str =
    "cell p last\ncell q last\ntag r int\ntag r2 int\ntag z none\ndepends r r\ndepends r2 r2\ndepends z z\ndepends r z\ndepends r2 z\non r: set p value; emit \"p {p}\"\non r2: set q value; emit \"q {q}\"\non z: emit \"z {p} {q}\"\nsource s1 \"a\" rate 1: r\nsource s2 \"b\" rate 1: r2\nsource s3 \"c\" rate 10: z\n";

/// Trades that read a price, which quotes set, and add up to a volume that a third kind emits and clears.
pub const SHARED: &str =
    "version 2\ncell price last\ncell vol sum\ntag quote int\ntag trade int\ntag shut none\ndepends quote quote\ndepends quote trade\ndepends trade shut\ndepends shut shut\non quote: set price value\non trade: add vol value * price; emit \"at {price}\"\non shut: emit \"vol {vol}\"; clear vol\nsource q \"q\" rate 1: quote\nsource t1 \"t1\" rate 100: trade\nsource t2 \"t2\" rate 100: trade\nsource s \"s\" rate 1: shut\n";

/// The reads at the root, and each source that adds at a leaf.
pub const THREE: &str = "node root: read -> l r\nnode l: inc@a\nnode r: inc@b\n";

/// The trades of each source at a leaf, both of which have the price.
pub const SHARED_PLAN: &str =
    "node n0: quote@q, shut@s -> n1 n2\nnode n1: trade@t1\nnode n2: trade@t2\n";

/// One node.
pub const ONE: &str = "node one: inc, read\n";

/// Both values at the root, what emits them at a leaf, and a leaf that owns nothing.
pub const ABOVE: &str = "node root: r, r2 -> l e\nnode l: z\nnode e:\n";

/// Reads of each source at a node of their own, one below the other, and a leaf that owns nothing.
pub const DEEP: &str =
    "node root: read@c -> mid e\nnode mid: read@d -> x y\nnode x: inc@a\nnode y: inc@b\nnode e:\n";

pub const EMPTY: Sources = &[("a", "end"), ("b", "end"), ("c", "end")];

pub const TWO_READS: Sources = &[
    ("a", "1,inc,5\n4,inc,2\nend"),
    ("b", "2,inc,7\nend"),
    ("c", "3,read\n5,read\nend"),
];

pub const ONE_TIME: Sources = &[("a", "3,inc,1\nend"), ("b", "end"), ("c", "3,read\nend")];

pub const TWICE: Sources = &[
    ("a", "end"),
    ("b", "end"),
    ("c", "3,read\nend"),
    ("d", "3,read\nend"),
];

pub const LARGE: Sources = &[
    (
        "a",
        "1,inc,9223372036854775807\n2,inc,9223372036854775807\nend",
    ),
    ("b", "end"),
    ("c", "3,read\nend"),
];

pub const VALUES: Sources = &[
    ("a", "10,r,9\nend"),
    ("b", "4,r2,7\nend"),
    ("c", "5,z\nend"),
];

pub const TRADES: Sources = &[
    ("q", "1,quote,3\n4,quote,5\n7,quote,2\nend"),
    ("t1", "2,trade,10\n5,trade,1\n8,trade,4\nend"),
    ("t2", "3,trade,2\n6,trade,7\nend"),
    ("s", "5,shut\n9,shut\nend"),
];
