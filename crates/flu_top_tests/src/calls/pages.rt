//! Views of ten pages from two sources, summed up at each tick of a third.

use super::scripts::{Wanted, check_call};
use std::test::Fail;

/// What each call writes.
const CALLS: &[(&str, &str)] = &[
    ("fold J", REPORT),
    ("run J P", REPORT),
    ("run J", REPORT),
    ("check J", JOB),
    ("valid J P", PLAN),
    ("plan J", GREEDY_PLAN),
];

fn calls() -> &'static [(&'static str, &'static str)] {
    CALLS
}

#[test]
fn views_of_ten_pages(rt: HostRuntime) -> Result<(), Fail> {
    for (words, out) in calls() {
        let wanted = Wanted {
            status: 0,
            out,
            err: "",
        };
        check_call(&rt, rt.alloc(), files(), words, wanted)?;
    }
    Ok(())
}

/// The files, with the job as `J` and the plan as `P`.
pub fn files() -> &'static [(&'static str, &'static str)] {
    FILES
}

const FILES: &[(&str, &str)] = &[
    ("J", JOB),
    ("P", PLAN),
    ("web.csv", WEB),
    ("app.csv", APP),
    ("clock.csv", CLOCK),
];

/// Views add up for each page, and a tick emits and clears the sums; an update sets a page's zip code.
const JOB: &str = "cell views keyed sum
cell zip keyed last
tag view keyed int
tag update keyed int
tag tick none
depends update update same
depends view tick
depends tick tick
on view: add views[key] value
on update: emit \"was {zip[key]}\"; set zip[key] value
on tick: flush views \"page {key} views {cell}\"
source web \"web.csv\" rate 1000: view[0..9]
source app \"app.csv\" rate 500: view[0..9], update[0..9]
source clock \"clock.csv\" rate 1: tick
";

/// A plan of it, with predicates of keys.
const PLAN: &str = "node top: tick -> views updates
node views: -> low high
node low: view[0..4]
node high: view[5..9]
node updates: -> few rest
node few: update[3], update[0..2]
node rest: update[4..9]@app
";

/// The greedy plan of it at depth 3: the updates of different pages are components of their own, and the views fall apart without
/// the tick.
const GREEDY_PLAN: &str = "node n0: -> n1 n8
node n1: tick@clock -> n2 n5
node n2: -> n3 n4
node n3: view[0]@web, view[4]@web, view[8]@web, view[4]@app, view[8]@app
node n4: view[2]@web, view[6]@web, view[0]@app, view[2]@app, view[6]@app
node n5: -> n6 n7
node n6: view[1]@web, view[5]@web, view[9]@web, view[5]@app, view[9]@app
node n7: view[3]@web, view[7]@web, view[1]@app, view[3]@app, view[7]@app
node n8: -> n9 n12
node n9: -> n10 n11
node n10: update[0]@app, update[4]@app, update[8]@app
node n11: update[2]@app, update[6]@app
node n12: -> n13 n14
node n13: update[1]@app, update[5]@app, update[9]@app
node n14: update[3]@app, update[7]@app
";

/// Page k has k + 1 views before each tick.
const WEB: &str = "1,view[0],1
3,view[1],2
5,view[2],3
7,view[3],4
9,view[4],5
11,view[5],6
13,view[6],7
15,view[7],8
17,view[8],9
19,view[9],10
100,beat
101,view[0],1
103,view[1],2
105,view[2],3
107,view[3],4
109,view[4],5
111,view[5],6
113,view[6],7
115,view[7],8
117,view[8],9
119,view[9],10
200,beat
201,view[0],1
203,view[1],2
205,view[2],3
207,view[3],4
209,view[4],5
211,view[5],6
213,view[6],7
215,view[7],8
217,view[8],9
219,view[9],10
300,beat
end
";

/// Each page has 10 views before each tick.
const APP: &str = "2,view[0],10
4,view[1],10
6,view[2],10
8,view[3],10
10,view[4],10
12,view[5],10
14,view[6],10
16,view[7],10
18,view[8],10
20,view[9],10
50,update[3],94105
100,beat
102,view[0],10
104,view[1],10
106,view[2],10
108,view[3],10
110,view[4],10
112,view[5],10
114,view[6],10
116,view[7],10
118,view[8],10
120,view[9],10
200,beat
202,view[0],10
204,view[1],10
206,view[2],10
208,view[3],10
210,view[4],10
212,view[5],10
214,view[6],10
216,view[7],10
218,view[8],10
220,view[9],10
300,beat
end
";

/// Three ticks.
const CLOCK: &str = "100,tick
200,tick
300,tick
end
";

/// The update's text, and a line for each page at each tick.
pub const REPORT: &str = "50,update[3],was none
100,tick,page 0 views 11
100,tick,page 1 views 12
100,tick,page 2 views 13
100,tick,page 3 views 14
100,tick,page 4 views 15
100,tick,page 5 views 16
100,tick,page 6 views 17
100,tick,page 7 views 18
100,tick,page 8 views 19
100,tick,page 9 views 20
200,tick,page 0 views 11
200,tick,page 1 views 12
200,tick,page 2 views 13
200,tick,page 3 views 14
200,tick,page 4 views 15
200,tick,page 5 views 16
200,tick,page 6 views 17
200,tick,page 7 views 18
200,tick,page 8 views 19
200,tick,page 9 views 20
300,tick,page 0 views 11
300,tick,page 1 views 12
300,tick,page 2 views 13
300,tick,page 3 views 14
300,tick,page 4 views 15
300,tick,page 5 views 16
300,tick,page 6 views 17
300,tick,page 7 views 18
300,tick,page 8 views 19
300,tick,page 9 views 20
";
