//! Page views with metadata: views read the fee of their page. The files are those of `examples/views`.

/// The job, its plan in normal form, its sources, the report as worked out by hand, and the job's normal form by the rules of
/// `docs/LANGUAGE.md`.
pub const SCRIPT: &str = "@ J
# Views of pages. A view earns its page's fee, in cents, which an update sets and views read. Times are seconds.
version 2
cell fee keyed last
cell views keyed sum
cell earned keyed sum
tag view keyed none
tag update keyed int
tag hour none
depends update update same
depends update view same
depends view hour
depends hour hour
on view: add views[key] 1; add earned[key] fee[key]
on update: emit \"fee from {fee[key]} to {value} cents\"; set fee[key] value
on hour: flush views \"page {key}: {cell} views\"; flush earned \"page {key}: {cell} cents\"
source web \"examples/views/web.csv\" rate 100: view[0..2]
source app \"examples/views/app.csv\" rate 100: view[0..2]
source desk \"examples/views/desk.csv\": update[0..2]
source clock \"examples/views/hours.csv\": hour
@ P
node root: hour, update -> web app
node web: view@web
node app: view@app
@ examples/views/web.csv
10,view[0]
20,view[1]
40,view[0]
3700,view[2]
end
@ examples/views/app.csv
15,view[0]
35,view[1]
3650,view[0]
end
@ examples/views/desk.csv
5,update[0],3
12,update[1],10
30,update[0],4
end
@ examples/views/hours.csv
3600,hour
7200,hour
end
@ $ fold J
@ $ run J P
@ $ run J
@ $ simulate J P S -> steps arrive 22 handle 12 ask 10 take 10 give 10 hold 12 lend 12 mark ..
@ = 0
5,update[0],fee from none to 3 cents
12,update[1],fee from none to 10 cents
30,update[0],fee from 3 to 4 cents
3600,hour,page 0: 10 cents
3600,hour,page 0: 3 views
3600,hour,page 1: 2 views
3600,hour,page 1: 20 cents
7200,hour,page 0: 1 views
7200,hour,page 0: 4 cents
7200,hour,page 2: 1 views
@ $ check J
@ = 0
version 2
cell fee keyed last
cell views keyed sum
cell earned keyed sum
tag view keyed none
tag update keyed int
tag hour none
depends update update same
depends update view same
depends view hour
depends hour hour
on view: add views[key] 1; add earned[key] fee[key]
on update: emit \"fee from {fee[key]} to {value} cents\"; set fee[key] value
on hour: flush views \"page {key}: {cell} views\"; flush earned \"page {key}: {cell} cents\"
source web \"examples/views/web.csv\" rate 100: view[0..2]
source app \"examples/views/app.csv\" rate 100: view[0..2]
source desk \"examples/views/desk.csv\" rate 1: update[0..2]
source clock \"examples/views/hours.csv\" rate 1: hour
@ $ valid J P
@ = 0
node root: hour, update -> web app
node web: view@web
node app: view@app
";
