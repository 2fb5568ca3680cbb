//! Requests by path, each path an item. The files are those of `examples/paths`.

/// The job, its plan in normal form, its sources, the report as worked out by hand, and the job's normal form by the rules of
/// `docs/LANGUAGE.md`.
pub const SCRIPT: &str = "@ J
# Requests by path. The item of a hit is its path, by a number from 0 to 65,535, and its value the bytes of the answer. Times are seconds.
version 3
cell hits keyed sum
cell bytes keyed sum
cell largest keyed max
cell count sum
cell total sum
cell mean last
tag hit item int
tag hour none
depends hit hour
depends hour hour
on hit: add hits[item] 1; add bytes[item] value; raise largest[item] value; add count 1; add total value
on hour: set mean total / count when count > 0; emit \"mean {mean} bytes of {count} hits\"; flush hits \"path {key}: {cell} hits, {bytes} bytes, largest {largest}\"; clear bytes; clear largest; clear count; clear total; clear mean
source web \"examples/paths/web.csv\" rate 1000: hit
source app \"examples/paths/app.csv\" rate 500: hit
source clock \"examples/paths/hours.csv\": hour
@ P
node n0: hour -> n1 n2
node n1: hit@web
node n2: hit@app
@ examples/paths/web.csv
10,hit,0,500
20,hit,3,40
35,hit,0,20
3610,hit,3,70
end
@ examples/paths/app.csv
15,hit,0,90
40,hit,812,7
3700,hit,812,8
end
@ examples/paths/hours.csv
3600,hour
7200,hour
end
@ $ fold J
@ $ run J P
@ $ run J
@ $ simulate J P S -> steps arrive 12 handle 9 ask 4 take 4 give 4 hold 6 lend 6 mark ..
@ = 0
3600,hour,mean 131 bytes of 5 hits
3600,hour,path 0: 3 hits, 610 bytes, largest 500
3600,hour,path 3: 1 hits, 40 bytes, largest 40
3600,hour,path 812: 1 hits, 7 bytes, largest 7
7200,hour,mean 39 bytes of 2 hits
7200,hour,path 3: 1 hits, 70 bytes, largest 70
7200,hour,path 812: 1 hits, 8 bytes, largest 8
@ $ check J
@ = 0
version 3
cell hits keyed sum
cell bytes keyed sum
cell largest keyed max
cell count sum
cell total sum
cell mean last
tag hit item int
tag hour none
depends hit hour
depends hour hour
on hit: add hits[item] 1; add bytes[item] value; raise largest[item] value; add count 1; add total value
on hour: set mean (total / count) when (count > 0); emit \"mean {mean} bytes of {count} hits\"; flush hits \"path {key}: {cell} hits, {bytes} bytes, largest {largest}\"; clear bytes; clear largest; clear count; clear total; clear mean
source web \"examples/paths/web.csv\" rate 1000: hit
source app \"examples/paths/app.csv\" rate 500: hit
source clock \"examples/paths/hours.csv\" rate 1: hour
@ $ valid J P
@ = 0
node n0: hour -> n1 n2
node n1: hit@web
node n2: hit@app
";
