//! Rides of a bicycle hire. The files are those of `examples/rides-1`.

/// The job, its plan in normal form, its sources, the report as worked out by hand, and the job's normal form by the rules of
/// `docs/LANGUAGE.md`.
pub const SCRIPT: &str = "@ J
# A bicycle hire: the rides of each station and the longest ride of each day. Times are minutes, a ride's key is its
# station and its value how long it was.
cell rides keyed sum
cell longest max
tag ride keyed int
tag day none
depends ride day
depends day day
on ride: add rides[key] 1; raise longest value
on day: flush rides \"station {key}: {cell} rides\"; emit \"longest ride {longest} minutes\"; clear longest
source north \"examples/rides-1/north.csv\": ride[1..2]
source south \"examples/rides-1/south.csv\": ride[3]
source clock \"examples/rides-1/days.csv\": day
@ P
node root: day -> left right
node left: ride@north
node right: ride@south
@ examples/rides-1/north.csv
485,ride[1],12
530,ride[2],34
545,ride[1],7
end
@ examples/rides-1/south.csv
500,ride[3],51
560,ride[3],18
end
@ examples/rides-1/days.csv
1440,day
end
@ $ fold J
@ $ run J P
@ $ run J
@ $ simulate J P S -> steps arrive 10 handle 6 ask 2 take 2 give 2 hold 4 lend 4 mark ..
@ = 0
1440,day,longest ride 51 minutes
1440,day,station 1: 2 rides
1440,day,station 2: 1 rides
1440,day,station 3: 2 rides
@ $ check J
@ = 0
cell rides keyed sum
cell longest max
tag ride keyed int
tag day none
depends ride day
depends day day
on ride: add rides[key] 1; raise longest value
on day: flush rides \"station {key}: {cell} rides\"; emit \"longest ride {longest} minutes\"; clear longest
source north \"examples/rides-1/north.csv\" rate 1: ride[1..2]
source south \"examples/rides-1/south.csv\" rate 1: ride[3]
source clock \"examples/rides-1/days.csv\" rate 1: day
@ $ valid J P
@ = 0
node root: day -> left right
node left: ride@north
node right: ride@south
";
