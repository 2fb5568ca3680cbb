//! Jobs of version 3: items, division, families that are cleared whole, and fields of a flush that name a family.

use super::scripts::play;
use std::test::Fail;

/// Rides by station, with the stations 0 to 2 as items, in two days: station 0 has 12 and 7 minutes, station 1 has 34, and station 2 has 51 and 18,
/// and then 25. The trace lets all items arrive before the one worker of its plan handles the eight events.
const STATIONS: &str = "@ J
version 3
cell rides keyed sum
cell minutes keyed sum
cell longest keyed max
tag ride item int
tag day none
depends ride day
depends day day
on ride: add rides[item] 1; add minutes[item] value; raise longest[item] value
on day: flush rides \"{key}: {cell} rides, {minutes} minutes, longest {longest}\"; clear minutes; clear longest
source north \"north.csv\" rate 1000: ride
source south \"south.csv\" rate 1000: ride
source midnight \"midnight.csv\" rate 1: day
@ P
node root: day -> left right
node left: ride@north
node right: ride@south
@ ONE
node one: ride, day
@ T
arrive 0
arrive 0
arrive 0
arrive 0
arrive 1
arrive 1
arrive 1
arrive 1
arrive 2
arrive 2
arrive 2
handle 0
handle 0
handle 0
handle 0
handle 0
handle 0
handle 0
handle 0
@ north.csv
29100,ride,0,12
31800,ride,1,34
31801,ride,0,7
end
@ south.csv
30000,ride,2,51
33600,ride,2,18
122400,ride,2,25
end
@ midnight.csv
86400,day
172800,day
end
@ $ fold J
@ $ run J P
@ $ run J
@ $ run J --depth 0
@ $ simulate J P S -> steps arrive 11 handle 8 ask 4 take 4 give 4 hold 6 lend 6 mark ..
@ $ replay J ONE T
@ = 0
86400,day,0: 2 rides, 19 minutes, longest 12
86400,day,1: 1 rides, 34 minutes, longest 34
86400,day,2: 2 rides, 69 minutes, longest 51
172800,day,2: 1 rides, 25 minutes, longest 25
@ $ plan J --depth 1
@ = 0
node n0: day@midnight -> n1 n2
node n1: ride@north
node n2: ride@south
";

#[test]
fn rides_by_station(rt: HostRuntime) -> Result<(), Fail> {
    play(&rt, rt.alloc(), STATIONS)
}

/// The rows of a kind with items, in the order in which a line is tested; and what division and the cells that a flush names give.
const ROWS: &str = "@ J
version 3
cell held keyed last
cell whole last
tag put item int
tag mark item none
tag show none
depends put put
depends put show
depends mark mark
depends mark show
depends show show
depends put mark
on put: set held[item] value; set whole value / 7; emit \"{item}: {whole} and {held[item]} of {held[2]}\"
on mark: set held[item] item % 5 when not has held[item]; emit \"mark {item}\"
on show: flush held \"{key}: {cell} {whole} {held}\"; clear whole
source s \"s.csv\" rate 1: put, mark, show
@ s.csv
1,put,2,-50
2,put,65535,50
3,mark,2
4,mark,13
5,show
6,put,00007,6
end
@ $ fold J
@ $ run J
@ = 0
1,put,2: -7 and -50 of -50
2,put,65535: 7 and 50 of -50
3,mark,mark 2
4,mark,mark 13
5,show,13: 3 7 3
5,show,2: -50 7 -50
5,show,65535: 50 7 50
6,put,7: 0 and 6 of none
@ s.csv
1,put,65536,5
end
@ J
version 3
tag put item int
tag mark item none
tag show none
source s \"s.csv\" rate 1: put, mark, show
@ $ fold J
@ = 6 flumina: source s row 1: bad row
@ s.csv
1,put,5
end
@ J
version 3
tag put item int
tag mark item none
tag show none
source s \"s.csv\" rate 1: put, mark, show
@ $ fold J
@ $ run J
@ = 6 flumina: source s row 1: bad row
@ s.csv
1,put,5,6,7
end
@ J
version 3
tag put item int
tag mark item none
tag show none
source s \"s.csv\" rate 1: put, mark, show
@ $ fold J
@ $ run J
@ = 6 flumina: source s row 1: bad row
@ s.csv
1,put,-5,6
end
@ J
version 3
tag put item int
tag mark item none
tag show none
source s \"s.csv\" rate 1: put, mark, show
@ $ fold J
@ $ run J
@ = 6 flumina: source s row 1: bad row
@ s.csv
1,put,,6
end
@ J
version 3
tag put item int
tag mark item none
tag show none
source s \"s.csv\" rate 1: put, mark, show
@ $ fold J
@ $ run J
@ = 6 flumina: source s row 1: bad row
@ s.csv
1,put,5,x
end
@ J
version 3
tag put item int
tag mark item none
tag show none
source s \"s.csv\" rate 1: put, mark, show
@ $ fold J
@ $ run J
@ = 6 flumina: source s row 1: bad row
@ s.csv
1,mark,5,6
end
@ J
version 3
tag put item int
tag mark item none
tag show none
source s \"s.csv\" rate 1: put, mark, show
@ $ fold J
@ $ run J
@ = 6 flumina: source s row 1: bad row
@ s.csv
1,mark
end
@ J
version 3
tag put item int
tag mark item none
tag show none
source s \"s.csv\" rate 1: put, mark, show
@ $ fold J
@ $ run J
@ = 6 flumina: source s row 1: bad row
@ s.csv
1,mark,x
end
@ J
version 3
tag put item int
tag mark item none
tag show none
source s \"s.csv\" rate 1: put, mark, show
@ $ fold J
@ $ run J
@ = 6 flumina: source s row 1: bad row
@ s.csv
1,show,5
end
@ J
version 3
tag put item int
tag mark item none
tag show none
source s \"s.csv\" rate 1: put, mark, show
@ $ fold J
@ $ run J
@ = 6 flumina: source s row 1: bad row
@ s.csv
1,other,x
end
@ J
version 3
tag put item int
tag mark item none
tag show none
source s \"s.csv\" rate 1: put, mark, show
@ $ fold J
@ $ run J
@ = 6 flumina: source s row 1: unknown tag
@ s.csv
1,other,5,6
end
@ J
version 3
tag put item int
tag mark item none
tag show none
source s \"s.csv\" rate 1: put, mark, show
@ $ fold J
@ $ run J
@ = 6 flumina: source s row 1: unknown tag
@ s.csv
1,other,5,6,7
end
@ J
version 3
tag put item int
tag mark item none
tag show none
source s \"s.csv\" rate 1: put, mark, show
@ $ fold J
@ $ run J
@ = 6 flumina: source s row 1: bad row
@ s.csv
x,other
end
@ J
version 3
tag put item int
tag mark item none
tag show none
source s \"s.csv\" rate 1: put, mark, show
@ $ fold J
@ $ run J
@ = 6 flumina: source s row 1: bad row
";

#[test]
fn rows_with_items(rt: HostRuntime) -> Result<(), Fail> {
    play(&rt, rt.alloc(), ROWS)
}

/// Several rows of a source at one time: at one time sources come in the order in which they are declared, a border of a run that is resumed separates no
/// rows of one time, times of fractions that are cut off may be the same, and one row more than may have a time is too many.
const TIED: &str = "@ J
version 3 ties 2
cell rides keyed sum
tag ride item none
tag day none
depends ride day
depends day day
on ride: add rides[item] 1
on day: flush rides \"station {key}: {cell} rides at {time}\"
source north \"north.csv\": ride
source south \"south.csv\" slack 2: ride
source clock \"days.csv\": day
@ north.csv
5,ride,1
end
@ south.csv
7,ride,2
5,ride,1
7,beat
5,ride,2
9,ride,3
9,ride,2
end
@ days.csv
5,day
9,day
9,day
end
@ $ fold J
@ $ run J
@ $ run J --round 1
@ $ run J --round 3
@ = 0
5,day,station 1: 2 rides at 5
5,day,station 2: 1 rides at 5
9,day,station 2: 2 rides at 9
9,day,station 3: 1 rides at 9
@ J
version 3 ties 2
cell rides keyed sum
tag ride item none
tag day none
depends ride day
depends day day
on ride: add rides[item] 1
on day: flush rides \"station {key}: {cell} rides at {time}\"
source north \"north.csv\": ride
source south \"south.csv\" slack 2: ride
source clock \"days.csv\": day
@ north.csv
5,ride,1
end
@ south.csv
7,ride,2
5,ride,1
7,beat
5,ride,2
9,ride,3
9,ride,2
end
@ days.csv
5,day
9,day
9,day
end
@ s
{\"border\":5,\"cells\":[],\"job\":\"version 3 ties 2\\ncell rides keyed sum\\ntag ride item none\\ntag day none\\ndepends ride day\\ndepends day day\\non ride: add rides[item] 1\\non day: flush rides \\\"station {key}: {cell} rides at {time}\\\"\\nsource north \\\"north.csv\\\" rate 1: ride\\nsource south \\\"south.csv\\\" rate 1 slack 2: ride\\nsource clock \\\"days.csv\\\" rate 1: day\\n\"}
@ $ run J --resume s
@ $ run J --round 1 --resume s
@ = 0
9,day,station 2: 2 rides at 9
9,day,station 3: 1 rides at 9
@ J
version 3 ties 2
cell rides keyed sum
tag ride item none
tag day none
depends ride day
depends day day
on ride: add rides[item] 1
on day: flush rides \"station {key}: {cell} rides at {time}\"
source north \"north.csv\": ride
source south \"south.csv\" slack 2: ride
source clock \"days.csv\": day
@ north.csv
5,ride,1
end
@ south.csv
7,ride,2
5,ride,1
7,beat
5,ride,2
9,ride,3
9,ride,2
end
@ days.csv
5,day
9,day
9,day
end
@ s
{\"border\":7,\"cells\":[[\"rides\",2,\"1\"]],\"job\":\"version 3 ties 2\\ncell rides keyed sum\\ntag ride item none\\ntag day none\\ndepends ride day\\ndepends day day\\non ride: add rides[item] 1\\non day: flush rides \\\"station {key}: {cell} rides at {time}\\\"\\nsource north \\\"north.csv\\\" rate 1: ride\\nsource south \\\"south.csv\\\" rate 1 slack 2: ride\\nsource clock \\\"days.csv\\\" rate 1: day\\n\"}
@ $ run J --resume s
@ $ run J --round 1 --resume s
@ = 0
9,day,station 2: 2 rides at 9
9,day,station 3: 1 rides at 9
@ J
version 3 ties 2
cell rides keyed sum
tag ride item none
tag day none
depends ride day
depends day day
on ride: add rides[item] 1
on day: flush rides \"station {key}: {cell} rides at {time}\"
source clock \"days.csv\": day
source north \"north.csv\": ride
source south \"south.csv\" slack 2: ride
@ north.csv
5,ride,1
end
@ south.csv
7,ride,2
5,ride,1
7,beat
5,ride,2
9,ride,3
9,ride,2
end
@ days.csv
5,day
9,day
9,day
end
@ $ fold J
@ $ run J
@ $ run J --round 1
@ = 0
9,day,station 1: 2 rides at 9
9,day,station 2: 2 rides at 9
@ J
version 3 ties 2
cell rides keyed sum
tag ride item none
tag day none
depends ride day
depends day day
on ride: add rides[item] 1
on day: flush rides \"station {key}: {cell} rides at {time}\"
source north \"north.csv\": ride
source south \"south.csv\" slack 2: ride
source clock \"days.csv\": day
@ north.csv
5,ride,1
5,ride,1
5,ride,2
end
@ south.csv
7,ride,2
5,ride,1
7,beat
5,ride,2
9,ride,3
9,ride,2
end
@ days.csv
5,day
9,day
9,day
end
@ $ fold J
@ $ run J --round 2
@ = 6 flumina: source north row 3: too many, 3
@ J
version 3 ties 2 iso seconds
cell most max
tag trade int
tag close none
depends trade close
depends close close
on trade: raise most value
on close: emit \"{most} at {time}\"; clear most
source trades \"north.csv\": trade
source closes \"days.csv\": close
@ north.csv
2026-03-02 08:05:00.250,trade,7
2026-03-02 08:05:00.750,trade,9
end
@ days.csv
2026-03-02 08:05:00,close
end
@ $ fold J
@ $ run J
@ = 0
2026-03-02T08:05:00Z,close,9 at 2026-03-02T08:05:00Z
";

#[test]
fn rows_at_one_time(rt: HostRuntime) -> Result<(), Fail> {
    play(&rt, rt.alloc(), TIED)
}
