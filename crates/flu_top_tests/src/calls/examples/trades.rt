//! Trades at the last quote, with slack. The files are those of `examples/trades`.

/// The job, its plan in normal form, its sources, the report as worked out by hand, and the job's normal form by the rules of
/// `docs/LANGUAGE.md`.
pub const SCRIPT: &str = "@ J
# Trades at the last quoted price, and their volume at each close. Rows of trades may come late by less than 5.
version 2
cell price last
cell volume sum
tag quote int
tag trade int
tag close none
depends quote quote
depends quote trade
depends trade close
depends close close
on quote: set price value
on trade: add volume value * price; emit \"{value} at {price}\"
on close: emit \"volume {volume}\"; clear volume
source quotes \"examples/trades/quotes.csv\": quote
source north \"examples/trades/north.csv\" rate 100 slack 5: trade
source south \"examples/trades/south.csv\" rate 100 slack 5: trade
source days \"examples/trades/days.csv\": close
@ P
node root: quote, close -> north south
node north: trade@north
node south: trade@south
@ examples/trades/quotes.csv
1,quote,10
6,quote,20
12,quote,15
end
@ examples/trades/north.csv
2,trade,3
7,trade,2
5,trade,1
13,trade,4
9,trade,6
end
@ examples/trades/south.csv
4,trade,5
3,trade,2
11,trade,1
end
@ examples/trades/days.csv
8,close
14,close
end
@ $ fold J
@ $ run J P
@ $ run J
@ $ simulate J P S -> steps arrive 17 handle 13 ask 10 take 10 give 10 hold 12 lend 12 mark ..
@ = 0
2,trade,3 at 10
3,trade,2 at 10
4,trade,5 at 10
5,trade,1 at 10
7,trade,2 at 20
8,close,volume 150
9,trade,6 at 20
11,trade,1 at 20
13,trade,4 at 15
14,close,volume 200
@ $ check J
@ = 0
version 2
cell price last
cell volume sum
tag quote int
tag trade int
tag close none
depends quote quote
depends quote trade
depends trade close
depends close close
on quote: set price value
on trade: add volume (value * price); emit \"{value} at {price}\"
on close: emit \"volume {volume}\"; clear volume
source quotes \"examples/trades/quotes.csv\" rate 1: quote
source north \"examples/trades/north.csv\" rate 100 slack 5: trade
source south \"examples/trades/south.csv\" rate 100 slack 5: trade
source days \"examples/trades/days.csv\" rate 1: close
@ $ valid J P
@ = 0
node root: quote, close -> north south
node north: trade@north
node south: trade@south
";
