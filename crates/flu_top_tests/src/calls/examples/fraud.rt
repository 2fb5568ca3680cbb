//! Payments compared with the mean of the window before. The files are those of `examples/fraud`.

/// The job, its plan in normal form, its sources, the report as worked out by hand, and the job's normal form by the rules of
/// `docs/LANGUAGE.md`.
pub const SCRIPT: &str = "@ J
# A payment is suspect where it is more than three times the mean of the window before. The mean is a total and a count, so
# `value > 3 * total / count` is written without division.
version 2
cell total sum
cell count sum
cell total_before last
cell count_before last
tag payment int
tag window none
depends payment window
depends window window
on payment: add total value; add count 1; emit \"suspect {value}\" when value * count_before > 3 * total_before
on window: emit \"{count} payments of {total}\"; set total_before total; set count_before count; clear total; clear count
source north \"examples/fraud/north.csv\" rate 100: payment
source south \"examples/fraud/south.csv\" rate 100: payment
source clock \"examples/fraud/windows.csv\": window
@ P
node root: window -> north south
node north: payment@north
node south: payment@south
@ examples/fraud/north.csv
10,payment,20
30,payment,40
70,payment,31
80,payment,200
130,payment,95
end
@ examples/fraud/south.csv
20,payment,30
75,payment,90
110,payment,91
150,payment,310
end
@ examples/fraud/windows.csv
60,window
120,window
180,window
end
@ $ fold J
@ $ run J P
@ $ run J
@ $ simulate J P S -> steps arrive 15 handle 12 ask 6 take 6 give 6 hold 8 lend 8 mark ..
@ = 0
60,window,3 payments of 90
80,payment,suspect 200
110,payment,suspect 91
120,window,4 payments of 412
150,payment,suspect 310
180,window,2 payments of 405
@ $ check J
@ = 0
version 2
cell total sum
cell count sum
cell total_before last
cell count_before last
tag payment int
tag window none
depends payment window
depends window window
on payment: add total value; add count 1; emit \"suspect {value}\" when ((value * count_before) > (3 * total_before))
on window: emit \"{count} payments of {total}\"; set total_before total; set count_before count; clear total; clear count
source north \"examples/fraud/north.csv\" rate 100: payment
source south \"examples/fraud/south.csv\" rate 100: payment
source clock \"examples/fraud/windows.csv\" rate 1: window
@ $ valid J P
@ = 0
node root: window -> north south
node north: payment@north
node south: payment@south
";
