//! What events do and show in jobs of version 3: cells that items choose, families as a whole, names of keys and items, and times as text.

use crate::outcomes::outcome;
use crate::tables::case_of;
use flu_parse::read_job;
use std::alloc::Global;
use std::test::Fail;

/// The report of a job whose source `s` has these rows, on one line: a slash stands for each line feed, in the rows and in the answer.
fn told_of(alloc: Global, job: &str, rows: &str) -> Result<String, Fail> {
    let p = read_job(alloc, job.as_bytes())?;
    let rows = rows.replace(alloc, "/", "\n")?;
    let got = outcome(alloc, &p, &[("s", rows.as_bytes())])?;
    let told = got.replace(alloc, "\n", "/")?;
    Ok(told)
}

/// Jobs, each on a line, with rows and their report on each line after it.
///
/// The first adds, raises and tells at the item, and each day reports the items with what other families hold and forgets the greatest values; a
/// sum of 0 has no key. The next three have names for keys and items, for keys alone, and for items alone; the cell of a number that has no name
/// is shown by its number. The others show times: as numbers, and as text in each unit, where expressions still have the number.
const JOBS: &str =
    "version 3 cell rides keyed sum cell longest keyed max cell unused keyed sum cell seen last tag ride item int tag day none on ride: add rides[item] value; raise longest[item] value; set seen item; emit \"{item}: {rides[item]}\" on day: flush rides \"{key}: {cell}, {longest}, {unused}, {seen}\"; clear longest source s \"s\": ride, day
1,ride,3,12/2,ride,65535,-2/3,ride,3,7/end => 1,ride,3: 12/2,ride,65535: -2/3,ride,3: 19/
1,ride,3,12/2,ride,65535,-2/9,day/end => 1,ride,3: 12/2,ride,65535: -2/9,day,3: 12, 12, 0, 65535/9,day,65535: -2, -2, 0, 65535/
1,ride,3,12/2,ride,7,34/3,ride,3,7/9,day/end => 1,ride,3: 12/2,ride,7: 34/3,ride,3: 19/9,day,3: 19, 12, 0, 3/9,day,7: 34, 34, 0, 3/
1,ride,7,34/2,day/3,ride,7,5/4,ride,8,0/5,day/6,day/end => 1,ride,7: 34/2,day,7: 34, 34, 0, 7/3,ride,7: 5/4,ride,8: 0/5,day,7: 5, 5, 0, 8/

version 3 names stations: \"harbour\", \"market\", \"mill\" cell rides keyed by stations sum tag ride keyed item by stations int tag day none on ride: add rides[item] value; add rides[3] 1; emit \"on {key} at {item}\" on day: flush rides \"{key}: {cell}\" source s \"s\": ride[1], day
1,ride[1],harbour,12/2,ride[1],market,34/3,ride[1],harbour,7/4,ride[1],mill,51/9,day/end => 1,ride[1],on 1 at harbour/2,ride[1],on 1 at market/3,ride[1],on 1 at harbour/4,ride[1],on 1 at mill/9,day,3: 4/9,day,harbour: 19/9,day,market: 34/9,day,mill: 51/

version 3 names stations: \"harbour\", \"market\", \"mill\" cell rides keyed by stations sum tag ride keyed item int tag day none on ride: add rides[item] value; emit \"on {key} at {item}\" on day: flush rides \"{key}: {cell}\" source s \"s\": ride[1], day
1,ride[1],0,12/2,ride[1],2,51/3,ride[1],3,5/9,day/end => 1,ride[1],on 1 at 0/2,ride[1],on 1 at 2/3,ride[1],on 1 at 3/9,day,3: 5/9,day,harbour: 12/9,day,mill: 51/

version 3 names stations: \"harbour\", \"market\", \"mill\" cell rides keyed sum tag ride keyed item by stations int tag day none on ride: add rides[item] value; emit \"on {key} at {item}\" on day: flush rides \"{key}: {cell}\" source s \"s\": ride[1], day
1,ride[1],harbour,12/2,ride[1],mill,51/9,day/end => 1,ride[1],on 1 at harbour/2,ride[1],on 1 at mill/9,day,0: 12/9,day,2: 51/

version 3 cell times keyed sum tag tick none on tick: emit \"at {time}\"; add times[7] time; flush times \"{key}: {cell} at {time}\" source s \"s\": tick
1772438700,tick/end => 1772438700,tick,7: 1772438700 at 1772438700/1772438700,tick,at 1772438700/

version 3 iso seconds cell times keyed sum tag tick none on tick: emit \"at {time}\"; add times[7] time; flush times \"{key}: {cell} at {time}\" source s \"s\": tick
1772438700,tick/end => 2026-03-02T08:05:00Z,tick,7: 1772438700 at 2026-03-02T08:05:00Z/2026-03-02T08:05:00Z,tick,at 2026-03-02T08:05:00Z/
253402300799,tick/end => 9999-12-31T23:59:59Z,tick,7: 253402300799 at 9999-12-31T23:59:59Z/9999-12-31T23:59:59Z,tick,at 9999-12-31T23:59:59Z/

version 3 iso milliseconds cell times keyed sum tag tick none on tick: emit \"at {time}\"; add times[7] time; flush times \"{key}: {cell} at {time}\" source s \"s\": tick
1709210096007,tick/end => 2024-02-29T12:34:56.007Z,tick,7: 1709210096007 at 2024-02-29T12:34:56.007Z/2024-02-29T12:34:56.007Z,tick,at 2024-02-29T12:34:56.007Z/

version 3 iso microseconds cell times keyed sum tag tick none on tick: emit \"at {time}\"; add times[7] time; flush times \"{key}: {cell} at {time}\" source s \"s\": tick
1709210096000070,tick/end => 2024-02-29T12:34:56.000070Z,tick,7: 1709210096000070 at 2024-02-29T12:34:56.000070Z/2024-02-29T12:34:56.000070Z,tick,at 2024-02-29T12:34:56.000070Z/";

#[test]
fn events_do_and_show_what_their_actions_say(rt: HostRuntime) -> Result<(), Fail> {
    for lines in JOBS.split("\n\n") {
        let (job, cases) = lines.split_once('\n').unwrap_or((lines, ""));
        assert!(rt; !cases.is_empty(), "{job}");
        for line in cases.split('\n') {
            let (rows, wanted) = case_of(line);
            let told = told_of(rt.alloc(), job, rows)?;
            assert_eq!(rt; told.as_str(), wanted, "{rows}");
        }
    }
    Ok(())
}
