//! The normal form of a job, and that it is read again.

use flu_model::Program;
use flu_parse::{print_job, read_job};
use std::alloc::Global;
use std::process::Abort;
use std::test::Fail;

// The job of a text.
fn job(alloc: Global, text: &str) -> Result<Program, Fail> {
    let job = read_job(alloc, text.as_bytes())?;
    Ok(job)
}

// The job of a text prints as another text, and the job of that one too.
fn expect_printed(rt: &impl Abort, alloc: Global, text: &str, expected: &str) -> Result<(), Fail> {
    let printed = print_job(alloc, &job(alloc, text)?)?;
    assert_eq!(rt; printed.as_str(), expected, "{text}");
    let again = print_job(alloc, &job(alloc, printed.as_str())?)?;
    assert_eq!(rt; again.as_str(), expected);
    Ok(())
}

/// Texts of jobs, each with its normal form after an arrow if that is another one: a count, views, last values; a version and slacks, of
/// which only a version other than 1 and a slack other than 0 are printed; a guard, which gets parentheses; lines that are put in order;
/// expressions; the fields of texts; a unit of times, beside tags that are called as the words for it; and items, division, families
/// cleared whole and named in a flush, which version 3 has, beside a cell that is called `item` in version 1.
const JOBS: &str = "cell count sum
tag inc int
tag read none
depends inc read
depends read read
on inc: add count value
on read: emit \"count {count}\"; clear count
source a \"a.csv\" rate 1000: inc
source b \"b.csv\" rate 1000: inc
source c \"c.csv\" rate 1: read
%%
cell views keyed sum
cell zip keyed last
tag view keyed int
tag update keyed int
tag tick none
depends update update same
depends view tick
depends tick tick
on view: add views[key] value
on update: emit \"was {zip[key]}\"; set zip[key] value
on tick: flush views \"page {key} views {cell}\"
source web \"web.csv\" rate 1000: view[0..9]
source app \"app.csv\" rate 500: view[0..9], update[0..9]
source clock \"clock.csv\" rate 1: tick
%%
cell p last
cell q last
tag r int
tag r2 int
tag z none
depends r r
depends r2 r2
depends z z
depends r z
depends r2 z
on r: set p value; emit \"p {p}\"
on r2: set q value; emit \"q {q}\"
on z: emit \"z {p} {q}\"
source s1 \"s1.csv\" rate 1: r
source s2 \"s2.csv\" rate 1: r2
source s3 \"s3.csv\" rate 10: z
%%
version 2
cell price last
cell vol sum
tag quote int
tag trade int
tag shut none
depends quote quote
depends quote trade
depends trade shut
depends shut shut
on quote: set price value
on trade: add vol value * price; emit \"at {price}\"
on shut: emit \"vol {vol}\"; clear vol
source q \"q.csv\" rate 1: quote
source t \"t.csv\" rate 100 slack 250: trade
source s \"s.csv\" rate 1: shut
-->
version 2
cell price last
cell vol sum
tag quote int
tag trade int
tag shut none
depends quote quote
depends quote trade
depends trade shut
depends shut shut
on quote: set price value
on trade: add vol (value * price); emit \"at {price}\"
on shut: emit \"vol {vol}\"; clear vol
source q \"q.csv\" rate 1: quote
source t \"t.csv\" rate 100 slack 250: trade
source s \"s.csv\" rate 1: shut
%%
version 01 source s \"s.csv\" slack 0: t tag t none
-->
tag t none
source s \"s.csv\" rate 1: t
%%
cell hi max
cell seen last
tag t int
depends t t
on t: raise hi value when value > 2; set seen value; emit \"hi {hi} seen {seen}\"
source s \"s.csv\" rate 1: t
-->
cell hi max
cell seen last
tag t int
depends t t
on t: raise hi value when (value > 2); set seen value; emit \"hi {hi} seen {seen}\"
source s \"s.csv\" rate 1: t
%%
# a comment
source s \"a b.csv\": t [ 07 ] , u,t[8..010]
on u:clear a;emit\"\"when 0
on t :clear k [key]
depends t u all depends u t   depends t t same
tag t keyed int tag u none
tag idle none
cell a sum cell k keyed last
-->
cell a sum
cell k keyed last
tag t keyed int
tag u none
tag idle none
depends t u
depends u t
depends t t same
on t: clear k[key]
on u: clear a; emit \"\" when 0
source s \"a b.csv\" rate 1: t[7], u, t[8..10]
%%
cell a sum cell m max cell k keyed last tag t keyed int
on t: add a 1+2-3*4 when not not value<2 and value<=3 or key>4;
raise m - - value when (time>=05) == has k[007];
set k[key] not (m != -9223372036854775807 - 1) or (((k[key])))
-->
cell a sum
cell m max
cell k keyed last
tag t keyed int
on t: add a ((1 + 2) - (3 * 4)) when (((not (not (value < 2))) and (value <= 3)) or (key > 4)); raise m (- (- value)) when ((time >= 5) == has k[7]); set k[key] ((not (m != ((- 9223372036854775807) - 1))) or k[key])
%%
cell a sum cell k keyed last tag t keyed int
on t: emit \"{value} {key}{time} 007 {a}, {k[key]} [{k[007]}] {k[0]} \u{e9}#\";
flush k \" {key}: {cell} 01 {time}{value}\"
-->
cell a sum
cell k keyed last
tag t keyed int
on t: emit \"{value} {key}{time} 007 {a}, {k[key]} [{k[7]}] {k[0]} \u{e9}#\"; flush k \" {key}: {cell} 01 {time}{value}\"
%%
version 3 tag t keyed item by towns int names towns:\"b c\",
\"a\",\"\u{e9}\" # a comment
cell sums keyed by towns sum cell tops keyed by names max names names : \"names\"
-->
version 3
names towns: \"b c\", \"a\", \"\u{e9}\"
names names: \"names\"
cell sums keyed by towns sum
cell tops keyed by names max
tag t keyed item by towns int
%%
version 3 iso seconds
tag iso none
tag seconds int
depends iso seconds
%%
version 03 iso  milliseconds # a comment
-->
version 3 iso milliseconds
%%
version 3 iso microseconds cell a sum
-->
version 3 iso microseconds
cell a sum
%%
version 3 ties 0070 iso seconds cell a sum
-->
version 3 ties 70 iso seconds
cell a sum
%%
version 3 ties 1 cell ties sum
-->
version 3
cell ties sum
%%
version 3 cell hits keyed sum cell mean last
tag hit item int tag day keyed item none
on hit: add hits[ item ] value/2%item-1*(7/2);set mean item when has hits[item]
on day: flush hits \"{mean} {hits} {item}\";clear hits;clear hits[7];clear hits[key]; emit \"{item}{hits[item]}\"
-->
version 3
cell hits keyed sum
cell mean last
tag hit item int
tag day keyed item none
on hit: add hits[item] (((value / 2) % item) - (1 * (7 / 2))); set mean item when has hits[item]
on day: flush hits \"{mean} {cell} {item}\"; clear hits; clear hits[7]; clear hits[key]; emit \"{item}{hits[item]}\"
%%
cell item sum cell a sum tag t none
on t: add a item; emit \"{item}\"
-->
cell item sum
cell a sum
tag t none
on t: add a item; emit \"{item}\"
";

#[test]
fn jobs_in_normal_form(rt: HostRuntime) -> Result<(), Fail> {
    expect_printed(&rt, rt.alloc(), "", "")?;
    for case in JOBS.split("%%\n") {
        let (text, expected) = case.split_once("-->\n").unwrap_or((case, case));
        expect_printed(&rt, rt.alloc(), text, expected)?;
    }
    Ok(())
}
