//! The first fault of a job text, if it has one.

use crate::tables::case_of;
use flu_model::What;
use flu_parse::{JobFault, read_job};
use std::alloc::{AllocError, Global};
use std::test::Fail;

fn said(alloc: Global, text: &str) -> Result<String, AllocError> {
    match read_job(alloc, text.as_bytes()) {
        Ok(_) => String::from_str(alloc, "ok"),
        Err(fault) => format!(in alloc; "{fault:?}"),
    }
}

/// Texts with their first faults: when the text is cut into words and read; in what its declarations name, as well as its version and then
/// its unit, which are checked once all names are; in its expressions, whose height is examined at the first token, after what is wrong there; and in its
/// texts, in which a field of no form is not a faulty brace, so that the fields after it are checked.
const FAULTS: &str = " => ok
cell count sum $ => BadToken { at: 15 }
cell count => Unexpected { at: 10 }
on inc: clear count => UnknownName { at: 3 }
cell a sum cell a max => TwiceNamed { at: 16 }
cell m max tag t none on t: add m 1 => WrongShape { at: 32 }
tag t keyed int source s \"f\": t[0..256] => OverLimit { what: Itags, count: 257 }
tag t none source t \"f\": t => TwiceNamed { at: 18 }
version 4 => WrongShape { at: 8 }
version 3 => ok
version 3 ties 1000 => ok
version 3 ties 2147483648 iso seconds => ok
version 3 ties 0 => WrongShape { at: 15 }
version 3 ties 2147483649 => WrongShape { at: 15 }
version 2 ties 0 iso days => WrongShape { at: 10 }
version 1 ties 1 => WrongShape { at: 10 }
version 4 ties 0 => WrongShape { at: 8 }
version 3 ties 0 iso days => WrongShape { at: 15 }
version 3 ties 5 iso days => WrongShape { at: 21 }
version 3 ties => Unexpected { at: 14 }
version 3 ties x => Unexpected { at: 15 }
version 3 ties 2 ties 2 => Unexpected { at: 17 }
version 3 iso seconds ties 2 => Unexpected { at: 22 }
ties 2 => Unexpected { at: 0 }
version 3 tag ties none tag every int depends ties every => ok
version 3 iso seconds => ok
version 3 iso milliseconds => ok
version 3 iso microseconds => ok
version 4 iso days => WrongShape { at: 8 }
version 2 iso seconds => WrongShape { at: 10 }
version 1 iso days => WrongShape { at: 10 }
version 3 iso days => WrongShape { at: 14 }
version 3 iso second => WrongShape { at: 14 }
version 3 iso => Unexpected { at: 13 }
iso seconds => Unexpected { at: 0 }
version 3 iso seconds iso seconds => Unexpected { at: 22 }
version 3 iso days cell a sum cell a max => TwiceNamed { at: 35 }
version 3 iso days tag t none depends t u => WrongShape { at: 14 }
version 3 tag iso none tag seconds int depends iso seconds => ok
version 1 tag iso none tag seconds int depends iso seconds => ok
tag t item none => WrongShape { at: 6 }
tag t foo none => Unexpected { at: 6 }
version 3 tag t item item none => Unexpected { at: 21 }
version 3 tag item item none on item: emit \"x\" => ok
cell a keyed sum tag t none on t: add a[item] 1 => WrongShape { at: 40 }
version 3 cell a keyed sum tag t none on t: add a[item] 1 => WrongShape { at: 50 }
version 3 cell a keyed sum tag t item none on t: add a[item] item => ok
version 3 cell a sum tag t item none on t: add a[item] 1 => WrongShape { at: 47 }
cell a keyed sum tag t none on t: add a[foo] 1 => Unexpected { at: 40 }
cell a sum tag t none on t: add a 1 / 2 => WrongShape { at: 36 }
cell a sum tag t none on t: add a b / 2 => UnknownName { at: 34 }
version 2 cell a sum tag t none on t: add a 4 % b => WrongShape { at: 46 }
version 3 cell a sum tag t none on t: add a 7 / 2 % 3 => ok
version 3 cell item sum => WrongShape { at: 15 }
cell item sum cell a sum tag t none on t: add a item => ok
version 3 cell a sum tag t none on t: add a item => WrongShape { at: 44 }
version 3 names l: \"a\", \"b\" cell a keyed by l sum tag t item by l int => ok
version 3 tag t keyed item by l none cell a keyed by l last names l: \"a b\", \"\u{e9}\", \"7\" => ok
version 3 names names: \"a\" names by: \"a\" cell item1 keyed by names sum cell c keyed by by max => ok
tag names none tag by int depends names by => ok
names l: \"a\" => WrongShape { at: 0 }
version 2 names l: \"\" => WrongShape { at: 10 }
version 3 names l: \"\" => WrongShape { at: 19 }
version 3 names l: \"a\", \"b,c\" => WrongShape { at: 24 }
version 3 names l: \"a[\", \"a\", \"a\" => WrongShape { at: 19 }
version 3 names l: \"a}\" => WrongShape { at: 19 }
version 3 names l: \"xxxxxxxxxxxxxxxxxxxxxxxxxxxxxxxxxxxxxxxxxxxxxxxxxxxxxxxxxxxxxxxx\" => ok
version 3 names l: \"xxxxxxxxxxxxxxxxxxxxxxxxxxxxxxxxxxxxxxxxxxxxxxxxxxxxxxxxxxxxxxxxx\" => WrongShape { at: 19 }
version 3 names l: \"a\", \"b\", \"a\" => TwiceNamed { at: 29 }
version 3 names l: \"a\", \"b\" names m: \"b\", \"a\" => ok
version 3 names l: \"a\" cell l sum => TwiceNamed { at: 28 }
version 3 source s \"f\": t names s: \"\" => TwiceNamed { at: 32 }
version 3 cell a keyed by l sum => UnknownName { at: 26 }
version 2 cell a keyed by l sum => WrongShape { at: 23 }
cell a keyed by l sum names l: \"a\" => WrongShape { at: 13 }
version 3 cell item keyed by l sum => WrongShape { at: 15 }
version 2 tag t item by l int => WrongShape { at: 16 }
version 3 tag t item by l int => UnknownName { at: 24 }
version 3 tag t item by t int names l: \"a\" => UnknownName { at: 24 }
version 3 names l \"a\" => Unexpected { at: 18 }
version 3 names l: => Unexpected { at: 18 }
version 3 names l: \"a\", => Unexpected { at: 23 }
cell a by l sum => Unexpected { at: 7 }
tag t keyed by l int => Unexpected { at: 12 }
cell a sum tag t none on t: add a item => UnknownName { at: 34 }
cell a keyed sum tag t none on t: clear a => WrongShape { at: 40 }
version 3 cell a keyed sum tag t none on t: clear a => ok
version 3 cell a keyed sum cell b sum tag t item none on t: flush a \"{b} {cell} {a} {item}\" => ok
cell a keyed sum cell b sum tag t none on t: flush a \"{b}\" => WrongShape { at: 53 }
version 3 cell a keyed sum tag t none on t: flush a \"{z}\" => UnknownName { at: 52 }
version 3 cell a keyed sum tag t none on t: flush a \"{a[key]}\" => WrongShape { at: 52 }
version 3 cell a keyed sum tag t none on t: flush a \"{item}\" => WrongShape { at: 52 }
version 3 tag t none on t: emit \"{item}\" => WrongShape { at: 32 }
cell item sum tag t none on t: emit \"{item}\" => ok
cell a keyed sum tag t item none => WrongShape { at: 23 }
cell a keyed sum tag t none on t: clear a[item] => WrongShape { at: 42 }
version 3 cell a keyed sum tag t none on t: clear a[item] => WrongShape { at: 52 }
version 3 cell a keyed sum tag t item none on t: clear a[item]; emit \"{item} {a[item]}\" => ok
version 3 cell a keyed sum tag t none on t: emit \"{a[item]}\" => WrongShape { at: 49 }
version 3 cell a keyed max tag t item int on t: raise a[item] value when item and has a[item] => ok
version 3 cell a sum tag t none on t: add a 1 when item => WrongShape { at: 51 }
version 3 cell a keyed sum tag t none on t: add a[1] 1 when has a[item] => WrongShape { at: 66 }
version 3 cell items sum cell ite max => ok
version 3 cell a sum tag t none on t: flush a \"x\" => WrongShape { at: 44 }
version 3 cell a keyed sum tag t none on t: emit \"{a}\" => WrongShape { at: 49 }
version 3 tag t none names t: \"a\" => TwiceNamed { at: 27 }
version 3 names l: \"a\" names l: \"b\" => TwiceNamed { at: 29 }
version 3 names l: \"Alter Hafen\", \"Markt 3\", \"\u{fc}ber\" => ok
version 3 names l: \"a]\" => WrongShape { at: 19 }
version 3 names l: \"{a\" => WrongShape { at: 19 }
version 0 tag t none depends t u => WrongShape { at: 8 }
version 3 cell a sum cell a max => TwiceNamed { at: 26 }
version 2 version 2 => Unexpected { at: 10 }
tag t none on t: clear t => UnknownName { at: 23 }
tag t none depends t t same => WrongShape { at: 23 }
cell a sum tag t none on t: clear a on t: clear a => TwiceNamed { at: 39 }
tag k keyed none source s \"f\": k[1], k[0..3] => TwiceNamed { at: 37 }
tag k keyed none source s \"f\": k[3..1] => WrongShape { at: 33 }
tag k keyed none source s \"f\": k => WrongShape { at: 31 }
tag k keyed none source s \"f\": k[65536] => OverLimit { what: Key, count: 65536 }
tag t none source s \"\": t => WrongShape { at: 20 }
tag t none source s \"f\": t source u \"f\": t => TwiceNamed { at: 36 }
tag t none source s \"f\" rate 1000000001: t => OverLimit { what: Rate, count: 1000000001 }
tag t none source s \"f\" slack 60001: u => OverLimit { what: Slack, count: 60001 }
tag t none source s \"f\" rate 1000000001 slack 60001: t => OverLimit { what: Rate, count: 1000000001 }
tag t none source s \"f\" slack 60000: t => ok
cell a sum tag t none on t: add a value => WrongShape { at: 34 }
cell a sum tag t none on t: add a 1 + b => UnknownName { at: 38 }
cell a keyed sum tag t none on t: clear a[key] => WrongShape { at: 42 }
cell a sum tag t none on t: add a 1+1+1+1+1+1+1+1+1+1+1+1+1+1+1+1+1+1+1+1+1+1+1+1+1+1+1+1+1+1+1+1+1 => OverLimit { what: Height, count: 33 }
cell a sum tag t none on t: add a 1+1+1+1+1+1+1+1+1+1+1+1+1+1+1+1+1+1+1+1+1+1+1+1+1+1+1+1+1+1+1+1 => ok
cell a sum tag t none on t: add a b+1+1+1+1+1+1+1+1+1+1+1+1+1+1+1+1+1+1+1+1+1+1+1+1+1+1+1+1+1+1+1+1 => UnknownName { at: 34 }
tag t none on t: emit \"a}b\" => WrongShape { at: 22 }
tag t none on t: emit \"a{b\" => WrongShape { at: 22 }
tag t none on t: emit \"{a}}\" => UnknownName { at: 22 }
tag t none on t: emit \"}{a}\" => WrongShape { at: 22 }
tag t none on t: emit \"{value}\" => WrongShape { at: 22 }
tag t none on t: emit \"{cell}\" => WrongShape { at: 22 }
tag t none on t: emit \"{time} {time}\" => ok
tag t none on t: emit \"{}{z}\" => UnknownName { at: 22 }
tag t none on t: emit \"{}\" => WrongShape { at: 22 }
tag t none on t: emit \"{sum}{z}\" => UnknownName { at: 22 }
tag t none on t: emit \"{c{z}\" => WrongShape { at: 22 }
tag t none on t: emit \"{c{z}{z}\" => WrongShape { at: 22 }
tag t none on t: emit \"{z}{c{z}\" => UnknownName { at: 22 }
cell a keyed sum tag t none on t: emit \"{a[65536]}\" => OverLimit { what: Key, count: 65536 }
cell a keyed sum tag t none on t: flush a \"{key} {cell} {value}\" => WrongShape { at: 42 }
cell a keyed sum tag t none on t: flush a \"{key} {cell}\" => ok";

#[test]
fn first_faults(rt: HostRuntime) -> Result<(), Fail> {
    for line in FAULTS.split('\n') {
        let (text, wanted) = case_of(line);
        let said = said(rt.alloc(), text)?;
        assert_eq!(rt; said.as_str(), wanted, "{text}");
    }
    Ok(())
}

// A row of operators is read, refused and dropped along its left operands, without a level of recursion for each.
#[test]
fn long_row_of_operators(rt: HostRuntime) -> Result<(), Fail> {
    let alloc = rt.alloc();
    let mut text = String::from_str(alloc, "cell a sum tag t none on t: add a 1")?;
    for _ in 0..200_000 {
        text.push_str("+1")?;
    }
    match read_job(alloc, text.as_bytes()) {
        Err(JobFault::OverLimit { what, count }) => {
            assert_eq!(rt; what, What::Height);
            assert_eq!(rt; count, 33);
        }
        _ => assert!(rt; false),
    }
    Ok(())
}

#[test]
fn bytes_that_are_no_text(rt: HostRuntime) -> Result<(), Fail> {
    match read_job(rt.alloc(), b"cell \xFF") {
        Err(JobFault::BadUtf8 { at }) => assert_eq!(rt; at, 5),
        _ => assert!(rt; false),
    }
    Ok(())
}
