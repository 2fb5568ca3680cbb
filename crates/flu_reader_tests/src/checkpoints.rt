//! The texts of checkpoints, and what is read of texts.

use crate::tables::case_of;
use flu_cells::State;
use flu_model::{Cell, Program};
use flu_parse::read_job;
use flu_save::{read_save, save_text};
use std::alloc::Global;
use std::test::Fail;

/// A job with a sum, a maximum and a keyed last value.
const JOB: &str =
    "cell count sum\ncell top max\ncell place keyed last\ntag inc int\nsource a \"a.csv\": inc\n";

/// The end of each checkpoint of the job.
const END: &str =
    ",\"job\":\"cell count sum\\ncell top max\\ncell place keyed last\\ntag inc int\\nsource a \\\"a.csv\\\" rate 1: inc\\n\"}";

/// What is saved of what is read of a text, in short; else the fault.
fn saved_again(alloc: Global, p: &Program, text: &str) -> Result<String, Fail> {
    let again = match read_save(alloc, p, text.as_bytes()) {
        Ok(saved) => {
            let border = saved.border;
            let same = save_text(alloc, p, border, &saved.state)?.as_slice() == text.as_bytes();
            format!(in alloc; "{border} {same}")?
        }
        Err(fault) => format!(in alloc; "{fault}")?,
    };
    Ok(again)
}

#[test]
fn saves(rt: HostRuntime) -> Result<(), Fail> {
    let alloc = rt.alloc();
    let p = read_job(alloc, JOB.as_bytes())?;
    let mut s = State::new(alloc);
    s.put(
        Cell {
            family: 2,
            key: 65_535,
        },
        0,
    )?;
    s.put(Cell { family: 2, key: 7 }, 9)?;
    s.raise(Cell { family: 1, key: 0 }, -5)?;
    s.add(Cell { family: 0, key: 0 }, i128::MIN)?;
    let text = save_text(alloc, &p, 2, &s)?;
    let wanted = format!(in alloc;
        "{{\"border\":2,\"cells\":[[\"count\",0,\"-170141183460469231731687303715884105728\"],[\"top\",0,\"-5\"],[\"place\",7,\"9\"],[\"place\",65535,\"0\"]]{END}"
    )?;
    assert!(rt; text.as_slice() == wanted.as_bytes());
    Ok(())
}

/// Prefixes of texts, to each of which the end is appended, with what is read of them.
const FRONTS: &str =
    "{\"border\":2,\"cells\":[[\"count\",0,\"12\"],[\"top\",0,\"0\"],[\"place\",3,\"-4\"]] => 2 true
{\"border\": 9223372036854775807, \"cells\": [] => 9223372036854775807 false
{\"border\":9223372036854775808,\"cells\":[] => wrong form
{\"border\":-1,\"cells\":[] => wrong form
{\"border\":2,\"cells\":{} => wrong form
{\"border\":2,\"cells\":[],\"more\":0 => wrong form
{\"border\":2,\"cells\":[]} => not json
{\"border\":2,\"cells\":[],\"job\":\"\" => 2 false
{\"border\":2,\"cells\":[[\"count\",0,\"0\"]] => wrong form
{\"border\":2,\"cells\":[[\"count\",0,\"012\"]] => wrong form
{\"border\":2,\"cells\":[[\"count\",0,\"+12\"]] => wrong form
{\"border\":2,\"cells\":[[\"count\",0,12]] => wrong form
{\"border\":2,\"cells\":[[\"count\",0,\"-12\"]] => 2 true
{\"border\":2.0,\"cells\":[] => wrong form
{\"border\":2,\"cells\":[[\"count\",1,\"12\"]] => wrong form
{\"border\":2,\"cells\":[[\"count\",0,\"12\",0]] => wrong form
{\"border\":2,\"cells\":[[\"total\",0,\"12\"]] => wrong form
{\"border\":2,\"cells\":[[\"top\",0,\"9223372036854775808\"]] => wrong form
{\"border\":2,\"cells\":[[\"place\",65536,\"1\"]] => wrong form
{\"border\":2,\"cells\":[[\"place\",4,\"1\"],[\"place\",3,\"1\"]] => wrong form
{\"border\":2,\"cells\":[[\"place\",4,\"1\"],[\"place\",4,\"1\"]] => wrong form";

#[test]
fn reads(rt: HostRuntime) -> Result<(), Fail> {
    let alloc = rt.alloc();
    let p = read_job(alloc, JOB.as_bytes())?;
    for line in FRONTS.split('\n') {
        let (front, wanted) = case_of(line);
        let text = format!(in alloc; "{front}{END}")?;
        assert_eq!(rt; saved_again(alloc, &p, &text)?.as_str(), wanted, "{front}");
    }
    Ok(())
}

#[test]
fn reads_no_end(rt: HostRuntime) -> Result<(), Fail> {
    let alloc = rt.alloc();
    let p = read_job(alloc, JOB.as_bytes())?;
    assert_eq!(rt; saved_again(alloc, &p, "{")?.as_str(), "not json");
    let other = saved_again(alloc, &p, "{\"border\":2,\"cells\":[],\"job\":\"\"}")?;
    assert_eq!(rt; other.as_str(), "other job");
    Ok(())
}
