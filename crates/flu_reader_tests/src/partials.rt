//! The lines of partials: what is read of texts, and which contributions are a whole partial.

use crate::tables::case_of;
use flu_partial::{PartialLines, push_contribution, push_head, read_contribution, read_head};
use std::alloc::Global;
use std::test::Fail;

/// Whether a line that is printed is this text with its line feed.
fn is_line(alloc: Global, line: &[u8], text: &str) -> Result<&'static str, Fail> {
    let wanted = format!(in alloc; "{text}\n")?;
    Ok(if line == wanted.as_bytes() {
        "the same"
    } else {
        "another"
    })
}

/// What is printed of the head that is read of a text, in short; else the fault.
fn head_again(alloc: Global, text: &str) -> Result<String, Fail> {
    let again = match read_head(alloc, text.as_bytes()) {
        Ok(head) => {
            let mut line = Vec::new(alloc);
            push_head(alloc, &mut line, &head)?;
            let same = is_line(alloc, line.as_slice(), text)?;
            let node = head.node.as_str();
            format!(in alloc; "{node} {same}")?
        }
        Err(fault) => format!(in alloc; "{fault}")?,
    };
    Ok(again)
}

const HEADS: &str =
    "{\"first\":null,\"job\":\"cell n sum\\n\",\"node\":\"left\",\"plan\":\"\"} => left the same
{\"first\":0,\"job\":\"a \\\"b\\\"\",\"node\":\"_\",\"plan\":\"\u{e9}\"} => _ the same
{\"first\":9223372036854775807,\"job\":\"\",\"node\":\"left\",\"plan\":\"\"} => left the same
{\"first\":9223372036854775808,\"job\":\"\",\"node\":\"left\",\"plan\":\"\"} => wrong form
{\"first\":00,\"job\":\"\",\"node\":\"left\",\"plan\":\"\"} => not json
{\"first\":1.0,\"job\":\"\",\"node\":\"left\",\"plan\":\"\"} => wrong form
{\"first\":1,\"job\":\"\",\"node\":\"7up\",\"plan\":\"\"} => wrong form
{\"first\":1, \"job\":\"\",\"node\":\"left\",\"plan\":\"\"} => wrong form
{\"job\":\"\",\"first\":1,\"node\":\"left\",\"plan\":\"\"} => wrong form
{\"first\":1,\"job\":\"\",\"node\":\"left\",\"plan\":\"\",\"more\":0} => wrong form
{\"first\":1,\"job\":\"\",\"node\":\"left\"} => wrong form
{\"first\":1,\"job\":\"\\u0061\",\"node\":\"left\",\"plan\":\"\"} => wrong form
[] => wrong form
{ => not json";

#[test]
fn heads(rt: HostRuntime) -> Result<(), Fail> {
    let alloc = rt.alloc();
    for line in HEADS.split('\n') {
        let (text, wanted) = case_of(line);
        assert_eq!(rt; head_again(alloc, text)?.as_str(), wanted, "{text}");
    }
    Ok(())
}

/// What is printed of the contribution that is read of a text, in short; else the fault.
fn contribution_again(alloc: Global, text: &str) -> Result<String, Fail> {
    let again = match read_contribution(alloc, text.as_bytes()) {
        Ok(contribution) => {
            let mut line = Vec::new(alloc);
            push_contribution(alloc, &mut line, &contribution)?;
            let same = is_line(alloc, line.as_slice(), text)?;
            format!(in alloc; "{same}")?
        }
        Err(fault) => format!(in alloc; "{fault}")?,
    };
    Ok(again)
}

const CONTRIBUTIONS: &str =
    "{\"cells\":[],\"events\":0,\"outs\":[],\"time\":3,\"itag\":2} => the same
{\"cells\":[[0,0,\"-5\"],[0,7,\"0\"],[1,0,\"170141183460469231731687303715884105727\"]],\"events\":18446744073709551615,\"outs\":[[3,\"t[1]\",\"x\"]],\"last\":null} => the same
{\"cells\":[[0,7,\"1\"],[0,7,\"1\"]],\"events\":0,\"outs\":[],\"time\":3,\"itag\":2} => wrong form
{\"cells\":[[1,0,\"1\"],[0,7,\"1\"]],\"events\":0,\"outs\":[],\"time\":3,\"itag\":2} => wrong form
{\"cells\":[[0,0,\"+5\"]],\"events\":0,\"outs\":[],\"time\":3,\"itag\":2} => wrong form
{\"cells\":[[0,0,5]],\"events\":0,\"outs\":[],\"time\":3,\"itag\":2} => wrong form
{\"cells\":[[0,0,\"5\",1]],\"events\":0,\"outs\":[],\"time\":3,\"itag\":2} => wrong form
{\"cells\":[],\"events\":18446744073709551616,\"outs\":[],\"time\":3,\"itag\":2} => wrong form
{\"cells\":[],\"events\":0,\"outs\":[],\"time\":3,\"itag\":256} => wrong form
{\"cells\":[],\"events\":0,\"outs\":[],\"itag\":2,\"time\":3} => wrong form
{\"cells\":[],\"events\":0,\"outs\":[],\"time\":3,\"itag\":2,\"last\":4} => wrong form
{\"cells\":[],\"events\":0,\"outs\":[],\"last\":9223372036854775807} => the same
{\"cells\":[],\"events\":0,\"outs\":[],\"last\":9223372036854775808} => wrong form
{\"cells\":[],\"events\":0,\"outs\":[[9223372036854775808,\"t\",\"x\"]],\"last\":4} => wrong form
{\"cells\":[],\"events\":0,\"outs\":[]} => wrong form
{\"cells\":[],\"events\":0 => not json";

#[test]
fn contributions(rt: HostRuntime) -> Result<(), Fail> {
    let alloc = rt.alloc();
    for line in CONTRIBUTIONS.split('\n') {
        let (text, wanted) = case_of(line);
        assert_eq!(rt; contribution_again(alloc, text)?.as_str(), wanted, "{text}");
    }
    Ok(())
}

/// What is answered for contributions up to these places, each of one event: `time,itag`, or `time,itag/0` of none, or `last`.
fn order_of(alloc: Global, places: &str) -> Result<String, Fail> {
    let mut lines = PartialLines::new();
    for place in places.split(' ') {
        let text = match place.split_once(',') {
            None => format!(in alloc; "{{\"cells\":[],\"events\":0,\"outs\":[],\"last\":null}}")?,
            Some((time, itag)) => {
                let (itag, events) = match itag.split_once('/') {
                    None => (itag, "1"),
                    Some((itag, events)) => (itag, events),
                };
                format!(in alloc;
                    "{{\"cells\":[],\"events\":{events},\"outs\":[],\"time\":{time},\"itag\":{itag}}}"
                )?
            }
        };
        let contribution = read_contribution(alloc, text.as_bytes())?;
        if let Err(fault) = lines.take(&contribution) {
            return Ok(format!(in alloc; "{fault}")?);
        }
    }
    let end = match lines.end() {
        Ok(()) => format!(in alloc; "whole")?,
        Err(fault) => format!(in alloc; "{fault}")?,
    };
    Ok(end)
}

const ORDERS: &str = "last => whole
1,0 1,3 2,0 last => whole
1,3 1,3 last => out of order
2,0 1,3 last => out of order
1,0/0 last => empty
1,0 2,0 => incomplete
1,0 last 2,0 => after the end
last last => after the end";

#[test]
fn orders(rt: HostRuntime) -> Result<(), Fail> {
    let alloc = rt.alloc();
    for line in ORDERS.split('\n') {
        let (places, wanted) = case_of(line);
        assert_eq!(rt; order_of(alloc, places)?.as_str(), wanted, "{places}");
    }
    Ok(())
}
