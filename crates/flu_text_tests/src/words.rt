//! The words of commands: which are a command, and which word of others does not fit.

use crate::tables::case_of;
use flu_words::{Command, read_words};
use std::alloc::{AllocError, Global};
use std::process::Abort;
use std::test::Fail;

/// The words of a line, with a bar between them; none if it is empty.
fn words_of(alloc: Global, line: &str) -> Result<Vec<String>, AllocError> {
    let mut owned = Vec::new(alloc);
    if line.is_empty() {
        return Ok(owned);
    }
    for word in line.split('|') {
        owned.push(String::from_str(alloc, word)?)?;
    }
    Ok(owned)
}

/// A command as a line of its words, with a depth and the rows of a round if none were given, and a dash for what is left out of a run.
fn told(alloc: Global, command: Command) -> Result<String, AllocError> {
    match command {
        Command::Fold { job } => format!(in alloc; "fold {job}"),
        Command::Check { job } => format!(in alloc; "check {job}"),
        Command::Valid { job, plan } => format!(in alloc; "valid {job} {plan}"),
        Command::Plan { job, depth } => format!(in alloc; "plan {job} {}", depth.levels),
        Command::Run { job, plan, options } => {
            let plan = plan.unwrap_or("-");
            let depth = options.depth.levels;
            let rows = options.rows.count;
            let adapt = if options.adapt { "adapt" } else { "-" };
            let save = options.save.unwrap_or("-");
            let flushes = if options.unflushed { "unflushed" } else { "-" };
            let resume = options.resume.unwrap_or("-");
            format!(in alloc; "run {job} {plan} {depth} {rows} {adapt} {save} {flushes} {resume}")
        }
        Command::Simulate {
            job,
            plan,
            seed,
            trace,
        } => format!(in alloc; "simulate {job} {plan} {} {trace}", seed.number),
        Command::Replay { job, plan, trace } => format!(in alloc; "replay {job} {plan} {trace}"),
        Command::Demo { n, seed } => format!(in alloc; "demo {} {}", n.count, seed.number),
    }
}

/// The same of words, or the place of the first one that does not fit.
fn said(alloc: Global, words: &[String]) -> Result<String, AllocError> {
    match read_words(words) {
        Ok(command) => told(alloc, command),
        Err(bad) => {
            let at = bad.at;
            format!(in alloc; "bad words at {at}")
        }
    }
}

/// Whether the words of each line are this command, or do not fit there.
fn expect_all(rt: &impl Abort, alloc: Global, table: &str) -> Result<(), AllocError> {
    for line in table.split('\n') {
        let (words, wanted) = case_of(line);
        let owned = words_of(alloc, words)?;
        let said = said(alloc, owned.as_slice())?;
        assert_eq!(rt; said.as_str(), wanted, "{line}");
    }
    Ok(())
}

const COMMANDS: &str = "fold|J => fold J
check|a b => check a b
valid|J|P => valid J P
plan|J => plan J 3
plan|J|--depth|0000000006 => plan J 6
simulate|J|P|0 => simulate J P 0 false
simulate|J|P|2147483647 => simulate J P 2147483647 false
simulate|J|P|1|--trace => simulate J P 1 true
replay|J|P|T => replay J P T
demo|0|1 => demo 0 1
demo|1000000|0000000007 => demo 1000000 7
fold|fold => fold fold
run|J => run J - 3 4096 - - - -
run|J|P => run J P 3 4096 - - - -
run|J|J => run J J 3 4096 - - - -
run|J|--save|s => run J - 3 4096 - s - -
run|J|--resume|s => run J - 3 4096 - - - s
run|J|P|--save|s => run J P 3 4096 - s - -
run|J|P|--save|s|--resume|t => run J P 3 4096 - s - t
run|J|P|--save|s|--resume|s => run J P 3 4096 - s - s
run|J|--adapt => run J - 3 4096 adapt - - -
run|J|P|--adapt => run J P 3 4096 adapt - - -
run|J|--adapt|--save|s => run J - 3 4096 adapt s - -
run|J|P|--adapt|--resume|t => run J P 3 4096 adapt - - t
run|J|P|--adapt|--save|s|--resume|t => run J P 3 4096 adapt s - t
run|J|--depth|0 => run J - 0 4096 - - - -
run|J|--depth|0000000006 => run J - 6 4096 - - - -
run|J|--depth|3 => run J - 3 4096 - - - -
run|J|--depth|1|--adapt => run J - 1 4096 adapt - - -
run|J|--depth|2|--save|s => run J - 2 4096 - s - -
run|J|--depth|4|--resume|t => run J - 4 4096 - - - t
run|J|--save|s|--unflushed => run J - 3 4096 - s unflushed -
run|J|P|--save|s|--unflushed => run J P 3 4096 - s unflushed -
run|J|--adapt|--save|s|--unflushed => run J - 3 4096 adapt s unflushed -
run|J|--save|s|--unflushed|--resume|t => run J - 3 4096 - s unflushed t
run|J|P|--adapt|--save|s|--unflushed|--resume|t => run J P 3 4096 adapt s unflushed t
run|J|--depth|5|--adapt|--save|s|--unflushed|--resume|t => run J - 5 4096 adapt s unflushed t
run|J|--round|1 => run J - 3 1 - - - -
run|J|--round|4096 => run J - 3 4096 - - - -
run|J|--round|0000000007 => run J - 3 7 - - - -
run|J|P|--round|2 => run J P 3 2 - - - -
run|J|--depth|6|--round|100 => run J - 6 100 - - - -
run|J|P|--round|5|--adapt => run J P 3 5 adapt - - -
run|J|--round|9|--save|s|--unflushed|--resume|t => run J - 3 9 - s unflushed t
run|J|P|--round|3|--adapt|--save|s|--unflushed|--resume|t => run J P 3 3 adapt s unflushed t
run|J|--depth|5|--round|4095|--adapt|--save|s|--unflushed|--resume|t => run J - 5 4095 adapt s unflushed t";

#[test]
fn commands_are_read(rt: HostRuntime) -> Result<(), Fail> {
    expect_all(&rt, rt.alloc(), COMMANDS)?;
    Ok(())
}

const NO_COMMANDS: &str = " => bad words at 0
Fold|J => bad words at 0
|J => bad words at 0
fold => bad words at 1
fold| => bad words at 1
check|-J => bad words at 1
fold|J|x => bad words at 2
plan|J|--deep|1 => bad words at 2
plan|J|--depth => bad words at 3
plan|J|--depth|7 => bad words at 3
plan|J|--depth|00000000003 => bad words at 3
plan|J|--depth| => bad words at 3
plan|J|--depth|3|x => bad words at 4
valid|J => bad words at 2
simulate => bad words at 1
simulate|-J|P|1 => bad words at 1
simulate|J|-1|1 => bad words at 2
simulate|J|P => bad words at 3
simulate|J|P|-1 => bad words at 3
simulate|J|P|2147483648 => bad words at 3
simulate|J|P|99999999999 => bad words at 3
simulate|J|P|1|x => bad words at 4
simulate|J|P|1|--trace|--trace => bad words at 5
replay| => bad words at 1
replay|J => bad words at 2
replay|J|P|-T => bad words at 3
replay|J|P|T|x => bad words at 4
demo => bad words at 1
demo|1000001|1 => bad words at 1
demo|1|+1 => bad words at 2
demo|1 => bad words at 2
demo|1|2|3 => bad words at 3
run => bad words at 1
run|--save|s => bad words at 1
run|J| => bad words at 2
run|--adapt|J => bad words at 1
run|J|--adap => bad words at 2
run|J|--round => bad words at 3
run|J|--round|0 => bad words at 3
run|J|--round|0000000000 => bad words at 3
run|J|--round|4097 => bad words at 3
run|J|--round|99999999999 => bad words at 3
run|J|--round|00000000001 => bad words at 3
run|J|--round| => bad words at 3
run|J|--round|-1 => bad words at 3
run|J|--round|+1 => bad words at 3
run|J|--round|1|--round|1 => bad words at 4
run|J|--round|1|x => bad words at 4
run|J|--round|1|--depth|2 => bad words at 4
run|J|--round|1|P => bad words at 4
run|J|P|--round => bad words at 4
run|J|P|--round|0 => bad words at 4
run|J|P|--round|4097 => bad words at 4
run|J|P|--depth|1|--round|1 => bad words at 3
run|J|--depth|1|--round => bad words at 5
run|J|--depth|1|--round|0 => bad words at 5
run|J|--adapt|--round|1 => bad words at 3
run|J|--save|s|--round|1 => bad words at 4
run|J|--depth|1|--round|1|--adapt|--save|s|--unflushed|--resume => bad words at 11
run|J|--depth|1|--round|1|--adapt|--save|s|--unflushed|--resume|t|x => bad words at 12
plan|J|--round|1 => bad words at 2
simulate|J|P|1|--round|1 => bad words at 4
run|J|--adapt|P => bad words at 3
run|J|--adapt|--adapt => bad words at 3
run|J|P|Q => bad words at 3
run|J|--save => bad words at 3
run|J|--save| => bad words at 3
run|J|--save|J => bad words at 3
run|J|--save|--resume => bad words at 3
run|J|--resume|J => bad words at 3
run|J|--resume => bad words at 3
run|J|P|--save|P => bad words at 4
run|J|P|--resume|P => bad words at 4
run|J|P|--save|J => bad words at 4
run|J|--save|s|P => bad words at 4
run|J|--save|s|--save|t => bad words at 4
run|J|--save|s|--adapt => bad words at 4
run|J|--adapt|--save|J => bad words at 4
run|J|P|--resume|s|--save|t => bad words at 5
run|J|--save|s|--resume => bad words at 5
run|J|P|--save|s|--resume|P => bad words at 6
run|J|P|--save|s|--resume|t|x => bad words at 7
run|J|P|--adapt|--save|s|--resume|t|x => bad words at 8
run|--depth|1 => bad words at 1
run|J|--dept|1 => bad words at 2
run|J|--depth => bad words at 3
run|J|--depth|7 => bad words at 3
run|J|--depth|-1 => bad words at 3
run|J|--depth|00000000003 => bad words at 3
run|J|--depth| => bad words at 3
run|J|--depth|--adapt => bad words at 3
run|J|P|--depth|1 => bad words at 3
run|J|--depth|1|P => bad words at 4
run|J|--depth|1|--depth|1 => bad words at 4
run|J|--adapt|--depth|1 => bad words at 3
run|J|--save|s|--depth|1 => bad words at 4
run|J|--depth|1|--save|J => bad words at 5
run|J|--unflushed => bad words at 2
run|J|P|--unflushed => bad words at 3
run|J|--unflushed|--save|s => bad words at 2
run|J|--adapt|--unflushed => bad words at 3
run|J|--save|--unflushed => bad words at 3
run|J|--save|s|--unflushe => bad words at 4
run|J|--save|s|--unflushed|--unflushed => bad words at 5
run|J|--save|s|--unflushed|--adapt => bad words at 5
run|J|--resume|t|--unflushed => bad words at 4
run|J|--save|s|--resume|t|--unflushed => bad words at 6
run|J|--save|s|--unflushed|--resume => bad words at 6
run|J|--save|s|--unflushed|--resume|J => bad words at 6
run|J|--depth|1|--adapt|--save|s|--unflushed|--resume|t|x => bad words at 10";

#[test]
fn words_are_refused(rt: HostRuntime) -> Result<(), Fail> {
    expect_all(&rt, rt.alloc(), NO_COMMANDS)?;
    Ok(())
}
