//! What the program says about itself, outside the proved call.

use flu_lines::{Done, Refusal, say};
use flu_outside::{Failed, Sink, write_all};

/// The answer to `--help`.
pub const HELP: &str =
    "Flumina runs a job over streams of timestamped events and writes exactly the report of a sequential run.

  flumina fold JOB               read the job and its sources, write the report
  flumina check JOB              test whether the job may run in parallel, write it in normal form
  flumina valid JOB PLAN         test whether a plan is valid for the job, write the plan in normal form
  flumina plan JOB [--depth D]   write a plan with at most D levels below its root: 0 to 6, default 3
  flumina run JOB PLAN           run the job on a thread for each node of the plan, write the report
  flumina run JOB [--depth D]    the same, but choose for each round a plan with at most D levels below its root, or one thread
  flumina run JOB [PLAN] --adapt the same, but let a PLAN follow the counts of events; print the plan for all to standard error
  flumina run JOB [PLAN | --depth D] [--round ROWS] [--adapt] [--save FILE [--unflushed]] [--resume FILE]
                                 the same, but write after each round of ROWS rows of each source, 1 to 4096, default 4096;
                                 save a checkpoint under FILE after each round, or resume from the one in FILE; with
                                 --unflushed it may be lost in a power failure
  flumina simulate JOB PLAN SEED run the job by a schedule that a seed draws, write the report, then the counts of steps
  flumina simulate JOB PLAN SEED --trace
                                 the same, but write the trace of the run, one step per line, instead of the report
  flumina replay JOB PLAN TRACE  run the job by the steps of a trace, write the report
  flumina partial JOB PLAN NODE  read only the sources that a node of the plan needs, write what it sends: its partial
  flumina combine JOB PLAN FILE ..
                                 read the partials of nodes, each in a FILE, and only the sources of the other nodes, write the report
  flumina demo N SEED            run a job of page views over N events that a seed draws, write a one-line summary
  flumina --help                 write this text, as flumina COMMAND --help does
  flumina --version              write the version and the toolchain that proves it

Before a command, --hints lets a hint follow each line on standard error, and --no-hints none; without either there are hints if
standard error is a terminal, or if FLUMINA_HINTS=1 is in the environment. While fold, run, simulate, partial and combine read, a
terminal shows how far they are; --progress before the command adds a last line with bytes, rows and seconds, and --no-progress
shows neither.

JOB, PLAN, TRACE and FILE are file names, NODE is the name of a node of the plan, SEED a number from 0 to 2147483647, and N one
from 0 to 1000000. File names, also those in a job, are looked up in the working directory.

Status 0: written. Any other status comes with a line on standard error: 2 the words are not a command, 3 the job's text has a
fault, 4 tags conflict that are not declared dependent, 5 the plan has a fault, is not valid or has no such NODE, or NODE may not
be apart, 6 a source has a defect, 7 a file is missing or failed, 8 standard output failed, 9 out of memory, 11 a checkpoint has
a fault, or has the name of a source's file, 12 a checkpoint could not be written, 13 a trace has a bad line, a step that is not
enabled there, or too few lines, 14 a partial has a defect, or has the name of a source's file.

docs/LANGUAGE.md describes jobs, rows and lines, docs/TREE.md plans, docs/SCALE.md partials, docs/GUIDE.md the way from a log to
a report.
";

/// The answer to `--version`: the version, and the line that `rt version` writes for the kit that proves this text. README and
/// `docs/TRUST.md` have the same line, and `docs/DECISIONS.md` says how they are compared.
pub const VERSION: &str = "flumina 0.1.0
rattle-kit-13f logic dac8208d650f15bf
";

/// What has to be written if the words ask for help or for the version: `--help`, `-h`, `help` or `--version` as the only word, or
/// `--help` or `-h` right after the name of a command and last.
pub fn told(words: &[String]) -> Option<&'static str> {
    match words {
        [word] => match word.as_str() {
            "--help" | "-h" | "help" => Some(HELP),
            "--version" => Some(VERSION),
            _ => None,
        },
        [command, word] => match word.as_str() {
            "--help" | "-h" if is_command(command.as_str()) => Some(HELP),
            _ => None,
        },
        _ => None,
    }
}

fn is_command(word: &str) -> bool {
    matches!(
        word,
        "fold"
            | "check"
            | "valid"
            | "plan"
            | "run"
            | "simulate"
            | "replay"
            | "partial"
            | "combine"
            | "demo"
    )
}

/// Writes the text to out. If that fails, the answer is a write fault, and its line goes to err, as the proved call has it.
pub fn tell<O: Sink, E: Sink>(text: &str, out: &mut O, err: &mut E) -> Result<Done, Refusal> {
    match write_all(out, text.as_bytes()) {
        Ok(()) => Ok(Done::saying(None)),
        Err(Failed) => {
            say(err, &Refusal::WriteFault);
            Err(Refusal::WriteFault)
        }
    }
}
