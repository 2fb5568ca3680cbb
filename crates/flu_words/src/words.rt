//! The words of a command.

ghost use Rattle.std.specs.Prelude.{◌≡◌, ◌<◌, ◌≤◌, ◌+◌, MatchResult, IfOk, Ok, Err, map, option_map, string_bytes};
ghost use Rattle.flu_words.specs.Words.{command_in, plain_command, plain_options, job_alone, job_and_plan, job_and_depth, run_command, plan_and_rest};
ghost use Rattle.flu_words.specs.Words.{run_options, depth_without, rows_and_rest, option_and_rest, file_after, unflushed_after, is_other_file, depth_after, depth_and_rest};
ghost use Rattle.flu_words.specs.Words.{trace_after, seed_alone, both_and_rest, simulation, replay, demo, is_file_name};

use crate::numbers::{
    Depth, Draws, Rows, Seed, USUAL_DEPTH, USUAL_ROWS, depth_of, draws_of, rows_of, seed_of,
};

/// The words are no command: the place from 0 of the first word that does not fit, or the number of words if one is missing.
#[derive(Clone, Copy, Debug, PartialEq, Eq)]
pub struct BadWords {
    pub at: usize,
}

/// What else a run does. The names are neither the job's nor the plan's.
#[derive(Clone, Copy)]
pub struct RunOptions<'a> {
    /// How deep the greedy plan may be: 3 levels if no depth is given or a plan is named.
    pub depth: Depth,
    /// How many rows of each source make a round: 4,096 if no number is given.
    pub rows: Rows,
    /// Whether the plan follows what is observed.
    pub adapt: bool,
    /// The name of the file that a checkpoint is put to after each round that wrote its report.
    pub save: Option<&'a str>,
    /// Whether the flushes at each put of a checkpoint are left out.
    pub unflushed: bool,
    /// The name of the file that has the checkpoint that the run is resumed from.
    pub resume: Option<&'a str>,
}

/// What the words ask for, with the names of its files.
#[derive(Clone, Copy)]
pub enum Command<'a> {
    /// `fold JOB`: the report of the sequential fold.
    Fold {
        job: &'a str,
    },
    /// `check JOB`: the job in normal form, if it is accepted.
    Check {
        job: &'a str,
    },
    /// `valid JOB PLAN`: the plan in normal form, if it is valid for the job.
    Valid {
        job: &'a str,
        plan: &'a str,
    },
    /// `plan JOB [--depth D]`: the greedy plan of the job, if it is accepted.
    Plan {
        job: &'a str,
        depth: Depth,
    },
    /// `run JOB [PLAN | --depth D] [--round ROWS] [--adapt] [--save FILE [--unflushed]] [--resume FILE]`: the report of a run of the job's
    /// events in rounds of a number of rows of each source: on the tree of threads by the plan, or if none is named each round as its own
    /// counts ask, by trees of at most a depth; by a plan that follows what is observed, with checkpoints that are saved under a file, or
    /// resumed from one.
    Run {
        job: &'a str,
        plan: Option<&'a str>,
        options: RunOptions<'a>,
    },
    /// `simulate JOB PLAN SEED [--trace]`: the report of the run that the seed draws on the net of the plan, or its trace.
    Simulate {
        job: &'a str,
        plan: &'a str,
        seed: Seed,
        trace: bool,
    },
    /// `replay JOB PLAN TRACE`: the report of the run of the trace's steps on the net of the plan.
    Replay {
        job: &'a str,
        plan: &'a str,
        trace: &'a str,
    },
    /// `demo N SEED`: a summary of a run on the tree of threads over N events that the seed draws.
    Demo {
        n: Draws,
        seed: Seed,
    },
}

/// The command that the words are, exactly: those that come after the program's name.
///
/// # Errors
///
/// The words have none of the forms of `docs/LANGUAGE.md`, "Words"; the place is the place of the first word that does not fit.
pub fn read_words(words: &[String]) -> Result<Command<'_>, BadWords>
    ensures { MatchResult result
        (λ command. command_in (map string_bytes words.now) ≡ Ok (plain_command command))
        (λ bad. command_in (map string_bytes words.now) ≡ Err bad.at) }
{
    let [command, operands @ ..] = words else {
        return Err(BadWords { at: 0 });
    };
    match command.as_str() {
        "fold" => Ok(Command::Fold {
            job: job_alone(operands)?,
        }),
        "check" => Ok(Command::Check {
            job: job_alone(operands)?,
        }),
        "valid" => {
            let (job, plan) = job_and_plan(operands)?;
            Ok(Command::Valid { job, plan })
        }
        "plan" => {
            let (job, depth) = job_and_depth(operands)?;
            Ok(Command::Plan { job, depth })
        }
        "run" => run_command(operands),
        "simulate" => simulation(operands),
        "replay" => replay(operands),
        "demo" => demo(operands),
        _ => Err(BadWords { at: 0 }),
    }
}

// The job's name in the words after a command that has no others.
fn job_alone(operands: &[String]) -> Result<&str, BadWords>
    ensures { MatchResult result
        (λ job. job_alone (map string_bytes operands.now) ≡ Ok job.now)
        (λ bad. job_alone (map string_bytes operands.now) ≡ Err bad.at) }
{
    let [job, others @ ..] = operands else {
        return Err(BadWords { at: 1 });
    };
    if !is_file_name(job.as_str()) {
        return Err(BadWords { at: 1 });
    }
    if !others.is_empty() {
        return Err(BadWords { at: 2 });
    }
    Ok(job.as_str())
}

// The names of a job and a plan in the words after a command that has no others.
fn job_and_plan(operands: &[String]) -> Result<(&str, &str), BadWords>
    ensures { MatchResult result
        (λ names. job_and_plan (map string_bytes operands.now) ≡ Ok (names.0.now, names.1.now))
        (λ bad. job_and_plan (map string_bytes operands.now) ≡ Err bad.at) }
{
    let [job, behind @ ..] = operands else {
        return Err(BadWords { at: 1 });
    };
    if !is_file_name(job.as_str()) {
        return Err(BadWords { at: 1 });
    }
    let [plan, others @ ..] = behind else {
        return Err(BadWords { at: 2 });
    };
    if !is_file_name(plan.as_str()) {
        return Err(BadWords { at: 2 });
    }
    if !others.is_empty() {
        return Err(BadWords { at: 3 });
    }
    Ok((job.as_str(), plan.as_str()))
}

// The job, the plan if there is one, and the options in the words after `run`.
fn run_command(operands: &[String]) -> Result<Command<'_>, BadWords>
    ensures { MatchResult result
        (λ command. run_command (map string_bytes operands.now) ≡ Ok (plain_command command))
        (λ bad. run_command (map string_bytes operands.now) ≡ Err bad.at) }
{
    let [job, behind @ ..] = operands else {
        return Err(BadWords { at: 1 });
    };
    if !is_file_name(job.as_str()) {
        return Err(BadWords { at: 1 });
    }
    let job = job.as_str();
    let (plan, at, words) = plan_and_rest(behind);
    let options = run_options(job, plan, at, words)?;
    Ok(Command::Run { job, plan, options })
}

// The plan's name that the words after a job's name may begin with, the place of the first word after it, and the words from there on.
fn plan_and_rest(words: &[String]) -> (Option<&str>, usize, &[String])
    ensures value { plan_and_rest (map string_bytes words.now) ≡ (option_map (λ name. name.now) result.0, result.1, map string_bytes result.2.now) }
    ensures near { result.1 ≤ 3 }
{
    let [plan, rest @ ..] = words else {
        return (None, 2, words);
    };
    if is_file_name(plan.as_str()) {
        (Some(plan.as_str()), 3, rest)
    } else {
        (None, 2, words)
    }
}

// The options of a run in the words from a place on, which have no others.
fn run_options<'a>(
    job: &str,
    plan: Option<&str>,
    at: usize,
    words: &'a [String],
) -> Result<RunOptions<'a>, BadWords>
    requires { at ≤ 3 }
    ensures { MatchResult result
        (λ options. run_options job.now (option_map (λ name. name.now) plan.entry) at (map string_bytes words.now) ≡ Ok (plain_options options))
        (λ bad. run_options job.now (option_map (λ name. name.now) plan.entry) at (map string_bytes words.now) ≡ Err bad.at) }
{
    let (depth, at, words) = depth_without(plan, at, words)?;
    let (rows, at, words) = rows_and_rest(at, words)?;
    let (adapt, at, words) = option_and_rest("--adapt", at, words);
    let (save, at, words) = file_after("--save", job, plan, at, words)?;
    let (unflushed, at, words) = unflushed_after(save, at, words);
    let (resume, at, words) = file_after("--resume", job, plan, at, words)?;
    if !words.is_empty() {
        return Err(BadWords { at });
    }
    Ok(RunOptions {
        depth,
        rows,
        adapt,
        save,
        unflushed,
        resume,
    })
}

// The depth of the greedy plan in the words from a place on, which may give one only if no plan is named; the place of the first word
// after it, and the words from there on.
fn depth_without<'a>(
    plan: Option<&str>,
    at: usize,
    words: &'a [String],
) -> Result<(Depth, usize, &'a [String]), BadWords>
    requires { at ≤ 3 }
    ensures value { MatchResult result
        (λ begun. depth_without (option_map (λ name. name.now) plan.entry) at (map string_bytes words.now) ≡ Ok
        (begun.0.levels, begun.1, map string_bytes begun.2.now))
        (λ bad. depth_without (option_map (λ name. name.now) plan.entry) at (map string_bytes words.now) ≡ Err bad.at) }
    ensures near { IfOk result (λ begun. begun.1 ≤ at + 2) }
{
    match plan {
        Some(_) => Ok((USUAL_DEPTH, at, words)),
        None => depth_and_rest(at, words),
    }
}

// How many rows of each source make a round in the words from a place on, or the usual number; the place of the first word after it, and
// the words from there on.
fn rows_and_rest(at: usize, words: &[String]) -> Result<(Rows, usize, &[String]), BadWords>
    requires { at ≤ 5 }
    ensures value { MatchResult result
        (λ begun. rows_and_rest at (map string_bytes words.now) ≡ Ok (begun.0.count, begun.1, map string_bytes begun.2.now))
        (λ bad. rows_and_rest at (map string_bytes words.now) ≡ Err bad.at) }
    ensures near { IfOk result (λ begun. begun.1 ≤ at + 2) }
{
    let [option, values @ ..] = words else {
        return Ok((USUAL_ROWS, at, words));
    };
    if option.as_str() != "--round" {
        return Ok((USUAL_ROWS, at, words));
    }
    let [value, others @ ..] = values else {
        return Err(BadWords { at: at + 1 });
    };
    let Some(rows) = rows_of(value.as_str().as_bytes()) else {
        return Err(BadWords { at: at + 1 });
    };
    Ok((rows, at + 2, others))
}

// Whether the words from a place on begin with an option that has no value, the place of the first word after it, and the words from
// there on.
fn option_and_rest<'a>(option: &str, at: usize, words: &'a [String]) -> (bool, usize, &'a [String])
    requires { at ≤ 10 }
    ensures value { option_and_rest option.now at (map string_bytes words.now) ≡ (result.0, result.1, map string_bytes result.2.now) }
    ensures near { result.1 ≤ at + 1 }
{
    let [word, behind @ ..] = words else {
        return (false, at, words);
    };
    if word.as_str() == option {
        (true, at + 1, behind)
    } else {
        (false, at, words)
    }
}

// Whether the flushes are left out, which the words from a place on may say only right after the file of `--save`; the place of the first
// word after that, and the words from there on.
fn unflushed_after<'a>(
    save: Option<&str>,
    at: usize,
    words: &'a [String],
) -> (bool, usize, &'a [String])
    requires { at ≤ 10 }
    ensures value { unflushed_after (option_map (λ name. name.now) save.entry) at (map string_bytes words.now)
        ≡ (result.0, result.1, map string_bytes result.2.now) }
    ensures near { result.1 ≤ at + 1 }
{
    match save {
        Some(_) => option_and_rest("--unflushed", at, words),
        None => (false, at, words),
    }
}

// The file after an option that the words from a place on may begin with, the place of the first word after both, and the words from
// there on.
fn file_after<'a>(
    option: &str,
    job: &str,
    plan: Option<&str>,
    at: usize,
    words: &'a [String],
) -> Result<(Option<&'a str>, usize, &'a [String]), BadWords>
    requires { at ≤ 11 }
    ensures value { MatchResult result
        (λ begun. file_after option.now job.now (option_map (λ name. name.now) plan.entry) at (map string_bytes words.now) ≡ Ok
        (option_map (λ name. name.now) begun.0, begun.1, map string_bytes begun.2.now))
        (λ bad. file_after option.now job.now (option_map (λ name. name.now) plan.entry) at (map string_bytes words.now) ≡ Err bad.at) }
    ensures near { IfOk result (λ begun. begun.1 ≤ at + 2) }
{
    let [word, behind @ ..] = words else {
        return Ok((None, at, words));
    };
    if word.as_str() != option {
        return Ok((None, at, words));
    }
    let [file, rest @ ..] = behind else {
        return Err(BadWords { at: at + 1 });
    };
    if !is_other_file(job, plan, file.as_str()) {
        return Err(BadWords { at: at + 1 });
    }
    Ok((Some(file.as_str()), at + 2, rest))
}

// The name of a job and a depth in the words after a command that has no others.
fn job_and_depth(operands: &[String]) -> Result<(&str, Depth), BadWords>
    ensures { MatchResult result
        (λ both. job_and_depth (map string_bytes operands.now) ≡ Ok (both.0.now, both.1.levels))
        (λ bad. job_and_depth (map string_bytes operands.now) ≡ Err bad.at) }
{
    let [job, options @ ..] = operands else {
        return Err(BadWords { at: 1 });
    };
    if !is_file_name(job.as_str()) {
        return Err(BadWords { at: 1 });
    }
    let depth = depth_after(options)?;
    Ok((job.as_str(), depth))
}

// The depth in the words after a job's name.
fn depth_after(options: &[String]) -> Result<Depth, BadWords>
    ensures { MatchResult result
        (λ depth. depth_after (map string_bytes options.now) ≡ Ok depth.levels)
        (λ bad. depth_after (map string_bytes options.now) ≡ Err bad.at) }
{
    let (depth, at, others) = depth_and_rest(2, options)?;
    if !others.is_empty() {
        return Err(BadWords { at });
    }
    Ok(depth)
}

// The depth that the words from a place on begin with, or the usual one; the place of the first word after it, and the words from there
// on.
fn depth_and_rest(at: usize, words: &[String]) -> Result<(Depth, usize, &[String]), BadWords>
    requires { at ≤ 3 }
    ensures value { MatchResult result
        (λ begun. depth_and_rest at (map string_bytes words.now) ≡ Ok (begun.0.levels, begun.1, map string_bytes begun.2.now))
        (λ bad. depth_and_rest at (map string_bytes words.now) ≡ Err bad.at) }
    ensures near { IfOk result (λ begun. begun.1 ≤ at + 2) }
{
    let [option, values @ ..] = words else {
        return Ok((USUAL_DEPTH, at, words));
    };
    if option.as_str() != "--depth" {
        return Ok((USUAL_DEPTH, at, words));
    }
    let [value, others @ ..] = values else {
        return Err(BadWords { at: at + 1 });
    };
    let Some(depth) = depth_of(value.as_str().as_bytes()) else {
        return Err(BadWords { at: at + 1 });
    };
    Ok((depth, at + 2, others))
}

// The names of a job and a plan that the words after a command begin with, and the words after them.
pub(crate) fn both_and_rest(operands: &[String]) -> Result<(&str, &str, &[String]), BadWords>
    ensures { MatchResult result
        (λ begun. both_and_rest (map string_bytes operands.now) ≡ Ok (begun.0.now, begun.1.now, map string_bytes begun.2.now))
        (λ bad. both_and_rest (map string_bytes operands.now) ≡ Err bad.at) }
{
    let [job, behind @ ..] = operands else {
        return Err(BadWords { at: 1 });
    };
    if !is_file_name(job.as_str()) {
        return Err(BadWords { at: 1 });
    }
    let [plan, others @ ..] = behind else {
        return Err(BadWords { at: 2 });
    };
    if !is_file_name(plan.as_str()) {
        return Err(BadWords { at: 2 });
    }
    Ok((job.as_str(), plan.as_str(), others))
}

// The job, the plan, the seed and the option if there is one, in the words after `simulate`.
fn simulation(operands: &[String]) -> Result<Command<'_>, BadWords>
    ensures { MatchResult result
        (λ command. simulation (map string_bytes operands.now) ≡ Ok (plain_command command))
        (λ bad. simulation (map string_bytes operands.now) ≡ Err bad.at) }
{
    let (job, plan, others) = both_and_rest(operands)?;
    let [value, options @ ..] = others else {
        return Err(BadWords { at: 3 });
    };
    let Some(seed) = seed_of(value.as_str().as_bytes()) else {
        return Err(BadWords { at: 3 });
    };
    let trace = trace_after(options)?;
    Ok(Command::Simulate {
        job,
        plan,
        seed,
        trace,
    })
}

// Whether a trace is asked for, in the words after a seed.
fn trace_after(options: &[String]) -> Result<bool, BadWords>
    ensures { MatchResult result
        (λ asked. trace_after (map string_bytes options.now) ≡ Ok asked)
        (λ bad. trace_after (map string_bytes options.now) ≡ Err bad.at) }
{
    let [option, others @ ..] = options else {
        return Ok(false);
    };
    if option.as_str() != "--trace" {
        return Err(BadWords { at: 4 });
    }
    if !others.is_empty() {
        return Err(BadWords { at: 5 });
    }
    Ok(true)
}

// The job, the plan and the trace in the words after `replay`.
fn replay(operands: &[String]) -> Result<Command<'_>, BadWords>
    ensures { MatchResult result
        (λ command. replay (map string_bytes operands.now) ≡ Ok (plain_command command))
        (λ bad. replay (map string_bytes operands.now) ≡ Err bad.at) }
{
    let (job, plan, behind) = both_and_rest(operands)?;
    let [trace, others @ ..] = behind else {
        return Err(BadWords { at: 3 });
    };
    if !is_file_name(trace.as_str()) {
        return Err(BadWords { at: 3 });
    }
    if !others.is_empty() {
        return Err(BadWords { at: 4 });
    }
    Ok(Command::Replay {
        job,
        plan,
        trace: trace.as_str(),
    })
}

// The number of events and the seed in the words after `demo`.
fn demo(operands: &[String]) -> Result<Command<'_>, BadWords>
    ensures { MatchResult result
        (λ command. demo (map string_bytes operands.now) ≡ Ok (plain_command command))
        (λ bad. demo (map string_bytes operands.now) ≡ Err bad.at) }
{
    let [count, others @ ..] = operands else {
        return Err(BadWords { at: 1 });
    };
    let Some(n) = draws_of(count.as_str().as_bytes()) else {
        return Err(BadWords { at: 1 });
    };
    let seed = seed_alone(2, others)?;
    Ok(Command::Demo { n, seed })
}

// The seed in the words from a place on, which have no others.
fn seed_alone(at: usize, words: &[String]) -> Result<Seed, BadWords>
    requires { at < 4 }
    ensures { MatchResult result
        (λ seed. seed_alone at (map string_bytes words.now) ≡ Ok seed.number)
        (λ bad. seed_alone at (map string_bytes words.now) ≡ Err bad.at) }
{
    let [value, others @ ..] = words else {
        return Err(BadWords { at });
    };
    let Some(seed) = seed_of(value.as_str().as_bytes()) else {
        return Err(BadWords { at });
    };
    if !others.is_empty() {
        return Err(BadWords { at: at + 1 });
    }
    Ok(seed)
}

// A word that names a file, which is neither the job's nor the plan's.
fn is_other_file(job: &str, plan: Option<&str>, word: &str) -> bool
    ensures { result ≡ is_other_file job.now (option_map (λ name. name.now) plan.entry) word.now }
{
    if !is_file_name(word) || word == job {
        return false;
    }
    match plan {
        None => true,
        Some(plan) => word != plan,
    }
}

// A word that can name a file: it is not empty and does not begin with a dash.
pub(crate) fn is_file_name(word: &str) -> bool
    ensures { result ≡ is_file_name word.now }
{
    match word.as_bytes() {
        [] => false,
        [first, ..] => *first != b'-',
    }
}
