//! The words of the two commands of partials.

ghost use Rattle.std.specs.Prelude.{◌≡◌, ◌∷◌, [], MatchResult, Ok, Err, map, string_bytes};
ghost use Rattle.std.specs.List.{list_any};
ghost use Rattle.std.specs.Str.{bytes_eq};
ghost use Rattle.flu_words.specs.Parts.{plain_part, is_part_call, partial_of, combine_of, on_names, first_misfit, is_new_file, part_in};
ghost use Rattle.flu_words.specs.Words.{both_and_rest};

use crate::words::{BadWords, both_and_rest, is_file_name};

/// The most partials that may be combined.
const MOST_PARTIALS: usize = 64;

/// What the words ask for, with the names of its files.
#[derive(Clone, Copy)]
pub enum PartCommand<'a> {
    /// `partial JOB PLAN NODE`: the partial of the node with this name.
    Partial {
        job: &'a str,
        plan: &'a str,
        node: &'a str,
    },
    /// `combine JOB PLAN FILE ..`: the report of the partials in 1 to 64 files, which all have other names than the job, the plan and each
    /// other.
    Combine {
        job: &'a str,
        plan: &'a str,
        partials: &'a [String],
    },
}

/// Whether the words, which come after the program's name, begin with `partial` or `combine`. Such words are for `read_part_words`, and
/// all others for `read_words`.
pub fn is_part_call(words: &[String]) -> bool
    ensures { result ≡ is_part_call (map string_bytes words.now) }
{
    let [command, ..] = words else {
        return false;
    };
    command.as_str() == "partial" || command.as_str() == "combine"
}

/// The command of partials that the words are, exactly: those that come after the program's name.
///
/// # Errors
///
/// The words are neither `partial JOB PLAN NODE` nor `combine JOB PLAN FILE ..`, with 1 to 64 FILEs. Each of these names is not empty and
/// does not begin with a dash, and a FILE is neither JOB nor PLAN nor an earlier FILE. The place is the place of the first word that does not
/// fit, as a 65th FILE does not, or the number of words if one is missing.
pub fn read_part_words(words: &[String]) -> Result<PartCommand<'_>, BadWords>
    ensures { MatchResult result
        (λ command. part_in (map string_bytes words.now) ≡ Ok (plain_part command))
        (λ bad. part_in (map string_bytes words.now) ≡ Err bad.at) }
{
    let [command, operands @ ..] = words else {
        return Err(BadWords { at: 0 });
    };
    match command.as_str() {
        "partial" => partial_command(operands),
        "combine" => combine_command(operands),
        _ => Err(BadWords { at: 0 }),
    }
}

// The job, the plan and the node in the words after `partial`.
fn partial_command(operands: &[String]) -> Result<PartCommand<'_>, BadWords>
    ensures { MatchResult result
        (λ command. on_names partial_of (both_and_rest (map string_bytes operands.now)) ≡ Ok (plain_part command))
        (λ bad. on_names partial_of (both_and_rest (map string_bytes operands.now)) ≡ Err bad.at) }
{
    let (job, plan, behind) = both_and_rest(operands)?;
    let [node, others @ ..] = behind else {
        return Err(BadWords { at: 3 });
    };
    if !is_file_name(node.as_str()) {
        return Err(BadWords { at: 3 });
    }
    if !others.is_empty() {
        return Err(BadWords { at: 4 });
    }
    Ok(PartCommand::Partial {
        job,
        plan,
        node: node.as_str(),
    })
}

// The job, the plan and the files of the partials in the words after `combine`.
fn combine_command(operands: &[String]) -> Result<PartCommand<'_>, BadWords>
    ensures { MatchResult result
        (λ command. on_names combine_of (both_and_rest (map string_bytes operands.now)) ≡ Ok (plain_part command))
        (λ bad. on_names combine_of (both_and_rest (map string_bytes operands.now)) ≡ Err bad.at) }
{
    let (job, plan, partials) = both_and_rest(operands)?;
    if partials.is_empty() {
        return Err(BadWords { at: 3 });
    }
    if let Some(at) = first_misfit(job, plan, partials) {
        return Err(BadWords { at });
    }
    Ok(PartCommand::Combine {
        job,
        plan,
        partials,
    })
}

// The place of the first of the words after PLAN that is not one more FILE.
fn first_misfit(job: &str, plan: &str, words: &[String]) -> Option<usize>
    ensures { result ≡ first_misfit (job.now ∷ plan.now ∷ []) 3 (map string_bytes words.now) }
{
    for (index, word) in words.iter().enumerate() {
        if index >= MOST_PARTIALS || !is_new_file(job, plan, &words[..index], word.as_str()) {
            return Some(3 + index);
        }
    }
    None
}

// A word that names a file, which neither JOB nor PLAN nor an earlier FILE names.
#[tactic(auto, using(crate::proofs::PartLemmas::among_names))]
fn is_new_file(job: &str, plan: &str, earlier: &[String], word: &str) -> bool
    ensures { result ≡ is_new_file (job.now ∷ plan.now ∷ map string_bytes earlier.now) word.now }
{
    if !is_file_name(word) || word == job || word == plan {
        return false;
    }
    !is_named(earlier, word)
}

// Whether a word is one of some names.
fn is_named(names: &[String], word: &str) -> bool
    ensures { result ≡ list_any (λ name. bytes_eq word.now (string_bytes name)) names.now }
{
    names.iter().any(|name| word == name.as_str())
}
