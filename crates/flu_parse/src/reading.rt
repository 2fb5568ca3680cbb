//! From the bytes of a job text to its job.

ghost use Rattle.std.specs.Prelude.{◌≡◌};
ghost use Rattle.flu_model.specs.Erasure.{job_of};
ghost use Rattle.flu_syntax.specs.Tree.{job_of as written_job};
ghost use Rattle.flu_parse.specs.Faults.{Gives};
ghost use Rattle.flu_parse.specs.Resolving.{job_of_parts};
ghost use Rattle.flu_parse.specs.Reading.{text_in, tokens_in, written_in, job_in};

use crate::drafts::JobParts;
use crate::faults::JobFault;
use crate::laws::jobs_keep_rules;
use crate::resolving::resolve;
use flu_model::{Program, What};
use flu_rules::program;
use flu_syntax::{SyntaxFault, WrittenJob, read_syntax};
use flu_text::{TextFault, Token, tokens};
use std::alloc::Global;
use std::str;

/// The most bytes of a job text.
const MOST_BYTES: usize = 1_048_576;

fn text_in(bytes: &[u8]) -> Result<&str, JobFault>
    ensures { Gives (λ text. text.now) result (text_in bytes.now) }
{
    match str::from_utf8(bytes) {
        Ok(text) => Ok(text),
        Err(error) => Err(JobFault::BadUtf8 {
            at: error.valid_up_to(),
        }),
    }
}

fn tokens_in(alloc: Global, text: &str) -> Result<Vec<Token>, JobFault>
    ensures { Gives (λ found. found.items) result (tokens_in text.now) }
{
    match tokens(alloc, text) {
        Ok(found) => Ok(found),
        Err(TextFault::BadToken { at }) => Err(JobFault::BadToken { at }),
        Err(TextFault::NoMemory) => Err(JobFault::NoMemory),
    }
}

fn written_in(alloc: Global, found: &[Token], end: usize) -> Result<WrittenJob, JobFault>
    ensures { Gives written_job result (written_in end found.now) }
{
    match read_syntax(alloc, found, end) {
        Ok(written) => Ok(written),
        Err(SyntaxFault::Unexpected { at }) => Err(JobFault::Unexpected { at }),
        Err(SyntaxFault::TooDeep) => Err(JobFault::OverLimit {
            what: What::Nesting,
            count: 65,
        }),
        Err(SyntaxFault::NoMemory) => Err(JobFault::NoMemory),
    }
}

#[tactic(auto, unfolding(crate::specs::Reading::job_in))]
fn read_parts(alloc: Global, bytes: &[u8]) -> Result<JobParts, JobFault>
    ensures { Gives job_of_parts result (job_in bytes.now) }
{
    if bytes.len() > MOST_BYTES {
        return Err(JobFault::OverLimit {
            what: What::Bytes,
            count: 1_048_577,
        });
    }
    let text = text_in(bytes)?;
    let found = tokens_in(alloc, text)?;
    let written = written_in(alloc, found.as_slice(), text.len())?;
    resolve(alloc, text, &written)
}

/// The job that a text is, or the first fault in it (`docs/LANGUAGE.md`).
///
/// # Errors
///
/// The checks come in this order, and the first fault found is the answer. [`JobFault::OverLimit`] for more than 1,048,576 bytes;
/// [`JobFault::BadUtf8`] at the first byte of the first sequence that is not UTF-8; [`JobFault::BadToken`] at the first place
/// where no token begins; [`JobFault::Unexpected`] at the first token that cannot follow, or at the text's length, and
/// [`JobFault::OverLimit`] at the 65th parenthesis or unary operator that is open at once.
///
/// Then names are checked, in the order of the declarations: [`JobFault::TwiceNamed`] at the second declaration of a name,
/// [`JobFault::OverLimit`] for a family, kind, source, list or `depends` that is one too many. Then [`JobFault::WrongShape`] at a version
/// other than 1, 2 and 3, at the word `ties` in versions 1 and 2, at a number behind it that is not from 1 to 2,147,483,648, at the word
/// `iso` in versions 1 and 2, and at a unit other than `seconds`, `milliseconds` and `microseconds`, in this order. At last the
/// declarations are checked again, token by token, where [`JobFault::UnknownName`] comes before [`JobFault::WrongShape`], that before
/// [`JobFault::OverLimit`], and that before [`JobFault::TwiceNamed`]. So it is with lists of names: [`JobFault::WrongShape`] at the word
/// `names`, the word `clock` and the word `by` in versions 1 and 2; [`JobFault::UnknownName`] at the name behind `by` where no list has it; and at a text of
/// a list [`JobFault::WrongShape`] where it may not be in one, [`JobFault::OverLimit`] where it is the 65,537th, and
/// [`JobFault::TwiceNamed`] where it is in the list already. With a clock there is [`JobFault::WrongShape`] at a period that is not from 1 to
/// 2^62, and at a tag of a kind with a key, an item or a value. [`JobFault::NoMemory`] if memory runs out.
pub fn read_job(alloc: Global, bytes: &[u8]) -> Result<Program, JobFault>
    ensures { Gives job_of result (job_in bytes.now) }
{
    jobs_keep_rules();
    let parts = read_parts(alloc, bytes)?;
    match program(
        parts.version,
        parts.ties,
        parts.iso,
        parts.lists,
        parts.families,
        parts.kinds,
        parts.depends,
        parts.sources,
    ) {
        Some(job) => Ok(job),
        None => unreachable!(),
    }
}
