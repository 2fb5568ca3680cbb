//! Laws of the reading and of the normal form, each the contract of a function that does nothing.

ghost use Rattle.flu_parse.specs.Laws.{JobsKeepRules, PrintedIsRead};

use flu_layout::laws::{keys_are_laid, laid_is_read, read_may_be_printed};
use flu_rules::tags_meet_by_their_ends;
use flu_syntax::laws::{found_is_job, words_stand};

/// The job of a text keeps the rules of the language.
pub fn jobs_keep_rules()
    ensures { JobsKeepRules }
{
    read_may_be_printed();
    found_is_job();
    words_stand();
    tags_meet_by_their_ends();
}

/// The normal form of a job is read as that job, if it has at most 1,048,576 bytes.
pub fn printed_is_read()
    ensures { PrintedIsRead }
{
    laid_is_read();
    keys_are_laid();
    found_is_job();
    tags_meet_by_their_ends();
}
