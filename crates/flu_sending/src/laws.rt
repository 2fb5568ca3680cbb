//! Laws of what a node apart sends, each the contract of a function that does nothing.

ghost use Rattle.flu_sending.specs.Laws.{SentByNeeded, SentByParts, SentLinesMayCome, SentTextsAreUtf8, WhatIsSentCanBeHandedOver, JobsSendTheSame};

use flu_contribution::laws::{only_needed_events_matter, programs_of_a_job_contribute_the_same};
use flu_laws::{programs_of_a_job_are_alike, updates_are_changes};
use flu_model::laws::itags_have_tags;

/// Each contribution that a node sends of streams can be handed over, and its times and numbers are in the range of a line: the streams have one
/// list for each itag of the job, with times below 2^63, values of 64 bits, and fewer than 2^64 events. So `flu_handover` makes of its line
/// something alike.
pub fn what_is_sent_can_be_handed_over()
    ensures { WhatIsSentCanBeHandedOver }
{
    updates_are_changes();
    itags_have_tags();
}

/// What a node sends is determined by the events inside it and above it, in their order; and of streams that are a part for it, it sends what it
/// would send of the whole. Only the last time, which stands in the last line, is that of the streams that it has read.
pub fn lines_are_determined()
    ensures events { SentByNeeded }
    ensures parts { SentByParts }
{
    only_needed_events_matter();
}

/// The lines of what a node sends come in the order of a partial, where the merged events rise strictly: each names a later event than the one
/// before it and contributes something, and the last one is for the end.
pub fn sent_lines_may_come()
    ensures { SentLinesMayCome }
{}

/// For programs of one job, which differ only in where the boxes of their expressions lie in memory, a node sends the same of the same
/// streams, in the same lines, and the rows of these streams have the same times.
pub fn programs_of_a_job_send_the_same()
    ensures { JobsSendTheSame }
{
    programs_of_a_job_are_alike();
    programs_of_a_job_contribute_the_same();
}

/// The outputs of what a node sends have UTF-8 texts and tags, where the plain pieces of the job's templates and the texts of its lists are UTF-8:
/// all else in a text is digits and words.
pub fn sent_texts_are_utf8()
    ensures { SentTextsAreUtf8 }
{}
