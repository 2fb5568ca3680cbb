//! Laws of partials that are read, each the contract of a function that does nothing.

ghost use Rattle.flu_receiving.specs.Laws.{BytesHaveOneFault, CutPartialsAreNotWhole, FaultyBytesAreNotWhole, PartialsHaveOneText};
ghost use Rattle.flu_receiving.specs.Laws.{PrintedPartialsAreWhole, WhatIsSentIsReceived};

/// No bytes have two first faults.
pub fn bytes_have_one_fault()
    ensures { BytesHaveOneFault }
{
    flu_partial::contributions_have_one_text();
}

/// Bytes with a fault are no whole partial of lines that a node of the job can have sent.
pub fn faulty_bytes_are_not_whole()
    ensures { FaultyBytesAreNotWhole }
{
    flu_partial::contributions_have_one_text();
}

/// The text of a head and of contributions that each have a line, and come in order up to the end, is a whole partial of them. So
/// `read_partial` reads it as what they say, if a node of the job can have sent each of them.
pub fn printed_partials_are_read()
    ensures { PrintedPartialsAreWhole }
{}

/// Bytes are a whole partial of one head and one list of contributions at most.
pub fn partials_have_one_text()
    ensures { PartialsHaveOneText }
{
    flu_partial::heads_have_one_text();
    flu_partial::contributions_have_one_text();
}

/// A whole partial that is cut anywhere before its end is no whole partial.
pub fn cut_partials_are_not_whole()
    ensures { CutPartialsAreNotWhole }
{
    flu_partial::contributions_have_one_text();
}

/// What is read of a whole partial whose lines are those of what was handed over is alike for a report, in order, and has the head and the
/// last time with which it was sent.
pub fn what_is_sent_is_received()
    ensures { WhatIsSentIsReceived }
{
    flu_partial::heads_have_one_text();
    flu_partial::contributions_have_one_text();
    flu_handover::lines_determine();
}
