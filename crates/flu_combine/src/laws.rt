//! Laws of partials and of what is combined of them, each the contract of a function that does nothing.

ghost use Rattle.flu_combine.specs.Laws.{FirstDefectIsOne, PartialsAreCombined, TextsAreWholePartials, TextsTellTheirRows};
ghost use Rattle.flu_combine.specs.Laws.{NoPartialIsFaulty, NoSourceIsFaulty, SourcesOrPartialsAreFaulty};

/// The text of a node's partial, of streams that have one list for each itag of the job, is a whole partial of what the node sends of them, if it is
/// not too long; and it tells where the first and the last row stand, if their times fit. The plan has a text, its nodes have names of their own, and the
/// normal form of the job is UTF-8.
pub fn texts_are_whole_partials()
    ensures whole { TextsAreWholePartials }
    ensures tell { TextsTellTheirRows }
{
    flu_partial::printed_heads_are_lines();
    flu_partial::printed_contributions_are_lines();
    flu_receiving::laws::printed_partials_are_read();
    flu_handover::sendable_have_lines();
    flu_sending::laws::what_is_sent_can_be_handed_over();
    flu_sending::laws::sent_texts_are_utf8();
    flu_sending::laws::sent_lines_may_come();
    flu_contribution::laws::merged_events_rise_strictly();
}

/// A list of partials has one first defect at most: at one place, and of one kind.
pub fn first_defect_is_one()
    ensures { FirstDefectIsOne }
{
    flu_apart::laws::reasons_are_one();
    flu_receiving::laws::bytes_have_one_fault();
    flu_receiving::laws::faulty_bytes_are_not_whole();
    flu_receiving::laws::partials_have_one_text();
    flu_handover::lines_determine();
    flu_joining::laws::alike_queues_join_alike();
}

/// Over one content of the names, at most one of three happens: something can be combined, or a partial has the first defect, or a source that is read
/// beside the partials has it.
pub fn one_of_three_happens()
    ensures partials { NoPartialIsFaulty }
    ensures sources { NoSourceIsFaulty }
    ensures apart { SourcesOrPartialsAreFaulty }
{
    flu_apart::laws::reasons_are_one();
    flu_receiving::laws::bytes_have_one_fault();
    flu_receiving::laws::faulty_bytes_are_not_whole();
    flu_receiving::laws::partials_have_one_text();
    flu_handover::lines_determine();
    flu_joining::laws::alike_queues_join_alike();
}

/// Let nodes of a plan be apart, and let no source have a defect for one of them or for the one that combines. Where under each name is the partial
/// of its node, of the sources that it reads, and the files of the sources that the one that combines reads have what they had for the nodes, whatever
/// `combine` writes is the report of the fold of all sources. The plan is valid for an accepted job.
pub fn partials_are_combined()
    ensures { PartialsAreCombined }
{
    flu_receiving::laws::partials_have_one_text();
    flu_handover::lines_determine();
    flu_selected::selected_sources_are_read();
    flu_readers::laws::files_that_are_read_matter();
    flu_readers::laws::good_parts_give_streams();
    flu_readers::laws::a_node_reads_its_part();
    flu_readers::laws::the_rest_is_read();
    flu_joining::laws::empty_openings_start_empty();
    flu_joining::laws::what_was_sent_gives_the_report();
}
