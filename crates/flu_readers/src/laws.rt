//! Laws of what is read where nodes of a plan are apart. Each law is the contract of a function that does nothing.

ghost use Rattle.flu_readers.specs.Laws.{FilesThatAreReadMatter, GoodSourcesGiveStreams, GoodWhereRead, GoodPartsGiveStreams, ANodeReadsItsPart, TheRestIsRead};
ghost use Rattle.flu_readers.specs.Laws.{SelectedPartsGiveTheReport, GoodSourcesGiveTheReport};
ghost use Rattle.flu_readers.specs.OneJob.{JobsReadTheSameParts};

/// Where the files of the sources that are read have the same bytes, what is read of them is the same, their rows stand in the same places, and the same
/// defect is the first, whatever the other files have: each process may have files of its own.
pub fn files_that_are_read_matter()
    ensures { FilesThatAreReadMatter }
{
    flu_selected::selected_sources_are_read();
    flu_selected::closed_sources_have_no_defect();
}

/// Where no source has a defect, the lists of the itags are streams; and in a job without clocks no source has a defect if only some are read.
pub fn good_sources_give_streams()
    ensures streams { GoodSourcesGiveStreams }
    ensures read { GoodWhereRead }
{
    flu_selected::closed_sources_have_no_defect();
}

/// Where none of the nodes apart finds a defect in the sources that it reads, nor the one that combines in its own, the lists of all itags are
/// streams: each itag is read by one of them. Together the sources may have more items than one of them may hold.
pub fn good_parts_give_streams()
    ensures { GoodPartsGiveStreams }
{
    flu_selected::selected_sources_are_read();
    flu_selected::closed_sources_have_no_defect();
}

/// A node apart that reads its sources alone, and finds no defect in them, sends what it would send of all sources, though clocks tick for it among the
/// rows alone that it reads.
pub fn a_node_reads_its_part()
    ensures { ANodeReadsItsPart }
{
    flu_contribution::laws::idle_events_dont_matter();
    flu_contribution::laws::merged_events_rise_strictly();
    flu_contribution::laws::merged_lists_agree();
    flu_selected::selected_sources_are_read();
}

/// One that combines and reads its sources alone, and finds no defect in them, has all events of the itags that are inside none of the nodes, where it
/// knows the first and the last of the rows that the nodes read.
pub fn the_rest_is_read()
    ensures { TheRestIsRead }
{
    flu_selected::selected_sources_are_read();
}

/// Where the nodes may be apart, none is within another, and each of them and the one that combines reads its sources alone and finds no
/// defect in them, what the nodes send and the rest of the events give the final state and the report of all sources. The plan is valid for
/// an accepted job. So it is where no source of a job without clocks has a defect.
pub fn selected_parts_give_the_report()
    ensures parts { SelectedPartsGiveTheReport }
    ensures good { GoodSourcesGiveTheReport }
{
    good_sources_give_streams();
    good_parts_give_streams();
    flu_selected::selected_sources_are_read();
    a_node_reads_its_part();
    the_rest_is_read();
    flu_contribution::laws::parts_give_the_report();
}

/// For programs of one job, which differ only in where the boxes of their expressions lie in memory, a node apart and the one that combines
/// read the same sources, and the same of them, and the nodes tell the same.
pub fn programs_of_a_job_read_the_same_parts()
    ensures { JobsReadTheSameParts }
{
    flu_streams::programs_of_a_job_read_the_same();
    flu_contribution::laws::programs_of_a_job_contribute_the_same();
    flu_selected::programs_of_a_job_select_the_same();
}
