//! Laws of what is read where files are closed, each the contract of a function that does nothing.

ghost use Rattle.flu_selected.specs.Laws.{OpenNamesAgree, OpenNamesAgreeAtStart, LawOfRanks, LawOfLists, LawOfTicks, LawOfLength, StreamsStay};
ghost use Rattle.flu_selected.specs.Laws.{LawOfDefects, GoodStayGood};
ghost use Rattle.flu_selected.specs.OneJob.{JobsSelectTheSame};

/// A name that is not closed has what the files behind have under it, at every moment.
pub fn open_names_agree()
    ensures always { OpenNamesAgree }
    ensures at_start { OpenNamesAgreeAtStart }
{}

/// Where the files of some sources are closed, the rows stand where those of the read sources stand. The items of the itags of a read source with a
/// file are those that its file gives, and an itag of another source with a file has its end alone; that of a clock has the ticks among the rows that
/// are read and those elsewhere. There is a list for each itag, and the lists are streams if those of all sources are.
pub fn selected_sources_are_read()
    ensures ranks { LawOfRanks }
    ensures lists { LawOfLists }
    ensures ticks { LawOfTicks }
    ensures length { LawOfLength }
    ensures streams { StreamsStay }
{}

/// The law of defects: where the files of some sources are closed, the first fault is that of the read sources, where the items that
/// are counted are those of the read ones and of clocks. And if no source of a job without clocks has a defect, none has one then.
pub fn closed_sources_have_no_defect()
    ensures first { LawOfDefects }
    ensures good { GoodStayGood }
{}

/// The law of jobs: for programs of one job, which differ only in where the boxes of their expressions lie in memory, the same files are
/// closed where the same sources are read, the rows stand in the same places, and the same fault is the first.
pub fn programs_of_a_job_select_the_same()
    ensures { JobsSelectTheSame }
{
    flu_streams::programs_of_a_job_read_the_same();
}
