//! Laws of the merged list of files, of the moments of rows and of ticks among them, each the contract of a function that does nothing.

ghost use Rattle.flu_merge.specs.Merge.{GoodFilesAreMerged};
ghost use Rattle.flu_merge.specs.Moments.{RowsHaveTheirMoments};
ghost use Rattle.flu_merge.specs.Ticks.{RoundsTellTicks};

/// For good sources the merged list, each event at its time, is the stable merge, by time, of the events of their files as they are read, as `sort -s` by time
/// gives it for the files one after another: all events, sorted by time; at one time by source, as declared; and in one source as in its file. In the place of
/// a clock are its ticks. This holds in every version.
pub fn good_files_are_merged()
    ensures { GoodFilesAreMerged }
{}

/// In version 3 a row's moment is the one whose laws are in `flu_moments`; before version 3 it is the row's time; and the time of its moment is the row's own.
pub fn rows_have_their_moments()
    ensures { RowsHaveTheirMoments }
{}

/// Where no source has a defect, what a round has read of the sources tells the ticks of a clock up to the round's border: whatever rows come later,
/// they are the ticks among the rows that were read.
pub fn rounds_tell_ticks()
    ensures { RoundsTellTicks }
{}
