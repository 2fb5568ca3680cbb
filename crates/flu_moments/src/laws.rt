//! Laws of moments. Each law is the contract of a function that does nothing.

ghost use Rattle.flu_moments.specs.Laws.{MomentsAreApart, MomentsAreInOrder, BordersPartTimes, AllowedTimesFit, OneRowAtATime};
ghost use Rattle.flu_moments.specs.MergeLaws.{MomentsMerge, MergeIsStableSort};
ghost use Rattle.flu_moments.specs.TickLaws.{TicksAreDetermined, TicksFollowRows, TicksAreComputed, TicksAreWithin, SpansTellTicks, MomentsPartTicks};
ghost use Rattle.flu_moments.specs.TickLaws.{RowsTellTicks, FrontsTellTicks};

/// Moments are one to one, and their order is that of the rows: by time, then by source, then by place.
pub fn moments_order_rows()
    ensures apart { MomentsAreApart }
    ensures order { MomentsAreInOrder }
{}

/// A border never parts a time, the moments of the times that are allowed are below 2^63, and with one source of one row at a time
/// a moment is the time.
pub fn borders_part_times()
    ensures borders { BordersPartTimes }
    ensures allowed { AllowedTimesFit }
    ensures one { OneRowAtATime }
{}

/// A clock has one next tick after each moment and one list of ticks for each list of rows, which the first and the last row tell, and the
/// ticks follow the rows: none is behind a multiple whose tick is behind the last row.
pub fn ticks_follow_rows()
    ensures determined { TicksAreDetermined }
    ensures follow { TicksFollowRows }
    ensures computed { TicksAreComputed }
    ensures within { TicksAreWithin }
    ensures spans { SpansTellTicks }
{}

/// A clock has one list of ticks between two moments, which a moment between them parts, and the ticks up to a border that some row is behind
/// are those between the first row and the border, and those among any front of the rows that has all rows up to the border and one behind it.
pub fn moments_part_ticks()
    ensures part { MomentsPartTicks }
    ensures rows { RowsTellTicks }
    ensures fronts { FrontsTellTicks }
{}

/// Rows in the order of their moments are the merge of the files: all their rows, file after file, in a stable sort by time.
pub fn moments_merge<X>()
    ensures merge { MomentsMerge X }
    ensures stable { MergeIsStableSort X }
{}
