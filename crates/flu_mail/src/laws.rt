//! What holds of passing and waiting. Each law is the contract of a function that does nothing.

ghost use Rattle.flu_mail.specs.Laws.{PassingClears, PassingStays, PassingIsExact, PassingOthersIsExact, ReadyStays, ReadyToServeStays, ReadyClears};
ghost use Rattle.flu_mail.specs.Laws.{ServingClears, ReadyWhenClear, ServingWhenClear, SeenEventsStand, EventsAreItems};

/// Where the seen items of an itag let an event pass, no event of the itag that is not counted, seen or not, is before it.
pub fn passing_clears()
    ensures { PassingClears }
{}

/// An event that passes still does when more is seen.
pub fn passing_stays()
    ensures { PassingStays }
{}

/// When all is seen, an event passes exactly if it is before each event of the itag that is not counted; an event of another
/// itag passes exactly if none of these is before it.
pub fn passing_is_exact()
    ensures after { PassingIsExact }
    ensures clear { PassingOthersIsExact }
{}

/// An event that is ready stays so when more is seen, and so does one that may be served.
pub fn ready_stays()
    ensures ready { ReadyStays }
    ensures serve { ReadyToServeStays }
{}

/// Where a node is ready for an event, that is before each event that is not counted, seen or not, of an itag that it waits for;
/// and so it is where the node may be asked to serve it.
pub fn ready_clears()
    ensures ready { ReadyClears }
    ensures serve { ServingClears }
{}

/// When all is seen, a node is ready for an event where no event that is not counted, of an itag that it waits for, is before
/// it; and so it is ready to serve one.
pub fn ready_when_clear()
    ensures ready { ReadyWhenClear }
    ensures serve { ServingWhenClear }
{}

/// An event among the seen items of an itag is the event at the same place among all of its items, and there are no more events
/// than items.
pub fn seen_events_stand()
    ensures stand { SeenEventsStand }
    ensures few { EventsAreItems }
{}
