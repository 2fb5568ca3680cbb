//! Sources whose defects are mended. Each law is the contract of a function that does nothing.

ghost use Rattle.flu_command.specs.Mending.{MendedRoundsGoOn};

/// What rounds wrote before a defect was met, rounds over the mended sources write too, and so it is with a round more.
pub fn mended_rounds_go_on()
    ensures { MendedRoundsGoOn }
{}
