//! What a command answers that is done: what it says on err, and what it read that its report does not show.

ghost use Rattle.std.specs.Prelude.{◌≡◌, option_map};

use crate::refusals::JobRead;
use flu_live::StepCounts;
use flu_model::Text;
use std::marker::Model;

/// The steps of a run that a seed drew: how many of each kind there were, and the mark of their places.
#[derive(Clone, Copy, Debug)]
pub struct DrawnSteps {
    pub counts: StepCounts,
    pub mark: u32,
}

/// What a command says on err once it is done.
#[derive(Drop)]
pub enum Said {
    /// The steps of a run that a seed drew.
    Steps(DrawnSteps),
    /// The text of the plan in force at the end of a run whose plan follows the counts.
    Plan(Text),
}

/// What a command answers that is done. Contracts see what it says on err; no clause says anything of what it read, of which only hints
/// for people are made.
#[derive(Drop)]
pub struct Done {
    said: Option<Said>,
    read: Option<ReadIn>,
}

impl Model for Done {
    ghost use Rattle.std.specs.Prelude.{Option};
    ghost use Rattle.flu_lines.specs.declared.products.Said.{Said};

    ghost Value = { Option Said };

    ghost view = { λ d. d.said };
}

impl Done {
    /// A command that says this on err, and shows nothing of what it read.
    pub fn saying(said: Option<Said>) -> Done
        ensures { result ≡ said }
    {
        Done { said, read: None }
    }

    /// A command that says this on err, and read that.
    pub fn with(said: Option<Said>, read: Option<ReadIn>) -> Done
        ensures { result ≡ said }
    {
        Done { said, read }
    }

    /// What err gets; none if the command says nothing.
    pub fn said(&self) -> Option<&Said>
        ensures { option_map (λ s. s.now) result ≡ self.now }
    {
        self.said.as_ref()
    }

    /// What `check`, `fold` and `run` read; none of any other command.
    pub fn read(&self) -> Option<&ReadIn> {
        self.read.as_ref()
    }
}

/// What a command read.
#[derive(Drop)]
pub struct ReadIn {
    /// The job.
    pub job: JobRead,
    /// What was counted of its events, if the command runs them and memory was not refused for it.
    pub counts: Option<Counts>,
}

/// What was counted of the events that a report is of.
#[derive(Drop)]
pub struct Counts {
    /// The time of the report's last line; none if it has no line.
    pub last_line: Option<u64>,
    /// The events after that time; all events if there is no line.
    pub after: Span,
    /// The events of each itag, by its number. If there is a line, only the times are right, and some may not be counted.
    pub itags: Vec<Span>,
    /// How many cells of each family are not neutral at the end, by the number of the family.
    pub held: Vec<usize>,
}

/// How many events some are, and the first and the last of their times; `first` is greater than `last` if there is none.
#[derive(Clone, Copy, Debug)]
pub struct Span {
    pub events: u64,
    pub first: u64,
    pub last: u64,
}

impl Span {
    /// No event.
    pub const NONE: Span = Span {
        events: 0,
        first: u64::MAX,
        last: 0,
    };

    /// The events of both.
    pub fn and(self, other: Span) -> Span {
        Span {
            events: self.events.saturating_add(other.events),
            first: self.first.min(other.first),
            last: self.last.max(other.last),
        }
    }
}
