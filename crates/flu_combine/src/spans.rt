//! Where the rows that nodes apart read stand among those of all sources, as their partials tell it.

ghost use Rattle.std.specs.Prelude.{◌≡◌, true};
ghost use Rattle.std.specs.List.{list_any};
ghost use Rattle.flu_model.specs.Rules.{is_clock};
ghost use Rattle.flu_streams.specs.Clocks.{AreEarly};
ghost use Rattle.flu_combine.specs.Partials.{told_by, times_fit};
ghost use Rattle.flu_combine.specs.Reading.{ranks_told};

use flu_model::{Program, end_of_times};

/// Where the first and the last row stand that a node read.
#[derive(Clone, Copy)]
pub(crate) struct Told {
    pub(crate) first: u64,
    pub(crate) last: u64,
}

// Whether some source of a job is a clock.
fn has_clocks(p: &Program) -> bool
    ensures { result ≡ list_any is_clock p.now.sources }
{
    p.sources
        .items()
        .iter()
        .any(|source| source.every.is_some())
}

/// Whether the moments of the first and the last row that a partial is of fit, which matters where the job has a clock.
pub(crate) fn times_fit(p: &Program, first: Option<u64>, last: Option<u64>) -> bool
    ensures { result ≡ times_fit p.now first last }
{
    if !has_clocks(p) {
        return true;
    }
    match (first, last) {
        (None, None) => true,
        (Some(first), Some(last)) => {
            // There is a source, since one is a clock.
            let sources = (p.sources.items().len() as u64).max(1);
            let time = last / u64::from(p.ties) / sources;
            first <= last && time < end_of_times(p)
        }
        (Some(_), None) | (None, Some(_)) => false,
    }
}

/// Where the first and the last row stand that a partial is of, in a job with a clock; their moments fit.
pub(crate) fn told_by(p: &Program, first: Option<u64>, last: Option<u64>) -> Option<Told>
    requires fit { times_fit p.now first last ≡ true }
    ensures told { ranks_told result ≡ told_by p.now first last }
    ensures early { AreEarly p.now (ranks_told result) }
{
    if !has_clocks(p) {
        return None;
    }
    let (Some(first), Some(last)) = (first, last) else {
        return None;
    };
    Some(Told {
        first: first / u64::from(p.ties),
        last: last / u64::from(p.ties),
    })
}
