//! How many events the sources have, and at which times.

ghost use Rattle.std.specs.Prelude.{◌<◌};
ghost use Rattle.flu_model.specs.Itags.{count_of_itags};

use flu_lines::Span;
use flu_model::{Itag, Program, itag_count, source_of, tag_of};

/// Which events are meant: those of a source or of a kind, by their numbers.
#[derive(Clone, Copy)]
pub enum Chosen {
    Source(u32),
    Kind(u32),
}

/// The span of the events that are chosen, by those of each itag; of an itag that has none there no event is counted.
pub fn span_of(p: &Program, itags: &[Span], chosen: Chosen) -> Span {
    let mut span = Span::NONE;
    for i in 0..itag_count(p) {
        if is_of(p, Itag(i), chosen) {
            if let Some(more) = itags.get(i as usize) {
                span = span.and(*more);
            }
        }
    }
    span
}

// Whether the events of an itag are chosen.
fn is_of(p: &Program, i: Itag, chosen: Chosen) -> bool
    requires { i.0 < count_of_itags p.now }
{
    match chosen {
        Chosen::Source(source) => source_of(p, i) == source,
        Chosen::Kind(kind) => tag_of(p, i).kind == kind,
    }
}
