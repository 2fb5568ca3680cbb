//! Why the reading of a source stops.

ghost use Rattle.std.specs.Prelude.{◌≡◌};
ghost use Rattle.flu_streams.specs.LoopStop.{stop_of, stop_at, defect_behind, fault_of_stop};

use crate::faults::{GatherFault, SourceFault, Why};
use flu_outside::TakeFault;
use flu_rows::Next;

/// Why a row is not taken in.
#[derive(Clone, Copy)]
pub(crate) enum RowRefusal {
    Fault(Why),
    NoMemory,
}

/// Why a source was not read as far as was asked.
#[derive(Clone, Copy)]
pub(crate) enum Stop {
    /// It has a defect.
    Defect { row: u64, why: Why },
    ReadFault,
    NoMemory,
}

/// The stop for a read that fails.
pub(crate) fn stop_of(fault: TakeFault) -> Stop
    ensures { result ≡ stop_of fault }
{
    match fault {
        TakeFault::Failed => Stop::ReadFault,
        TakeFault::NoMemory => Stop::NoMemory,
    }
}

/// The stop at a row that is refused.
pub(crate) fn stop_at(line: u32, refusal: RowRefusal) -> Stop
    ensures { result ≡ stop_at line refusal }
{
    match refusal {
        RowRefusal::Fault(why) => Stop::Defect {
            row: u64::from(line),
            why,
        },
        RowRefusal::NoMemory => Stop::NoMemory,
    }
}

/// The defect of what is no row.
pub(crate) fn defect_behind(ended: bool, next: &Next) -> Option<(u64, Why)>
    ensures { result ≡ defect_behind ended next.now }
{
    match next {
        Next::Row { .. } => None,
        Next::Bad { line } => Some((
            u64::from(*line),
            if ended { Why::AfterEnd } else { Why::BadRow },
        )),
        Next::TooManyLines => Some((
            4_294_967_296,
            Why::TooMany {
                count: 4_294_967_296,
            },
        )),
        Next::Done { lines } => {
            if ended {
                None
            } else {
                Some((u64::from(*lines) + 1, Why::Unclosed))
            }
        }
    }
}

/// The fault of the source with this number.
pub(crate) fn fault_of(number: u32, stop: Stop) -> GatherFault
    ensures { result ≡ fault_of_stop number stop }
{
    match stop {
        Stop::Defect { row, why } => GatherFault::Source(SourceFault {
            source: number,
            row,
            why,
        }),
        Stop::ReadFault => GatherFault::ReadFault,
        Stop::NoMemory => GatherFault::NoMemory,
    }
}
