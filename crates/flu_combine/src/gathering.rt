//! Reading the sources that have events inside none of some nodes.

ghost use Rattle.std.specs.Prelude.{◌≡◌, ◌≢◌, Err, IfOk, IfErr, OnOk, IsErrOf, length};
ghost use Rattle.flu_model.specs.Itags.{count_of_itags};
ghost use Rattle.flu_model.specs.Listed.{listed};
ghost use Rattle.flu_outside.specs.Outside.{WhereTold, SameCounts};
ghost use Rattle.flu_outside.specs.Taking.{TookFronts};
ghost use Rattle.flu_deps.specs.Checking.{program_of};
ghost use Rattle.flu_deps.specs.Validated.{plan_of, IsValidFor};
ghost use Rattle.flu_streams.specs.Clocks.{AreEarly};
ghost use Rattle.flu_streams.specs.Files.{files_of, OneRose};
ghost use Rattle.flu_selected.specs.Gathering.{LeavesUnread, ReadAreGood, AreReadLists, ReadAreOut, ReadRose, HidesNoReadDefect, IsFirstReadFault};
ghost use Rattle.flu_readers.specs.Reading.{reads_rest};

use flu_deps::{Checked, Valid};
use flu_model::Streams;
use flu_outside::Files;
use flu_readers::sources_of_rest;
use flu_selected::gather_selected;
use flu_streams::GatherFault;
use std::alloc::Global;

/// Reads each source that has events inside none of some nodes to its end, and no other. Clocks tick among these rows and those that the nodes read,
/// where `told` says where the first and the last of each node's stand.
pub(crate) fn gather_rest<F: Files>(
    alloc: Global,
    files: &mut F,
    c: &Checked,
    v: &Valid,
    nodes: &[u32],
    told: &[u64],
) -> Result<Streams, GatherFault>
    requires valid { IsValidFor (program_of c.now) v.now }
    requires early { AreEarly (program_of c.now) told.now }
    ensures good { OnOk result (ReadAreGood (program_of c.now) told.now (reads_rest (program_of c.now) (plan_of v.now).nodes nodes.now)
        (F.left files.old) (F.left files.new)) }
    ensures lists { IfOk result (AreReadLists (program_of c.now) told.now (reads_rest (program_of c.now) (plan_of v.now).nodes nodes.now)
        (F.left files.old) (F.left files.new)) }
    ensures itags { IfOk result (λ streams. length (listed streams) ≡ count_of_itags (program_of c.now)) }
    ensures read_out { OnOk result (ReadAreOut (program_of c.now) (reads_rest (program_of c.now) (plan_of v.now).nodes nodes.now) (F.left files.new)) }
    ensures fault { IfErr result (IsFirstReadFault (program_of c.now) told.now (reads_rest (program_of c.now) (plan_of v.now).nodes nodes.now)
        (F.left files.old) (F.left files.new)) }
    ensures fronts { WhereTold (F.left files.old) (F.left files.new) TookFronts }
    ensures others { WhereTold (F.left files.old) (F.left files.new)
        (LeavesUnread (program_of c.now) (reads_rest (program_of c.now) (plan_of v.now).nodes nodes.now)) }
    ensures quiet { result ≢ Err GatherFault.ReadFault → SameCounts (F.faults files.old) (F.faults files.new) }
    ensures puts { SameCounts (F.put_faults files.old) (F.put_faults files.new) }
    ensures hides { IsErrOf result GatherFault.ReadFault → HidesNoReadDefect (program_of c.now)
        (reads_rest (program_of c.now) (plan_of v.now).nodes nodes.now) (F.left files.old) (F.left files.new) (F.faults files.old) (F.faults files.new) }
    ensures cause { IsErrOf result GatherFault.ReadFault → OneRose (files_of (program_of c.now).sources) (F.faults files.old) (F.faults files.new) }
    ensures read { IsErrOf result GatherFault.ReadFault → ReadRose (program_of c.now) (reads_rest (program_of c.now) (plan_of v.now).nodes nodes.now)
        (F.left files.old) (F.faults files.old) (F.faults files.new) }
{
    let read = sources_of_rest(c, v, nodes);
    gather_selected(alloc, c.program(), read.as_slice(), told, files)
}
