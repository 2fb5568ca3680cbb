//! Reading the sources that a node needs.

ghost use Rattle.std.specs.Prelude.{◌≡◌, ◌≢◌, [], length, OnOk, IfOk, IfErr, IsErrOf, Err};
ghost use Rattle.flu_model.specs.Itags.{count_of_itags};
ghost use Rattle.flu_model.specs.Listed.{listed};
ghost use Rattle.flu_outside.specs.Outside.{WhereTold, SameCounts};
ghost use Rattle.flu_outside.specs.Taking.{TookFronts};
ghost use Rattle.flu_deps.specs.Checking.{program_of};
ghost use Rattle.flu_deps.specs.Validated.{plan_of, IsValidFor};
ghost use Rattle.flu_streams.specs.Files.{files_of, OneRose};
ghost use Rattle.flu_selected.specs.Gathering.{ReadAreGood, AreReadLists, ReadAreOut, LeavesUnread, CountsOfRead, HidesNoReadDefect, ReadRose};
ghost use Rattle.flu_selected.specs.Gathering.{IsFirstReadFault};
ghost use Rattle.flu_node_run.specs.Partials.{read_by};

use flu_deps::{Checked, Valid};
use flu_model::Streams;
use flu_outside::Files;
use flu_readers::sources_of_node;
use flu_selected::gather_selected;
use flu_streams::GatherFault;
use std::alloc::Global;

/// Reads each source that a node of a valid plan needs to its end, and no other. Clocks tick among the rows that it reads.
pub(crate) fn gather_needed<F: Files>(
    alloc: Global,
    files: &mut F,
    c: &Checked,
    v: &Valid,
    w: u32,
) -> Result<Streams, GatherFault>
    requires valid { IsValidFor (program_of c.now) v.now }
    ensures good { OnOk result (ReadAreGood (program_of c.now) [] (read_by c.now v.now w) (F.left files.old) (F.left files.new)) }
    ensures lists { IfOk result (AreReadLists (program_of c.now) [] (read_by c.now v.now w) (F.left files.old) (F.left files.new)) }
    ensures itags { IfOk result (λ streams. length (listed streams) ≡ count_of_itags (program_of c.now)) }
    ensures read_out { OnOk result (ReadAreOut (program_of c.now) (read_by c.now v.now w) (F.left files.new)) }
    ensures fault { IfErr result (IsFirstReadFault (program_of c.now) [] (read_by c.now v.now w) (F.left files.old) (F.left files.new)) }
    ensures fronts { WhereTold (F.left files.old) (F.left files.new) TookFronts }
    ensures others { WhereTold (F.left files.old) (F.left files.new) (LeavesUnread (program_of c.now) (read_by c.now v.now w)) }
    ensures counts { CountsOfRead (program_of c.now) (read_by c.now v.now w) (F.left files.old) (F.faults files.old) (F.faults files.new) }
    ensures quiet { result ≢ Err GatherFault.ReadFault → SameCounts (F.faults files.old) (F.faults files.new) }
    ensures puts { SameCounts (F.put_faults files.old) (F.put_faults files.new) }
    ensures hides { IsErrOf result GatherFault.ReadFault → HidesNoReadDefect (program_of c.now) (read_by c.now v.now w) (F.left files.old) (F.left files.new)
        (F.faults files.old) (F.faults files.new) }
    ensures cause { IsErrOf result GatherFault.ReadFault → OneRose (files_of (program_of c.now).sources) (F.faults files.old) (F.faults files.new) }
    ensures read { IsErrOf result GatherFault.ReadFault → ReadRose (program_of c.now) (read_by c.now v.now w) (F.left files.old)
        (F.faults files.old) (F.faults files.new) }
{
    let read = sources_of_node(c, v, w);
    gather_selected(alloc, c.program(), read.as_slice(), &[], files)
}
