//! Running a node apart.

ghost use Rattle.std.specs.Prelude.{◌≡◌, ◌≢◌, ◌<◌, ◌≤◌, ℕ, List, [], length, OnOk, IfOk, IfErr, IsErrOf, Err};
ghost use Rattle.flu_outside.specs.Outside.{WhereTold, SameCounts, Rose};
ghost use Rattle.flu_outside.specs.Taking.{TookFronts};
ghost use Rattle.flu_outside.specs.Writing.{AppendsAll, AppendsPart};
ghost use Rattle.flu_deps.specs.Checking.{program_of};
ghost use Rattle.flu_deps.specs.Validated.{plan_of, IsValidFor};
ghost use Rattle.flu_streams.specs.Files.{files_of, OneRose};
ghost use Rattle.flu_selected.specs.Gathering.{LeavesUnread, CountsOfRead, HidesNoReadDefect, ReadRose, IsFirstReadFault};
ghost use Rattle.flu_node_run.specs.Faults.{IsFirstPartFault};
ghost use Rattle.flu_node_run.specs.Partials.{read_by, IsPartialOf};

use crate::faults::PartFault;
use crate::gathering::gather_needed;
use crate::texts::text_of_partial;
use flu_deps::{Checked, Valid};
use flu_outside::{Files, Sink, write_all};
use flu_streams::GatherFault;
use std::alloc::Global;

/// The text of the partial of a node of a plan that is valid for an accepted job, over the sources that the node needs. These are read to
/// their end, and no others; clocks tick among their rows.
///
/// A source fault is the first defect of the first of these sources, as declared, that has one.
pub fn partial_of<F: Files>(
    alloc: Global,
    files: &mut F,
    c: &Checked,
    v: &Valid,
    w: u32,
) -> Result<Vec<u8>, GatherFault>
    requires valid { IsValidFor (program_of c.now) v.now }
    requires node { w < length (plan_of v.now).nodes }
    ensures text { IfOk result (λ text. WhereTold (F.left files.old) (F.left files.new) (IsPartialOf (program_of c.now) (plan_of v.now).nodes w text.items)) }
    ensures fault { IfErr result (IsFirstReadFault (program_of c.now) [] (read_by c.now v.now w) (F.left files.old) (F.left files.new)) }

    // It only takes bytes from the front of the files of the sources that the node needs, and puts none; and a read fault has its cause there.
    ensures fronts { WhereTold (F.left files.old) (F.left files.new) TookFronts }
    ensures others { WhereTold (F.left files.old) (F.left files.new) (LeavesUnread (program_of c.now) (read_by c.now v.now w)) }
    ensures counts { CountsOfRead (program_of c.now) (read_by c.now v.now w) (F.left files.old) (F.faults files.old) (F.faults files.new) }
    ensures quiet { result ≢ Err GatherFault.ReadFault → SameCounts (F.faults files.old) (F.faults files.new) }
    ensures puts { SameCounts (F.put_faults files.old) (F.put_faults files.new) }
    ensures hides { IsErrOf result GatherFault.ReadFault → HidesNoReadDefect (program_of c.now) (read_by c.now v.now w) (F.left files.old) (F.left files.new)
        (F.faults files.old) (F.faults files.new) }
    ensures cause { IsErrOf result GatherFault.ReadFault → OneRose (files_of (program_of c.now).sources) (F.faults files.old) (F.faults files.new) }
    ensures read { IsErrOf result GatherFault.ReadFault → ReadRose (program_of c.now) (read_by c.now v.now w) (F.left files.old)
        (F.faults files.old) (F.faults files.new) }
{
    let streams = match gather_needed(alloc, files, c, v, w) {
        Ok(streams) => streams,
        Err(fault) => return Err(fault),
    };
    match text_of_partial(alloc, c, v, w, &streams) {
        Ok(text) => Ok(text),
        Err(_) => Err(GatherFault::NoMemory),
    }
}

/// Writes the partial of a node of a plan that is valid for an accepted job, over the sources that the node needs. These are read to their
/// end before the first byte is written, and no others are read; clocks tick among their rows.
///
/// # Errors
///
/// A defect of a source that the node needs, a read that failed, or want of memory: then nothing is written. If a write failed, a proper
/// prefix of the partial is.
pub fn write_partial<F: Files, K: Sink>(
    alloc: Global,
    files: &mut F,
    out: &mut K,
    c: &Checked,
    v: &Valid,
    w: u32,
) -> Result<(), PartFault>
    requires valid { IsValidFor (program_of c.now) v.now }
    requires node { w < length (plan_of v.now).nodes }
    ensures written { OnOk result ((text : List ℕ)
        × WhereTold (F.left files.old) (F.left files.new) (IsPartialOf (program_of c.now) (plan_of v.now).nodes w text)
        × WhereTold (K.taken out.old) (K.taken out.new) (AppendsAll text)) }

    // A source fault is the first defect of the first source, as declared, that has one and that the node needs.
    ensures fault { IfErr result (IsFirstPartFault (program_of c.now) (read_by c.now v.now w) (F.left files.old) (F.left files.new)) }

    // If out failed, it has a proper prefix of the partial; and else nothing was written of one that is refused.
    ensures part { IsErrOf result PartFault.WriteFault → (text : List ℕ)
        × WhereTold (F.left files.old) (F.left files.new) (IsPartialOf (program_of c.now) (plan_of v.now).nodes w text)
        × WhereTold (K.taken out.old) (K.taken out.new) (AppendsPart text) }
    ensures failed { IsErrOf result PartFault.WriteFault → Rose (K.faults out.old) (K.faults out.new) }
    ensures nothing { IfErr result (λ why. why ≢ PartFault.WriteFault → K.taken out.new ≡ K.taken out.old) }
    ensures written_quiet { result ≢ Err PartFault.WriteFault → K.faults out.new ≡ K.faults out.old }
    ensures written_counts { K.faults out.old ≤ K.faults out.new }

    // It only takes bytes from the front of the files of the sources that the node needs, and puts none; and a read fault has its cause there.
    ensures fronts { WhereTold (F.left files.old) (F.left files.new) TookFronts }
    ensures others { WhereTold (F.left files.old) (F.left files.new) (LeavesUnread (program_of c.now) (read_by c.now v.now w)) }
    ensures counts { CountsOfRead (program_of c.now) (read_by c.now v.now w) (F.left files.old) (F.faults files.old) (F.faults files.new) }
    ensures quiet { result ≢ Err PartFault.ReadFault → SameCounts (F.faults files.old) (F.faults files.new) }
    ensures puts { SameCounts (F.put_faults files.old) (F.put_faults files.new) }
    ensures hides { IsErrOf result PartFault.ReadFault → HidesNoReadDefect (program_of c.now) (read_by c.now v.now w) (F.left files.old) (F.left files.new)
        (F.faults files.old) (F.faults files.new) }
    ensures cause { IsErrOf result PartFault.ReadFault → OneRose (files_of (program_of c.now).sources) (F.faults files.old) (F.faults files.new) }
    ensures read { IsErrOf result PartFault.ReadFault → ReadRose (program_of c.now) (read_by c.now v.now w) (F.left files.old)
        (F.faults files.old) (F.faults files.new) }
{
    let text = partial_of(alloc, files, c, v, w)?;
    write_all(out, text.as_slice())?;
    Ok(())
}
