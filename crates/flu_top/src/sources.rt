//! The streams of a job's sources.

ghost use Rattle.std.specs.Prelude.{◌≡◌, ◌≢◌, ◌≤◌, ℕ, List, Err, length, IfOk, IfErr, OnOk, IsErrOf};
ghost use Rattle.flu_outside.specs.Outside.{WhereTold, SameCounts};
ghost use Rattle.flu_outside.specs.Taking.{TookFronts};
ghost use Rattle.flu_model.specs.Itags.{count_of_itags};
ghost use Rattle.flu_model.specs.Listed.{listed};
ghost use Rattle.flu_deps.specs.Checking.{program_of};
ghost use Rattle.flu_streams.specs.declared.faults.GatherFault.{GatherFault};
ghost use Rattle.flu_streams.specs.Faults.{IsFirstFault, HidesNothing};
ghost use Rattle.flu_streams.specs.Files.{files_of, LeavesOthers, AreReadOut};
ghost use Rattle.flu_streams.specs.Good.{AreGood, lists_of};

use flu_deps::Checked;
use flu_model::Streams;
use flu_outside::Files;
use flu_streams::{GatherFault, gather};
use std::alloc::Global;

/// The streams of an accepted job's sources.
pub fn streams_of<F: Files>(
    alloc: Global,
    files: &mut F,
    checked: &Checked,
) -> Result<Streams, GatherFault>
    ensures good { OnOk result (WhereTold (F.left files.old) (F.left files.new) (λ old new. AreGood (program_of checked.now) old)) }
    ensures lists { IfOk result (λ streams. WhereTold (F.left files.old) (F.left files.new) (λ old new. listed streams ≡ lists_of (program_of checked.now) old)) }
    ensures itags { IfOk result (λ streams. length (listed streams) ≡ count_of_itags (program_of checked.now)) }
    ensures read_out { OnOk result (AreReadOut (files_of (program_of checked.now).sources) (F.left files.new)) }
    ensures fault { IfErr result (IsFirstFault (program_of checked.now) (F.left files.old) (F.left files.new)) }
    ensures fronts { WhereTold (F.left files.old) (F.left files.new) TookFronts }
    ensures others { WhereTold (F.left files.old) (F.left files.new) (LeavesOthers (files_of (program_of checked.now).sources)) }
    ensures rise { (n : List ℕ) → F.faults files.old n ≤ F.faults files.new n }
    ensures quiet { result ≢ Err GatherFault.ReadFault → SameCounts (F.faults files.old) (F.faults files.new) }
    ensures puts { SameCounts (F.put_faults files.old) (F.put_faults files.new) }
    ensures hides { IsErrOf result GatherFault.ReadFault → HidesNothing (program_of checked.now) (F.left files.old) (F.left files.new)
        (F.faults files.old) (F.faults files.new) }
{
    gather(alloc, checked.program(), files)
}
