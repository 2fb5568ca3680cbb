//! The checkpoints that a run puts, one after each round.

ghost use Rattle.std.specs.Prelude.{◌≡◌, ◌≢◌, None, option_map, OnOk, OnErr, IsErrOf};
ghost use Rattle.flu_outside.specs.Outside.{WhereTold, SameCounts, SameLeft};
ghost use Rattle.flu_cells.specs.Holding.{held};
ghost use Rattle.flu_save.specs.Checkpoint.{save};
ghost use Rattle.flu_top.specs.Running.{IsInRange, IsSavedTo, PutFailed, PutsAt, border_at};
ghost use Rattle.flu_command.specs.Taking.{TookOnly};

use flu_cells::State;
use flu_model::Program;
use flu_outside::{Files, PutFault};
use flu_rounds::Border;
use flu_save::save_text;
use std::alloc::Global;

// The border of the last checkpoint.
const GREATEST_BORDER: u64 = i64::MAX as u64;

/// Puts the checkpoint of a round's end and of the state after it under a name, if there is one.
pub fn put_checkpoint<F: Files>(
    alloc: Global,
    files: &mut F,
    program: &Program,
    name: Option<&str>,
    end: Border,
    state: &State,
) -> Result<(), PutFault>
    requires { IsInRange end }
    ensures put { OnOk result (WhereTold (F.left files.old) (F.left files.new)
        (PutsAt (option_map (λ n. n.now) name.entry) (save program.now (border_at end) (held state.now)))) }
    ensures quiet { OnOk result (SameCounts (F.put_faults files.old) (F.put_faults files.new)) }
    ensures named { OnErr result (name.entry ≢ None) }
    ensures failed { IsErrOf result PutFault.Failed → PutFailed (option_map (λ n. n.now) name.entry) (F.put_faults files.old) (F.put_faults files.new) }
    ensures kept { IsErrOf result PutFault.NoMemory → WhereTold (F.left files.old) (F.left files.new) SameLeft }
    ensures no_memory { IsErrOf result PutFault.NoMemory → SameCounts (F.put_faults files.old) (F.put_faults files.new) }
    ensures others { WhereTold (F.left files.old) (F.left files.new) (TookOnly (IsSavedTo (option_map (λ n. n.now) name.entry))) }
    ensures takes { SameCounts (F.faults files.old) (F.faults files.new) }
{
    match name {
        None => Ok(()),
        Some(name) => {
            let text = save_text(alloc, program, border_of(end), state)?;
            files.put(name, text)
        }
    }
}

// The border that a checkpoint has after a round: the greatest one after the last.
fn border_of(end: Border) -> u64
    ensures { result ≡ border_at end }
{
    match end {
        Border::At(time) => time,
        Border::Closed => GREATEST_BORDER,
    }
}
