//! Runs a part command.

ghost use Rattle.std.specs.Prelude.{◌≡◌, ◌≢◌, Err};
ghost use Rattle.flu_outside.specs.Outside.{WhereTold, SameCounts};
ghost use Rattle.flu_outside.specs.Taking.{TookFronts};
ghost use Rattle.flu_deps.specs.Checking.{program_of};
ghost use Rattle.flu_deps.specs.Validated.{plan_of};
ghost use Rattle.flu_words.specs.Parts.{plain_part};
ghost use Rattle.flu_command.specs.Taking.{TookOnly};
ghost use Rattle.flu_top.specs.Ending.{call};
ghost use Rattle.flu_parts.specs.Planned.{NamesSome, job_of_part, plan_of_part};
ghost use Rattle.flu_parts.specs.ReadNames.{IsReadPart};
ghost use Rattle.flu_parts.specs.Ending.{IsEnding, refusal_of_stop};

use crate::stops::Stop;
use crate::working::work;
use flu_lines::{JobRead, PartRefusal, Refusal};
use flu_outside::{Files, Sink};
use flu_receiving::laws::partials_have_one_text;
use flu_top::{Planned, planned_by};
use flu_words::PartCommand;
use std::alloc::Global;

/// Runs a part command: writes what it asks for to `out`, or answers why not.
pub fn run<'a, F: Files, K: Sink>(
    alloc: Global,
    files: &mut F,
    out: &mut K,
    command: PartCommand<'a>,
) -> Result<(), PartRefusal<'a>>
    requires { NamesSome (plain_part command) }
    ensures ends { IsEnding (call (F.left files.old) (F.left files.new) (F.faults files.old) (F.faults files.new) (F.put_faults files.old)
        (F.put_faults files.new) (K.taken out.old) (K.taken out.new) (K.faults out.old) (K.faults out.new)) (plain_part command.entry) result }
    ensures fronts { WhereTold (F.left files.old) (F.left files.new) TookFronts }
    ensures only { WhereTold (F.left files.old) (F.left files.new) (TookOnly (IsReadPart (F.left files.old) (plain_part command.entry))) }
    ensures quiet { result ≢ Err (PartRefusal.Command Refusal.ReadFault) → SameCounts (F.faults files.old) (F.faults files.new) }
    ensures puts { SameCounts (F.put_faults files.old) (F.put_faults files.new) }
    ensures written_quiet { result ≢ Err (PartRefusal.Command Refusal.WriteFault) → K.faults out.new ≡ K.faults out.old }
{
    partials_have_one_text();
    let (job, plan) = texts_of(command);
    let planned = match planned_by(alloc, files, job, plan) {
        Ok(planned) => planned,
        Err(refusal) => return Err(PartRefusal::Command(refusal)),
    };
    match work(alloc, files, out, &planned.checked, &planned.valid, command) {
        Ok(()) => Ok(()),
        Err(stop) => Err(refusal_of(planned, stop)),
    }
}

// The names of a command's job and of its plan.
fn texts_of<'a>(command: PartCommand<'a>) -> (&'a str, &'a str)
    ensures job { result.0.now ≡ job_of_part (plain_part command.entry) }
    ensures plan { result.1.now ≡ plan_of_part (plain_part command.entry) }
{
    match command {
        PartCommand::Partial { job, plan, .. } => (job, plan),
        PartCommand::Combine { job, plan, .. } => (job, plan),
    }
}

// The refusal of what stopped a command behind its job and its plan.
fn refusal_of<'a>(planned: Planned, stop: Stop<'a>) -> PartRefusal<'a>
    ensures { result ≡ refusal_of_stop planned.checked planned.valid stop.entry }
{
    match stop {
        Stop::Node(name, why) => PartRefusal::Node(planned.checked, planned.valid, name, why),
        Stop::File(name, why) => PartRefusal::File(planned.checked, planned.valid, name, why),
        Stop::Source(fault) => PartRefusal::Command(Refusal::SourceFault(
            JobRead::Accepted(planned.checked),
            fault,
        )),
        Stop::ReadFault => PartRefusal::Command(Refusal::ReadFault),
        Stop::WriteFault => PartRefusal::Command(Refusal::WriteFault),
        Stop::NoMemory => PartRefusal::Command(Refusal::NoMemory),
    }
}
