//! What a part command does once its job is accepted and its plan is valid for it.

ghost use Rattle.std.specs.Prelude.{◌≡◌, ◌≢◌, ℕ, List, [], Err, map, string_bytes};
ghost use Rattle.flu_outside.specs.Outside.{WhereTold, SameCounts};
ghost use Rattle.flu_outside.specs.Taking.{TookFronts};
ghost use Rattle.flu_deps.specs.Checking.{program_of};
ghost use Rattle.flu_deps.specs.Validated.{plan_of, IsValidFor};
ghost use Rattle.flu_words.specs.Parts.{Partial, Combine, plain_part};
ghost use Rattle.flu_top.specs.Ending.{call};
ghost use Rattle.flu_parts.specs.Ending.{IsEndBehind, LeavesBehind};
ghost use Rattle.flu_parts.specs.Planned.{NamesSome};

use crate::naming::{node_apart, same_name, texts_of};
use crate::stops::Stop;
use flu_combine::{CombineFault, combine};
use flu_deps::{Checked, Valid};
use flu_lines::FileDefect;
use flu_node_run::{PartFault, write_partial};
use flu_outside::{Files, Sink};
use flu_words::PartCommand;
use std::alloc::Global;

/// Writes the partial of the node that a command names, or the report of the partials that it names.
pub fn work<'a, F: Files, K: Sink>(
    alloc: Global,
    files: &mut F,
    out: &mut K,
    checked: &Checked,
    valid: &Valid,
    command: PartCommand<'a>,
) -> Result<(), Stop<'a>>
    requires valid { IsValidFor (program_of checked.now) valid.now }
    requires some { NamesSome (plain_part command) }
    ensures ends { IsEndBehind (plain_part command.entry) (program_of checked.now) (plan_of valid.now).nodes
        (call (F.left files.old) (F.left files.new) (F.faults files.old) (F.faults files.new) (F.put_faults files.old) (F.put_faults files.new)
        (K.taken out.old) (K.taken out.new) (K.faults out.old) (K.faults out.new)) result }
    ensures fronts { WhereTold (F.left files.old) (F.left files.new) TookFronts }
    ensures others { WhereTold (F.left files.old) (F.left files.new)
        (LeavesBehind (plain_part command.entry) (program_of checked.now) (plan_of valid.now).nodes) }
    ensures quiet { result ≢ Err Stop.ReadFault → SameCounts (F.faults files.old) (F.faults files.new) }
    ensures puts { SameCounts (F.put_faults files.old) (F.put_faults files.new) }
    ensures written_quiet { result ≢ Err Stop.WriteFault → K.faults out.new ≡ K.faults out.old }
{
    match command {
        PartCommand::Partial { node, .. } => { write_part(alloc, files, out, checked, valid, node) }
        PartCommand::Combine { partials, .. } => {
            combine_parts(alloc, files, out, checked, valid, partials)
        }
    }
}

// Writes the partial of the node with a name, if it may be apart.
fn write_part<'a, F: Files, K: Sink>(
    alloc: Global,
    files: &mut F,
    out: &mut K,
    checked: &Checked,
    valid: &Valid,
    node: &'a str,
) -> Result<(), Stop<'a>>
    requires { IsValidFor (program_of checked.now) valid.now }
    ensures ends { (job plan : List ℕ) → IsEndBehind (Partial job plan node.now) (program_of checked.now) (plan_of valid.now).nodes
        (call (F.left files.old) (F.left files.new) (F.faults files.old) (F.faults files.new) (F.put_faults files.old) (F.put_faults files.new)
        (K.taken out.old) (K.taken out.new) (K.faults out.old) (K.faults out.new)) result }
    ensures fronts { WhereTold (F.left files.old) (F.left files.new) TookFronts }
    ensures others { (job plan : List ℕ) → WhereTold (F.left files.old) (F.left files.new)
        (LeavesBehind (Partial job plan node.now) (program_of checked.now) (plan_of valid.now).nodes) }
    ensures quiet { result ≢ Err Stop.ReadFault → SameCounts (F.faults files.old) (F.faults files.new) }
    ensures puts { SameCounts (F.put_faults files.old) (F.put_faults files.new) }
    ensures written_quiet { result ≢ Err Stop.WriteFault → K.faults out.new ≡ K.faults out.old }
{
    let w = match node_apart(checked, valid, node) {
        Ok(w) => w,
        Err(why) => return Err(Stop::Node(node, why)),
    };
    match write_partial(alloc, files, out, checked, valid, w) {
        Ok(()) => Ok(()),
        Err(PartFault::Source(fault)) => Err(Stop::Source(fault)),
        Err(PartFault::ReadFault) => Err(Stop::ReadFault),
        Err(PartFault::WriteFault) => Err(Stop::WriteFault),
        Err(PartFault::NoMemory) => Err(Stop::NoMemory),
    }
}

// Writes the report of the partials under some names, one at least, if none of them is the file of a source.
fn combine_parts<'a, F: Files, K: Sink>(
    alloc: Global,
    files: &mut F,
    out: &mut K,
    checked: &Checked,
    valid: &Valid,
    partials: &'a [String],
) -> Result<(), Stop<'a>>
    requires valid { IsValidFor (program_of checked.now) valid.now }
    requires some { partials.now ≢ [] }
    ensures ends { (job plan : List ℕ) → IsEndBehind (Combine job plan (map string_bytes partials.now)) (program_of checked.now) (plan_of valid.now).nodes
        (call (F.left files.old) (F.left files.new) (F.faults files.old) (F.faults files.new) (F.put_faults files.old) (F.put_faults files.new)
        (K.taken out.old) (K.taken out.new) (K.faults out.old) (K.faults out.new)) result }
    ensures fronts { WhereTold (F.left files.old) (F.left files.new) TookFronts }
    ensures others { (job plan : List ℕ) → WhereTold (F.left files.old) (F.left files.new)
        (LeavesBehind (Combine job plan (map string_bytes partials.now)) (program_of checked.now) (plan_of valid.now).nodes) }
    ensures quiet { result ≢ Err Stop.ReadFault → SameCounts (F.faults files.old) (F.faults files.new) }
    ensures puts { SameCounts (F.put_faults files.old) (F.put_faults files.new) }
    ensures written_quiet { result ≢ Err Stop.WriteFault → K.faults out.new ≡ K.faults out.old }
{
    if let Some((place, source)) = same_name(checked.program(), partials) {
        return Err(Stop::File(partials[place].as_str(), FileDefect::SameName(source)));
    }
    let names = match texts_of(alloc, partials) {
        Ok(names) => names,
        Err(_) => return Err(Stop::NoMemory),
    };
    match combine(alloc, files, out, checked, valid, names.as_slice()) {
        Ok(()) => Ok(()),
        Err(CombineFault::Partial(place, defect)) => Err(Stop::File(
            partials[place].as_str(),
            FileDefect::Partial(defect),
        )),
        Err(CombineFault::Source(fault)) => Err(Stop::Source(fault)),
        Err(CombineFault::ReadFault) => Err(Stop::ReadFault),
        Err(CombineFault::WriteFault) => Err(Stop::WriteFault),
        Err(CombineFault::NoMemory) => Err(Stop::NoMemory),
    }
}
