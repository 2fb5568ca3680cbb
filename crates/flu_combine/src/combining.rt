//! The report of partials and sources.

ghost use Rattle.std.specs.Prelude.{◌≡◌, ◌≢◌, ℕ, List, [], Err, IfOk, IfErr, OnOk, IsErrOf, length};
ghost use Rattle.flu_model.specs.Itags.{count_of_itags};
ghost use Rattle.flu_model.specs.Listed.{listed};
ghost use Rattle.flu_outside.specs.Outside.{Rose, WhereTold, SameCounts};
ghost use Rattle.flu_outside.specs.Taking.{TookFronts};
ghost use Rattle.flu_outside.specs.Writing.{AppendsAll, AppendsPart};
ghost use Rattle.flu_deps.specs.Checking.{program_of};
ghost use Rattle.flu_deps.specs.Validated.{plan_of, IsValidFor};
ghost use Rattle.flu_streams.specs.Clocks.{AreEarly};
ghost use Rattle.flu_selected.specs.Gathering as selected;
ghost use Rattle.flu_readers.specs.Reading.{reads_rest};
ghost use Rattle.flu_joining.specs.Joining.{events_of_none};
ghost use Rattle.flu_joining.specs.Parts.{waiting_in_each};
ghost use Rattle.flu_combine.specs.Combined.{IsCombined, LeavesUnread};
ghost use Rattle.flu_combine.specs.Faults.{IsCause, HidesNoPartialDefect};
ghost use Rattle.flu_combine.specs.Resting.{IsJoined, IsJoinFault, IsRest, IsRestFault};

use crate::fault::{CombineFault, PartialDefect};
use crate::gathering::gather_rest;
use crate::reading::{Partials, read_partials};
use flu_deps::{Checked, Valid};
use flu_joining::{JoinFault, Queue, join_sent};
use flu_model::{Streams, Text};
use flu_outside::{Files, Sink, write_all};
use flu_report::report_text;
use flu_streams::GatherFault;
use std::alloc::Global;

// The report of what was sent, joined to the fold of the events of some streams that are inside none of the nodes.
fn joined_text(
    alloc: Global,
    c: &Checked,
    v: &Valid,
    nodes: &[u32],
    queues: Vec<Queue>,
    streams: &Streams,
) -> Result<Text, CombineFault>
    requires valid { IsValidFor (program_of c.now) v.now }
    requires lists { length (listed streams.now) ≡ count_of_itags (program_of c.now) }
    ensures joined { IfOk result (IsJoined (program_of c.now) (waiting_in_each queues.items)
        (events_of_none (program_of c.now) (plan_of v.now).nodes nodes.now (listed streams.now))) }
    ensures fault { IfErr result (IsJoinFault (waiting_in_each queues.items)
        (events_of_none (program_of c.now) (plan_of v.now).nodes nodes.now (listed streams.now))) }
{
    match join_sent(alloc, c, v, nodes, queues, streams) {
        Ok((_, outs)) => {
            let text = report_text(alloc, c.program(), outs)?;
            Ok(text)
        }
        Err(JoinFault::LeftOver(place)) => {
            Err(CombineFault::Partial(place, PartialDefect::LeftOver))
        }
        Err(JoinFault::NoMemory) => Err(CombineFault::NoMemory),
    }
}

// Reads the sources that have events inside none of some nodes, and gives the report of what these sent and of those events. Clocks tick among the rows
// that the nodes read too, where `told` says where the first and the last of each node's stand.
fn rest_text<F: Files>(
    alloc: Global,
    files: &mut F,
    c: &Checked,
    v: &Valid,
    nodes: &[u32],
    queues: Vec<Queue>,
    told: &[u64],
) -> Result<Text, CombineFault>
    requires valid { IsValidFor (program_of c.now) v.now }
    requires early { AreEarly (program_of c.now) told.now }
    ensures rest { IfOk result (λ text. WhereTold (F.left files.old) (F.left files.new)
        (IsRest (program_of c.now) (plan_of v.now).nodes nodes.now told.now (waiting_in_each queues.items) text)) }
    ensures fault { IfErr result (IsRestFault (program_of c.now) (plan_of v.now).nodes nodes.now told.now (waiting_in_each queues.items)
        (F.left files.old) (F.left files.new) (F.faults files.old) (F.faults files.new)) }
    ensures hides { IsErrOf result CombineFault.ReadFault → selected.HidesNoReadDefect (program_of c.now)
        (reads_rest (program_of c.now) (plan_of v.now).nodes nodes.now) (F.left files.old) (F.left files.new) (F.faults files.old) (F.faults files.new) }
    ensures fronts { WhereTold (F.left files.old) (F.left files.new) TookFronts }
    ensures others { WhereTold (F.left files.old) (F.left files.new)
        (selected.LeavesUnread (program_of c.now) (reads_rest (program_of c.now) (plan_of v.now).nodes nodes.now)) }
    ensures quiet { result ≢ Err CombineFault.ReadFault → SameCounts (F.faults files.old) (F.faults files.new) }
    ensures puts { SameCounts (F.put_faults files.old) (F.put_faults files.new) }
{
    match gather_rest(alloc, files, c, v, nodes, told) {
        Ok(streams) => joined_text(alloc, c, v, nodes, queues, &streams),
        Err(GatherFault::Source(fault)) => Err(CombineFault::Source(fault)),
        Err(GatherFault::ReadFault) => Err(CombineFault::ReadFault),
        Err(GatherFault::NoMemory) => Err(CombineFault::NoMemory),
    }
}

// Reads partials, one at least, then the sources that have events inside none of their nodes, and gives the report.
fn combined_text<F: Files>(
    alloc: Global,
    files: &mut F,
    c: &Checked,
    v: &Valid,
    names: &[Text],
) -> Result<Text, CombineFault>
    requires valid { IsValidFor (program_of c.now) v.now }
    requires some { names.now ≢ [] }
    ensures combined { IfOk result (λ text. WhereTold (F.left files.old) (F.left files.new)
        (IsCombined (program_of c.now) (plan_of v.now).nodes names.now text)) }
    ensures cause { IfErr result (IsCause (program_of c.now) (plan_of v.now).nodes names.now (F.left files.old) (F.left files.new)
        (F.faults files.old) (F.faults files.new)) }
    ensures no_write { result ≢ Err CombineFault.WriteFault }
    ensures hides { IsErrOf result CombineFault.ReadFault → HidesNoPartialDefect (program_of c.now) (plan_of v.now).nodes names.now
        (F.left files.old) (F.left files.new) (F.faults files.old) (F.faults files.new) }
    ensures fronts { WhereTold (F.left files.old) (F.left files.new) TookFronts }
    ensures others { WhereTold (F.left files.old) (F.left files.new) (LeavesUnread (program_of c.now) (plan_of v.now).nodes names.now) }
    ensures quiet { result ≢ Err CombineFault.ReadFault → SameCounts (F.faults files.old) (F.faults files.new) }
    ensures puts { SameCounts (F.put_faults files.old) (F.put_faults files.new) }
{
    match read_partials(alloc, files, c, v, names) {
        Ok(
            Partials {
                nodes,
                queues,
                told,
            },
        ) => rest_text(
            alloc,
            files,
            c,
            v,
            nodes.as_slice(),
            queues,
            told.as_slice(),
        ),
        Err(fault) => Err(fault),
    }
}

/// Reads the partials under some names, one at least, each of a node of its own, then the sources that have events inside none of these nodes, and no
/// others, and writes the report: that of what the nodes sent, joined to the fold of the events of these sources from the empty state. `laws` says
/// when that is the report of all sources.
///
/// The partials are read and judged one after another, each wholly before the next. What was read is not there any more: a name that comes
/// twice, or that is the file of a source too, has nothing left the second time.
///
/// # Errors
///
/// `Partial` names the first partial with a defect, and its first defect; `Source` the first defect of the sources that are read, where all
/// partials are accepted; then `Partial` with `LeftOver` the first partial that is not used up. `ReadFault` only where a read failed, and
/// `WriteFault` only where the sink did, which has then taken a front of the report. In every other case nothing is written.
pub fn combine<F: Files, K: Sink>(
    alloc: Global,
    files: &mut F,
    out: &mut K,
    c: &Checked,
    v: &Valid,
    names: &[Text],
) -> Result<(), CombineFault>
    requires valid { IsValidFor (program_of c.now) v.now }
    requires some { names.now ≢ [] }
    ensures written { OnOk result ((text : List ℕ)
        × WhereTold (F.left files.old) (F.left files.new) (IsCombined (program_of c.now) (plan_of v.now).nodes names.now text)
        × WhereTold (K.taken out.old) (K.taken out.new) (AppendsAll text)) }

    ensures cause { IfErr result (IsCause (program_of c.now) (plan_of v.now).nodes names.now (F.left files.old) (F.left files.new)
        (F.faults files.old) (F.faults files.new)) }
    ensures part { IsErrOf result CombineFault.WriteFault → (text : List ℕ)
        × WhereTold (F.left files.old) (F.left files.new) (IsCombined (program_of c.now) (plan_of v.now).nodes names.now text)
        × WhereTold (K.taken out.old) (K.taken out.new) (AppendsPart text) }
    ensures failed { IsErrOf result CombineFault.WriteFault → Rose (K.faults out.old) (K.faults out.new) }
    ensures kept { IfErr result (λ e. e ≢ CombineFault.WriteFault → K.taken out.new ≡ K.taken out.old) }

    // A read fault hides no defect: the partials before it are accepted, and what was taken of the one that failed, or of the sources, has none.
    ensures hides { IsErrOf result CombineFault.ReadFault → HidesNoPartialDefect (program_of c.now) (plan_of v.now).nodes names.now
        (F.left files.old) (F.left files.new) (F.faults files.old) (F.faults files.new) }

    // It only takes bytes from the front of the partials and of the files of the sources that are read, and puts none.
    ensures fronts { WhereTold (F.left files.old) (F.left files.new) TookFronts }
    ensures others { WhereTold (F.left files.old) (F.left files.new) (LeavesUnread (program_of c.now) (plan_of v.now).nodes names.now) }
    ensures quiet { result ≢ Err CombineFault.ReadFault → SameCounts (F.faults files.old) (F.faults files.new) }
    ensures puts { SameCounts (F.put_faults files.old) (F.put_faults files.new) }
    ensures written_quiet { result ≢ Err CombineFault.WriteFault → K.faults out.new ≡ K.faults out.old }
{
    let text = combined_text(alloc, files, c, v, names)?;
    match write_all(out, text.as_str().as_bytes()) {
        Ok(()) => Ok(()),
        Err(_) => Err(CombineFault::WriteFault),
    }
}
