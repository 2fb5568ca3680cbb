//! The replay of a trace.

ghost use Rattle.std.specs.Prelude.{◌≡◌, ◌≢◌, ◌<◌, ℕ, List, [], true, false, IsTrue, IfOk, OnOk, IfErr, IfSome, IsErrOf, Err};
ghost use Rattle.std.specs.List.Sorted.{IsPermutation};
ghost use Rattle.flu_outside.specs.Outside.{WhereTold, Rose, SameCounts};
ghost use Rattle.flu_outside.specs.Taking.{TakesFrom, CountsOf, IsReadOut, bytes_left};
ghost use Rattle.flu_model.specs.Folding.{final_state, final_outputs};
ghost use Rattle.flu_model.specs.Listed.{listed};
ghost use Rattle.flu_model.specs.Sorts.{IsStateOf};
ghost use Rattle.flu_cells.specs.Holding.{held};
ghost use Rattle.flu_fork.specs.Lots.{job};
ghost use Rattle.flu_net.specs.Final.{IsFinal};
ghost use Rattle.flu_net.specs.Measure.{steps_left};
ghost use Rattle.flu_net.specs.Rule.{IsWell};
ghost use Rattle.flu_net.specs.Starting.{IsStart};
ghost use Rattle.flu_outside.specs.Lines.{IsFound};
ghost use Rattle.flu_trace.specs.LoopReplaying.{BeginsWith, EndsFrom, GoesOn, IsEndFault, MayCome};
ghost use Rattle.flu_trace.specs.Replaying.{Complete, IsReplayed, ending_of};

use crate::faults::ReplayFault;
use crate::reading::read_step;
use flu_cells::State;
use flu_fork::Case;
use flu_model::Outs;
use flu_net::{Net, Step, StepFault};
use flu_outside::{Files, Found, LineBuffer, TakeFault};
use std::alloc::{AllocError, Global};

// The most bytes of a good line, without its line feed; a longer line is bad as soon as its length is known.
const LONGEST_LINE: usize = 24;

/// Replays a trace: makes the steps of its lines in order from the start of the net (`docs/TREE.md`, "Traces"). The trace is what
/// is left under a name, and is read in pieces, so that no more of it is held than one line and one piece.
///
/// If the lines lead to a final net, the state is the fold's, which holds values of the job's sorts, and the outputs are the
/// fold's in some order.
///
/// # Errors
///
/// `Bad`, `NotEnabled` and `Incomplete` exactly if the first line that stops the replay does so in this way, with its number;
/// `ReadFault` only if a take failed; `NoMemory` if memory runs out.
pub fn replay<F: Files>(
    alloc: Global,
    case: &Case,
    name: &str,
    files: &mut F,
) -> Result<(State, Outs), ReplayFault>
    ensures complete { IfOk result (λ r. WhereTold (F.left files.old) (F.left files.new) (λ old new. IsReplayed case.now (bytes_left old name.now) Complete)) }
    ensures faults { IfErr result (λ fault. IfSome (ending_of fault)
        (λ ending. WhereTold (F.left files.old) (F.left files.new) (λ old new. IsReplayed case.now (bytes_left old name.now) ending))) }
    ensures state { IfOk result (λ r. held r.0 ≡ final_state (job case.now) (held case.now.opening) (listed case.now.streams)) }
    ensures sorts { IfOk result (λ r. IsStateOf (job case.now).families (held r.0)) }
    ensures outputs { IfOk result (λ r. IsPermutation (final_outputs (job case.now) (held case.now.opening) (listed case.now.streams)) r.1) }

    // A complete replay read the trace to its end. Bytes are taken only from the front of the trace, and none are put; and a read fault has
    // its cause there: no other answer comes after a take that failed.
    ensures end { OnOk result (IsReadOut name.now (F.left files.new)) }
    ensures taken { WhereTold (F.left files.old) (F.left files.new) (TakesFrom name.now) }
    ensures counts { CountsOf (F.left files.old) name.now (F.faults files.old) (F.faults files.new) }
    ensures quiet { result ≢ Err ReplayFault.ReadFault → SameCounts (F.faults files.old) (F.faults files.new) }
    ensures puts { SameCounts (F.put_faults files.old) (F.put_faults files.new) }
    ensures cause { IsErrOf result ReplayFault.ReadFault → Rose (F.faults files.old name.now) (F.faults files.new name.now) }
{
    let Ok(mut run) = Replaying::begin(alloc, case) else {
        return Err(ReplayFault::NoMemory);
    };
    'lines: loop {
        let more = match run.turn(alloc, case, name, files) {
            Ok(more) => more,
            Err(fault) => return Err(fault),
        };
        if !more {
            return run.end(alloc, case);
        }
    }
}

// A replay in progress: the net, the bytes that were taken and are still to be read, and how many lines were read.
#[derive(Drop)]
struct Replaying {
    net: Net,
    held: LineBuffer,
    lines: u64,
}

impl Replaying {
    // The replay before its first line.
    fn begin(alloc: Global, case: &Case) -> Result<Replaying, AllocError>
        ensures start { IfOk result (λ r. IsStart case.now r.net) }
        ensures held { IfOk result (λ r. r.held ≡ []) }
        ensures lines { IfOk result (λ r. r.lines ≡ 0) }
    {
        let net = Net::new(alloc, case)?;
        Ok(Replaying {
            net,
            held: LineBuffer::new(alloc),
            lines: 0,
        })
    }

    // Reads a line and makes its step; returns whether there was a line.
    fn turn<F: Files>(
        &mut self,
        alloc: Global,
        case: &Case,
        name: &str,
        files: &mut F,
    ) -> Result<bool, ReplayFault>
        requires case { case.now ≡ self.old.net.case }
        requires gone { self.old.net.gone ≡ false }
        ensures case { OnOk result (self.new.net.case ≡ self.old.net.case) }
        ensures gone { OnOk result (self.new.net.gone ≡ false) }
        ensures goes { OnOk result (WhereTold (F.left files.old) (F.left files.new) (GoesOn name.now self.old self.new)) }
        ensures left { IfOk result (λ more. IsTrue more → steps_left self.new.net < steps_left self.old.net) }
        ensures none { IfOk result (λ more. more ≡ false → self.new.held ≡ []) }
        ensures end { IfOk result (λ more. more ≡ false → IsReadOut name.now (F.left files.new)) }
        ensures faults { IfErr result (λ fault. IfSome (ending_of fault)
            (λ ending. WhereTold (F.left files.old) (F.left files.new) (λ old new. EndsFrom name.now self.old old ending))) }
        ensures taken { WhereTold (F.left files.old) (F.left files.new) (TakesFrom name.now) }
        ensures counts { CountsOf (F.left files.old) name.now (F.faults files.old) (F.faults files.new) }
        ensures quiet { result ≢ Err ReplayFault.ReadFault → SameCounts (F.faults files.old) (F.faults files.new) }
        ensures puts { SameCounts (F.put_faults files.old) (F.put_faults files.new) }
        ensures cause { IsErrOf result ReplayFault.ReadFault → Rose (F.faults files.old name.now) (F.faults files.new name.now) }
    {
        self.net.rule();
        let found = match self.held.fill(LONGEST_LINE, name, files) {
            Ok(found) => found,
            Err(TakeFault::Failed) => return Err(ReplayFault::ReadFault),
            Err(TakeFault::NoMemory) => return Err(ReplayFault::NoMemory),
        };
        if let Found::End = found {
            return Ok(false);
        }
        let Some(line) = self.lines.checked_add(1) else {
            return Err(ReplayFault::NoMemory);
        };
        let Some(step) = take_step(found, &mut self.held) else {
            return Err(ReplayFault::Bad { line });
        };
        match self.net.step(alloc, case, step) {
            Ok(()) => {}
            Err(StepFault::NotEnabled) => return Err(ReplayFault::NotEnabled { line }),
            Err(StepFault::NoMemory) => return Err(ReplayFault::NoMemory),
        }
        self.lines = line;
        Ok(true)
    }

    // What the replay led to, once there are no more lines.
    fn end(self, alloc: Global, case: &Case) -> Result<(State, Outs), ReplayFault>
        requires case { case.now ≡ self.net.case }
        requires gone { self.net.gone ≡ false }
        ensures complete { OnOk result (IsWell self.net × IsFinal self.net) }
        ensures fault { IfErr result (IsEndFault self) }
        ensures state { IfOk result (λ r. held r.0 ≡ final_state (job case.now) (held case.now.opening) (listed case.now.streams)) }
        ensures sorts { IfOk result (λ r. IsStateOf (job case.now).families (held r.0)) }
        ensures outputs { IfOk result (λ r. IsPermutation (final_outputs (job case.now) (held case.now.opening) (listed case.now.streams)) r.1) }
    {
        self.net.rule();
        if !self.net.is_final(case) {
            let Some(line) = self.lines.checked_add(1) else {
                return Err(ReplayFault::NoMemory);
            };
            return Err(ReplayFault::Incomplete { line });
        }
        let Replaying { net, .. } = self;
        let Ok(both) = net.joined(alloc, case) else {
            return Err(ReplayFault::NoMemory);
        };
        Ok(both)
    }
}

// Takes the line that was found off the front; returns the step that it says, if it is good.
fn take_step(found: Found, held: &mut LineBuffer) -> Option<Step>
    requires found { IsFound 24 held.old found }
    requires some { found ≢ Found.End }
    ensures { (coming : List ℕ) → MayCome found coming → BeginsWith result held.old held.new coming }
{
    match found {
        Found::Line(len) => {
            let step = read_step(&held.bytes()[..len]);
            held.drop_front(len + 1);
            step
        }
        Found::Last => {
            let step = read_step(held.bytes());
            held.drop_front(held.bytes().len());
            step
        }
        Found::TooLong => None,
        Found::End => unreachable!(),
    }
}
