//! The top call of the part commands.

ghost use Rattle.std.specs.Prelude.{◌≡◌, ◌≢◌, Err, map, string_bytes};
ghost use Rattle.flu_outside.specs.Outside.{WhereTold, SameCounts};
ghost use Rattle.flu_outside.specs.Taking.{TookFronts};
ghost use Rattle.flu_command.specs.Outside.{outside, faults};
ghost use Rattle.flu_command.specs.Taking.{TookOnly};
ghost use Rattle.flu_lines.specs.PartAnswer.{code_after_part, IsPartHeard};
ghost use Rattle.flu_top.specs.Ending.{call};
ghost use Rattle.flu_parts.specs.Ending.{Ends};
ghost use Rattle.flu_parts.specs.ReadNames.{IsReadByPart};
ghost use Rattle.flu_parts.specs.Outcome.{PartOutcome, PartReadOnly, PartFaultsFirst, PartHidesNothing};
ghost use Rattle.flu_parts.specs.Calling.{PartCompletes};

use crate::laws::part_commands_complete_by_faults;
use crate::running::run;
use flu_lines::{PartRefusal, Refusal, say_part};
use flu_outside::{Files, Sink};
use flu_words::read_part_words;
use std::alloc::Global;

/// Does what the words of a part command say, those after the program's name, and answers why it was not done.
///
/// `partial JOB PLAN NODE` reads the job in the file of that name, which has to be accepted, and a plan, which has to be valid for it. The plan must
/// have a node of that name which may be apart. Then it reads the sources that this node needs, and no others, and writes the node's partial to `out`.
/// `combine JOB PLAN FILE ..` reads such a job and such a plan, and then 1 to 64 partials of nodes of the plan, one after another. None of these
/// files may be that of a source. Each has to be a partial of this job and this plan, of a node that may be apart and is not within the node of an
/// earlier one or above it. Then it reads the sources that have events inside none of the nodes, and no others, and writes the report.
/// `docs/SCALE.md` says what partials are, and when that report is the one of the fold of all sources.
///
/// A partial and the sources that are read are read whole: a partial has at most 536,870,912 bytes, and the sources that one call reads have at most
/// 16,777,216 items together. Where nothing is refused, the call writes once, at the end.
///
/// # Errors
///
/// What refuses a command is told in this order, and the number is the status of the answer: 2 for words that are no part command, 3 for a job text
/// with a fault, 4 for a job that is not accepted, and 5 for a plan text with a fault, a plan that is not valid, no node of that name, or a node that
/// may not be apart; 14 for a file that is also that of a source, or else for the first partial with a defect; 6 for the first defect of the sources
/// that are read; and 14 for the first partial that has something left over behind the last event. 7 if a file that was read failed, 8 if `out`
/// failed, and 9 if memory ran out. The line of the answer goes to `err`, whose failure changes no answer.
pub fn answer_part_words<'a, F: Files, K: Sink, E: Sink>(
    alloc: Global,
    words: &'a [String],
    files: &mut F,
    out: &mut K,
    err: &mut E,
) -> Result<(), PartRefusal<'a>>
    // What the status says about the words, about what the files held and hold, and about what out and err got.
    ensures outcome { PartOutcome (map string_bytes words.now)
        (outside (F.left files.old) (K.taken out.old) (E.taken err.old) (E.faults err.old))
        (outside (F.left files.new) (K.taken out.new) (E.taken err.new) (E.faults err.new)) (code_after_part result) }

    // Bytes are taken from the front of names, and of no name that the call does not read. Nothing is put.
    ensures read { PartReadOnly (map string_bytes words.now) (F.left files.old) (F.left files.new) }

    // Status 7 comes only if the count of a name that the call reads rose, and status 8 only if out's did. At each other status no such count has
    // changed: a failure ends the call.
    ensures faults { PartFaultsFirst (map string_bytes words.now) (F.left files.old)
        (faults (F.faults files.old) (F.put_faults files.old) (K.faults out.old))
        (faults (F.faults files.new) (F.put_faults files.new) (K.faults out.new)) (code_after_part result) }

    // A read fault hides nothing: no fault was met in what was taken.
    ensures hides { PartHidesNothing (map string_bytes words.now) (F.left files.old) (F.left files.new)
        (faults (F.faults files.old) (F.put_faults files.old) (K.faults out.old))
        (faults (F.faults files.new) (F.put_faults files.new) (K.faults out.new)) (code_after_part result) }

    // If no count rose, the status is the one that the command and the files call for, or 9.
    ensures completes { PartCompletes (map string_bytes words.now) (F.left files.old)
        (faults (F.faults files.old) (F.put_faults files.old) (K.faults out.old))
        (faults (F.faults files.new) (F.put_faults files.new) (K.faults out.new)) (code_after_part result) }

    // Err got nothing if the command was done, and else the line of the refusal.
    ensures heard { IsPartHeard result (E.taken err.old) (E.taken err.new) (E.faults err.old) (E.faults err.new) }
{
    part_commands_complete_by_faults();
    let ended = do_words(alloc, words, files, out);
    tell(err, &ended);
    ended
}

// Does what the words say.
fn do_words<'a, F: Files, K: Sink>(
    alloc: Global,
    words: &'a [String],
    files: &mut F,
    out: &mut K,
) -> Result<(), PartRefusal<'a>>
    ensures ends { Ends (map string_bytes words.now) (call (F.left files.old) (F.left files.new) (F.faults files.old) (F.faults files.new)
        (F.put_faults files.old) (F.put_faults files.new) (K.taken out.old) (K.taken out.new) (K.faults out.old) (K.faults out.new)) result }
    ensures fronts { WhereTold (F.left files.old) (F.left files.new) TookFronts }
    ensures only { WhereTold (F.left files.old) (F.left files.new) (TookOnly (IsReadByPart (map string_bytes words.now) (F.left files.old))) }
    ensures quiet { result ≢ Err (PartRefusal.Command Refusal.ReadFault) → SameCounts (F.faults files.old) (F.faults files.new) }
    ensures puts { SameCounts (F.put_faults files.old) (F.put_faults files.new) }
    ensures written_quiet { result ≢ Err (PartRefusal.Command Refusal.WriteFault) → K.faults out.new ≡ K.faults out.old }
{
    match read_part_words(words) {
        Ok(command) => run(alloc, files, out, command),
        Err(bad) => Err(PartRefusal::Command(Refusal::BadWords(bad))),
    }
}

// Says the line of a refusal on err.
fn tell<E: Sink>(err: &mut E, ended: &Result<(), PartRefusal<'_>>)
    ensures { IsPartHeard ended.now (E.taken err.old) (E.taken err.new) (E.faults err.old) (E.faults err.new) }
{
    match ended {
        Ok(()) => (),
        Err(refusal) => say_part(err, refusal),
    }
}
