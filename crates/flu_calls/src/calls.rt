//! The call of the program.

ghost use Rattle.std.specs.Prelude.{map, string_bytes};
ghost use Rattle.flu_command.specs.Outside.{outside, faults};
ghost use Rattle.flu_calls.specs.Answer.{code_of_answer, IsAnswerHeard};
ghost use Rattle.flu_calls.specs.Calls.{CallOutcome, CallReadOnly, CallFaultsFirst, CallHidesNothing, CallCompletes};

use crate::answers::Answer;
use flu_outside::{Files, Sink};
use flu_parts::answer_part_words;
use flu_seq::Gate;
use flu_top::answer_words as answer_command_words;
use flu_words::is_part_call;
use std::alloc::Global;
use std::sync::Wait;
use std::thread::Threads;

/// Does what the words after the program's name say, and answers what was done, or why it was not.
///
/// Words that begin with `partial` or `combine` go to `flu_parts::answer_part_words`, and all others to `flu_top::answer_words`, which say what each
/// command reads and writes, in which order it is refused, and with which status. The status of the answer is the status of the call, and `err` got
/// its line.
pub fn answer_words<'a, F: Files, K: Sink, E: Sink, G: Gate, R: Threads + Wait + Sync>(
    rt: &R,
    alloc: Global,
    words: &'a [String],
    files: &mut F,
    out: &mut K,
    err: &mut E,
    gate: &G,
) -> Answer<'a>
    // What the status says about the words, about what the files held and hold, and about what out and err got.
    ensures outcome { CallOutcome (map string_bytes words.now)
        (outside (F.left files.old) (K.taken out.old) (E.taken err.old) (E.faults err.old))
        (outside (F.left files.new) (K.taken out.new) (E.taken err.new) (E.faults err.new)) (code_of_answer result) }

    // Bytes are taken from the front of names, and of no name that the call does not read, except for one that it puts.
    ensures read { CallReadOnly (map string_bytes words.now) (F.left files.old) (F.left files.new) (code_of_answer result) }

    // The statuses 7, 8 and 12 come only if a count of what the call reads, writes or puts rose. At each other status no such count has changed.
    ensures faults { CallFaultsFirst (map string_bytes words.now) (F.left files.old)
        (faults (F.faults files.old) (F.put_faults files.old) (K.faults out.old))
        (faults (F.faults files.new) (F.put_faults files.new) (K.faults out.new)) (code_of_answer result) }

    // A read fault hides nothing: no fault was met in what was taken.
    ensures hides { CallHidesNothing (map string_bytes words.now) (F.left files.old) (F.left files.new)
        (faults (F.faults files.old) (F.put_faults files.old) (K.faults out.old))
        (faults (F.faults files.new) (F.put_faults files.new) (K.faults out.new)) (code_of_answer result) }

    // If no count rose, the status is the one that the words and the files call for, or 9.
    ensures completes { CallCompletes (map string_bytes words.now) (F.left files.old)
        (faults (F.faults files.old) (F.put_faults files.old) (K.faults out.old))
        (faults (F.faults files.new) (F.put_faults files.new) (K.faults out.new)) (code_of_answer result) }

    // Err got nothing, the line of what a command says that was done, or the line of the refusal.
    ensures heard { IsAnswerHeard result (E.taken err.old) (E.taken err.new) (E.faults err.old) (E.faults err.new) }
{
    if is_part_call(words) {
        Answer::Part(answer_part_words(alloc, words, files, out, err))
    } else {
        Answer::Command(answer_command_words(rt, alloc, words, files, out, err, gate))
    }
}
