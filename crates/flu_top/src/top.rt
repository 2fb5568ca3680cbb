//! The top call.

ghost use Rattle.std.specs.Prelude.{◌≡◌, ◌≢◌, ◌⊎◌, Err, map, string_bytes};
ghost use Rattle.flu_outside.specs.Outside.{WhereTold, SameCounts};
ghost use Rattle.flu_command.specs.Taking.{TookOnly, TookFrontsBut};
ghost use Rattle.flu_command.specs.Done.{IsReadBy, MayBePut};
ghost use Rattle.flu_lines.specs.Answer.{code_after, IsHeard};
ghost use Rattle.flu_top.specs.Ending.{call, Ends};
ghost use Rattle.flu_top.specs.Outcome.{outside, faults, Outcome, ReadOnly, FaultsFirst, HidesNothing, Completes};

use crate::commands::run;
use flu_command::calling::{files_call_for_one_status, what_ends_a_command_is_called_for};
use flu_lines::{Done, Refusal, say, say_done, status_after};
use flu_outside::{Files, Sink};
use flu_seq::Gate;
use flu_words::read_words;
use std::alloc::Global;
use std::sync::Wait;
use std::thread::Threads;

/// Does what the words after the program's name say, and answers the status.
///
/// `fold JOB` reads the job in the file of that name and then its sources, folds their events in order and writes the
/// report to `out`. `check JOB` reads only the job, which has to be accepted, and writes it in normal form. `valid JOB
/// PLAN` reads such a job and then a plan, which has to be valid for it, and writes the plan in normal form. `plan JOB
/// [--depth D]` reads only such a job and writes the greedy plan of all its itags, by the rates of its sources, with at
/// most D levels below the root: 0 to 6, and 3 if no depth is given. `run JOB [PLAN | --depth D] [--round ROWS]` reads
/// such a job and a plan that is valid for it, if one is named. It reads the sources in rounds, of ROWS rows of each
/// source or more, 1 to 4,096, and 4,096 if no number is given, runs the events of each round, and writes the report of
/// the fold, round by round. By a plan each round is run on a thread for each node; otherwise on a tree of threads of
/// at most that depth if the round's own counts say that this pays, or else it is folded. With `--save FILE` it puts a
/// checkpoint under that name after each round, and with `--resume FILE` it continues from such a checkpoint: it runs
/// the events above its border, from its state. `--unflushed` after `--save FILE` changes nothing here: it is for the
/// caller, whose `files` may leave their flushes out. With `--adapt` each round after the first runs by the greedy plan
/// of depth 3 of the events counted so far, if a plan is named, and the greedy plan of depth 3 of all events of the run
/// is printed on `err` at the end. `simulate JOB PLAN SEED` reads such a job, a plan that is valid for it and the
/// sources, runs the events on the net of the plan by the steps that the seed draws, writes the report of the fold, and
/// then prints on `err` how many steps of each kind there were, with their mark; with `--trace` after the seed it
/// writes the trace of that run, its steps line by line, in place of the report. `replay JOB PLAN TRACE` reads the same
/// and then a trace, runs the events on the net by its steps, and writes the report of the fold. `demo N SEED` reads no
/// file: it runs the job of a demo, as `run` does, over N events that the seed draws and the ticks of a clock, and
/// writes how many events there were and how many lines and bytes their report has. Status 0: all was written.
/// Otherwise the line of the answer goes to `err`, and a failure of `err` changes no status: 2 for words that are not a
/// command, 3 for a job text with a fault, 4 for a job that is not accepted, 5 for a plan text with a fault or a plan
/// that is not valid, 6 for a source with a defect, 7 if a file that was read failed, 8 if `out` failed, 9 if memory
/// ran out, 11 for a name of a checkpoint that is a source's file, or a checkpoint with a fault, 12 if a checkpoint
/// could not be put, 13 for a trace with a bad line, with a step that is not enabled at its place, or with too few
/// steps. If `run` is stopped, at 6 to 9 and 12, `out` may have what the rounds until then wrote. `docs/LANGUAGE.md`
/// has the forms and the lines, and `docs/TRUST.md` what has to be believed.
///
/// Each worker of a run passes the gate before and after each of its updates. Only `run` and `demo` start threads, and
/// wait for them: what is said here holds if the call returns. If a thread is refused, the plain fold runs the batch in
/// its place, on the calling thread.
///
/// No clause says that the gate is passed, nor that the fold steps in: a body that left the gate out, or that answered 9
/// if a thread is refused, would be proved. Only tests show the gate, `two_workers_meet_in_their_updates` and
/// `all_workers_of_a_level_meet_in_their_updates` in `flu_top_tests::calls::gates`, and `each_event_is_handled_by_its_owner`
/// in `flu_top_tests::calls::owners`. `the_backup_runs_a_batch_as_the_fold_does` in `flu_round_tests::backups` shows what
/// steps in, by calling it; no test refuses a thread.
pub fn flumina<F: Files, K: Sink, E: Sink, G: Gate, R: Threads + Wait + Sync>(
    rt: &R,
    alloc: Global,
    words: &[String],
    files: &mut F,
    out: &mut K,
    err: &mut E,
    gate: &G,
) -> u8
    // What the status says about the words, about what the files held and hold, and about what out and err got.
    ensures outcome { Outcome (map string_bytes words.now)
        (outside (F.left files.old) (K.taken out.old) (E.taken err.old) (E.faults err.old))
        (outside (F.left files.new) (K.taken out.new) (E.taken err.new) (E.faults err.new)) result }

    // Bytes are taken from the front of names, and of no name that the call does not read, except for one that it puts.
    ensures read { ReadOnly (map string_bytes words.now) (F.left files.old) (F.left files.new) result }

    // Status 7 comes only if the count of a name that the call reads rose, status 8 only if out's did, and status 12 only
    // if the count of puts of the name that it saves to did. At each other status no such count has changed: a failure ends
    // the call.
    ensures faults { FaultsFirst (map string_bytes words.now) (F.left files.old)
        (faults (F.faults files.old) (F.put_faults files.old) (K.faults out.old))
        (faults (F.faults files.new) (F.put_faults files.new) (K.faults out.new)) result }

    // A read fault hides nothing: no fault was met in what was taken. A text is judged once it is whole, and was not too long yet.
    ensures hides { HidesNothing (map string_bytes words.now) (F.left files.old) (F.left files.new)
        (faults (F.faults files.old) (F.put_faults files.old) (K.faults out.old))
        (faults (F.faults files.new) (F.put_faults files.new) (K.faults out.new)) result }

    // If none rose, the status is the one that the command and its files call for, or 9.
    ensures completes { Completes (map string_bytes words.now) (F.left files.old)
        (faults (F.faults files.old) (F.put_faults files.old) (K.faults out.old))
        (faults (F.faults files.new) (F.put_faults files.new) (K.faults out.new)) result }
{
    let ended = answer_words(rt, alloc, words, files, out, err, gate);
    status_after(&ended).code()
}

/// Does what the words after the program's name say, as `flumina` does, and answers why it was not done, or what is said of it, as a value.
///
/// All that `flumina` says of its status holds of the number of the status of that value, and `err` got its line: `status_after` has the status,
/// and `say` and `say_done` have said the line.
pub fn answer_words<F: Files, K: Sink, E: Sink, G: Gate, R: Threads + Wait + Sync>(
    rt: &R,
    alloc: Global,
    words: &[String],
    files: &mut F,
    out: &mut K,
    err: &mut E,
    gate: &G,
) -> Result<Done, Refusal>
    ensures outcome { Outcome (map string_bytes words.now)
        (outside (F.left files.old) (K.taken out.old) (E.taken err.old) (E.faults err.old))
        (outside (F.left files.new) (K.taken out.new) (E.taken err.new) (E.faults err.new)) (code_after result) }
    ensures read { ReadOnly (map string_bytes words.now) (F.left files.old) (F.left files.new) (code_after result) }
    ensures faults { FaultsFirst (map string_bytes words.now) (F.left files.old)
        (faults (F.faults files.old) (F.put_faults files.old) (K.faults out.old))
        (faults (F.faults files.new) (F.put_faults files.new) (K.faults out.new)) (code_after result) }
    ensures hides { HidesNothing (map string_bytes words.now) (F.left files.old) (F.left files.new)
        (faults (F.faults files.old) (F.put_faults files.old) (K.faults out.old))
        (faults (F.faults files.new) (F.put_faults files.new) (K.faults out.new)) (code_after result) }
    ensures completes { Completes (map string_bytes words.now) (F.left files.old)
        (faults (F.faults files.old) (F.put_faults files.old) (K.faults out.old))
        (faults (F.faults files.new) (F.put_faults files.new) (K.faults out.new)) (code_after result) }
    ensures heard { IsHeard result (E.taken err.old) (E.taken err.new) (E.faults err.old) (E.faults err.new) }
{
    files_call_for_one_status();
    what_ends_a_command_is_called_for();
    let ended = do_words(rt, alloc, words, files, out, gate);
    tell(err, &ended);
    ended
}

// Does what the words say.
fn do_words<F: Files, K: Sink, G: Gate, R: Threads + Wait + Sync>(
    rt: &R,
    alloc: Global,
    words: &[String],
    files: &mut F,
    out: &mut K,
    gate: &G,
) -> Result<Done, Refusal>
    ensures ends { Ends (map string_bytes words.now) (call (F.left files.old) (F.left files.new) (F.faults files.old) (F.faults files.new)
        (F.put_faults files.old) (F.put_faults files.new) (K.taken out.old) (K.taken out.new) (K.faults out.old) (K.faults out.new)) result }
    ensures fronts { WhereTold (F.left files.old) (F.left files.new) (TookFrontsBut (MayBePut (map string_bytes words.now) (code_after result))) }
    ensures only { WhereTold (F.left files.old) (F.left files.new)
        (TookOnly (λ name. IsReadBy (map string_bytes words.now) (F.left files.old) name ⊎ MayBePut (map string_bytes words.now) (code_after result) name)) }
    ensures quiet { result ≢ Err Refusal.ReadFault → SameCounts (F.faults files.old) (F.faults files.new) }
    ensures puts { result ≢ Err Refusal.PutFault → SameCounts (F.put_faults files.old) (F.put_faults files.new) }
    ensures written_quiet { result ≢ Err Refusal.WriteFault → K.faults out.new ≡ K.faults out.old }
{
    match read_words(words) {
        Ok(command) => run(rt, alloc, files, out, command, gate),
        Err(bad) => Err(Refusal::BadWords(bad)),
    }
}

// Says on err what a call says that was done, or the line of the refusal.
fn tell<E: Sink>(err: &mut E, ended: &Result<Done, Refusal>)
    ensures { IsHeard ended.now (E.taken err.old) (E.taken err.new) (E.faults err.old) (E.faults err.new) }
{
    match ended {
        Ok(done) => match done.said() {
            None => (),
            Some(said) => say_done(err, said),
        },
        Err(refusal) => say(err, refusal),
    }
}
