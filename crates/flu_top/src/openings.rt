//! What a run starts from: the first row and the empty state, or a checkpoint.

ghost use Rattle.std.specs.Prelude.{◌≡◌, ◌≢◌, ◌≤◌, ℕ, List, Option, Some, None, Err, option_map, IfOk, IfErr, IfSome};
ghost use Rattle.flu_outside.specs.Outside.{WhereTold, SameCounts};
ghost use Rattle.flu_outside.specs.Taking.{TookFronts};
ghost use Rattle.flu_streams.specs.Files.{LeavesOthers};
ghost use Rattle.flu_words.specs.Words.{Run, plain_options};
ghost use Rattle.flu_top.specs.Running.{IsOpening, IsOpened, IsOpeningRefusal, plain_opening};
ghost use Rattle.flu_command.specs.Starting.{AreNoSources, IsFileOf, IsNoSource, IsSameName};
ghost use Rattle.flu_command.specs.Wants.{if_named};

use flu_cells::State;
use flu_lines::Refusal;
use flu_model::Program;
use flu_outside::{Files, read_whole};
use flu_save::read_save;
use flu_words::{Rows, RunOptions};
use std::alloc::Global;

// The most bytes that a checkpoint has.
const MOST_BYTES: usize = 536_870_912;

/// What a run starts from.
#[derive(Drop)]
pub struct Opening {
    /// The border above which it is resumed, if it is.
    pub border: Option<u64>,
    /// What the cells hold then.
    pub state: State,
    /// How many rows of each source make a round.
    pub rows: Rows,
}

/// The opening of a run in rounds of a number of rows: fresh, or what the checkpoint under a name holds.
pub fn opening_of<F: Files>(
    alloc: Global,
    files: &mut F,
    program: &Program,
    resume: Option<&str>,
    rows: Rows,
) -> Result<Opening, Refusal>
    ensures opening { IfOk result (λ o. IsOpening program.now (plain_opening o)) }
    ensures opened { IfOk result (λ o. WhereTold (F.left files.old) (F.left files.new)
        (IsOpened rows.count (option_map (λ name. name.now) resume.entry) program.now (plain_opening o))) }
    ensures refused { IfErr result (IsOpeningRefusal (option_map (λ name. name.now) resume.entry) program.now (F.left files.old) (F.left files.new)
        (F.faults files.old) (F.faults files.new)) }
    ensures fronts { WhereTold (F.left files.old) (F.left files.new) TookFronts }
    ensures others { WhereTold (F.left files.old) (F.left files.new) (LeavesOthers (if_named (option_map (λ name. name.now) resume.entry))) }
    ensures counts { (n : List ℕ) → F.faults files.old n ≤ F.faults files.new n }
    ensures quiet { result ≢ Err Refusal.ReadFault → SameCounts (F.faults files.old) (F.faults files.new) }
    ensures puts { SameCounts (F.put_faults files.old) (F.put_faults files.new) }
{
    match resume {
        None => Ok(Opening {
            border: None,
            state: State::new(alloc),
            rows,
        }),
        Some(name) => resumed(alloc, files, program, name, rows),
    }
}

// What the checkpoint under a name holds.
fn resumed<F: Files>(
    alloc: Global,
    files: &mut F,
    program: &Program,
    name: &str,
    rows: Rows,
) -> Result<Opening, Refusal>
    ensures opening { IfOk result (λ o. IsOpening program.now (plain_opening o)) }
    ensures opened { IfOk result (λ o. WhereTold (F.left files.old) (F.left files.new) (IsOpened rows.count (Some name.now) program.now
        (plain_opening o))) }
    ensures refused { IfErr result (IsOpeningRefusal (Some name.now) program.now (F.left files.old) (F.left files.new) (F.faults files.old)
        (F.faults files.new)) }
    ensures fronts { WhereTold (F.left files.old) (F.left files.new) TookFronts }
    ensures others { WhereTold (F.left files.old) (F.left files.new) (LeavesOthers (if_named (Some name.now))) }
    ensures counts { (n : List ℕ) → F.faults files.old n ≤ F.faults files.new n }
    ensures quiet { result ≢ Err Refusal.ReadFault → SameCounts (F.faults files.old) (F.faults files.new) }
    ensures puts { SameCounts (F.put_faults files.old) (F.put_faults files.new) }
{
    let bytes = read_whole(alloc, files, name, MOST_BYTES)?;
    let saved = read_save(alloc, program, &bytes)?;
    Ok(Opening {
        border: Some(saved.border),
        state: saved.state,
        rows,
    })
}

/// The source whose file has the name that a run saves to; or else the name that it is resumed from.
pub fn same_name(program: &Program, options: RunOptions<'_>) -> Option<u32>
    ensures found { IfSome result (λ number. (job : List ℕ) (plan : Option (List ℕ))
        → IsSameName (Run job plan (plain_options options.entry)) program.now number) }
    ensures none { result ≡ None → (job : List ℕ) (plan : Option (List ℕ)) → AreNoSources (Run job plan (plain_options options.entry)) program.now }
{
    match source_with(program, options.save) {
        Some(number) => Some(number),
        None => source_with(program, options.resume),
    }
}

// The source whose file has a name, if there is one.
fn source_with(program: &Program, name: Option<&str>) -> Option<u32>
    ensures found { IfSome result (IsFileOf (option_map (λ n. n.now) name.entry) program.now) }
    ensures none { result ≡ None → IsNoSource (option_map (λ n. n.now) name.entry) program.now }
{
    let name = name?;
    let number = program.sources.items().iter().position(|source| source.every.is_none()
        && source.file.as_str() == name)?;
    Some(number as u32)
}
