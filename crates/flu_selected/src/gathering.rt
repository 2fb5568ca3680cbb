//! Reading the sources of a job that are selected.

ghost use Rattle.std.specs.Prelude.{◌≡◌, ◌≢◌, ◌&&◌, not, is_none, List, ℕ, OnOk, IfOk, IfErr, IsErrOf, Err, length};
ghost use Rattle.flu_model.specs.Itags.{count_of_itags};
ghost use Rattle.flu_model.specs.Listed.{listed};
ghost use Rattle.flu_streams.specs.Clocks.{AreEarly};
ghost use Rattle.flu_outside.specs.Outside.{WhereTold, SameCounts};
ghost use Rattle.flu_outside.specs.Taking.{TookFronts};
ghost use Rattle.flu_streams.specs.Files.{files_of, OneRose};
ghost use Rattle.flu_selected.specs.Closed.{lines_in};
ghost use Rattle.flu_selected.specs.Laws.{closed_files};
ghost use Rattle.flu_selected.specs.Selecting.{whole_lines, is_among};
ghost use Rattle.flu_selected.specs.Gathering.{reads, HidesNone, ReadAreGood, AreReadLists, LeavesUnread, ReadAreOut, CountsOfRead, ReadRose, IsFirstReadFault};

use crate::closed::ClosedNames;
use crate::lent::Lent;
use crate::origin::Origin;
use crate::selected::Selected;
use flu_model::{Program, Source, Streams, Text};
use flu_outside::Files;
use flu_streams::{GatherFault, gather_beside};
use std::alloc::{AllocError, Global};
use std::marker::Brand;

/// The files of the sources of a job that are not read: `is_read` says by a source's number whether it is. A clock has no file.
pub fn closed_files(alloc: Global, p: &Program, is_read: &[bool]) -> Result<Vec<Text>, AllocError>
    ensures { IfOk result (λ names. names.items ≡ closed_files p.now (reads is_read.now)) }
{
    let mut names = Vec::new(alloc);
    for (number, source) in p.sources.items().iter().enumerate() {
        if is_closed(source, is_read, number) {
            let name = String::from_str(alloc, source.file.as_str())?;
            names.push(Text::of(name))?;
        }
    }
    Ok(names)
}

// Whether a source, which has this number, has a file that is not read.
fn is_closed(source: &Source, is_read: &[bool], number: usize) -> bool
    ensures { result ≡ (is_none source.now.every && not (reads is_read.now number)) }
{
    source.every.is_none() && !is_selected(is_read, number)
}

// Whether the source with a number is read.
fn is_selected(is_read: &[bool], number: usize) -> bool
    ensures { result ≡ reads is_read.now number }
{
    number < is_read.len() && is_read[number]
}

/// Reads each source of a job that is read to its end, as `flu_streams::gather` does, and no other: of these an itag has its end alone.
/// `is_read` says by a source's number whether it is read.
///
/// Clocks tick behind the rows that are read, and behind rows elsewhere: `beside` says where these stand, as `flu_streams::gather_beside` has it. A source
/// fault is the first defect of the first read source, as declared, that has one, or else that of the first clock with which the items are too many.
pub fn gather_selected<F: Files>(
    alloc: Global,
    p: &Program,
    is_read: &[bool],
    beside: &[u64],
    files: &mut F,
) -> Result<Streams, GatherFault>
    requires early { AreEarly p.now beside.now }
    ensures good { OnOk result (ReadAreGood p.now beside.now (reads is_read.now) (F.left files.old) (F.left files.new)) }
    ensures lists { IfOk result (AreReadLists p.now beside.now (reads is_read.now) (F.left files.old) (F.left files.new)) }
    ensures itags { IfOk result (λ streams. length (listed streams) ≡ count_of_itags p.now) }
    ensures read_out { OnOk result (ReadAreOut p.now (reads is_read.now) (F.left files.new)) }

    ensures fault { IfErr result (IsFirstReadFault p.now beside.now (reads is_read.now) (F.left files.old) (F.left files.new)) }

    // It only takes bytes from the front of the files of the sources that are read, and puts none; and a read fault has its cause there.
    ensures fronts { WhereTold (F.left files.old) (F.left files.new) TookFronts }
    ensures others { WhereTold (F.left files.old) (F.left files.new) (LeavesUnread p.now (reads is_read.now)) }
    ensures counts { CountsOfRead p.now (reads is_read.now) (F.left files.old) (F.faults files.old) (F.faults files.new) }
    ensures quiet { result ≢ Err GatherFault.ReadFault → SameCounts (F.faults files.old) (F.faults files.new) }
    ensures puts { SameCounts (F.put_faults files.old) (F.put_faults files.new) }
    ensures hides { HidesNone result p.now (reads is_read.now) (F.left files.old) (F.left files.new) (F.faults files.old) (F.faults files.new) }
    ensures cause { IsErrOf result GatherFault.ReadFault → OneRose (files_of p.now.sources) (F.faults files.old) (F.faults files.new) }
    ensures read { IsErrOf result GatherFault.ReadFault → ReadRose p.now (reads is_read.now) (F.left files.old) (F.faults files.old) (F.faults files.new) }
{
    let Ok(names) = closed_files(alloc, p, is_read) else {
        return Err(GatherFault::NoMemory);
    };
    let Ok(closed) = ClosedNames::new(alloc, names.as_slice()) else {
        return Err(GatherFault::NoMemory);
    };
    let lent = Lent::new(files);
    let mut gathered = Err(GatherFault::NoMemory);
    let _ = gather_lent::<F, Brand>(alloc, p, is_read, beside, lent, closed, &mut gathered);
    gathered
}

// The same of files that are lent, and of which the files of the sources that are not read are closed. They come back alone: what a value
// that owns memory holds beside it of a reference is not known.
fn gather_lent<'f, F: Files, K: Origin>(
    alloc: Global,
    p: &Program,
    is_read: &[bool],
    beside: &[u64],
    lent: Lent<'f, F>,
    closed: ClosedNames,
    gathered: &mut Result<Streams, GatherFault>,
) -> Lent<'f, F>
    requires early { AreEarly p.now beside.now }
    requires reference { lent.files.ghost_name ≡ K.reference }
    requires names { (name : List ℕ) → is_among (closed_files p.now (reads is_read.now)) name ≡ K.is_closed name }
    requires left { F.left lent.files.now ≡ K.left }
    requires faults { F.faults lent.files.now ≡ K.faults }
    requires lines { lines_in closed ≡ whole_lines (closed_files p.now (reads is_read.now)) }
    ensures same_reference { result.files.ghost_name ≡ K.reference }
    ensures good { OnOk gathered.new (ReadAreGood p.now beside.now (reads is_read.now) K.left (F.left result.files.now)) }
    ensures lists { IfOk gathered.new (AreReadLists p.now beside.now (reads is_read.now) K.left (F.left result.files.now)) }
    ensures itags { IfOk gathered.new (λ streams. length (listed streams) ≡ count_of_itags p.now) }
    ensures read_out { OnOk gathered.new (ReadAreOut p.now (reads is_read.now) (F.left result.files.now)) }
    ensures fault { IfErr gathered.new (IsFirstReadFault p.now beside.now (reads is_read.now) K.left (F.left result.files.now)) }
    ensures fronts { WhereTold K.left (F.left result.files.now) TookFronts }
    ensures others { WhereTold K.left (F.left result.files.now) (LeavesUnread p.now (reads is_read.now)) }
    ensures counts { CountsOfRead p.now (reads is_read.now) K.left K.faults (F.faults result.files.now) }
    ensures quiet { gathered.new ≢ Err GatherFault.ReadFault → SameCounts K.faults (F.faults result.files.now) }
    ensures puts { SameCounts (F.put_faults lent.entry.files.now) (F.put_faults result.files.now) }
    ensures hides { HidesNone gathered.new p.now (reads is_read.now) K.left (F.left result.files.now) K.faults (F.faults result.files.now) }
    ensures cause { IsErrOf gathered.new GatherFault.ReadFault → OneRose (files_of p.now.sources) K.faults (F.faults result.files.now) }
    ensures read { IsErrOf gathered.new GatherFault.ReadFault → ReadRose p.now (reads is_read.now) K.left K.faults (F.faults result.files.now) }
{
    let mut selected: Selected<'f, F, K> = Selected::new(lent, closed);
    *gathered = gather_beside(alloc, p, beside, &mut selected);
    selected.into_lent()
}
