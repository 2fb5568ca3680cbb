//! The rows of a file.

ghost use Rattle.std.specs.Prelude.{◌≡◌, ◌≢◌, ◌+◌, ◌^◌, ◌++◌, List, ℕ, [], IfOk, IsErrOf, Err};
ghost use Rattle.csv.specs.Records.{fields_of};
ghost use Rattle.flu_outside.specs.Lines.{IsFound};
ghost use Rattle.flu_outside.specs.Outside.{WhereTold, Rose, SameCounts};
ghost use Rattle.flu_outside.specs.Taking.{TakesFrom, CountsOf, IsReadOut};
ghost use Rattle.flu_rows.specs.LoopFields.{StartsWithRow};
ghost use Rattle.flu_rows.specs.Lines.{IsUndecided, LineInRange};
ghost use Rattle.flu_rows.specs.Row.{IsInRange};
ghost use Rattle.flu_rows.specs.Reading.{ahead, front_of, then_behind, read_bytes, NextInRange, CountsLines, OnDone};
ghost use Rattle.flu_rows.specs.LoopSteps.{step_of, row_step, step_behind, BeginsWith, StepInRange, StepCounts, StepOnDone, ReadsStep};

use crate::front::row_at_front;
use crate::last_name::LastName;
use crate::line::{LONGEST_LINE, Line, line_of, line_of_record};
use crate::row::{Row, RowForm};
use crate::run::Run;
use csv::ByteRecord;
use flu_model::Text;
use flu_outside::{Files, Found, LineBuffer, TakeFault};
use std::alloc::{AllocError, Global};
use std::marker::Model;

/// What comes next in a file. Lines count from 1.
#[derive(Drop)]
pub enum Next {
    /// A row, and the number of its line.
    Row { line: u32, row: Row },
    /// A line that is no row.
    Bad { line: u32 },
    /// A line with the number 4,294,967,296.
    TooManyLines,
    /// The end of the file, and how many lines it has.
    Done { lines: u32 },
}

/// What one line gives.
#[derive(Drop)]
enum Step {
    /// It is blank.
    Skip,
    Give(Next),
}

/// The rows of a file, read from its front, a line at a time.
///
/// Contracts see its position (`Place` of `specs/Reading.antt`).
#[derive(Drop)]
pub struct Rows {
    form: RowForm,
    file: Text,
    hold: Hold,
}

impl Model for Rows {
    ghost use Rattle.std.specs.Prelude.{◌++◌};
    ghost use Rattle.flu_rows.specs.Reading.{Place};

    ghost Value = { Place };

    ghost view = { λ r. record { form = r.form; file = r.file; taken = r.hold.run ++ r.hold.held; lines = r.hold.lines } };
}

impl Rows {
    /// The rows of this form, which is shared, of a file of which nothing was read yet.
    pub fn new(alloc: Global, form: &RowForm, file: &Text) -> Result<Rows, AllocError>
        ensures { IfOk result (λ rows. rows ≡ front_of form.now file.now) }
    {
        let form = form.share()?;
        let file = Text::of(String::from_str(alloc, file.as_str())?);
        Ok(Rows {
            form,
            file,
            hold: Hold {
                alloc,
                row: ByteRecord::new(alloc),
                last: LastName::none(),
                run: Run::none(),
                held: LineBuffer::new(alloc),
                lines: 0,
            },
        })
    }

    /// Reads the next line that is not blank. A byte order mark may be at the front of the first line; a later line that
    /// begins with one is bad.
    ///
    /// Nothing useful is promised of a call after one that answered anything but a row.
    pub fn next_row<F: Files>(&mut self, files: &mut F) -> Result<Next, TakeFault>
        // What was still to be read is what comes next, and after it what is still to be read now.
        ensures told { IfOk result (λ next. WhereTold (F.left files.old) (F.left files.new)
            (λ old new. ahead self.old old ≡ then_behind next (ahead self.new new))) }
        ensures end { IfOk result (λ next. OnDone next (IsReadOut self.old.file (F.left files.new))) }
        ensures range { IfOk result NextInRange }
        ensures lines { IfOk result (CountsLines self.old.lines self.new.lines) }
        ensures same { self.new.file ≡ self.old.file }
        ensures form { self.new.form ≡ self.old.form }

        // It only takes bytes from the front of its file, and a read fault has its cause there: no other answer comes after
        // a take that failed.
        ensures taken { WhereTold (F.left files.old) (F.left files.new) (TakesFrom self.old.file) }
        ensures counts { CountsOf (F.left files.old) self.old.file (F.faults files.old) (F.faults files.new) }
        ensures quiet { result ≢ Err TakeFault.Failed → SameCounts (F.faults files.old) (F.faults files.new) }
        ensures puts { SameCounts (F.put_faults files.old) (F.put_faults files.new) }
        ensures cause { IsErrOf result TakeFault.Failed → Rose (F.faults files.old self.old.file) (F.faults files.new self.old.file) }

        // A read fault is only reported if it hides nothing that was taken: all that was still to be read still is, and what was
        // taken and not read has no line feed, and no more bytes than a line may have.
        ensures kept { IsErrOf result TakeFault.Failed → WhereTold (F.left files.old) (F.left files.new)
            (λ old new. ahead self.old old ≡ ahead self.new new) }
        ensures undecided { IsErrOf result TakeFault.Failed → IsUndecided self.new.taken }
    {
        loop {
            match self.hold.read_line(&self.form, self.file.as_str(), files)? {
                Step::Skip => {}
                Step::Give(next) => return Ok(next),
            }
        }
    }
}

/// What is held of a file: a run of lines, the bytes after it, how many lines were read, a record to read into, and the last name.
#[derive(Drop)]
struct Hold {
    alloc: Global,
    row: ByteRecord,
    last: LastName,
    run: Run,
    held: LineBuffer,
    lines: u32,
}

impl Hold {
    // Reads one line.
    fn read_line<F: Files>(
        &mut self,
        form: &RowForm,
        file: &str,
        files: &mut F,
    ) -> Result<Step, TakeFault>
        ensures told { IfOk result (λ step. WhereTold (F.left files.old) (F.left files.new)
            (ReadsStep form.now file.now self.old.lines (self.old.run ++ self.old.held) self.new.lines (self.new.run ++ self.new.held) step)) }
        ensures end { IfOk result (λ step. StepOnDone step (IsReadOut file.now (F.left files.new))) }
        ensures range { IfOk result StepInRange }
        ensures lines { IfOk result (StepCounts self.old.lines self.new.lines) }
        ensures taken { WhereTold (F.left files.old) (F.left files.new) (TakesFrom file.now) }
        ensures counts { CountsOf (F.left files.old) file.now (F.faults files.old) (F.faults files.new) }
        ensures quiet { result ≢ Err TakeFault.Failed → SameCounts (F.faults files.old) (F.faults files.new) }
        ensures puts { SameCounts (F.put_faults files.old) (F.put_faults files.new) }
        ensures cause { IsErrOf result TakeFault.Failed → Rose (F.faults files.old file.now) (F.faults files.new file.now) }
        ensures kept { IsErrOf result TakeFault.Failed → WhereTold (F.left files.old) (F.left files.new)
            (ReadsStep form.now file.now self.old.lines (self.old.run ++ self.old.held) self.new.lines (self.new.run ++ self.new.held) Step.Skip) }
        ensures undecided { IsErrOf result TakeFault.Failed → IsUndecided (self.new.run ++ self.new.held) }
    {
        let Ok(found) = self.run.next(&mut self.row) else {
            return Err(TakeFault::NoMemory);
        };
        if found {
            return Ok(step_of_row(form, &mut self.last, &self.row, &mut self.lines));
        }
        if let Some((row, size)) = row_at_front(form, &mut self.last, self.held.bytes()) {
            return Ok(self.take_row(form, row, size));
        }
        let found = self.held.fill(LONGEST_LINE, file, files)?;
        if let Found::End = found {
            return Ok(Step::Give(Next::Done { lines: self.lines }));
        }
        self.read_held(form, found)
    }

    // Takes the row that was found at the front of the bytes that are held, and this many bytes with it.
    fn take_row(&mut self, form: &RowForm, row: Row, size: usize) -> Step
        requires found { StartsWithRow form.now self.old.held row size }
        requires range { IsInRange row }
        requires none { self.old.run ≡ [] }
        ensures told { (coming : List ℕ) → read_bytes form.now self.old.lines (self.old.held ++ coming) ≡ step_behind result
            (read_bytes form.now self.new.lines (self.new.run ++ self.new.held ++ coming)) }
        ensures end { StepOnDone result ⊥ }
        ensures range { StepInRange result }
        ensures lines { StepCounts self.old.lines self.new.lines result }
    {
        if self.lines == u32::MAX {
            return Step::Give(Next::TooManyLines);
        }
        self.lines += 1;
        self.held.drop_front(size);
        Step::Give(Next::Row {
            line: self.lines,
            row,
        })
    }

    // Reads the line at the front of the bytes that are held.
    fn read_held(&mut self, form: &RowForm, found: Found) -> Result<Step, TakeFault>
        requires found { IsFound 4096 self.old.held found }
        requires some { found ≢ Found.End }
        requires none { self.old.run ≡ [] }
        ensures told { IfOk result (λ step. (coming : List ℕ) → (found ≡ Found.Last → coming ≡ [])
            → read_bytes form.now self.old.lines (self.old.held ++ coming) ≡ step_behind step (read_bytes form.now self.new.lines (self.new.run ++ self.new.held ++ coming))) }
        ensures end { IfOk result (λ step. StepOnDone step ⊥) }
        ensures range { IfOk result StepInRange }
        ensures lines { IfOk result (StepCounts self.old.lines self.new.lines) }
        ensures cause { result ≢ Err TakeFault.Failed }
    {
        if let Some((row, size)) = row_at_front(form, &mut self.last, self.held.bytes()) {
            return Ok(self.take_row(form, row, size));
        }
        let Ok(run) = Run::take(self.alloc, &mut self.held) else {
            return Err(TakeFault::NoMemory);
        };
        self.run = run;
        let Ok(again) = self.run.next(&mut self.row) else {
            return Err(TakeFault::NoMemory);
        };
        if again {
            return Ok(step_of_row(form, &mut self.last, &self.row, &mut self.lines));
        }
        if self.lines == u32::MAX {
            return Ok(Step::Give(Next::TooManyLines));
        }
        self.lines += 1;
        let Ok(line) = take_line(
            self.alloc,
            form,
            &mut self.last,
            self.lines,
            found,
            &mut self.held,
        ) else {
            return Err(TakeFault::NoMemory);
        };
        Ok(step_of(line, self.lines))
    }
}

// Removes the line that was found from the front.
fn take_line(
    alloc: Global,
    form: &RowForm,
    last: &mut LastName,
    number: u32,
    found: Found,
    held: &mut LineBuffer,
) -> Result<Line, AllocError>
    requires found { IsFound 4096 held.old found }
    requires some { found ≢ Found.End }
    ensures line { IfOk result
        (λ line. (coming : List ℕ) → (found ≡ Found.Last → coming ≡ []) → BeginsWith form.now number line held.old held.new coming) }
    ensures range { IfOk result LineInRange }
{
    match found {
        Found::Line(len) => {
            let line = line_of(alloc, form, last, number, &held.bytes()[..len])?;
            held.drop_front(len + 1);
            Ok(line)
        }
        Found::Last => {
            let line = line_of(alloc, form, last, number, held.bytes())?;
            held.drop_front(held.bytes().len());
            Ok(line)
        }
        Found::TooLong => Ok(Line::Bad),
        Found::End => unreachable!(),
    }
}

// What a line with this record gives, which is one more.
fn step_of_row(form: &RowForm, last: &mut LastName, row: &ByteRecord, lines: &mut u32) -> Step
    ensures value { result ≡ row_step form.now lines.old (fields_of row.now) }
    ensures range { StepInRange result }
    ensures lines { StepCounts lines.old lines.new result }
    ensures counts { lines.old + 1 ≢ 2 ^ 32 → lines.new ≡ lines.old + 1 }
    ensures end { StepOnDone result ⊥ }
{
    if *lines == u32::MAX {
        return Step::Give(Next::TooManyLines);
    }
    *lines += 1;
    step_of(line_of_record(form, last, row), *lines)
}

// What the line of this number gives.
fn step_of(line: Line, number: u32) -> Step
    ensures value { result ≡ step_of line number }
    ensures range { LineInRange line → StepInRange result }
    ensures end { StepOnDone result ⊥ }
{
    match line {
        Line::Blank => Step::Skip,
        Line::Bad => Step::Give(Next::Bad { line: number }),
        Line::Row(row) => Step::Give(Next::Row { line: number, row }),
    }
}
