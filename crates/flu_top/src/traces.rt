//! The trace of the run that a seed draws, as text (`docs/TREE.md`, "Traces").

ghost use Rattle.std.specs.Prelude.{◌≡◌, ◌<◌, ◌^◌, IfOk};
ghost use Rattle.std.specs.List.{All};
ghost use Rattle.flu_live.specs.Seeded.{IsSeeded};
ghost use Rattle.flu_trace.specs.Lines.{number_of};
ghost use Rattle.flu_command.specs.Simulating.{IsTraceIn, lines_of_steps};

use flu_fork::Case;
use flu_lines::DrawnSteps;
use flu_live::{TracedRun, trace};
use flu_model::Text;
use flu_net::Step;
use flu_trace::step_line;
use std::alloc::{AllocError, Global};

/// The lines of the steps that a seed draws on the net of a case, each with a line feed, and how many of each kind these steps are,
/// with their mark.
pub fn trace_text(alloc: Global, case: &Case, seed: u32) -> Result<(Text, DrawnSteps), AllocError>
    requires { seed < 2 ^ 31 }
    ensures text { IfOk result (λ both. IsTraceIn case.now seed both.0) }
    ensures drawn { IfOk result (λ both. IsSeeded case.now seed both.1.counts both.1.mark) }
{
    let run = trace(alloc, case, seed)?;
    let TracedRun {
        steps,
        counts,
        mark,
    } = run;
    let text = lines_of(alloc, steps.as_slice())?;
    Ok((text, DrawnSteps { counts, mark }))
}

// The lines of some steps, each with a line feed.
fn lines_of(alloc: Global, steps: &[Step]) -> Result<Text, AllocError>
    requires { All (λ s. number_of s < 1000) steps.now }
    ensures { IfOk result (λ text. text ≡ lines_of_steps steps.now) }
{
    let mut text = String::new(alloc);
    for step in steps {
        let line = step_line(alloc, *step)?;
        text.push_str(line.as_str())?;
        text.push_str("\n")?;
    }
    Ok(Text::of(text))
}
