//! Writing a line of a trace.

ghost use Rattle.std.specs.Prelude.{◌≡◌, ◌<◌, IfOk};
ghost use Rattle.flu_trace.specs.Lines.{line_of, number_of, side_text};

use flu_model::Text;
use flu_net::Step;
use flu_worker::Side;
use std::alloc::{AllocError, Global};

/// The line of a trace that says a step, without its line feed (`docs/TREE.md`, "Traces").
///
/// # Errors
///
/// Only if memory runs out.
pub fn step_line(alloc: Global, s: Step) -> Result<Text, AllocError>
    requires { number_of s < 1000 }
    ensures { IfOk result (λ line. line ≡ line_of s) }
{
    let line = match s {
        Step::Arrive(i) => format!(in alloc; "arrive {}", i.0)?,
        Step::Handle(w) => format!(in alloc; "handle {w}")?,
        Step::Ask(w, side) => format!(in alloc; "ask {w}{}", side_text(side))?,
        Step::Take(w, side) => format!(in alloc; "take {w}{}", side_text(side))?,
        Step::Give(w) => format!(in alloc; "give {w}")?,
        Step::Hold(w) => format!(in alloc; "hold {w}")?,
        Step::Lend(w, side) => format!(in alloc; "lend {w}{}", side_text(side))?,
    };
    Ok(Text::of(line))
}

// A side, with a blank before it.
fn side_text(side: Side) -> &'static str
    ensures { result.now ≡ side_text side }
{
    match side {
        Side::Left => " left",
        Side::Right => " right",
    }
}
