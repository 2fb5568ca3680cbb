//! What seeds draw: numbers, lines of a text, and the times of rows that come late.

ghost use Rattle.std.specs.Prelude.{◌<◌, ◌^◌};

use crate::inputs::Input;
use flu_draw::{draw_of, next_draw};
use std::alloc::{AllocError, Global};

/// The numbers that a seed draws, one after another.
#[derive(Drop)]
pub struct Draws {
    last: u32,
    ghost small: { last < 2 ^ 31 },
}

impl Draws {
    /// The draws of a seed.
    pub fn of(seed: u32) -> Draws
        requires { seed < 2 ^ 31 }
    {
        Draws { last: seed }
    }

    /// A number below another one; 0 if that is 0.
    pub fn below(&mut self, most: u32) -> u32 {
        self.last = next_draw(self.last);
        draw_of(self.last).checked_rem(most).unwrap_or(0)
    }

    /// One of the lines of a text.
    pub fn line<'a>(&mut self, text: &'a str) -> &'a str {
        let lines = u32::try_from(text.lines().count()).unwrap_or(0);
        text.lines().nth(self.below(lines) as usize).unwrap_or(text)
    }
}

/// A job and the rows of its sources, as a seed draws them.
#[derive(Drop)]
pub struct Drawn {
    pub job: String,
    pub a: String,
    pub b: String,
    pub c: String,
}

impl Drawn {
    /// The job and its rows, borrowed.
    pub fn input(&self) -> Input<'_> {
        Input {
            job: self.job.as_str(),
            a: self.a.as_str(),
            b: self.b.as_str(),
            c: self.c.as_str(),
        }
    }
}

/// The times of a source's rows, in this many stretches, each of which goes back in time, no further than the slack allows.
pub fn times(
    alloc: Global,
    draws: &mut Draws,
    stretches: u32,
    slack: u32,
) -> Result<Vec<u32>, AllocError> {
    let mut times = Vec::new(alloc);
    let mut time = 0u32;
    for _ in 0..stretches {
        let width = draws.below(slack.max(1)).wrapping_add(1);
        for later in 0..width {
            times.push(time.wrapping_add(width).wrapping_sub(later))?;
        }
        time = time.wrapping_add(width).wrapping_add(draws.below(4));
    }
    Ok(times)
}
