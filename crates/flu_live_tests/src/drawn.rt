//! Streams that seeds draw.

ghost use Rattle.std.specs.Prelude.{◌^◌, ◌<◌};

use crate::stages::MEMORY;
use flu_draw::{draw_of, next_draw};
use flu_outside::MemFiles;
use std::alloc::Global;
use std::process::Abort;

/// The sources of a job, each with its file's name, the tag of its rows, and whether these have values.
pub type Tagged = &'static [(&'static str, &'static str, bool)];

/// The numbers that a seed draws, one after another.
#[derive(Drop)]
pub struct Draws {
    last: u32,
    ghost small: { last < 2 ^ 31 },
}

impl Draws {
    /// The draws of a seed.
    pub fn of(seed: u32) -> Draws
        requires { seed < 2 ^ 31 }
    {
        Draws { last: seed }
    }

    /// A number below another one; 0 if that is 0.
    pub fn below(&mut self, most: u32) -> u32 {
        self.last = next_draw(self.last);
        draw_of(self.last).checked_rem(most).unwrap_or(0)
    }
}

/// Up to seven rows of a source, of which one in six is a beat, with up to three instants in between, and its end.
fn rows(rt: &impl Abort, alloc: Global, draws: &mut Draws, tag: &str, valued: bool) -> String {
    let mut text = String::new(alloc);
    let mut time = 0u32;
    for _ in 0..draws.below(8) {
        time = time.wrapping_add(1).wrapping_add(draws.below(4));
        let value = draws.below(100);
        let pushed = match draws.below(6) {
            0 => write!(text, "{time},beat\n"),
            _ if valued => write!(text, "{time},{tag},{value}\n"),
            _ => write!(text, "{time},{tag}\n"),
        };
        pushed.expect(rt, MEMORY);
    }
    text.push_str("end\n").expect(rt, MEMORY);
    text
}

/// The files of some sources, with the rows that a seed draws.
pub fn drawn_files(rt: &impl Abort, alloc: Global, sources: Tagged, seed: u32) -> MemFiles
    requires { seed < 2 ^ 31 }
{
    let mut draws = Draws::of(seed);
    let mut files = MemFiles::new(alloc);
    for (name, tag, valued) in sources {
        let text = rows(rt, alloc, &mut draws, tag, *valued);
        let bytes = text.as_bytes().to_vec(alloc).expect(rt, MEMORY);
        files.add(name, bytes).expect(rt, MEMORY);
    }
    files
}
