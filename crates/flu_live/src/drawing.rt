//! Places and marks of drawn steps.

ghost use Rattle.std.specs.Prelude.{◌≡◌, ◌^◌, ◌<◌};
ghost use Rattle.flu_live.specs.Seeded.{place_of, marked};

use flu_draw::draw_of;

/// The place, from 0, that a drawn number selects among this many steps.
#[tactic(auto, unfolding(crate::specs::Seeded::place_of))]
pub fn place_of(x: u32, count: usize) -> usize
    requires some { 0 < count }
    requires small { x < 2 ^ 31 }
    ensures value { result ≡ place_of x count }
    ensures there { result < count }
    ensures small { result < 65536 }
{
    draw_of(x) as usize % count
}

/// The mark, after the step at a place was made.
pub fn marked(mark: u32, place: usize) -> u32
    requires { place < 65536 }
    ensures { result ≡ marked mark place }
{
    ((u64::from(mark) * 33 + place as u64) % 4_294_967_296) as u32
}
