//! Draws: the run of numbers that a seed determines, by which a simulation takes its steps and a demo makes its events.
#![tactic(auto)]

ghost use Rattle.std.specs.Prelude.{◌≡◌, ◌^◌, ◌<◌};
ghost use Rattle.flu_draw.specs.Draws.{next_draw, draw_of};

/// The number after x in the sequence, below 2^31; the first one comes after the seed.
pub fn next_draw(x: u32) -> u32
    requires { x < 2 ^ 31 }
    ensures value { result ≡ next_draw x }
    ensures small { result < 2 ^ 31 }
{
    ((u64::from(x) * 1_103_515_245 + 12_345) % 2_147_483_648) as u32
}

/// What a number of the run draws: a number below 2^15, of its upper bits.
pub fn draw_of(x: u32) -> u32
    requires { x < 2 ^ 31 }
    ensures value { result ≡ draw_of x }
    ensures small { result < 2 ^ 15 }
{
    x / 65_536
}
