//! The numbers that words may be.

ghost use Rattle.std.specs.Prelude.{◌≡◌, ◌≤◌, ◌<◌, ◌-◌, ◌^◌, IfSome, option_map};
ghost use Rattle.flu_words.specs.Numbers.{number_of, depth_of, rows_of, seed_of, draws_of};

/// The most digits that a number may have.
const MOST_DIGITS: usize = 10;

/// The most levels below its root that a plan may have.
const MOST_LEVELS: u32 = 6;

/// The most rows of each source that may make a round.
const MOST_ROWS: u32 = 4096;

/// The greatest seed.
const GREATEST_SEED: u32 = 2_147_483_647;

/// The most events that a demo may draw.
const MOST_DRAWS: u32 = 1_000_000;

/// The depth that a plan may have: how many levels its nodes may have below the root, at most 6.
#[derive(Clone, Copy, Debug)]
pub struct Depth {
    pub levels: u32,
    pub ghost at_most: { levels ≤ 6 },
}

/// The depth of a plan if no depth is given: three levels below its root.
pub const USUAL_DEPTH: Depth = Depth { levels: 3 };

/// How many rows of each source make a round, 1 to 4,096: a round is ready as soon as each source that is open has as many settled rows.
#[derive(Clone, Copy, Debug)]
pub struct Rows {
    pub count: u32,
    pub ghost some: { 1 ≤ count },
    pub ghost at_most: { count ≤ 4096 },
}

/// How many rows make a round if no number is given: 4,096.
pub const USUAL_ROWS: Rows = Rows { count: MOST_ROWS };

/// The number that the draws of a schedule or of a demo begin with, below 2^31.
#[derive(Clone, Copy, Debug)]
pub struct Seed {
    pub number: u32,
    pub ghost small: { number < 2 ^ 31 },
}

/// How many events a demo draws, at most 1,000,000; its ticks are added to these.
#[derive(Clone, Copy, Debug)]
pub struct Draws {
    pub count: u32,
    pub ghost at_most: { count ≤ 1000000 },
}

/// The depth that the bytes of a word ask for: one to ten digits, of a number from 0 to 6.
pub(crate) fn depth_of(digits: &[u8]) -> Option<Depth>
    ensures { option_map (λ depth. depth.levels) result ≡ depth_of digits.now }
{
    let levels = number_of(MOST_LEVELS, digits)?;
    Some(Depth { levels })
}

/// How many rows of each source the bytes of a word ask for in a round: one to ten digits, of a number from 1 to 4,096.
pub(crate) fn rows_of(digits: &[u8]) -> Option<Rows>
    ensures { option_map (λ rows. rows.count) result ≡ rows_of digits.now }
{
    let count = number_of(MOST_ROWS, digits)?;
    if count == 0 {
        return None;
    }
    Some(Rows { count })
}

/// The seed that the bytes of a word are: one to ten digits, of a number from 0 to 2,147,483,647.
pub(crate) fn seed_of(digits: &[u8]) -> Option<Seed>
    ensures { option_map (λ seed. seed.number) result ≡ seed_of digits.now }
{
    let number = number_of(GREATEST_SEED, digits)?;
    Some(Seed { number })
}

/// How many events of a demo the bytes of a word ask for: one to ten digits, of a number from 0 to 1,000,000.
pub(crate) fn draws_of(digits: &[u8]) -> Option<Draws>
    ensures { option_map (λ draws. draws.count) result ≡ draws_of digits.now }
{
    let count = number_of(MOST_DRAWS, digits)?;
    Some(Draws { count })
}

// The number that one to ten digits write, if it is at most a limit.
#[tactic(auto, unfolding(crate::specs::Numbers::number_of))]
fn number_of(limit: u32, digits: &[u8]) -> Option<u32>
    requires { limit < 2 ^ 32 - 1 }
    ensures value { result ≡ number_of limit digits.now }
    ensures within { IfSome result (λ n. n ≤ limit) }
{
    if digits.is_empty() || digits.len() > MOST_DIGITS {
        return None;
    }
    let mut number = 0u32;
    for digit in digits {
        if !digit.is_ascii_digit() {
            return None;
        }
        number = number
            .saturating_mul(10)
            .saturating_add(u32::from(*digit - b'0'));
    }
    if number <= limit { Some(number) } else { None }
}
