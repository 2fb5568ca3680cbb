//! The jobs of the folder `examples`, under `fold`, `run`, `simulate`, `check` and `valid`.

mod fraud;
mod paths;
mod rides;
mod trades;
mod views;

use super::scripts::play;
use std::test::Fail;

#[test]
fn rides_of_a_bicycle_hire(rt: HostRuntime) -> Result<(), Fail> {
    play(&rt, rt.alloc(), rides::SCRIPT)
}

#[test]
fn views_that_read_the_fee_of_their_page(rt: HostRuntime) -> Result<(), Fail> {
    play(&rt, rt.alloc(), views::SCRIPT)
}

#[test]
fn payments_beside_the_window_before(rt: HostRuntime) -> Result<(), Fail> {
    play(&rt, rt.alloc(), fraud::SCRIPT)
}

#[test]
fn trades_at_the_last_quote(rt: HostRuntime) -> Result<(), Fail> {
    play(&rt, rt.alloc(), trades::SCRIPT)
}

#[test]
fn requests_by_path(rt: HostRuntime) -> Result<(), Fail> {
    play(&rt, rt.alloc(), paths::SCRIPT)
}
