//! The events of a demo.

ghost use Rattle.std.specs.Prelude.{◌≡◌, ◌≤◌, ◌<◌, ◌^◌, IfOk};
ghost use Rattle.flu_gen.specs.DemoStreams.{drawn_event, drawn_events, itag_drawn};

use flu_draw::{draw_of, next_draw};
use flu_model::{Event, Itag};
use std::alloc::{AllocError, Global};

/// The itag of the app's first view; the views of the web begin with itag 0.
const APP_VIEWS: u32 = 10;

/// The itag of the app's first update.
const APP_UPDATES: u32 = 20;

/// The events that a seed draws at the times from 1 to n.
pub(crate) fn drawn_events(alloc: Global, n: u32, seed: u32) -> Result<Vec<Event>, AllocError>
    requires { seed < 2 ^ 31 }
    ensures { IfOk result (λ events. events.items ≡ drawn_events n seed) }
{
    let mut events = Vec::new(alloc);
    let mut number = seed;
    for turn in 0..n {
        number = next_draw(number);
        let event = drawn_event(u64::from(turn) + 1, draw_of(number));
        events.push(event)?;
    }
    Ok(events)
}

// The event of a draw at a time.
fn drawn_event(time: u64, draw: u32) -> Event
    ensures { result ≡ drawn_event time draw }
{
    Event {
        time,
        itag: itag_drawn(draw),
        item: 0,
        value: i64::from(draw % 100),
    }
}

// Of sixteen draws one is an update in the app, five are views in the app and ten are views in the web, each of one of ten keys.
fn itag_drawn(draw: u32) -> Itag
    ensures { result.0 ≡ itag_drawn draw }
{
    let key = draw / 16 % 10;
    match draw % 16 {
        0 => Itag(APP_UPDATES + key),
        1..=5 => Itag(APP_VIEWS + key),
        _ => Itag(key),
    }
}
