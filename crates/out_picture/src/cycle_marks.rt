//! The marks of a causal cycle.
ghost use Rattle.pd_match.specs.Views.{pairs_view, place_view};
ghost use Rattle.out_picture.specs.Cycles.{event_in, is_in_cycle, marked_event, marked_events, marked_message, marked_messages};
ghost use Rattle.out_picture.specs.Shapes.{all_seen};
ghost use Rattle.out_picture.specs.Tables.{column_at, places_view};
ghost use Rattle.std.specs.Prelude.{◌≡◌, ◌++◌, OnOk};

use super::cycle_columns::number_in;
use super::shapes::{push_circle, push_line};
use super::window::Window;
use out_svg::{Class, Shape};
use pd_clock::Place;
use std::alloc::AllocError;

/// Whether an event is one of the cycle.
fn is_in_cycle(cycle: &[Place], place: Place) -> bool
    ensures { result ≡ is_in_cycle (places_view cycle.now) (place_view place) }
{
    number_in(0, cycle, place.process) == place.number
}

/// The cycle's event of a process.
fn event_in(cycle: &[Place], process: usize) -> Place
    ensures { place_view result ≡ event_in (places_view cycle.now) process }
{
    Place {
        process,
        number: number_in(0, cycle, process),
    }
}

/// Adds what is drawn over a message, if an event of the cycle receives it.
fn push_marked_message(
    shapes: &mut Vec<Shape>,
    window: Window,
    rows: &[Vec<u32>],
    cycle: &[Place],
    message: (Place, Place),
) -> Result<(), AllocError>
    ensures { OnOk result (all_seen shapes.new.items ≡ all_seen shapes.old.items
        ++ marked_message window (column_at rows.now) (places_view cycle.now)
        (place_view message.0, place_view message.1)) }
{
    let (send, receipt) = message;
    if !is_in_cycle(cycle, receipt) {
        return Ok(());
    }
    let event = event_in(cycle, send.process);
    let from = window.event_point(rows, event);
    let through = window.event_point(rows, send);
    push_line(shapes, Class::Cut, from, through)?;
    push_line(
        shapes,
        Class::Cut,
        through,
        window.event_point(rows, receipt),
    )
}

/// Adds what is drawn over the messages that events of the cycle receive.
pub(crate) fn push_marked_messages(
    shapes: &mut Vec<Shape>,
    window: Window,
    rows: &[Vec<u32>],
    cycle: &[Place],
    messages: &[(Place, Place)],
) -> Result<(), AllocError>
    ensures { OnOk result (all_seen shapes.new.items ≡ all_seen shapes.old.items
        ++ marked_messages window (column_at rows.now) (places_view cycle.now) (pairs_view messages.now)) }
{
    for message in messages {
        push_marked_message(shapes, window, rows, cycle, *message)?;
    }
    Ok(())
}

/// Adds the rings around the events of the cycle.
pub(crate) fn push_marked_events(
    shapes: &mut Vec<Shape>,
    window: Window,
    rows: &[Vec<u32>],
    cycle: &[Place],
) -> Result<(), AllocError>
    ensures { OnOk result (all_seen shapes.new.items ≡ all_seen shapes.old.items
        ++ marked_events window (column_at rows.now) (places_view cycle.now)) }
{
    for place in cycle {
        push_circle(shapes, Class::Cut, window.event_point(rows, *place), 12)?;
    }
    Ok(())
}
