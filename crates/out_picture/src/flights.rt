//! The arrows of messages in flight.
ghost use Rattle.read_traces.specs.Views.{computation_view};
ghost use Rattle.pd_match.specs.Views.{place_view};
ghost use Rattle.def_model.specs.Events.{kind_at};
ghost use Rattle.out_picture.specs.Flights.{is_flight, is_send};
ghost use Rattle.out_picture.specs.Pictures.{flight_shapes};
ghost use Rattle.out_picture.specs.Received.{is_unmarked_send};
ghost use Rattle.out_picture.specs.Shapes.{all_seen};
ghost use Rattle.out_picture.specs.Tables.{column_at, places_view};
ghost use Rattle.std.specs.Prelude.{◌≡◌, ◌++◌, OnOk, flat_map};

use super::received::{is_marked, received_sends};
use super::shapes::push_arrow;
use super::window::Window;
use out_svg::{Class, Point, Shape};
use pd_clock::Place;
use read_traces::{Kind, Trace};
use std::alloc::{AllocError, Global};

/// Whether the event at a place sends a message.
fn sends(traces: &[Trace], place: Place) -> bool
    ensures { result ≡ is_send (kind_at (computation_view traces.now) (place_view place)) }
{
    let Some(process) = traces.get(place.process) else {
        return false;
    };
    if place.number == 0 || place.number > process.events.len() as u64 {
        return false;
    }
    match process.events.kind(place.number as usize - 1) {
        Kind::Send(_) => true,
        Kind::Local | Kind::Recv(_) => false,
    }
}

/// Whether the event at a place sends a message, and isn't marked as received.
fn is_unmarked_send(traces: &[Trace], received: &[Vec<bool>], place: Place) -> bool
    ensures { result ≡ is_unmarked_send (computation_view traces.now) received.now (place_view place) }
{
    sends(traces, place) && !is_marked(received, place)
}

/// Adds the broken arrow of the message that an event sends, if it isn't marked as received.
fn push_flight(
    shapes: &mut Vec<Shape>,
    window: Window,
    rows: &[Vec<u32>],
    traces: &[Trace],
    received: &[Vec<bool>],
    place: Place,
) -> Result<(), AllocError>
    ensures { OnOk result (all_seen shapes.new.items ≡ all_seen shapes.old.items
        ++ flight_shapes window (column_at rows.now) (is_unmarked_send (computation_view traces.now) received.now)
        (place_view place)) }
{
    if !is_unmarked_send(traces, received, place) {
        return Ok(());
    }
    let from = window.event_point(rows, place);
    let to = Point {
        x: from.x + 28,
        y: from.y + 40,
    };
    push_arrow(shapes, Class::Flight, from, to)
}

/// Adds the broken arrows of those messages that these events send and that aren't marked as received.
fn push_unmarked(
    shapes: &mut Vec<Shape>,
    window: Window,
    rows: &[Vec<u32>],
    traces: &[Trace],
    received: &[Vec<bool>],
    places: &[Place],
) -> Result<(), AllocError>
    ensures { OnOk result (all_seen shapes.new.items ≡ all_seen shapes.old.items
        ++ flat_map (flight_shapes window (column_at rows.now)
        (is_unmarked_send (computation_view traces.now) received.now)) (places_view places.now)) }
{
    for place in places {
        push_flight(shapes, window, rows, traces, received, *place)?;
    }
    Ok(())
}

/// Adds the broken arrows of the messages in flight that these events send.
pub(crate) fn push_flights(
    alloc: Global,
    shapes: &mut Vec<Shape>,
    window: Window,
    rows: &[Vec<u32>],
    traces: &[Trace],
    messages: &[(Place, Place)],
    places: &[Place],
) -> Result<(), AllocError>
    ensures { OnOk result (all_seen shapes.new.items ≡ all_seen shapes.old.items
        ++ flat_map (flight_shapes window (column_at rows.now)
        (is_flight (computation_view traces.now) messages.now)) (places_view places.now)) }
{
    let received = received_sends(alloc, traces, messages)?;
    push_unmarked(shapes, window, rows, traces, &received, places)
}
