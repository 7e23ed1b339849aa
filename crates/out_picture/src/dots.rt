//! The events that are shown, and their dots.
ghost use Rattle.pd_match.specs.Views.{place_view};
ghost use Rattle.out_picture.specs.Pictures.{event_shapes, is_past, shown_at, shown_events, shown_of};
ghost use Rattle.out_picture.specs.Shapes.{all_seen};
ghost use Rattle.out_picture.specs.Tables.{column_at, places_view};
ghost use Rattle.read_traces.specs.Views.{computation_view};
ghost use Rattle.std.specs.Prelude.{◌≡◌, ◌+◌, ◌<◌, ◌++◌, IfOk, OnOk, flat_map};

use super::Evidence;
use super::cycle_columns::count_of;
use super::shapes::{push_circle, push_number};
use super::window::{Window, column_at, count_at};
use out_svg::{Class, Point, Shape};
use pd_clock::{Computation, Place};
use read_traces::Trace;
use std::alloc::{AllocError, Global};

/// Adds an event, if it is shown.
fn push_shown(
    places: &mut Vec<Place>,
    window: Window,
    rows: &[Vec<u32>],
    place: Place,
) -> Result<(), AllocError>
    ensures { OnOk result (places_view places.new.items
        ≡ places_view places.old.items ++ shown_at window (column_at rows.now) (place_view place)) }
{
    if !window.shows(column_at(rows, place)) {
        return Ok(());
    }
    places.push(place).map_err(AllocError::from)
}

/// Adds those of the first events of a process that are shown.
fn push_shown_of(
    places: &mut Vec<Place>,
    window: Window,
    rows: &[Vec<u32>],
    process: usize,
    count: u64,
) -> Result<(), AllocError>
    ensures { OnOk result (places_view places.new.items
        ≡ places_view places.old.items ++ shown_of window (column_at rows.now) process count) }
{
    for n in 0..count {
        let place = Place {
            process,
            number: n + 1,
        };
        push_shown(places, window, rows, place)?;
    }
    Ok(())
}

/// The events that are shown, in the order of their places.
pub(crate) fn shown_events(
    alloc: Global,
    computation: &Computation<'_>,
    window: Window,
    rows: &[Vec<u32>],
) -> Result<Vec<Place>, AllocError>
    ensures { IfOk result (λ places. places_view places.items
        ≡ shown_events window (column_at rows.now) computation.now.events) }
{
    let mut places = Vec::new(alloc);
    for p in 0..computation.processes() {
        push_shown_of(&mut places, window, rows, p, computation.events(p))?;
    }
    Ok(places)
}

/// The events of traces that are shown, in the order of their places.
pub(crate) fn shown_events_of(
    alloc: Global,
    traces: &[Trace],
    window: Window,
    rows: &[Vec<u32>],
) -> Result<Vec<Place>, AllocError>
    ensures { IfOk result (λ places. places_view places.items
        ≡ shown_events window (column_at rows.now) (computation_view traces.now)) }
{
    let mut places = Vec::new(alloc);
    for p in 0..traces.len() {
        push_shown_of(&mut places, window, rows, p, count_of(traces, p))?;
    }
    Ok(places)
}

/// Whether the evidence has no cut, or the event is in it.
fn is_past(evidence: &Evidence, place: Place) -> bool
    ensures { result ≡ is_past evidence.now (place_view place) }
{
    match evidence {
        Evidence::Cut { counts, .. } => place.number <= count_at(counts, place.process),
        Evidence::Absent | Evidence::Observation(_) => true,
    }
}

/// Adds the dot of an event, and its number below it.
fn push_dot(
    alloc: Global,
    shapes: &mut Vec<Shape>,
    window: Window,
    rows: &[Vec<u32>],
    evidence: &Evidence,
    place: Place,
) -> Result<(), AllocError>
    ensures { OnOk result (all_seen shapes.new.items ≡ all_seen shapes.old.items
        ++ event_shapes window (column_at rows.now) evidence.now (place_view place)) }
{
    let class = if is_past(evidence, place) {
        Class::Past
    } else {
        Class::Next
    };
    let at = window.event_point(rows, place);
    push_circle(shapes, class, at, 7)?;
    let below = Point {
        x: at.x,
        y: at.y + 30,
    };
    push_number(alloc, shapes, Class::Number, below, 12, place.number)
}

/// Adds the dots of these events.
pub(crate) fn push_dots(
    alloc: Global,
    shapes: &mut Vec<Shape>,
    window: Window,
    rows: &[Vec<u32>],
    evidence: &Evidence,
    places: &[Place],
) -> Result<(), AllocError>
    ensures { OnOk result (all_seen shapes.new.items ≡ all_seen shapes.old.items
        ++ flat_map (event_shapes window (column_at rows.now) evidence.now) (places_view places.now)) }
{
    for place in places {
        push_dot(alloc, shapes, window, rows, evidence, *place)?;
    }
    Ok(())
}
