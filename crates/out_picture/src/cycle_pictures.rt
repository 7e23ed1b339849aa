//! The picture of a run in which there is a causal cycle.
ghost use Rattle.pd_match.specs.Views.{pairs_view};
ghost use Rattle.def_model.specs.Messages.{IsMessageList};
ghost use Rattle.out_picture.specs.CycleTables.{IsCycleTable};
ghost use Rattle.out_picture.specs.Cycles.{IsCyclePicture, below_shapes, cycle_legend};
ghost use Rattle.out_picture.specs.Flights.{is_flight};
ghost use Rattle.out_picture.specs.Pictures.{event_shapes, heading_shapes, shown_events, texts_view};
ghost use Rattle.out_picture.specs.Shapes.{all_seen};
ghost use Rattle.out_picture.specs.Tables.{column_at, places_view};
ghost use Rattle.read_traces.specs.Views.{computation_view};
ghost use Rattle.std.specs.Prelude.{◌≡◌, ◌++◌, IfOk, OnOk, flat_map};

use super::Evidence;
use super::cycle_columns::{cycle_columns, cycle_focus, cycle_widest, kept_column};
use super::cycle_marks::{push_marked_events, push_marked_messages};
use super::dots::{push_dots, shown_events_of};
use super::ends::push_ends;
use super::extent::Extent;
use super::flights::push_flights;
use super::headings::{cycle_description, cycle_legend, push_headings};
use super::label::{EventLabel, NotedPicture};
use super::labels::shown_labels;
use super::lanes::push_lanes;
use super::messages::push_messages;
use super::pictures::page_width;
use super::rooms::names_room;
use super::window::{Window, lane_y};
use out_svg::{Drawing, Shape};
use pd_clock::Place;
use read_traces::Trace;
use std::alloc::{AllocError, Global};

/// What a picture shows: a run, with its messages as pairs of a send and a receipt, and a causal cycle in it.
#[derive(Clone, Copy)]
struct Refused<'a> {
    traces: &'a [Trace],
    messages: &'a [(Place, Place)],
    names: &'a [String],
    title: &'a str,
    cycle: &'a [Place],
    extent: Extent,
}

/// Adds what stands below the dots of these events.
fn push_below(
    alloc: Global,
    shapes: &mut Vec<Shape>,
    window: Window,
    rows: &[Vec<u32>],
    subject: &Refused<'_>,
    places: &[Place],
) -> Result<(), AllocError>
    requires { places_view places.now
        ≡ shown_events window (column_at rows.now) (computation_view subject.now.traces.now) }
    ensures { OnOk result (all_seen shapes.new.items ≡ all_seen shapes.old.items
        ++ below_shapes window (column_at rows.now)
        (is_flight (computation_view subject.now.traces.now) subject.now.messages.now)
        (computation_view subject.now.traces.now) (pairs_view subject.now.messages.now)
        (texts_view subject.now.names.now) (places_view subject.now.cycle.now)) }
{
    let messages = subject.messages;
    push_lanes(alloc, shapes, window, subject.names)?;
    push_marked_messages(shapes, window, rows, subject.cycle, messages)?;
    push_marked_events(shapes, window, rows, subject.cycle)?;
    push_messages(shapes, window, rows, messages)?;
    push_ends(alloc, shapes, window, rows, messages)?;
    push_flights(
        alloc,
        shapes,
        window,
        rows,
        subject.traces,
        messages,
        places,
    )
}

/// All shapes, each over those before it.
fn all_shapes(
    alloc: Global,
    window: Window,
    widest: u32,
    rows: &[Vec<u32>],
    subject: &Refused<'_>,
) -> Result<Vec<Shape>, AllocError>
    ensures { IfOk result (λ shapes. all_seen shapes.items
        ≡ heading_shapes window widest subject.now.title.now cycle_legend
        ++ below_shapes window (column_at rows.now)
        (is_flight (computation_view subject.now.traces.now) subject.now.messages.now)
        (computation_view subject.now.traces.now) (pairs_view subject.now.messages.now)
        (texts_view subject.now.names.now) (places_view subject.now.cycle.now)
        ++ flat_map (event_shapes window (column_at rows.now) Evidence.Absent)
        (shown_events window (column_at rows.now) (computation_view subject.now.traces.now))) }
{
    let mut shapes = Vec::new(alloc);
    let places = shown_events_of(alloc, subject.traces, window, rows)?;
    push_headings(
        alloc,
        &mut shapes,
        window,
        widest,
        subject.title,
        cycle_legend(),
    )?;
    push_below(alloc, &mut shapes, window, rows, subject, &places)?;
    push_dots(alloc, &mut shapes, window, rows, &Evidence::Absent, &places)?;
    Ok(shapes)
}

/// The picture of a run whose events have these columns, and those labels that stand at events that are shown.
fn drawn_cycle(
    alloc: Global,
    rows: &[Vec<u32>],
    subject: &Refused<'_>,
    labels: &[EventLabel],
) -> Result<NotedPicture, AllocError>
    requires table { IsCycleTable (computation_view subject.now.traces.now) (places_view subject.now.cycle.now)
        rows.now }
    requires messages { IsMessageList (computation_view subject.now.traces.now)
        (pairs_view subject.now.messages.now) }
    ensures { IfOk result (λ picture. IsCyclePicture (computation_view subject.now.traces.now)
        (pairs_view subject.now.messages.now) (texts_view subject.now.names.now) subject.now.title.now
        (places_view subject.now.cycle.now) subject.now.extent picture.drawing) }
{
    let widest = cycle_widest(rows, subject.traces, subject.cycle);
    let focus = kept_column(cycle_focus(subject.cycle));
    let window = Window::of(subject.extent, widest, focus, names_room(subject.names));
    let width = page_width(alloc, window, subject.title, &Evidence::Absent)?;
    let shapes = all_shapes(alloc, window, widest, rows, subject)?;
    let title = String::from_str(alloc, subject.title)?;
    let description = cycle_description(alloc, window, widest)?;
    let drawing = Drawing {
        width,
        height: lane_y(subject.traces.len()) - 30,
        title,
        description,
        shapes,
    };
    let labels = shown_labels(alloc, window, rows, labels)?;
    Ok(NotedPicture { drawing, labels })
}

/// The picture of a run in which there is a causal cycle, given as the receipts that are on it: a line for each process
/// with its events in order, an arrow for each message, and the cycle marked. An event stands by its number, and the
/// processes are moved against each other so that the events of the cycle stand in one column. What is noted of events
/// that are shown is given as labels beside the picture.
///
/// # Errors
/// Out of memory.
pub fn cycle_picture(
    alloc: Global,
    traces: &[Trace],
    messages: &[(Place, Place)],
    names: &[String],
    title: &str,
    cycle: &[Place],
    extent: Extent,
    labels: &[EventLabel],
) -> Result<NotedPicture, AllocError>
    requires { IsMessageList (computation_view traces.now) (pairs_view messages.now) }
    ensures { IfOk result (λ picture. IsCyclePicture (computation_view traces.now) (pairs_view messages.now)
        (texts_view names.now) title.now (places_view cycle.now) extent picture.drawing) }
{
    let rows = cycle_columns(alloc, traces, cycle)?;
    let subject = Refused {
        traces,
        messages,
        names,
        title,
        cycle,
        extent,
    };
    drawn_cycle(alloc, &rows, &subject, labels)
}
