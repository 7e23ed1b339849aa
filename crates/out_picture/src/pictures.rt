//! The picture of a run.
ghost use Rattle.read_traces.specs.Views.{computation_view};
ghost use Rattle.pd_match.specs.Views.{pairs_view};
ghost use Rattle.def_model.specs.Messages.{IsMessageList};
ghost use Rattle.out_picture.specs.Columns.{AreColumns};
ghost use Rattle.out_picture.specs.Flights.{is_flight};
ghost use Rattle.out_picture.specs.Pictures.{IsPicture, evidence_shapes, focus, heading_shapes, legend, page_width, room_right, run_shapes, texts_view, widest};
ghost use Rattle.out_picture.specs.Shapes.{all_seen};
ghost use Rattle.out_picture.specs.Tables.{IsTable, column_at};
ghost use Rattle.std.specs.Prelude.{◌≡◌, ◌≤◌, ◌++◌, IfOk, OnOk};

use super::Evidence;
use super::columns::columns;
use super::cut::{push_cut, values_x};
use super::dots::{push_dots, shown_events};
use super::ends::push_ends;
use super::extent::Extent;
use super::flights::push_flights;
use super::headings::{description, legend, push_headings};
use super::label::{EventLabel, NotedPicture};
use super::labels::shown_labels;
use super::lanes::push_lanes;
use super::messages::push_messages;
use super::rooms::{names_room, title_room, values_room};
use super::steps::push_steps;
use super::window::{Window, greatest_column, lane_y, widest_column};
use out_svg::{Drawing, Shape};
use pd_clock::{Computation, Place};
use read_traces::Trace;
use std::alloc::{AllocError, Global};

/// The column in which the evidence ends, and 0 if it has no end.
fn focus(rows: &[Vec<u32>], computation: &Computation<'_>, evidence: &Evidence) -> u32
    requires { IsTable computation.now.events rows.now }
    ensures { result ≡ focus (column_at rows.now) computation.now.events evidence.now }
{
    match evidence {
        Evidence::Cut { counts, .. } => greatest_column(rows, counts),
        Evidence::Absent | Evidence::Observation(_) => 0,
    }
}

/// The greatest column of all events.
fn widest(rows: &[Vec<u32>], computation: &Computation<'_>) -> u32
    requires { IsTable computation.now.events rows.now }
    ensures { result ≡ widest (column_at rows.now) computation.now.events }
{
    widest_column(rows)
}

/// Adds what is shown of the evidence.
fn push_evidence(
    alloc: Global,
    shapes: &mut Vec<Shape>,
    window: Window,
    rows: &[Vec<u32>],
    computation: &Computation<'_>,
    evidence: &Evidence,
) -> Result<(), AllocError>
    ensures { OnOk result (all_seen shapes.new.items ≡ all_seen shapes.old.items
        ++ evidence_shapes window (column_at rows.now) computation.now.events evidence.now) }
{
    let lanes = computation.processes();
    match evidence {
        Evidence::Absent => Ok(()),
        Evidence::Cut {
            counts,
            values,
            path,
        } => {
            push_cut(alloc, shapes, window, rows, counts, values, lanes)?;
            push_steps(alloc, shapes, window, rows, lanes, path)
        }
        Evidence::Observation(path) => push_steps(alloc, shapes, window, rows, lanes, path),
    }
}

/// The room right of the lanes.
fn room_right(alloc: Global, evidence: &Evidence) -> Result<u32, AllocError>
    ensures is { IfOk result (λ room. room ≡ room_right evidence.now) }
    ensures small { IfOk result (λ room. room ≤ 60000) }
{
    match evidence {
        Evidence::Cut { values, .. } => values_room(alloc, values),
        Evidence::Absent | Evidence::Observation(_) => Ok(0),
    }
}

/// The width of the page: there is room for the headings, the lanes and the values at a cut.
pub(crate) fn page_width(
    alloc: Global,
    window: Window,
    title: &str,
    evidence: &Evidence,
) -> Result<u32, AllocError>
    ensures { IfOk result (λ width. width ≡ page_width window title.now evidence.now) }
{
    let lanes = values_x(window) + 24 + room_right(alloc, evidence)?;
    let title = title_room(title) + 48;
    Ok(title.max(lanes).max(800))
}

/// What a picture shows: a run, with its messages as pairs of a send and a receipt, and the evidence.
#[derive(Clone, Copy)]
struct Subject<'a, 'b> {
    computation: &'a Computation<'b>,
    traces: &'a [Trace],
    messages: &'a [(Place, Place)],
    names: &'a [String],
    title: &'a str,
    evidence: &'a Evidence,
    extent: Extent,
}

/// Adds the lines of the processes, the arrows of the messages, and the dots of the events.
fn push_run(
    alloc: Global,
    shapes: &mut Vec<Shape>,
    window: Window,
    rows: &[Vec<u32>],
    subject: &Subject<'_, '_>,
) -> Result<(), AllocError>
    ensures { OnOk result (all_seen shapes.new.items ≡ all_seen shapes.old.items
        ++ run_shapes window (column_at rows.now)
        (is_flight (computation_view subject.now.traces.now) subject.now.messages.now)
        subject.now.computation.now.events (pairs_view subject.now.messages.now) (texts_view subject.now.names.now)
        subject.now.evidence.now) }
{
    let messages = subject.messages;
    let places = shown_events(alloc, subject.computation, window, rows)?;
    push_lanes(alloc, shapes, window, subject.names)?;
    push_messages(shapes, window, rows, messages)?;
    push_ends(alloc, shapes, window, rows, messages)?;
    push_flights(
        alloc,
        shapes,
        window,
        rows,
        subject.traces,
        messages,
        &places,
    )?;
    push_dots(alloc, shapes, window, rows, subject.evidence, &places)
}

/// All shapes, each over those before it.
fn all_shapes(
    alloc: Global,
    window: Window,
    widest: u32,
    rows: &[Vec<u32>],
    subject: &Subject<'_, '_>,
) -> Result<Vec<Shape>, AllocError>
    ensures { IfOk result (λ shapes. all_seen shapes.items
        ≡ heading_shapes window widest subject.now.title.now (legend subject.now.evidence.now)
        ++ run_shapes window (column_at rows.now)
        (is_flight (computation_view subject.now.traces.now) subject.now.messages.now)
        subject.now.computation.now.events (pairs_view subject.now.messages.now) (texts_view subject.now.names.now)
        subject.now.evidence.now
        ++ evidence_shapes window (column_at rows.now) subject.now.computation.now.events
        subject.now.evidence.now) }
{
    let evidence = subject.evidence;
    let mut shapes = Vec::new(alloc);
    push_headings(
        alloc,
        &mut shapes,
        window,
        widest,
        subject.title,
        legend(evidence),
    )?;
    push_run(alloc, &mut shapes, window, rows, subject)?;
    push_evidence(
        alloc,
        &mut shapes,
        window,
        rows,
        subject.computation,
        evidence,
    )?;
    Ok(shapes)
}

/// The picture of a run whose events have these columns, and those labels that stand at events that are shown.
fn drawn(
    alloc: Global,
    rows: &[Vec<u32>],
    subject: &Subject<'_, '_>,
    labels: &[EventLabel],
) -> Result<NotedPicture, AllocError>
    requires columns { AreColumns subject.now.computation.now.events (column_at rows.now) }
    requires table { IsTable subject.now.computation.now.events rows.now }
    requires traces { computation_view subject.now.traces.now ≡ subject.now.computation.now.events }
    requires messages { IsMessageList subject.now.computation.now.events (pairs_view subject.now.messages.now) }
    ensures { IfOk result (λ picture. IsPicture subject.now.computation.now.events
        (pairs_view subject.now.messages.now) (texts_view subject.now.names.now) subject.now.title.now
        subject.now.evidence.now subject.now.extent picture.drawing) }
{
    let computation = subject.computation;
    let evidence = subject.evidence;
    let widest = widest(rows, computation);
    let focus = focus(rows, computation, evidence);
    let window = Window::of(subject.extent, widest, focus, names_room(subject.names));
    let width = page_width(alloc, window, subject.title, evidence)?;
    let shapes = all_shapes(alloc, window, widest, rows, subject)?;
    let title = String::from_str(alloc, subject.title)?;
    let description = description(alloc, window, widest, computation, subject.names, evidence)?;
    let drawing = Drawing {
        width,
        height: lane_y(computation.processes()) - 30,
        title,
        description,
        shapes,
    };
    let labels = shown_labels(alloc, window, rows, labels)?;
    Ok(NotedPicture { drawing, labels })
}

/// The picture of a run: a line for each process with its events in order, an arrow for each message from its send to
/// each of its receipts, and the evidence. The traces and the messages, as pairs of a send and a receipt, are those of
/// the computation, and the names those of its processes. An event's column is the length of the longest chain that
/// ends in it. Those columns are shown that are asked for, and the picture says which, if not all are. What is noted of
/// events that are shown is given as labels beside the picture.
///
/// # Errors
/// Out of memory.
pub fn picture(
    alloc: Global,
    computation: &Computation<'_>,
    traces: &[Trace],
    messages: &[(Place, Place)],
    names: &[String],
    title: &str,
    evidence: &Evidence,
    extent: Extent,
    labels: &[EventLabel],
) -> Result<NotedPicture, AllocError>
    requires traces { computation_view traces.now ≡ computation.now.events }
    requires messages { IsMessageList computation.now.events (pairs_view messages.now) }
    ensures { IfOk result (λ picture. IsPicture computation.now.events (pairs_view messages.now)
        (texts_view names.now) title.now evidence.now extent picture.drawing) }
{
    let rows = columns(alloc, computation)?;
    let subject = Subject {
        computation,
        traces,
        messages,
        names,
        title,
        evidence,
        extent,
    };
    drawn(alloc, &rows, &subject, labels)
}
