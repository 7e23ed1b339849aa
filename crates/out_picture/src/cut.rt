//! A cut across the processes.
ghost use Rattle.out_picture.specs.Layout.{upto};
ghost use Rattle.out_picture.specs.Pictures.{ValuesStandClear, cut_points, cut_shapes, cut_x, point, texts_view, value_shapes, values_words, values_x};
ghost use Rattle.out_picture.specs.Shapes.{SeenText, all_seen};
ghost use Rattle.out_picture.specs.Tables.{column_at};
ghost use Rattle.std.specs.Prelude.{◌≡◌, ◌++◌, ◌∷◌, [], IfOk, OnOk};

use super::shapes::{push_polyline, push_text};
use super::texts::{shown_value, text_at};
use super::window::{Window, column_at, count_at, lane_y};
use out_svg::{Anchor, Class, Point, Shape};
use pd_clock::Place;
use std::alloc::{AllocError, Global};

/// Where the cut crosses the lane of a process: right of its last event in the cut, and left of the next one; at the
/// lane's end, if that event stands after all that is shown.
fn cut_x(window: Window, rows: &[Vec<u32>], counts: &[u64], p: usize) -> u32
    ensures { result ≡ cut_x window (column_at rows.now) counts.now p }
{
    let last = Place {
        process: p,
        number: count_at(counts, p),
    };
    let x = window.column_x(column_at(rows, last)) + 24;
    x.min(window.right())
}

/// Adds the two points at which the cut comes to the lane of a process and leaves it.
fn push_crossing(
    points: &mut Vec<Point>,
    window: Window,
    rows: &[Vec<u32>],
    counts: &[u64],
    p: usize,
) -> Result<(), AllocError>
    ensures { OnOk result (points.new.items
        ≡ points.old.items ++ cut_points window (column_at rows.now) counts.now p) }
{
    let x = cut_x(window, rows, counts, p);
    let y = lane_y(p);
    points.push(Point { x, y: y - 50 })?;
    points.push(Point { x, y: y + 36 })?;
    Ok(())
}

/// The points of a cut across these many lanes, from the first one down.
fn crossings(
    alloc: Global,
    window: Window,
    rows: &[Vec<u32>],
    counts: &[u64],
    lanes: usize,
) -> Result<Vec<Point>, AllocError>
    ensures { IfOk result (λ points. points.items
        ≡ upto (cut_points window (column_at rows.now) counts.now) lanes) }
{
    let mut points = Vec::new(alloc);
    for p in 0..lanes {
        push_crossing(&mut points, window, rows, counts, p)?;
    }
    Ok(points)
}

/// Where values stand: right of all lanes, and so of all arrows.
pub(crate) fn values_x(window: Window) -> u32
    ensures { result ≡ values_x window }
{
    window.right() + 24
}

/// The law of values: where they begin is right of each lane's end, and of each point at which an arrow begins or ends.
/// It has no code.
pub fn values_stand_clear()
    ensures { ValuesStandClear }
{}

/// The words above the values.
fn values_words() -> &'static str
    ensures { result.now ≡ values_words }
{
    "at the cut"
}

/// Adds the words above the values.
fn push_values_heading(
    alloc: Global,
    shapes: &mut Vec<Shape>,
    window: Window,
) -> Result<(), AllocError>
    ensures { OnOk result (all_seen shapes.new.items ≡ all_seen shapes.old.items
        ++ SeenText Class.Value (point (values_x window) 114) Anchor.Start 13 values_words ∷ []) }
{
    let text = String::from_str(alloc, values_words())?;
    let at = Point {
        x: values_x(window),
        y: 114,
    };
    push_text(shapes, Class::Value, at, Anchor::Start, 13, text)
}

/// Adds what the variables of a process are worth at the cut, at the right of its lane.
fn push_value(
    alloc: Global,
    shapes: &mut Vec<Shape>,
    window: Window,
    values: &[String],
    p: usize,
) -> Result<(), AllocError>
    ensures { OnOk result (all_seen shapes.new.items ≡ all_seen shapes.old.items
        ++ value_shapes window (texts_view values.now) p) }
{
    let text = shown_value(alloc, text_at(values, p))?;
    let at = Point {
        x: values_x(window),
        y: lane_y(p) + 5,
    };
    push_text(shapes, Class::Value, at, Anchor::Start, 13, text)
}

/// Adds the line of a cut across these many lanes, and what the variables of each process are worth there.
pub(crate) fn push_cut(
    alloc: Global,
    shapes: &mut Vec<Shape>,
    window: Window,
    rows: &[Vec<u32>],
    counts: &[u64],
    values: &[String],
    lanes: usize,
) -> Result<(), AllocError>
    ensures { OnOk result (all_seen shapes.new.items ≡ all_seen shapes.old.items
        ++ cut_shapes window (column_at rows.now) lanes counts.now (texts_view values.now)) }
{
    let points = crossings(alloc, window, rows, counts, lanes)?;
    push_polyline(shapes, Class::Cut, points)?;
    push_values_heading(alloc, shapes, window)?;
    push_values(alloc, shapes, window, values, lanes)
}

/// Adds what the variables of each of these many processes are worth at the cut.
fn push_values(
    alloc: Global,
    shapes: &mut Vec<Shape>,
    window: Window,
    values: &[String],
    lanes: usize,
) -> Result<(), AllocError>
    ensures { OnOk result (all_seen shapes.new.items ≡ all_seen shapes.old.items
        ++ upto (value_shapes window (texts_view values.now)) lanes) }
{
    for p in 0..lanes {
        push_value(alloc, shapes, window, values, p)?;
    }
    Ok(())
}
