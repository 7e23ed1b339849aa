//! The marks of messages of which one end isn't shown.
ghost use Rattle.pd_match.specs.Views.{pairs_view, place_view};
ghost use Rattle.out_picture.specs.Pictures.{diamond, end_shapes, ends_shapes, mark_shapes};
ghost use Rattle.out_picture.specs.Shapes.{all_seen};
ghost use Rattle.out_picture.specs.Tables.{column_at};
ghost use Rattle.std.specs.Prelude.{◌≡◌, ◌≤◌, ◌++◌, IfOk, OnOk};

use super::shapes::push_polyline;
use super::window::{Window, column_at};
use out_svg::{Class, Point, Shape};
use pd_clock::Place;
use std::alloc::{AllocError, Global};

/// The corners of a diamond around a point, the first of them twice.
fn diamond(alloc: Global, at: Point) -> Result<Vec<Point>, AllocError>
    requires right { at.x ≤ 4294967000 }
    requires below { at.y ≤ 4294967000 }
    ensures { IfOk result (λ points. points.items ≡ diamond at) }
{
    let left = Point {
        x: at.x.saturating_sub(6),
        y: at.y,
    };
    let top = Point {
        x: at.x,
        y: at.y.saturating_sub(6),
    };
    let right = Point {
        x: at.x + 6,
        y: at.y,
    };
    let bottom = Point {
        x: at.x,
        y: at.y + 6,
    };
    let points = vec![in alloc; left, top, right, bottom, left]?;
    Ok(points)
}

/// Adds the mark of an event that isn't shown, where a message begins or ends.
fn push_mark(
    alloc: Global,
    shapes: &mut Vec<Shape>,
    window: Window,
    rows: &[Vec<u32>],
    place: Place,
) -> Result<(), AllocError>
    ensures { OnOk result (all_seen shapes.new.items ≡ all_seen shapes.old.items
        ++ mark_shapes window (column_at rows.now) (place_view place)) }
{
    let at = window.event_point(rows, place);
    let points = diamond(alloc, at)?;
    push_polyline(shapes, Class::Beyond, points)
}

/// Adds the mark of a message of which one end is shown.
fn push_end(
    alloc: Global,
    shapes: &mut Vec<Shape>,
    window: Window,
    rows: &[Vec<u32>],
    message: (Place, Place),
) -> Result<(), AllocError>
    ensures { OnOk result (all_seen shapes.new.items ≡ all_seen shapes.old.items
        ++ end_shapes window (column_at rows.now) (place_view message.0, place_view message.1)) }
{
    let (send, receipt) = message;
    if window.shows(column_at(rows, receipt)) {
        if window.shows(column_at(rows, send)) {
            return Ok(());
        }
        return push_mark(alloc, shapes, window, rows, send);
    }
    if window.shows(column_at(rows, send)) {
        return push_mark(alloc, shapes, window, rows, receipt);
    }
    Ok(())
}

/// Adds the marks of the messages of which one end is shown.
pub(crate) fn push_ends(
    alloc: Global,
    shapes: &mut Vec<Shape>,
    window: Window,
    rows: &[Vec<u32>],
    messages: &[(Place, Place)],
) -> Result<(), AllocError>
    ensures { OnOk result (all_seen shapes.new.items ≡ all_seen shapes.old.items
        ++ ends_shapes window (column_at rows.now) (pairs_view messages.now)) }
{
    for message in messages {
        push_end(alloc, shapes, window, rows, *message)?;
    }
    Ok(())
}
