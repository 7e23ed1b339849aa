//! The arrows of messages.
ghost use Rattle.pd_match.specs.Views.{pairs_view, place_view};
ghost use Rattle.out_picture.specs.Pictures.{head_point, message_shapes, messages_shapes};
ghost use Rattle.out_picture.specs.Shapes.{all_seen};
ghost use Rattle.out_picture.specs.Tables.{column_at};
ghost use Rattle.std.specs.Prelude.{◌≡◌, ◌≤◌, ◌++◌, OnOk};

use super::shapes::{push_arrow, push_line};
use super::window::{Window, column_at};
use out_svg::{Class, Point, Shape};
use pd_clock::Place;
use std::alloc::AllocError;

/// Where the head of an arrow stands that comes to this point from above or from below, from its left or, if it goes
/// back, from its right.
fn head_point(from_above: bool, from_right: bool, at: Point) -> Point
    requires below { 8 ≤ at.y }
    requires within { at.y ≤ 4294967000 }
    requires left { at.x ≤ 4294967000 }
    ensures { result ≡ head_point from_above from_right at }
{
    Point {
        x: if from_right {
            at.x + 5
        } else {
            at.x.saturating_sub(5)
        },
        y: if from_above { at.y - 8 } else { at.y + 8 },
    }
}

/// Adds the arrow of a message, if its receipt is shown, and a line without a head, if its send alone is.
fn push_message(
    shapes: &mut Vec<Shape>,
    window: Window,
    rows: &[Vec<u32>],
    message: (Place, Place),
) -> Result<(), AllocError>
    ensures { OnOk result (all_seen shapes.new.items ≡ all_seen shapes.old.items
        ++ message_shapes window (column_at rows.now) (place_view message.0, place_view message.1)) }
{
    let (send, receipt) = message;
    let from = window.event_point(rows, send);
    let to = window.event_point(rows, receipt);
    if window.shows(column_at(rows, receipt)) {
        let head = head_point(send.process < receipt.process, to.x < from.x, to);
        return push_arrow(shapes, Class::Message, from, head);
    }
    if window.shows(column_at(rows, send)) {
        return push_line(shapes, Class::Message, from, to);
    }
    Ok(())
}

/// Adds the arrows of the messages of which the send or the receipt is shown.
pub(crate) fn push_messages(
    shapes: &mut Vec<Shape>,
    window: Window,
    rows: &[Vec<u32>],
    messages: &[(Place, Place)],
) -> Result<(), AllocError>
    ensures { OnOk result (all_seen shapes.new.items ≡ all_seen shapes.old.items
        ++ messages_shapes window (column_at rows.now) (pairs_view messages.now)) }
{
    for message in messages {
        push_message(shapes, window, rows, *message)?;
    }
    Ok(())
}
