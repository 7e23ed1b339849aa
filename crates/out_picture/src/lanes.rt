//! The lines of the processes.
ghost use Rattle.out_picture.specs.Pictures.{lane_shapes, lanes_shapes, texts_view};
ghost use Rattle.out_picture.specs.Shapes.{all_seen};
ghost use Rattle.std.specs.Prelude.{◌≡◌, ◌++◌, OnOk};

use super::shapes::{push_line, push_text};
use super::texts::{shortened, text_at};
use super::window::{Window, lane_y};
use out_svg::{Anchor, Class, Point, Shape};
use std::alloc::{AllocError, Global};

/// Adds the line of a process, and its name at the left of it.
fn push_lane(
    alloc: Global,
    shapes: &mut Vec<Shape>,
    window: Window,
    names: &[String],
    p: usize,
) -> Result<(), AllocError>
    ensures { OnOk result (all_seen shapes.new.items
        ≡ all_seen shapes.old.items ++ lane_shapes window (texts_view names.now) p) }
{
    let y = lane_y(p);
    let left = u32::from(window.left);
    let from = Point { x: left, y };
    let to = Point {
        x: window.right(),
        y,
    };
    push_line(shapes, Class::Process, from, to)?;
    let at = Point {
        x: left.saturating_sub(14),
        y: y + 5,
    };
    let text = shortened(alloc, text_at(names, p), 32)?;
    push_text(shapes, Class::Name, at, Anchor::End, 15, text)
}

/// Adds the lines of the processes of these names.
pub(crate) fn push_lanes(
    alloc: Global,
    shapes: &mut Vec<Shape>,
    window: Window,
    names: &[String],
) -> Result<(), AllocError>
    ensures { OnOk result (all_seen shapes.new.items
        ≡ all_seen shapes.old.items ++ lanes_shapes window (texts_view names.now)) }
{
    for p in 0..names.len() {
        push_lane(alloc, shapes, window, names, p)?;
    }
    Ok(())
}
