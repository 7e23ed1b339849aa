//! Adds shapes to those that are there.
ghost use Rattle.out_picture.specs.Shapes.{SeenArrow, SeenCircle, SeenLine, SeenPolyline, SeenText, all_seen};
ghost use Rattle.std.specs.Prelude.{◌≡◌, ◌++◌, ◌∷◌, [], OnOk, decimal, string_bytes};

use out_svg::{Anchor, Class, Point, Shape};
use std::alloc::{AllocError, Global};

/// Adds a straight line.
pub(crate) fn push_line(
    shapes: &mut Vec<Shape>,
    class: Class,
    from: Point,
    to: Point,
) -> Result<(), AllocError>
    ensures { OnOk result (all_seen shapes.new.items ≡ all_seen shapes.old.items ++ SeenLine class from to ∷ []) }
{
    shapes
        .push(Shape::Line { class, from, to })
        .map_err(AllocError::from)
}

/// Adds a straight line whose end has a head.
pub(crate) fn push_arrow(
    shapes: &mut Vec<Shape>,
    class: Class,
    from: Point,
    to: Point,
) -> Result<(), AllocError>
    ensures { OnOk result (all_seen shapes.new.items ≡ all_seen shapes.old.items ++ SeenArrow class from to ∷ []) }
{
    shapes
        .push(Shape::Arrow { class, from, to })
        .map_err(AllocError::from)
}

/// Adds a circle.
pub(crate) fn push_circle(
    shapes: &mut Vec<Shape>,
    class: Class,
    centre: Point,
    radius: u32,
) -> Result<(), AllocError>
    ensures { OnOk result (all_seen shapes.new.items
        ≡ all_seen shapes.old.items ++ SeenCircle class centre radius ∷ []) }
{
    let circle = Shape::Circle {
        class,
        centre,
        radius,
    };
    shapes.push(circle).map_err(AllocError::from)
}

/// Adds straight lines, each from where the one before ends.
pub(crate) fn push_polyline(
    shapes: &mut Vec<Shape>,
    class: Class,
    points: Vec<Point>,
) -> Result<(), AllocError>
    ensures { OnOk result (all_seen shapes.new.items
        ≡ all_seen shapes.old.items ++ SeenPolyline class points.items ∷ []) }
{
    shapes
        .push(Shape::Polyline { class, points })
        .map_err(AllocError::from)
}

/// Adds a text.
pub(crate) fn push_text(
    shapes: &mut Vec<Shape>,
    class: Class,
    at: Point,
    anchor: Anchor,
    size: u32,
    text: String,
) -> Result<(), AllocError>
    ensures { OnOk result (all_seen shapes.new.items
        ≡ all_seen shapes.old.items ++ SeenText class at anchor size (string_bytes text) ∷ []) }
{
    let shape = Shape::Text {
        class,
        at,
        anchor,
        size,
        text,
    };
    shapes.push(shape).map_err(AllocError::from)
}

/// Adds a number in decimal digits, with its middle at a point.
pub(crate) fn push_number(
    alloc: Global,
    shapes: &mut Vec<Shape>,
    class: Class,
    at: Point,
    size: u32,
    number: u64,
) -> Result<(), AllocError>
    ensures { OnOk result (all_seen shapes.new.items
        ≡ all_seen shapes.old.items ++ SeenText class at Anchor.Middle size (decimal number) ∷ []) }
{
    let text = format!(in alloc; "{number}")?;
    push_text(shapes, class, at, Anchor::Middle, size, text)
}
