//! The element of a shape.
ghost use Rattle.out_svg.specs.Svg.{anchor_word, attribute, ends_text, pair, point_text, shape_text};
ghost use Rattle.std.specs.Prelude.{◌≡◌, ◌++◌, codes, decimal, flat_map, OnOk};

use super::escape::push_escaped;
use super::tags::{push_attribute, push_length, push_opened, push_pair};
use super::{Anchor, Point, Shape};
use pd_report::{push_bytes, push_number};
use std::alloc::AllocError;

/// The word for an anchor.
fn anchor_word(anchor: Anchor) -> &'static [u8]
    ensures { result.now ≡ anchor_word anchor }
{
    match anchor {
        Anchor::Start => b"start",
        Anchor::Middle => b"middle",
        Anchor::End => b"end",
    }
}

/// Appends the ends of a line.
#[tactic(auto, unfolding(crate::specs::Svg::ends_text))]
fn push_ends(out: &mut Vec<u8>, from: Point, to: Point) -> Result<(), AllocError>
    ensures { OnOk result (out.new.items ≡ out.old.items ++ ends_text from to) }
{
    push_pair(out, b"x1", b"y1", from.x, from.y)?;
    push_pair(out, b"x2", b"y2", to.x, to.y)
}

/// Appends a point.
fn push_point(out: &mut Vec<u8>, point: Point) -> Result<(), AllocError>
    ensures { OnOk result (out.new.items ≡ out.old.items ++ point_text point) }
{
    push_bytes(out, b" ")?;
    push_number(out, u64::from(point.x))?;
    push_bytes(out, b",")?;
    push_number(out, u64::from(point.y))
}

/// Appends points, each after a space.
fn push_points(out: &mut Vec<u8>, points: &[Point]) -> Result<(), AllocError>
    ensures { OnOk result (out.new.items ≡ out.old.items ++ flat_map point_text points.now) }
{
    for point in points {
        push_point(out, *point)?;
    }
    Ok(())
}

/// Appends the points of a line, as an attribute.
#[tactic(auto, unfolding(crate::specs::Svg::attribute))]
fn push_polyline(out: &mut Vec<u8>, points: &[Point]) -> Result<(), AllocError>
    ensures { OnOk result (out.new.items ≡ out.old.items
        ++ attribute (codes "points") (flat_map point_text points.now)) }
{
    push_bytes(out, b" points=\"")?;
    push_points(out, points)?;
    push_bytes(out, b"\"")
}

/// Appends the attributes of a text.
fn push_text(out: &mut Vec<u8>, at: Point, anchor: Anchor, size: u32) -> Result<(), AllocError>
    ensures { OnOk result (out.new.items ≡ out.old.items ++ (pair (codes "x") (codes "y") at.x at.y
        ++ attribute (codes "text-anchor") (anchor_word anchor) ++ attribute (codes "font-size") (decimal size))) }
{
    push_pair(out, b"x", b"y", at.x, at.y)?;
    push_attribute(out, b"text-anchor", anchor_word(anchor))?;
    push_length(out, b"font-size", size)
}

/// Appends the element of a shape, and an LF.
pub(crate) fn push_shape(out: &mut Vec<u8>, shape: &Shape) -> Result<(), AllocError>
    ensures { OnOk result (out.new.items ≡ out.old.items ++ shape_text shape.now) }
{
    match shape {
        Shape::Line { class, from, to } => {
            push_opened(out, b"line", *class)?;
            push_ends(out, *from, *to)?;
            push_bytes(out, b"/>\n")
        }
        Shape::Arrow { class, from, to } => {
            push_opened(out, b"line", *class)?;
            push_ends(out, *from, *to)?;
            push_attribute(out, b"marker-end", b"url(#head)")?;
            push_bytes(out, b"/>\n")
        }
        Shape::Circle {
            class,
            centre,
            radius,
        } => {
            push_opened(out, b"circle", *class)?;
            push_pair(out, b"cx", b"cy", centre.x, centre.y)?;
            push_length(out, b"r", *radius)?;
            push_bytes(out, b"/>\n")
        }
        Shape::Polyline { class, points } => {
            push_opened(out, b"polyline", *class)?;
            push_polyline(out, points)?;
            push_bytes(out, b"/>\n")
        }
        Shape::Text {
            class,
            at,
            anchor,
            size,
            text,
        } => {
            push_opened(out, b"text", *class)?;
            push_text(out, *at, *anchor, *size)?;
            push_bytes(out, b">")?;
            push_escaped(out, text.as_bytes())?;
            push_bytes(out, b"</text>\n")
        }
    }
}

/// Appends the elements of shapes.
pub(crate) fn push_shapes(out: &mut Vec<u8>, shapes: &[Shape]) -> Result<(), AllocError>
    ensures { OnOk result (out.new.items ≡ out.old.items ++ flat_map shape_text shapes.now) }
{
    for shape in shapes {
        push_shape(out, shape)?;
    }
    Ok(())
}
