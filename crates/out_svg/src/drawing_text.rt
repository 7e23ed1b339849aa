//! A drawing's text, also written.
ghost use Rattle.out_svg.specs.Svg.{attribute, drawing_text, labelled, pair, root_text, style_text};
ghost use Rattle.std.specs.Io.KnownBytes.{Appends, Keeps};
ghost use Rattle.std.specs.Prelude.{◌≡◌, ◌++◌, ◌<◌, ℕ, codes, decimal, length, take, Err, IfOk, OnOk};

use super::Drawing;
use super::escape::push_escaped;
use super::shape_text::push_shapes;
use super::style::STYLE;
use super::tags::{push_attribute, push_pair};
use pd_report::{WriteFault, push_bytes, push_number, write_all};
use std::alloc::{AllocError, Global};
use std::io::Write;

/// Appends the part of the plane that a picture of this size shows.
fn push_view_box(out: &mut Vec<u8>, width: u32, height: u32) -> Result<(), AllocError>
    ensures { OnOk result (out.new.items ≡ out.old.items ++ attribute (codes "viewBox")
        (codes "0 0 " ++ decimal width ++ codes " " ++ decimal height)) }
{
    push_bytes(out, b" viewBox=\"0 0 ")?;
    push_number(out, u64::from(width))?;
    push_bytes(out, b" ")?;
    push_number(out, u64::from(height))?;
    push_bytes(out, b"\"")?;
    Ok(())
}

/// Appends the tag that opens a picture of this size.
fn push_root(out: &mut Vec<u8>, width: u32, height: u32) -> Result<(), AllocError>
    ensures { OnOk result (out.new.items ≡ out.old.items ++ root_text width height) }
{
    push_bytes(out, b"<svg xmlns=\"http://www.w3.org/2000/svg\"")?;
    push_pair(out, b"width", b"height", width, height)?;
    push_view_box(out, width, height)?;
    push_bytes(
        out,
        b" role=\"img\" aria-labelledby=\"title description\">\n",
    )?;
    Ok(())
}

/// Appends an element of this tag and id that holds a text.
fn push_labelled(out: &mut Vec<u8>, tag: &[u8], id: &[u8], text: &str) -> Result<(), AllocError>
    ensures { OnOk result (out.new.items ≡ out.old.items ++ labelled tag.now id.now text.now) }
{
    push_bytes(out, b"<")?;
    push_bytes(out, tag)?;
    push_attribute(out, b"id", id)?;
    push_bytes(out, b">")?;
    push_escaped(out, text.as_bytes())?;
    push_bytes(out, b"</")?;
    push_bytes(out, tag)?;
    push_bytes(out, b">\n")
}

/// How each class is drawn, and the head of arrows.
#[tactic(auto, unfolding(crate::specs::Svg::style_text))]
fn style() -> &'static [u8]
    ensures { result.now ≡ style_text }
{
    STYLE
}

/// Appends the light page that is under the shapes.
fn push_page(out: &mut Vec<u8>, width: u32, height: u32) -> Result<(), AllocError>
    ensures { OnOk result (out.new.items ≡ out.old.items
        ++ (codes "<rect class=\"page\"" ++ pair (codes "width") (codes "height") width height ++ codes "/>\n")) }
{
    push_bytes(out, b"<rect class=\"page\"")?;
    push_pair(out, b"width", b"height", width, height)?;
    push_bytes(out, b"/>\n")
}

/// A drawing's text: an SVG element that holds the title, the description, the style and the shapes.
///
/// # Errors
/// Out of memory.
pub fn text(alloc: Global, drawing: &Drawing) -> Result<Vec<u8>, AllocError>
    ensures { IfOk result (λ text. text.items ≡ drawing_text drawing.now) }
{
    let mut out = Vec::new(alloc);
    push_root(&mut out, drawing.width, drawing.height)?;
    push_labelled(&mut out, b"title", b"title", &drawing.title)?;
    push_labelled(&mut out, b"desc", b"description", &drawing.description)?;
    push_bytes(&mut out, style())?;
    push_page(&mut out, drawing.width, drawing.height)?;
    push_shapes(&mut out, &drawing.shapes)?;
    push_bytes(&mut out, b"</svg>\n")?;
    Ok(out)
}

/// Writes a drawing's text. It doesn't flush the writer.
///
/// # Errors
/// `Memory` leaves nothing written. `Write`, if the writer fails, in whatever way, or takes nothing, leaves a prefix
/// of the text written, and not all of it.
pub fn write<W: Write>(alloc: Global, drawing: &Drawing, writer: &mut W) -> Result<(), WriteFault>
    ensures written { OnOk result (Appends (W.contents writer.old) (W.contents writer.new)
        (drawing_text drawing.now)) }
    ensures part { result ≡ Err WriteFault.Write → (taken : ℕ) × (taken < length (drawing_text drawing.now))
        × Appends (W.contents writer.old) (W.contents writer.new) (take taken (drawing_text drawing.now)) }
    ensures memory { result ≡ Err WriteFault.Memory → Keeps (W.contents writer.old) (W.contents writer.new) }
{
    let text = text(alloc, drawing)?;
    write_all(&text, writer)
}
