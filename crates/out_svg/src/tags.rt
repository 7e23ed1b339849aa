//! Elements and their attributes.
ghost use Rattle.out_svg.specs.Svg.{attribute, class_name, opened, pair};
ghost use Rattle.std.specs.Prelude.{◌≡◌, ◌++◌, decimal, OnOk};

use super::Class;
use pd_report::{push_bytes, push_number};
use std::alloc::AllocError;

/// Appends an attribute whose value holds no mark-up.
#[tactic(auto, unfolding(crate::specs::Svg::attribute))]
pub(crate) fn push_attribute(out: &mut Vec<u8>, name: &[u8], value: &[u8]) -> Result<(), AllocError>
    ensures { OnOk result (out.new.items ≡ out.old.items ++ attribute name.now value.now) }
{
    push_bytes(out, b" ")?;
    push_bytes(out, name)?;
    push_bytes(out, b"=\"")?;
    push_bytes(out, value)?;
    push_bytes(out, b"\"")
}

/// Appends an attribute that is a number.
#[tactic(auto, unfolding(crate::specs::Svg::attribute))]
pub(crate) fn push_length(out: &mut Vec<u8>, name: &[u8], value: u32) -> Result<(), AllocError>
    ensures { OnOk result (out.new.items ≡ out.old.items ++ attribute name.now (decimal value)) }
{
    push_bytes(out, b" ")?;
    push_bytes(out, name)?;
    push_bytes(out, b"=\"")?;
    push_number(out, u64::from(value))?;
    push_bytes(out, b"\"")
}

/// Appends two numbers, as attributes of these names.
#[tactic(auto, unfolding(crate::specs::Svg::pair))]
pub(crate) fn push_pair(
    out: &mut Vec<u8>,
    x: &[u8],
    y: &[u8],
    a: u32,
    b: u32,
) -> Result<(), AllocError>
    ensures { OnOk result (out.new.items ≡ out.old.items ++ pair x.now y.now a b) }
{
    push_length(out, x, a)?;
    push_length(out, y, b)
}

/// The name of a class.
fn class_name(class: Class) -> &'static [u8]
    ensures { result.now ≡ class_name class }
{
    match class {
        Class::Process => b"process",
        Class::Past => b"past",
        Class::Next => b"next",
        Class::Message => b"message",
        Class::Flight => b"flight",
        Class::Beyond => b"beyond",
        Class::Cut => b"cut",
        Class::Number => b"number",
        Class::Step => b"step",
        Class::Value => b"value",
        Class::Name => b"name",
        Class::Note => b"note",
    }
}

/// Appends the beginning of an element of this tag and class.
#[tactic(auto, unfolding(crate::specs::Svg::opened))]
pub(crate) fn push_opened(out: &mut Vec<u8>, tag: &[u8], class: Class) -> Result<(), AllocError>
    ensures { OnOk result (out.new.items ≡ out.old.items ++ opened tag.now class) }
{
    push_bytes(out, b"<")?;
    push_bytes(out, tag)?;
    push_attribute(out, b"class", class_name(class))
}
