//! The fields of a line of text.
ghost use Rattle.def_format.specs.Reports.{place_text, with_commas};
ghost use Rattle.pd_report.specs.Steps.{name_at, names_at, names_view, AreBelow};
ghost use Rattle.pd_report.specs.Views.{named_places_view};
ghost use Rattle.std.specs.Prelude.{◌≡◌, ◌<◌, ◌++◌, decimal, length, map, OnErr, OnOk};

use itoa::Buffer;
use std::alloc::AllocError;

/// Appends bytes.
///
/// # Errors
/// Out of memory; nothing is appended then.
pub fn push_bytes(out: &mut Vec<u8>, bytes: &[u8]) -> Result<(), AllocError>
    ensures ok { OnOk result (out.new.items ≡ out.old.items ++ bytes.now) }
    ensures err { OnErr result (out.new.items ≡ out.old.items) }
{
    out.extend_from_slice(bytes)
}

/// Appends a number in decimal digits.
///
/// # Errors
/// Out of memory; nothing is appended then.
pub fn push_number(out: &mut Vec<u8>, number: u64) -> Result<(), AllocError>
    ensures ok { OnOk result (out.new.items ≡ out.old.items ++ decimal number) }
    ensures err { OnErr result (out.new.items ≡ out.old.items) }
{
    let mut buffer = Buffer::new();
    out.extend_from_slice(buffer.format(number).as_bytes())
}

/// Appends numbers with a comma between each two.
pub(crate) fn push_numbers(out: &mut Vec<u8>, numbers: &[u64]) -> Result<(), AllocError>
    ensures { OnOk result (out.new.items ≡ out.old.items ++ with_commas (map decimal numbers.now)) }
{
    let Some((first, others)) = numbers.split_first() else {
        return Ok(());
    };
    push_number(out, *first)?;
    for number in others {
        push_bytes(out, b",")?;
        push_number(out, *number)?;
    }
    Ok(())
}

/// Appends the name at this place.
fn push_name(out: &mut Vec<u8>, names: &[String], step: usize) -> Result<(), AllocError>
    requires { step < length names.now }
    ensures { OnOk result (out.new.items ≡ out.old.items ++ name_at (names_view names.now) step) }
{
    push_bytes(out, names[step].as_bytes())?;
    Ok(())
}

/// Appends the names at these places, with a comma between each two.
pub(crate) fn push_names(
    out: &mut Vec<u8>,
    names: &[String],
    steps: &[usize],
) -> Result<(), AllocError>
    requires { AreBelow (length names.now) steps.now }
    ensures { OnOk result (out.new.items ≡ out.old.items ++ with_commas (names_at (names_view names.now) steps.now)) }
{
    let Some((first, others)) = steps.split_first() else {
        return Ok(());
    };
    push_name(out, names, *first)?;
    for step in others {
        push_bytes(out, b",")?;
        push_name(out, names, *step)?;
    }
    Ok(())
}

/// Appends an event: the name of its process, and its number.
pub(crate) fn push_place(out: &mut Vec<u8>, name: &str, number: u64) -> Result<(), AllocError>
    ensures { OnOk result (out.new.items ≡ out.old.items ++ place_text (record { name = name.now; number = number })) }
{
    push_bytes(out, name.as_bytes())?;
    push_bytes(out, b"#")?;
    push_number(out, number)
}

/// Appends events with a comma between each two.
pub(crate) fn push_places(out: &mut Vec<u8>, places: &[(String, u64)]) -> Result<(), AllocError>
    ensures { OnOk result (out.new.items ≡ out.old.items
        ++ with_commas (map place_text (named_places_view places.now))) }
{
    let Some(((name, number), others)) = places.split_first() else {
        return Ok(());
    };
    push_place(out, name, *number)?;
    for (name, number) in others {
        push_bytes(out, b",")?;
        push_place(out, name, *number)?;
    }
    Ok(())
}
