//! Texts of JSON.
ghost use Rattle.out_page.specs.JsonTexts.{escaped_byte, hex_digit, is_escaped, listed, quoted};
ghost use Rattle.std.specs.Fmt.{signed_decimal};
ghost use Rattle.std.specs.Prelude.{◌≡◌, ◌++◌, ◌∷◌, ◌<◌, ◌/◌, ◌%◌, [], codes, decimal, flat_map, map, string_bytes, OnOk};

use itoa::Buffer;
use pd_report::{push_bytes, push_number};
use std::alloc::AllocError;

/// Whether a text doesn't hold this byte as it is.
fn is_escaped(byte: u8) -> bool
    ensures { result ≡ is_escaped byte }
{
    byte <= 31
        || byte == b'"'
        || byte == b'&'
        || byte == b'<'
        || byte == b'>'
        || byte == b'\\'
        || byte == 127
}

/// A digit to the base 16.
fn hex_digit(digit: u8) -> u8
    requires { digit < 16 }
    ensures { result ≡ hex_digit digit }
{
    if digit < 10 {
        b'0' + digit
    } else {
        b'a' - 10 + digit
    }
}

/// Appends a byte by its number.
fn push_number_of(out: &mut Vec<u8>, byte: u8) -> Result<(), AllocError>
    ensures { OnOk result (out.new.items ≡ out.old.items
        ++ (codes "\\u00" ++ hex_digit (byte / 16) ∷ hex_digit (byte % 16) ∷ [])) }
{
    push_bytes(out, b"\\u00")?;
    out.push(hex_digit(byte / 16))?;
    out.push(hex_digit(byte % 16))?;
    Ok(())
}

/// Appends a byte of a text, as itself or by its number.
fn push_escaped_byte(out: &mut Vec<u8>, byte: u8) -> Result<(), AllocError>
    ensures { OnOk result (out.new.items ≡ out.old.items ++ escaped_byte byte) }
{
    if is_escaped(byte) {
        return push_number_of(out, byte);
    }
    out.push(byte).map_err(AllocError::from)
}

/// Appends the bytes of a text, each as itself or by its number.
fn push_escaped(out: &mut Vec<u8>, text: &[u8]) -> Result<(), AllocError>
    ensures { OnOk result (out.new.items ≡ out.old.items ++ flat_map escaped_byte text.now) }
{
    for byte in text {
        push_escaped_byte(out, *byte)?;
    }
    Ok(())
}

/// Appends a text of JSON.
pub(crate) fn push_quoted(out: &mut Vec<u8>, text: &[u8]) -> Result<(), AllocError>
    ensures { OnOk result (out.new.items ≡ out.old.items ++ quoted text.now) }
{
    push_bytes(out, b"\"")?;
    push_escaped(out, text)?;
    push_bytes(out, b"\"")
}

/// Appends a name as a text of JSON.
fn push_name(out: &mut Vec<u8>, name: &String) -> Result<(), AllocError>
    ensures { OnOk result (out.new.items ≡ out.old.items ++ quoted (string_bytes name.now)) }
{
    push_quoted(out, name.as_bytes())
}

/// Appends names as texts of JSON with a comma between each two.
pub(crate) fn push_names(out: &mut Vec<u8>, names: &[String]) -> Result<(), AllocError>
    ensures { OnOk result (out.new.items ≡ out.old.items ++ listed quoted (map string_bytes names.now)) }
{
    let Some((first, others)) = names.split_first() else {
        return Ok(());
    };
    push_name(out, first)?;
    for name in others {
        push_bytes(out, b",")?;
        push_name(out, name)?;
    }
    Ok(())
}

/// Appends a signed number in decimal digits.
pub(crate) fn push_signed(out: &mut Vec<u8>, number: i64) -> Result<(), AllocError>
    ensures { OnOk result (out.new.items ≡ out.old.items ++ signed_decimal number) }
{
    let mut buffer = Buffer::new();
    out.extend_from_slice(buffer.format(number).as_bytes())
}

/// Appends a place among others, counted from 0.
pub(crate) fn push_index(out: &mut Vec<u8>, index: usize) -> Result<(), AllocError>
    ensures { OnOk result (out.new.items ≡ out.old.items ++ decimal index) }
{
    push_number(out, index as u64)
}
