//! Puts words, numbers and shown bytes to the end of a text.
ghost use Rattle.app_text.specs.Shown.{dots, hex_digit, is_plain, shown, shown_byte, shown_name, shown_text};
ghost use Rattle.std.specs.Prelude.{◌≡◌, ◌<◌, ◌++◌, length, decimal, OnOk};

use super::lines::bytes_before;
use pd_report::{push_bytes, push_number};
use std::alloc::AllocError;

/// The most bytes of a name that are shown.
const SHOWN_LIMIT: usize = 100;

/// Whether a byte is shown as it is: a letter, a digit, a sign or a space of ASCII.
fn is_plain(byte: u8) -> bool
    ensures { result ≡ is_plain byte }
{
    b' ' <= byte && byte <= b'~'
}

/// How many columns a shown byte takes: one if it is shown as it is, and four as `\xNN`.
pub(crate) fn columns_of(byte: u8) -> usize
    ensures { result ≡ length (shown_byte byte) }
{
    if is_plain(byte) { 1 } else { 4 }
}

/// The digit of base 16 for a number below 16.
fn hex_digit(number: u8) -> u8
    ensures { number < 16 → result ≡ hex_digit number }
{
    if number < 10 {
        b'0'.saturating_add(number)
    } else {
        b'a'.saturating_add(number.saturating_sub(10))
    }
}

/// Puts a text.
///
/// # Errors
/// Out of memory.
pub(crate) fn put(out: &mut Vec<u8>, text: &str) -> Result<(), AllocError>
    ensures { OnOk result (out.new.items ≡ out.old.items ++ text.now) }
{
    push_bytes(out, text.as_bytes())
}

/// Puts a number in decimal digits.
///
/// # Errors
/// Out of memory.
pub(crate) fn put_number(out: &mut Vec<u8>, number: u64) -> Result<(), AllocError>
    ensures { OnOk result (out.new.items ≡ out.old.items ++ decimal number) }
{
    push_number(out, number)
}

/// Puts a byte, as `\xNN` if it can't be shown as it is.
///
/// # Errors
/// Out of memory.
fn put_byte(out: &mut Vec<u8>, byte: u8) -> Result<(), AllocError>
    ensures { OnOk result (out.new.items ≡ out.old.items ++ shown_byte byte) }
{
    if is_plain(byte) {
        return push_bytes(out, &[byte]);
    }
    push_bytes(
        out,
        &[b'\\', b'x', hex_digit(byte / 16), hex_digit(byte % 16)],
    )
}

/// Puts bytes so that each of them can be seen.
///
/// # Errors
/// Out of memory.
pub(crate) fn put_bytes(out: &mut Vec<u8>, bytes: &[u8]) -> Result<(), AllocError>
    ensures { OnOk result (out.new.items ≡ out.old.items ++ shown bytes.now) }
{
    for byte in bytes {
        put_byte(out, *byte)?;
    }
    Ok(())
}

/// What stands for bytes that aren't shown.
pub(crate) fn dots(is_cut: bool) -> &'static str
    ensures { result.now ≡ dots is_cut }
{
    if is_cut { "..." } else { "" }
}

/// Puts bytes so that each of them can be seen, and no more of them than a name may have.
///
/// # Errors
/// Out of memory.
pub(crate) fn put_shown(out: &mut Vec<u8>, bytes: &[u8]) -> Result<(), AllocError>
    ensures { OnOk result (out.new.items ≡ out.old.items ++ shown_text bytes.now) }
{
    put_bytes(out, bytes_before(bytes, SHOWN_LIMIT))?;
    put(out, dots(bytes.len() > SHOWN_LIMIT))?;
    Ok(())
}

/// Puts a name between two backquotes.
///
/// # Errors
/// Out of memory.
pub(crate) fn put_name(out: &mut Vec<u8>, name: &str) -> Result<(), AllocError>
    ensures { OnOk result (out.new.items ≡ out.old.items ++ shown_name name.now) }
{
    put(out, "`")?;
    put_shown(out, name.as_bytes())?;
    put(out, "`")?;
    Ok(())
}
