//! Texts without mark-up.
ghost use Rattle.out_svg.specs.Escapes.{IsEscaped, escape, escaped_byte};
ghost use Rattle.std.specs.Prelude.{◌≡◌, ◌++◌, ℕ, List, OnOk};

use pd_report::push_bytes;
use std::alloc::AllocError;

/// Appends a byte of a text, which stands after these two bytes of it.
fn push_escaped_byte(out: &mut Vec<u8>, earlier: u8, last: u8, byte: u8) -> Result<(), AllocError>
    ensures { OnOk result (out.new.items ≡ out.old.items ++ escaped_byte earlier last byte) }
{
    match byte {
        b'&' => push_bytes(out, b"&amp;"),
        b'<' => push_bytes(out, b"&lt;"),
        b'>' => push_bytes(out, b"&gt;"),
        b'"' => push_bytes(out, b"&quot;"),
        b'\'' => push_bytes(out, b"&#39;"),
        0..=31 | 127 => push_bytes(out, b"\xef\xbf\xbd"),
        190 | 191 if earlier == 239 && last == 191 => push_bytes(out, b"\xbd"),
        _ => out.push(byte).map_err(AllocError::from),
    }
}

/// Appends a text as it stands in an element or between quotes.
///
/// # Errors
/// Out of memory.
pub fn push_escaped(out: &mut Vec<u8>, text: &[u8]) -> Result<(), AllocError>
    ensures { OnOk result (out.new.items ≡ out.old.items ++ escape text.now) }
{
    let mut earlier = 0;
    let mut last = 0;
    for byte in text {
        push_escaped_byte(out, earlier, last, *byte)?;
        earlier = last;
        last = *byte;
    }
    Ok(())
}

/// The law of texts that are put in: whatever their bytes are, what is written is plain bytes and references, of which
/// none is read as mark-up. It has no code.
pub fn escaped()
    ensures { (text : List ℕ) → IsEscaped (escape text) }
{}
