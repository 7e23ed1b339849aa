//! Writes a text, and a report.
ghost use Rattle.def_format.specs.Reports.{report_text};
ghost use Rattle.pd_report.specs.Views.{report_view};
ghost use Rattle.std.specs.Io.KnownBytes.{Appends, Keeps};
ghost use Rattle.std.specs.Prelude.{◌≡◌, ◌<◌, ℕ, length, take, Err, IfErr, OnErr, OnOk, IsOkUnless};

use super::fault::WriteFault;
use super::report::Report;
use super::report_text::text;
use std::alloc::Global;
use std::io;
use std::io::{ErrorKind, Write};

/// Writes the whole text, in as many calls of the writer as it asks for. It doesn't flush the writer.
///
/// # Errors
/// The number of bytes that the writer had taken when it failed, or took nothing, and in what way it failed. They are a
/// prefix of the text, and not all of it.
pub fn try_write_all<W: Write>(text: &[u8], writer: &mut W) -> Result<(), (u64, io::Error)>
    ensures written { OnOk result (Appends (W.contents writer.old) (W.contents writer.new) text.now) }
    ensures part { IfErr result (λ fault. (fault.0 < length text.now)
        × Appends (W.contents writer.old) (W.contents writer.new) (take fault.0 text.now)) }
{
    let mut taken = 0;
    while taken < text.len() {
        match writer.write(&text[taken..]) {
            Ok(0) => return Err((taken as u64, io::Error::from(ErrorKind::WriteZero))),
            Err(error) => return Err((taken as u64, error)),
            Ok(count) => taken += count,
        }
    }
    Ok(())
}

/// Writes the whole text, as [`try_write_all`] does, and takes no memory. It doesn't flush the writer.
///
/// # Errors
/// The number of bytes that the writer had taken when it failed, in whatever way, or took nothing. They are a prefix
/// of the text, and not all of it.
pub fn write_all_counted<W: Write>(text: &[u8], writer: &mut W) -> Result<(), u64>
    ensures written { OnOk result (Appends (W.contents writer.old) (W.contents writer.new) text.now) }
    ensures part { IfErr result (λ taken. (taken < length text.now)
        × Appends (W.contents writer.old) (W.contents writer.new) (take taken text.now)) }
{
    match try_write_all(text, writer) {
        Ok(()) => Ok(()),
        Err((taken, _)) => Err(taken),
    }
}

/// Writes the whole text, as [`write_all_counted`] does. It doesn't flush the writer.
///
/// # Errors
/// `Write`, if the writer fails, in whatever way, or takes nothing. A prefix of the text was written then, and not
/// all of it.
pub fn write_all<W: Write>(text: &[u8], writer: &mut W) -> Result<(), WriteFault>
    ensures written { OnOk result (Appends (W.contents writer.old) (W.contents writer.new) text.now) }
    ensures part { OnErr result ((taken : ℕ) × (taken < length text.now)
        × Appends (W.contents writer.old) (W.contents writer.new) (take taken text.now)) }
    ensures err { IsOkUnless result WriteFault.Write }
{
    match write_all_counted(text, writer) {
        Ok(()) => Ok(()),
        Err(_) => Err(WriteFault::Write),
    }
}

/// Writes a report's text. It doesn't flush the writer.
///
/// # Errors
/// `Memory` leaves nothing written. `Write`, if the writer fails, in whatever way, or takes nothing, leaves a prefix
/// of the text written, and not all of it.
pub fn write<W: Write>(alloc: Global, report: &Report, writer: &mut W) -> Result<(), WriteFault>
    ensures written { OnOk result (Appends (W.contents writer.old) (W.contents writer.new)
        (report_text (report_view report.now))) }
    ensures part { result ≡ Err WriteFault.Write → (taken : ℕ) × (taken < length (report_text (report_view report.now)))
        × Appends (W.contents writer.old) (W.contents writer.new) (take taken (report_text (report_view report.now))) }
    ensures memory { result ≡ Err WriteFault.Memory → Keeps (W.contents writer.old) (W.contents writer.new) }
{
    let text = text(alloc, report)?;
    write_all(&text, writer)
}
