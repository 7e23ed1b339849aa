//! Writes a text and flushes the output.
ghost use Rattle.std.specs.Io.KnownBytes.{Appends};
ghost use Rattle.std.specs.Prelude.{◌≡◌, ◌≤◌, IsOkUnless, OnErr, OnOk, length, take, ℕ};

use judge_session::EngineFault;
use pd_report::write_all;
use std::io::Write;

/// Writes the whole text, and flushes the output.
///
/// # Errors
/// `Write` leaves a prefix of the text written, or all of it if only the flush failed.
pub fn write_flushed<O: Write>(text: &[u8], output: &mut O) -> Result<(), EngineFault>
    ensures written { OnOk result (Appends (O.contents output.old) (O.contents output.new) text.now) }
    ensures part { OnErr result ((count : ℕ) × (count ≤ length text.now)
        × Appends (O.contents output.old) (O.contents output.new) (take count text.now)) }
    ensures err { IsOkUnless result EngineFault.Write }
{
    if write_all(text, output).is_err() {
        return Err(EngineFault::Write);
    }
    if output.flush().is_err() {
        return Err(EngineFault::Write);
    }
    Ok(())
}
