//! Reports what the command line's parser has to say.
ghost use Rattle.clap.specs.Values.{kind_of};
ghost use Rattle.app_arguments.specs.Arguments.{IsShownKind};
ghost use Rattle.pd_cli.specs.Runs.{IsUnreadLine};
ghost use Rattle.app_arguments.specs.Statuses.{Ends, HelpLeaves, VersionLeaves, MisuseLeaves, IsLineOf, MemoryFailure, Failed, WritesUpTo};
ghost use Rattle.std.specs.IoError.{error_kind};
ghost use Rattle.std.specs.Io.KnownBytes.{Keeps};
ghost use Rattle.std.specs.Prelude.{◌≡◌, ◌≢◌};

use app_arguments::version_line;
use app_host::{MISUSED, SUCCESS, report_fault, write_line};
use clap::Error;
use clap::error::ErrorKind;
use judge_session::EngineFault;
use pd_report::write_all_counted;
use std::io;
use std::io::{ErrorKind as IoErrorKind, Write};

/// Writes the text that was asked for, and flushes the output.
fn show<O: Write>(text: &Error, output: &mut O) -> io::Result<()> {
    write!(output, "{text}")?;
    output.flush()
}

/// Shows the text that was asked for, and gives the exit status.
fn report_shown<O: Write, E: Write>(text: &Error, output: &mut O, errors: &mut E) -> u8
    ensures { Ends (λ ending. HelpLeaves ending (O.contents output.old) (O.contents output.new))
        result (E.contents errors.old) (E.contents errors.new) }
{
    match show(text, output) {
        Ok(()) => SUCCESS,
        Err(_) => report_fault(&EngineFault::Write, errors),
    }
}

/// Writes the line that names the program and its version, flushes the output, and gives the exit status.
fn report_version<O: Write, E: Write>(output: &mut O, errors: &mut E) -> u8
    ensures { Ends (λ ending. VersionLeaves ending (O.contents output.old) (O.contents output.new))
        result (E.contents errors.old) (E.contents errors.new) }
{
    match write_all_counted(version_line().as_bytes(), output) {
        Ok(()) => {
            if output.flush().is_err() {
                return report_fault(&EngineFault::Write, errors);
            }
            SUCCESS
        }
        Err(_) => report_fault(&EngineFault::Write, errors),
    }
}

/// Writes what the parser has to say of these arguments, and gives the exit status: help and the version go to the
/// output, and everything else to the errors.
pub(crate) fn report_parser_error<O: Write, E: Write>(
    error: &Error,
    output: &mut O,
    errors: &mut E,
) -> u8
    ensures memory { kind_of error.now ≡ ErrorKind.OutOfMemory
        → Ends (λ ending. (ending ≡ Failed MemoryFailure) × Keeps (O.contents output.old) (O.contents output.new))
        result (E.contents errors.old) (E.contents errors.new) }
    ensures help { kind_of error.now ≡ ErrorKind.DisplayHelp
        → Ends (λ ending. HelpLeaves ending (O.contents output.old) (O.contents output.new))
        result (E.contents errors.old) (E.contents errors.new) }
    ensures version { kind_of error.now ≡ ErrorKind.DisplayVersion
        → Ends (λ ending. VersionLeaves ending (O.contents output.old) (O.contents output.new))
        result (E.contents errors.old) (E.contents errors.new) }
    ensures misused { kind_of error.now ≢ ErrorKind.OutOfMemory → ¬ IsShownKind (kind_of error.now)
        → Ends (λ ending. MisuseLeaves ending (O.contents output.old) (O.contents output.new))
        result (E.contents errors.old) (E.contents errors.new) }
{
    match error.kind() {
        ErrorKind::OutOfMemory => report_fault(&EngineFault::Memory, errors),
        ErrorKind::DisplayVersion => report_version(output, errors),
        _ if error.use_stderr() => {
            let _ = write!(errors, "{error}");
            MISUSED
        }
        _ => report_shown(error, output, errors),
    }
}

/// Reports that the program's arguments can't be had, and gives the exit status: that of out of memory if it is that,
/// and that of refused arguments if one isn't text.
pub fn report_unread_arguments<E: Write>(error: &io::Error, errors: &mut E) -> u8
    ensures memory { error_kind error.now ≡ IoErrorKind.OutOfMemory → (result ≡ 4)
        × WritesUpTo (IsLineOf MemoryFailure) (E.contents errors.old) (E.contents errors.new) }
    ensures misused { error_kind error.now ≢ IoErrorKind.OutOfMemory → (result ≡ 2)
        × WritesUpTo IsUnreadLine (E.contents errors.old) (E.contents errors.new) }
{
    if error.kind() == IoErrorKind::OutOfMemory {
        return report_fault(&EngineFault::Memory, errors);
    }
    write_line(b"monitor: a word is not UTF-8\n", errors);
    MISUSED
}
