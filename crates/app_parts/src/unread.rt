//! Reports that a bundle can't be read, or is none.
use app_explain::{explain_bundle_fault, explain_memory};
use app_host::{MISUSED, report_fault, write_line};
use app_text::{Text, in_rows};
use judge_session::EngineFault;
use read_bundle::BundleFault;
use std::alloc::Global;
use std::io::Write;

/// What is explained of an input that has no separator.
const UNDIVIDED: &str =
    "No line of standard input is ---, so there is no stream.\nExpected: the session document, and \
before each stream a line ---.\nWhat to do: put what the processes recorded after the document, or name the files of \
the streams after the -.\n";

/// The line that reports it.
const UNDIVIDED_LINE: &[u8] = b"monitor: no line --- in the bundle\n";

/// Explains why the bundle wasn't read.
fn explain_unread(out: &mut Text, fault: BundleFault) {
    match fault {
        BundleFault::Memory => explain_memory(out),
        BundleFault::Read => explain_bundle_fault(out, false),
        BundleFault::Long => explain_bundle_fault(out, true),
    }
}

/// Writes an explanation in rows, or as it is, if memory runs out for them.
fn write_rows<E: Write>(alloc: Global, text: &[u8], errors: &mut E) {
    match in_rows(alloc, text) {
        Ok(rows) => write_line(&rows, errors),
        Err(_) => write_line(text, errors),
    }
}

/// Reports that the input has no separator, where a command asks for a bundle: an explanation, if one is wanted, and a
/// line. It gives the exit status.
pub fn report_undivided<E: Write>(alloc: Global, explain: bool, errors: &mut E) -> u8 {
    if explain {
        write_rows(alloc, UNDIVIDED.as_bytes(), errors);
    }
    write_line(UNDIVIDED_LINE, errors);
    MISUSED
}

/// Reports why the bundle on the input wasn't read, as it is reported of one that is judged without arguments: an
/// explanation, if one is wanted, and a line. It gives the exit status.
pub fn report_unread<E: Write>(
    alloc: Global,
    fault: BundleFault,
    explain: bool,
    errors: &mut E,
) -> u8 {
    if explain {
        let mut out = Text::new(alloc);
        explain_unread(&mut out, fault);
        write_rows(alloc, out.bytes(), errors);
    }
    report_fault(&EngineFault::from(fault), errors)
}
