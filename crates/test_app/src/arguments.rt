//! Arguments that can't be had.
use super::runs::{MISUSED, NO_MEMORY};
use super::sinks::{AMPLE, FULL, SHORT, SLOW, Sink};
use pd_cli::report_unread_arguments;
use std::io;
use std::test::Fail;

#[test]
fn arguments_that_cannot_be_had(rt: HostRuntime) -> Result<(), Fail> {
    for (kind, want, line) in [
        (io::ErrorKind::OutOfMemory, NO_MEMORY, "monitor: memory\n"),
        (
            io::ErrorKind::InvalidData,
            MISUSED,
            "monitor: a word is not UTF-8\n",
        ),
    ] {
        for (limits, count) in [
            (AMPLE, line.len()),
            (SLOW, line.len()),
            (SHORT, 10),
            (FULL, 0),
        ] {
            let mut errors = Sink::new(rt.alloc(), limits);
            let status = report_unread_arguments(&io::Error::from(kind), &mut errors);
            assert!(rt; status == want && errors.taken.len() == count, "{line}");
            assert!(rt; line.as_bytes().starts_with(&errors.taken), "{line}");
        }
    }
    Ok(())
}
