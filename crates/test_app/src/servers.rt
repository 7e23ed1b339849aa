//! Streams and watchers that can't be accepted, watchers that take nothing, and files that can't be flushed or named,
//! of a session or of a port.
use super::networks::Scripted;
use super::runs::{FAILED, REFUSED, SUCCESS, run_to};
use super::sinks::AMPLE;
use super::small::{OF_A, OF_B, REPORT};
use std::test::Fail;

/// The line that reports a connection that can't be accepted.
const NETWORK_LINE: &str = "monitor: network\n";

/// The streams that connect to a server, with its status, its report, and what it writes on standard error.
const SERVED: [(&str, &[&str], u8, &str, &str); 7] = [
    ("two streams", &[OF_A, OF_B], SUCCESS, REPORT, ""),
    ("the other order", &[OF_B, OF_A], SUCCESS, REPORT, ""),
    ("a third stream", &[OF_A, OF_B, OF_B], SUCCESS, REPORT, ""),
    (
        "a stream that ends within a line",
        &["{\"process\":\"a\"}\n{\"set", OF_B],
        REFUSED,
        "refused stream 1 line 2 json\n",
        "",
    ),
    (
        "garbage",
        &[OF_A, "\u{0}\u{1}\n"],
        REFUSED,
        "refused stream 2 line 1 json\n",
        "",
    ),
    ("no second stream", &[OF_A], FAILED, "", NETWORK_LINE),
    ("no stream", &[], FAILED, "", NETWORK_LINE),
];

/// Command lines of a server, and whether watchers can connect. Watchers that take nothing, watchers that can't be
/// accepted, and workers change nothing.
const WATCHED: [(bool, &[&str]); 5] = [
    (true, &["serve", "spec", "--socket", "s", "--watchers", "2"]),
    (false, &["serve", "spec", "--port", "1", "--watchers", "0"]),
    (
        true,
        &[
            "serve",
            "spec",
            "--port",
            "1",
            "--watchers",
            "1",
            "--workers",
            "1",
        ],
    ),
    (
        true,
        &[
            "serve",
            "spec",
            "--port",
            "1",
            "--watchers",
            "10",
            "--workers",
            "4",
        ],
    ),
    (
        false,
        &[
            "serve",
            "spec",
            "--port",
            "1",
            "--watchers",
            "64",
            "--workers",
            "16",
        ],
    ),
];

#[test]
fn servers_end_by_their_connections(rt: HostRuntime) -> Result<(), Fail> {
    for (name, streams, status, text, line) in SERVED {
        for (has_watchers, words) in WATCHED {
            let network = Scripted::new(streams, has_watchers);
            let ran = run_to(&rt, rt.alloc(), &network, words, AMPLE, AMPLE)?;
            assert!(rt; ran.is(status, text.as_bytes(), line.as_bytes()), "{name}");
        }
    }
    Ok(())
}

/// Folders in which a session is kept, with the status, the report, and what is written on standard error.
const KEPT: [(&str, u8, &str, &str); 3] = [
    ("kept", SUCCESS, REPORT, ""),
    ("unflushed", FAILED, "", "monitor: write\n"),
    ("unnamed", FAILED, REPORT, "monitor: write\n"),
];

#[test]
fn a_session_is_kept_if_its_files_can_be_flushed_and_named(rt: HostRuntime) -> Result<(), Fail> {
    for (folder, status, text, line) in KEPT {
        let network = Scripted::new(&[OF_A, OF_B], false);
        let words = ["serve", "spec", "--port", "1", "--keep", folder];
        let ran = run_to(&rt, rt.alloc(), &network, &words, AMPLE, AMPLE)?;
        assert!(rt;
            ran.is(status, text.as_bytes(), line.as_bytes()),
            "{folder}"
        );
    }
    Ok(())
}

/// Files of a port, with the status, the report, and what is written on standard error.
const PORT_FILES: [(&str, u8, &str, &str); 3] = [
    ("port", SUCCESS, REPORT, ""),
    ("unflushed", FAILED, "", "monitor: write\n"),
    ("unnamed", FAILED, "", "monitor: write\n"),
];

#[test]
fn streams_are_accepted_if_the_file_of_the_port_can_be_flushed_and_named(
    rt: HostRuntime,
) -> Result<(), Fail> {
    for (file, status, text, line) in PORT_FILES {
        let network = Scripted::new(&[OF_A, OF_B], false);
        let words = ["serve", "spec", "--port", "0", "--port-file", file];
        let ran = run_to(&rt, rt.alloc(), &network, &words, AMPLE, AMPLE)?;
        assert!(rt; ran.is(status, text.as_bytes(), line.as_bytes()), "{file}");
    }
    Ok(())
}
