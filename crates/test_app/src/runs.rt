//! Runs of the program.
use super::networks::Scripted;
use super::sinks::{Limits, Sink};
use super::small::{BUNDLE, Files};
use app_progress::{Cleared, Progress, Screen, ShownFile, ShownFiles};
use pd_cli::run;
use std::alloc::{AllocError, Global};
use std::io::Eprint;
use std::random::RandomSource;
use std::sync::Wait;
use std::thread::Threads;
use std::time::Clock;

/// The session is judged, and nothing that is found is bad.
pub(crate) const SUCCESS: u8 = 0;

/// The session is refused, or something that is found is bad.
pub(crate) const REFUSED: u8 = 1;

/// The arguments are refused.
pub(crate) const MISUSED: u8 = 2;

/// Something can't be read, written, bound or accepted.
pub(crate) const FAILED: u8 = 3;

/// Memory runs out.
pub(crate) const NO_MEMORY: u8 = 4;

/// How a run ended, and what it left.
#[derive(Drop)]
pub(crate) struct Ran {
    pub(crate) status: u8,
    pub(crate) output: Vec<u8>,
    pub(crate) errors: Vec<u8>,
}

impl Ran {
    /// Whether it ended with this status, and left this on the output and on the errors.
    pub(crate) fn is(&self, status: u8, output: &[u8], errors: &[u8]) -> bool {
        self.status == status
            && self.output.as_slice() == output
            && self.errors.as_slice() == errors
    }
}

/// A run on these words, with the bundle on the input, an output and errors, all of which it is handed as `main` hands
/// them on, without a terminal.
pub(crate) fn run_to<T: RandomSource + Threads + Wait + Clock + Eprint + Sync>(
    threads: &T,
    alloc: Global,
    network: &Scripted,
    words: &[&str],
    output: Limits,
    errors: Limits,
) -> Result<Ran, AllocError> {
    let mut arguments = Vec::new(alloc);
    arguments.push(String::from_str(alloc, "monitor")?)?;
    for word in words {
        arguments.push(String::from_str(alloc, word)?)?;
    }
    let mut output = Sink::new(alloc, output);
    let mut errors = Sink::new(alloc, errors);
    let progress = Progress::new(false);
    let screen = Screen::new(threads, &progress, false);
    let status = run(
        threads,
        &ShownFiles::new(&Files, &screen),
        network,
        alloc,
        arguments,
        ShownFile::new(BUNDLE.as_bytes(), 0, &screen),
        false,
        &mut Cleared::new(&mut output, &screen, false),
        &mut Cleared::new(&mut errors, &screen, false),
    );
    Ok(Ran {
        status,
        output: output.taken,
        errors: errors.taken,
    })
}
