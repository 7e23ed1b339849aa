//! What is reported of a run that is ended because its time is over.
use super::progress::Progress;
use super::screen::clear;
use app_host::write_line;
use app_text::{Text, in_rows};
use std::alloc::Global;
use std::io::{Eprint, Write};
use std::sync::atomic::Ordering;
use std::time::Duration;

/// How many bytes are a tenth of the unit in which bytes are said.
const TENTH: u64 = 100_000;

/// The line for a run that is ended because its time is over.
const TIME: &[u8] = b"monitor: time\n";

/// The command that waits for connections.
const SERVE: &str = "serve";

/// The command that writes a line for each run, and a last one.
const TEST: &str = "test";

/// The command that writes a line for each session.
const BATCH: &str = "batch";

/// The command that writes each run as a session in a line.
const BUNDLE: &str = "bundle";

/// A run that may take no more than some seconds, by its arguments.
#[derive(Clone, Copy)]
pub struct Limited {
    /// How many seconds it may take.
    seconds: u64,
    /// Whether an explanation is wanted.
    explain: bool,
    /// Whether a line is written for each run or session: the run may be ended after each of them.
    pub is_by_lines: bool,
    /// Whether runs are tested: a last line says that there are no more.
    pub(crate) is_test: bool,
    /// Whether streams come by connections.
    is_served: bool,
}

/// Whether the arguments ask for this command.
fn asks_for(arguments: &[String], command: &str) -> bool {
    arguments.len() > 1 && arguments[1].as_str() == command
}

impl Limited {
    /// A run on these arguments, of which the first is the program's name, that may take so many seconds.
    pub fn new(arguments: &[String], seconds: u64, explain: bool) -> Limited {
        let is_test = asks_for(arguments, TEST);
        Limited {
            seconds,
            explain,
            is_by_lines: is_test || asks_for(arguments, BATCH) || asks_for(arguments, BUNDLE),
            is_test,
            is_served: asks_for(arguments, SERVE),
        }
    }

    /// How long the run may take.
    pub(crate) fn time(&self) -> Duration {
        Duration::from_secs(self.seconds)
    }
}

/// Says how many bytes, in megabytes.
fn say_megabytes(out: &mut Text, bytes: u64) {
    out.say_number(bytes / TENTH / 10);
    out.say(".");
    out.say_number(bytes / TENTH % 10);
}

/// Says that files were read, and how far.
fn say_reading(out: &mut Text, progress: &Progress) {
    let read = progress.read.load(Ordering::SeqCst);
    let whole = progress.whole.load(Ordering::SeqCst);
    out.say("The files were being read: ");
    say_megabytes(out, read);
    if whole >= read {
        out.say(" of ");
        say_megabytes(out, whole);
    }
    out.say(
        " MB.\nWhat to do: give it more time, or shorter streams; a pipe that stays open is waited for.\n",
    );
}

/// Says to which level a walk had come.
fn say_level(out: &mut Text, progress: &Progress) {
    let level = progress.level.load(Ordering::SeqCst);
    out.say("A walk up the levels had come to level ");
    out.say_number(level.saturating_sub(1));
    out.say(" of ");
    out.say_number(progress.last.load(Ordering::SeqCst));
    out.say(", which has ");
    out.say_number(progress.cuts.load(Ordering::SeqCst));
    out.say(
        " cuts.\nWhat to do: give it more time, or more --workers; or a smaller --width, by which what needs wide \
levels stays unknown; or ask less at once, by --ask. With --beyond-width many predicates need no level.\n",
    );
}

/// Says which predicate was being answered beyond the width.
fn say_predicate(out: &mut Text, progress: &Progress) {
    out.say("Predicate ");
    out.say_number(progress.predicate.load(Ordering::SeqCst));
    out.say(" of ");
    out.say_number(progress.predicates.load(Ordering::SeqCst));
    out.say(
        " was being answered beyond the width.\nWhat to do: give it more time, or ask less at once, by --ask.\n",
    );
}

/// Says what is done once all is read, before a level is walked or a predicate is answered beyond the width.
fn say_between(out: &mut Text, limited: &Limited, progress: &Progress) {
    out.say(if progress.read.load(Ordering::SeqCst) == 0 {
        "Nothing was read yet.\nWhat to do: give it more time; a pipe to which nobody writes is waited for.\n"
    } else if limited.is_served {
        "No level was walked yet: the streams were waited for or read, or the predicates were being answered.\n\
What to do: give it more time, and --wait for streams that may not come.\n"
    } else {
        "All that is read first was read, and no level was being walked yet.\nWhat to do: give it more time, or \
ask less at once, by --ask.\n"
    });
}

/// Explains that the time is over: what was being done, and what to do.
fn explain_time(out: &mut Text, limited: &Limited, progress: &Progress) {
    out.say("The time of --max-time is over, ");
    out.say_number(limited.seconds);
    out.say(" s.\n");
    out.say(if limited.is_test {
        "The lines of the runs that were judged are written, and a last line says that there are no more.\n"
    } else if limited.is_by_lines {
        "The lines of what was done until then are written, and no others.\n"
    } else {
        "Nothing is written to the standard output.\n"
    });
    if progress.level.load(Ordering::SeqCst) > 0 {
        say_level(out, progress);
    } else if progress.predicate.load(Ordering::SeqCst) > 0 {
        say_predicate(out, progress);
    } else if progress.open.load(Ordering::SeqCst) > 0 {
        say_reading(out, progress);
    } else {
        say_between(out, limited, progress);
    }
}

/// Reports that a run is ended because its time is over: an explanation, if one is wanted, and a line.
pub(crate) fn report_time<R: Eprint, E: Write>(
    rt: &R,
    alloc: Global,
    limited: &Limited,
    progress: &Progress,
    errors: &mut E,
) {
    clear(rt, progress);
    if limited.explain {
        let mut out = Text::new(alloc);
        explain_time(&mut out, limited, progress);
        if let Ok(rows) = in_rows(alloc, out.bytes()) {
            let _ = errors.write_all(&rows);
        }
    }
    write_line(TIME, errors);
}
