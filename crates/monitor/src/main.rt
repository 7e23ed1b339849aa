//! The program `monitor`: hands its arguments, its streams, the system's files and its network to `pd_cli`, which runs
//! it. The parts of a bundle on the input that a command asks for are files too.
#![tactic(auto)]

ghost use Rattle.std.specs.Prelude.{◌≡◌, false};

use app_door::Retried;
use app_host::{FileSource, Network};
use app_parts::{
    Bundled, Given, PartFiles, find_bundle, read_input, report_undivided, report_unread,
};
use app_progress::{Cleared, Limited, Screen, ShownFile, ShownFiles, TimedRun};
use pd_gather::ByteSource;
use std::alloc::Global;
use std::env::{Env, FillError};
use std::io::{IsTerminal, Write};
use std::process::ExitCode;
use std::random::RandomSource;
use std::sync::{Arc, Wait};
use std::thread::Threads;
use std::{env, fs, io, thread};

/// What is said of a bundle that is to be typed at a terminal.
const BUNDLE_READ: &[u8] =
    b"A bundle is read from standard input: the session document, and before each stream a line ---.\n\
`monitor --help` says what else there is.\n";

/// What is said where `-`, the input, stands for two files: what comes on it can't be given to both.
const INPUT_TWICE: &[u8] = b"monitor: - stands for two files\n";

/// How many arguments are `-`.
fn inputs(arguments: &[String]) -> u64 {
    let mut count = 0u64;
    for argument in arguments {
        if argument.as_str() == "-" {
            count = count.saturating_add(1);
        }
    }
    count
}

/// The program's arguments, of which the first is its name.
fn arguments(rt: &HostRuntime) -> io::Result<Vec<String>> {
    Ok(env::args(rt)?.collect(rt.alloc())?)
}

/// The variable of the environment that asks for explanations if it is 1.
const EXPLAIN: &str = "MONITOR_EXPLAIN";

/// Whether the environment asks for explanations. It takes no memory.
fn is_explained(rt: &HostRuntime) -> bool {
    let mut value = [0u8; 8];
    match rt.var(EXPLAIN, &mut value) {
        Ok(1) => value[0] == b'1',
        Ok(_) | Err(_) => false,
    }
}

/// The variable of the environment that names the kind of the terminal.
const KIND: &str = "TERM";

/// Whether a line of the terminal can be written over: it has a kind, which isn't `dumb`. It takes no memory.
fn can_write_over(rt: &HostRuntime) -> bool {
    let mut value = [0u8; 8];
    match rt.var(KIND, &mut value) {
        Ok(0) | Err(FillError::NotPresent) => false,
        Ok(4) => value[0] != b'd' || value[1] != b'u' || value[2] != b'm' || value[3] != b'b',
        Ok(_) | Err(FillError::TooLong) => true,
    }
}

/// What is opened in the place of a standard descriptor that was closed: it can be neither read nor written.
const NOTHING: &str = "/";

/// The status of arguments that are refused.
const MISUSED: u8 = 2;

/// The status if memory runs out.
const FAILED: u8 = 4;

/// The status if the time is over.
const OUT_OF_TIME: u8 = 6;

/// The line for a run for which memory runs out.
const MEMORY: &[u8] = b"monitor: memory\n";

/// Writes this to the errors, and gives the status.
fn report<E: Write>(text: &[u8], errors: &mut E, status: u8) -> u8 {
    let _ = errors.write_all(text);
    status
}

/// What is asked for.
#[derive(Drop)]
struct Asked {
    /// The arguments that are parsed, after the program's name.
    arguments: Vec<String>,
    /// How many seconds the run may take, if that is limited.
    seconds: Option<u64>,
    /// Whether explanations are wanted.
    explain: bool,
    /// Whether the bundle on the input is asked for by a command.
    is_bundled: bool,
}

/// What is asked for: explanations if the errors go to a terminal, or by the word `--explain` or `MONITOR_EXPLAIN=1`.
///
/// # Errors
/// The status of arguments that can't be had, or are refused, which is reported.
fn read_arguments<E: Write + IsTerminal>(rt: &HostRuntime, errors: &mut E) -> Result<Asked, u8> {
    let (arguments, is_asked) = match arguments(rt) {
        Ok(arguments) => pd_cli::without_explain(arguments),
        Err(error) => return Err(pd_cli::report_unread_arguments(&error, errors)),
    };
    let (arguments, seconds) = match pd_cli::without_max_time(arguments) {
        Ok(rest) => rest,
        Err(fault) => return Err(report(fault.text().as_bytes(), errors, MISUSED)),
    };
    let explain = is_asked || is_explained(rt) || errors.is_terminal();
    if inputs(&arguments) > 1 {
        return Err(report(INPUT_TWICE, errors, MISUSED));
    }
    let Ok(
        Bundled {
            arguments,
            is_asked: is_bundled,
        },
    ) = find_bundle(rt.alloc(), arguments)
    else {
        return Err(report(MEMORY, errors, FAILED));
    };
    if explain && (is_bundled || arguments.len() <= 1) && rt.stdin().is_terminal() {
        let _ = errors.write_all(BUNDLE_READ);
    }
    Ok(Asked {
        arguments,
        seconds,
        explain,
        is_bundled,
    })
}

/// Runs the program on what is asked for, over these files, and gives its exit status. The parts of a bundle that a
/// command asks for are read first, and are files too.
fn run_asked<
    S: RandomSource + Threads + Wait + Sync,
    F: FileSource,
    N: Network + Sync,
    I: ByteSource + Drop,
    O: Write,
    E: Write,
>(
    rt: &S,
    files: &F,
    network: &N,
    alloc: Global,
    asked: Asked,
    input: I,
    output: &mut O,
    errors: &mut E,
) -> u8
    requires { I.has_ended input ≡ false }
{
    let Asked {
        arguments,
        seconds: _,
        explain,
        is_bundled,
    } = asked;
    let given = match read_input(alloc, is_bundled, arguments, input) {
        Ok(given) => given,
        Err(fault) => return report_unread(alloc, fault, explain, errors),
    };
    // What is handed on is moved out before a part of it is lent.
    let Given {
        arguments,
        parts,
        input,
    } = given;
    if parts.is_document_alone() {
        return report_undivided(alloc, explain, errors);
    }
    let files = PartFiles::new(files, &parts);
    pd_cli::run(
        rt, &files, network, alloc, arguments, input, explain, output, errors,
    )
}

/// Each of the three standard descriptors that was closed is taken before any other file is opened. Else a file that is
/// opened later would have its number, and what goes to the errors would stand in it.
///
/// If the time is limited, the run is made in a thread of its own, and this one waits for it. If the time is over
/// first, this one returns, and so the process ends with all its threads.
fn main(rt: HostRuntime) -> ExitCode {
    let _input = fs::open(&rt, NOTHING);
    let _output = fs::open(&rt, NOTHING);
    let _errors = fs::open(&rt, NOTHING);
    let mut errors = rt.stderr();
    let asked = match read_arguments(&rt, &mut errors) {
        Ok(asked) => asked,
        Err(status) => return ExitCode::from(status),
    };
    let seconds = asked.seconds;
    let limited = Limited::new(&asked.arguments, seconds.unwrap_or(0), asked.explain);
    let is_shown = errors.is_terminal() && can_write_over(&rt);
    let Ok(ours) = Arc::new(rt.alloc(), TimedRun::new(is_shown || seconds.is_some())) else {
        return ExitCode::from(report(MEMORY, &mut errors, FAILED));
    };
    let Ok(theirs) = Arc::try_clone(&ours) else {
        return ExitCode::from(report(MEMORY, &mut errors, FAILED));
    };
    let run = move || -> u8 {
        // What is handed on is moved out of the closure before a part of it is lent.
        let asked = asked;
        let screen = Screen::new(&rt, &theirs.progress, is_shown);
        let status = run_asked(
            &rt,
            &ShownFiles::new(&rt, &screen),
            &rt,
            rt.alloc(),
            asked,
            ShownFile::new(Retried::new(rt.stdin()), 0, &screen),
            &mut Cleared::new(Retried::new(rt.stdout()), &screen, limited.is_by_lines),
            &mut Cleared::new(Retried::new(rt.stderr()), &screen, false),
        );
        theirs.end(&rt);
        status
    };
    if seconds.is_none() {
        return ExitCode::from(run());
    }
    let Ok(thread) = thread::spawn(&rt, run) else {
        return ExitCode::from(report(MEMORY, &mut errors, FAILED));
    };
    if ours.is_out_of_time(&rt, rt.alloc(), &limited, &mut rt.stdout(), &mut errors) {
        return ExitCode::from(OUT_OF_TIME);
    }
    ExitCode::from(thread.join(&rt))
}
