//! Calls of the engine, and in which word each ends.
use super::readers::Reader;
use super::writers::Writer;
use judge_draw::check;
use judge_session::EngineFault;
use pd_engine::{NoGate, Outcome, judge, judge_bundle};
use std::alloc::Global;
use std::random::RandomSource;
use std::sync::Wait;
use std::thread::Threads;

/// The word for a fault.
pub(crate) fn fault_word(fault: &EngineFault) -> &'static str {
    match fault {
        EngineFault::Memory => "memory",
        EngineFault::Write => "write",
        EngineFault::Read => "read",
        EngineFault::BundleLong => "long",
    }
}

/// The word for how a judgement ended.
pub(crate) fn outcome_word(end: &Result<Outcome, EngineFault>) -> &'static str {
    match end {
        Ok(outcome) => match outcome {
            Outcome::Judged => "judged",
            Outcome::Refused => "refused",
        },
        Err(fault) => fault_word(fault),
    }
}

/// The word for how a call ends that would end in this one, if its writer has room for so much of its text.
pub(crate) fn due_word(room: usize, text: &str, end: &'static str) -> &'static str {
    if room < text.len() {
        return "write";
    }
    end
}

/// The word for what a check finds.
fn found_word(good: bool) -> &'static str {
    if good { "good" } else { "bad" }
}

/// Judges a session, and says how that ended.
pub(crate) fn judged<S: RandomSource + Threads + Wait + Sync>(
    rt: &S,
    alloc: Global,
    document: &str,
    readers: Vec<Reader<'_>>,
    writer: &mut Writer,
) -> &'static str {
    let end = judge(rt, alloc, document.as_bytes(), readers, 1, &NoGate, writer);
    outcome_word(&end)
}

/// Judges a bundle, and says how that ended.
pub(crate) fn bundle_judged<S: RandomSource + Threads + Wait + Sync>(
    rt: &S,
    alloc: Global,
    reader: Reader<'_>,
    writer: &mut Writer,
) -> &'static str {
    let end = judge_bundle(rt, alloc, reader, 1, &NoGate, writer);
    outcome_word(&end)
}

/// Checks a report, and says how that ended.
pub(crate) fn checked<S: RandomSource + Threads + Wait + Sync>(
    rt: &S,
    alloc: Global,
    document: &str,
    report: &str,
    readers: Vec<Reader<'_>>,
    writer: &mut Writer,
) -> &'static str {
    let end = check(
        rt,
        alloc,
        document.as_bytes(),
        report.as_bytes(),
        readers,
        writer,
    );
    match end {
        Ok(good) => found_word(good),
        Err(fault) => fault_word(&fault),
    }
}
