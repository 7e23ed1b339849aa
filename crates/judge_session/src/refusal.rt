//! Refusals in the words of a report.
ghost use Rattle.pd_report.specs.Views.{named_place_view, refusal_view};
ghost use Rattle.judge_session.specs.Refusals.{HasNames, IsDocumentRefusal, NamesPlace, NamesStream, kind_word};
ghost use Rattle.def_format.specs.RefusalWords.{match_refusal, named_place, session_refusal, stream_word};
ghost use Rattle.def_format.specs.Reports as reports;
ghost use Rattle.pd_gather.specs.Views.{session_fault_view};
ghost use Rattle.pd_events.specs.Views.{stream_kind_view};
ghost use Rattle.pd_spec.specs.declared.fault.SpecFault.TheVariants as faults;
ghost use Rattle.pd_match.specs.Views.{match_fault_view, place_view};
ghost use Rattle.std.specs.Prelude.{◌≡◌, ◌<◌, All, IfOk, MatchOption, Some, length, map};

use pd_events::StreamKind;
use pd_gather::SessionFault;
use pd_match::{MatchFault, Place};
use pd_pred::{Names, PredError, PredErrorKind};
use pd_report::Refusal;
use pd_spec::SpecFault;
use std::alloc::{AllocError, Global};

/// The word for a predicate's fault, if it isn't out of memory.
fn predicate_word(kind: PredErrorKind) -> Option<&'static str>
    ensures { kind_word kind result }
{
    match kind {
        PredErrorKind::Long => Some("long"),
        PredErrorKind::Character => Some("character"),
        PredErrorKind::Number => Some("number"),
        PredErrorKind::Expected => Some("expected"),
        PredErrorKind::UnknownName => Some("unknownname"),
        PredErrorKind::Depth => Some("depth"),
        PredErrorKind::Memory => None,
    }
}

/// The refusal of a document by this word.
fn of_word(alloc: Global, word: &str) -> Result<Refusal, AllocError>
    ensures { IfOk result (λ refusal. refusal_view refusal ≡ reports.Spec word.now) }
{
    Ok(Refusal::Spec(String::from_str(alloc, word)?))
}

/// The refusal of predicate `k`, which is counted from 1.
///
/// # Errors
/// If the error is out of memory, or the word can't be copied because memory ran out.
fn of_predicate(alloc: Global, k: u64, error: PredError) -> Result<Refusal, AllocError>
    ensures { IfOk result (λ refusal. IsDocumentRefusal (faults.Predicate k error) (refusal_view refusal)) }
{
    match predicate_word(error.kind) {
        Some(word) => Ok(Refusal::Predicate {
            k,
            word: String::from_str(alloc, word)?,
            at: error.at,
        }),
        None => Err(AllocError),
    }
}

/// The refusal of a document with this fault.
///
/// # Errors
/// If the fault is out of memory, or the word can't be copied because memory ran out.
pub fn of_document(alloc: Global, fault: SpecFault) -> Result<Refusal, AllocError>
    ensures { IfOk result (λ refusal. IsDocumentRefusal fault (refusal_view refusal)) }
{
    let refusal = match fault {
        SpecFault::Long => of_word(alloc, "long")?,
        SpecFault::Json => of_word(alloc, "json")?,
        SpecFault::Shape => of_word(alloc, "shape")?,
        SpecFault::Processes => of_word(alloc, "processes")?,
        SpecFault::Name => of_word(alloc, "name")?,
        SpecFault::NameTwice => of_word(alloc, "nametwice")?,
        SpecFault::Vars => of_word(alloc, "vars")?,
        SpecFault::Predicates => of_word(alloc, "predicates")?,
        SpecFault::Width => of_word(alloc, "width")?,
        SpecFault::Predicate(k, error) => of_predicate(alloc, k, error)?,
        SpecFault::Version => of_word(alloc, "version")?,
        SpecFault::Memory => return Err(AllocError),
    };
    Ok(refusal)
}

/// The word of a report for a stream's fault.
pub fn stream_word(kind: StreamKind) -> &'static str
    ensures { result.now ≡ stream_word (stream_kind_view kind) }
{
    match kind {
        StreamKind::LineTooLong => "linetoolong",
        StreamKind::StreamTooLong => "streamtoolong",
        StreamKind::Json => "json",
        StreamKind::Shape => "shape",
        StreamKind::Join => "join",
        StreamKind::UnknownProcess => "unknownprocess",
        StreamKind::UnknownVar => "unknownvar",
        StreamKind::Value => "value",
        StreamKind::MessageId => "messageid",
        StreamKind::Events => "events",
        StreamKind::Unended => "unended",
        StreamKind::Read => "read",
    }
}

/// The refusal of streams with this fault. A report counts streams from 1.
///
/// # Errors
/// If the fault is out of memory, or the name can't be copied because memory ran out.
pub(crate) fn of_streams(
    alloc: Global,
    names: &Names,
    fault: SessionFault,
) -> Result<Refusal, AllocError>
    requires { NamesStream names.now fault }
    ensures { IfOk result (λ refusal. MatchOption (session_fault_view fault) ⊥ (λ seen. refusal_view refusal
        ≡ session_refusal names.now seen)) }
{
    match fault {
        SessionFault::Streams => Ok(Refusal::Streams),
        SessionFault::Stream(stream, fault) => Ok(Refusal::Stream {
            stream: stream + 1,
            line: fault.line,
            word: String::from_str(alloc, stream_word(fault.kind))?,
        }),
        SessionFault::Taken(stream, line) => Ok(Refusal::Stream {
            stream: stream + 1,
            line,
            word: String::from_str(alloc, "taken")?,
        }),
        SessionFault::Absent(process) => {
            let name = String::from_str(alloc, names.name(process))?;
            Ok(Refusal::Absent(name))
        }
        SessionFault::Memory => Err(AllocError),
    }
}

/// The name of a place's process, and the place's number.
fn name_and_number(alloc: Global, names: &Names, place: Place) -> Result<(String, u64), AllocError>
    requires { place.process < length names.now }
    ensures { IfOk result (λ named. named_place_view named ≡ named_place names.now (place_view place)) }
{
    let name = String::from_str(alloc, names.name(place.process))?;
    Ok((name, place.number))
}

/// The refusal of an event with this word.
fn of_event(alloc: Global, names: &Names, word: &str, place: Place) -> Result<Refusal, AllocError>
    requires { place.process < length names.now }
    ensures { IfOk result (λ refusal. refusal_view refusal
        ≡ reports.Match word.now (named_place names.now (place_view place))) }
{
    let (name, number) = name_and_number(alloc, names, place)?;
    Ok(Refusal::Match {
        word: String::from_str(alloc, word)?,
        name,
        number,
    })
}

/// The refusal of messages with this fault.
///
/// # Errors
/// If the fault is out of memory, or the name can't be copied because memory ran out.
pub(crate) fn of_messages(
    alloc: Global,
    names: &Names,
    fault: MatchFault,
) -> Result<Refusal, AllocError>
    requires { NamesPlace names.now fault }
    ensures { IfOk result (λ refusal. MatchOption (match_fault_view fault) ⊥ (λ seen. refusal_view refusal
        ≡ match_refusal names.now seen)) }
{
    let refusal = match fault {
        MatchFault::SendTwice(place) => of_event(alloc, names, "sendtwice", place)?,
        MatchFault::Orphan(place) => of_event(alloc, names, "orphan", place)?,
        MatchFault::SelfMessage(place) => of_event(alloc, names, "selfmessage", place)?,
        MatchFault::ReceivedTwice(place) => of_event(alloc, names, "receivedtwice", place)?,
        MatchFault::Memory => return Err(AllocError),
    };
    Ok(refusal)
}

/// The refusal of a causal cycle.
pub(crate) fn of_cycle(alloc: Global, names: &Names, cycle: &[Place]) -> Result<Refusal, AllocError>
    requires { All (HasNames names.now) cycle.now }
    ensures { IfOk result (λ refusal. refusal_view refusal
        ≡ reports.Cycle (map (λ place. named_place names.now (place_view place)) cycle.now)) }
{
    let mut places = Vec::new(alloc);
    for &place in cycle {
        places.push(name_and_number(alloc, names, place)?)?;
    }
    Ok(Refusal::Cycle(places))
}
