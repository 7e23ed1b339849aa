//! The data of a page.
ghost use Rattle.def_format.specs.Documents.{Document};
ghost use Rattle.pd_match.specs.Views.{pairs_view};
ghost use Rattle.def_model.specs.Events.{Computation, Place as EventPlace};
ghost use Rattle.out_page.specs.AnswerData.{Outcome as Shown};
ghost use Rattle.out_page.specs.JsonTexts.{lacks_less, listed};
ghost use Rattle.out_page.specs.Pages.{data_text, truth_text};
ghost use Rattle.out_page.specs.Written.{limits_text, named_text, report_text, run_text, session_text, sources_text};
ghost use Rattle.out_page.specs.ExtraData.{Extras};
ghost use Rattle.out_page.specs.SourceData.{Source as Recorded};
ghost use Rattle.out_page.specs.Views.{extras_view, outcome_view, sources_view};
ghost use Rattle.pd_spec.specs.Named.{named_view};
ghost use Rattle.pd_spec.specs.Views.{document_view};
ghost use Rattle.read_traces.specs.Views.{computation_view};
ghost use Rattle.std.specs.Prelude.{◌≡◌, ◌++◌, List, map, IfOk, OnOk, true};

use super::answer_data::push_outcome;
use super::event_data::{push_messages, push_processes, push_rows, push_traces};
use super::extra_data::push_extras;
use super::predicate_data::push_predicate;
use super::source_data::push_sources;
use super::{Content, Outcome, Source};
use pd_match::Place;
use pd_report::{push_bytes, push_number};
use pd_spec::{NamedPred, Spec};
use read_traces::Trace;
use std::alloc::{AllocError, Global};

/// The word for a truth.
fn truth_text(truth: bool) -> &'static [u8]
    ensures { result.now ≡ truth_text truth }
{
    if truth { b"true" } else { b"false" }
}

/// Appends the width, and whether more was asked for.
fn push_limits(out: &mut Vec<u8>, spec: &Spec) -> Result<(), AllocError>
    ensures { OnOk result (out.new.items ≡ out.old.items ++ limits_text (document_view spec.now)) }
{
    push_bytes(out, b"{\"format\":1,\n\"width\":")?;
    push_number(out, spec.width())?;
    push_bytes(out, b",\n\"beyond_width\":")?;
    push_bytes(out, truth_text(spec.beyond_width()))?;
    Ok(())
}

/// Appends the processes with their variables, and what these are before any event.
fn push_session(out: &mut Vec<u8>, spec: &Spec) -> Result<(), AllocError>
    ensures { OnOk result (out.new.items ≡ out.old.items ++ session_text (document_view spec.now)) }
{
    push_bytes(out, b",\n\"processes\":[")?;
    push_processes(out, spec.names())?;
    push_bytes(out, b"],\n\"initial\":[")?;
    push_rows(out, spec.initial_rows())?;
    push_bytes(out, b"]")?;
    Ok(())
}

/// Appends where the events of each process were recorded.
fn push_recorded(out: &mut Vec<u8>, sources: &[Source<'_>]) -> Result<(), AllocError>
    ensures { OnOk result (out.new.items ≡ out.old.items ++ sources_text (sources_view sources.now)) }
{
    push_bytes(out, b",\n\"sources\":[")?;
    push_sources(out, sources)?;
    push_bytes(out, b"]")?;
    Ok(())
}

/// Appends the events of each process, and the messages.
fn push_run(out: &mut Vec<u8>, traces: &[Trace], pairs: &[(Place, Place)]) -> Result<(), AllocError>
    ensures { OnOk result (out.new.items ≡ out.old.items
        ++ run_text (computation_view traces.now) (pairs_view pairs.now)) }
{
    push_bytes(out, b",\n\"events\":[")?;
    push_traces(out, traces)?;
    push_bytes(out, b"],\n\"messages\":[")?;
    push_messages(out, pairs)?;
    push_bytes(out, b"]")?;
    Ok(())
}

/// Appends the tree of a predicate.
fn push_named(out: &mut Vec<u8>, named: &NamedPred) -> Result<(), AllocError>
    ensures { OnOk result (out.new.items ≡ out.old.items ++ named_text (named_view named.now)) }
{
    push_predicate(out, named.pred.tree())
}

/// Appends predicates with a comma between each two.
fn push_predicates(out: &mut Vec<u8>, predicates: &[NamedPred]) -> Result<(), AllocError>
    ensures { OnOk result (out.new.items ≡ out.old.items
        ++ listed named_text (map named_view predicates.now)) }
{
    let Some((first, others)) = predicates.split_first() else {
        return Ok(());
    };
    push_named(out, first)?;
    for named in others {
        push_bytes(out, b",")?;
        push_named(out, named)?;
    }
    Ok(())
}

/// Appends the predicates, and what is shown of the report.
fn push_report(out: &mut Vec<u8>, spec: &Spec, outcome: Outcome<'_>) -> Result<(), AllocError>
    ensures { OnOk result (out.new.items ≡ out.old.items
        ++ report_text (document_view spec.now) (outcome_view outcome.entry)) }
{
    push_bytes(out, b",\n\"predicates\":[")?;
    push_predicates(out, spec.predicates())?;
    push_bytes(out, b"],\n")?;
    push_outcome(out, spec.names(), outcome)?;
    Ok(())
}

/// Appends the data of a page.
pub(crate) fn push_data(out: &mut Vec<u8>, content: &Content<'_, '_, '_>) -> Result<(), AllocError>
    ensures { OnOk result (out.new.items ≡ out.old.items ++ data_text (document_view content.now.spec.now)
        (extras_view content.now.extras.now) (sources_view content.now.sources.now)
        (computation_view content.now.traces.now) (pairs_view content.now.pairs.now) (outcome_view
        content.now.outcome)) }
{
    push_limits(out, content.spec)?;
    push_extras(out, content.spec, content.extras)?;
    push_session(out, content.spec)?;
    push_recorded(out, content.sources)?;
    push_run(out, content.traces, content.pairs)?;
    push_report(out, content.spec, content.outcome)?;
    push_bytes(out, b"}\n")?;
    Ok(())
}

/// The data of a page.
///
/// # Errors
/// Out of memory.
pub fn data(alloc: Global, content: &Content<'_, '_, '_>) -> Result<Vec<u8>, AllocError>
    ensures { IfOk result (λ text. text.items ≡ data_text (document_view content.now.spec.now)
        (extras_view content.now.extras.now) (sources_view content.now.sources.now)
        (computation_view content.now.traces.now) (pairs_view content.now.pairs.now) (outcome_view
        content.now.outcome)) }
{
    let mut out = Vec::new(alloc);
    push_data(&mut out, content)?;
    Ok(out)
}

/// The law of the data: whatever the session, the ids of its messages and its report are, no byte of it is `<`. So
/// nothing in it can end the element that it stands in. It has no code.
pub fn data_lacks_less()
    ensures { (document : Document) (extras : Extras) (sources : List Recorded) (events : Computation)
        (messages : List (EventPlace × EventPlace)) (outcome : Shown)
        → lacks_less (data_text document extras sources events messages outcome) ≡ true }
{}
