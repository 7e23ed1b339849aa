//! Why streams have no document, with the line that says so.
ghost use Rattle.app_infer.specs.Inferences.{refused_line};
ghost use Rattle.app_infer.specs.Outcomes.{refused_notice};
ghost use Rattle.judge_infer.specs.DocumentParts as documents;
ghost use Rattle.judge_infer.specs.Inferred.{fault_words};
ghost use Rattle.judge_infer.specs.Views.{document_fault_view, stream_fault_view};
ghost use Rattle.std.specs.Prelude.{◌≡◌, ◌++◌, [], IfOk, IsOkUnless, MatchOption, Some, map, slice_index_or};

use super::outcome::{InferOutcome, Reason};
use super::words::{reason_line, refused_line, same_line};
use judge_infer::{DocumentFault, StreamFault};
use judge_session::EngineFault;
use std::alloc::Global;

/// The name at this place; none has an empty one.
pub(crate) fn name_at<'a>(names: &[&'a str], place: usize) -> &'a str
    ensures { result.now ≡ slice_index_or (map (λ name. name.now) names.now) place [] }
{
    if place < names.len() {
        names[place]
    } else {
        ""
    }
}

/// The refusal of the stream of this name, at this place among the names.
///
/// # Errors
/// `Memory`.
pub(crate) fn stream_refusal(
    alloc: Global,
    name: &str,
    place: usize,
    fault: StreamFault,
) -> Result<InferOutcome, EngineFault>
    ensures notice { IfOk result (λ outcome. refused_notice outcome
        ≡ Some (refused_line (name.now ++ fault_words (stream_fault_view fault)))) }
    ensures err { IsOkUnless result EngineFault.Memory }
{
    let line = refused_line(alloc, name, fault)?;
    Ok(InferOutcome::Refused(Reason::Stream(place, fault), line))
}

/// The refusal of the streams in the files of these names together.
///
/// # Errors
/// `Memory`.
pub(crate) fn document_refusal(
    alloc: Global,
    names: &[&str],
    fault: DocumentFault,
) -> Result<InferOutcome, EngineFault>
    ensures notice { IfOk result (λ outcome. MatchOption (document_fault_view fault) ⊥ (λ f.
        refused_notice outcome ≡ Some (refused_line (documents.fault_words (map (λ name. name.now) names.now) f)))) }
    ensures err { IsOkUnless result EngineFault.Memory }
{
    let reason = Reason::Session(fault);
    match fault {
        DocumentFault::SameProcess(first, second) => {
            let line = same_line(alloc, name_at(names, first), name_at(names, second))?;
            Ok(InferOutcome::Refused(reason, line))
        }
        DocumentFault::TooMany => {
            let line = reason_line(alloc, "there are more than 16 streams")?;
            Ok(InferOutcome::Refused(reason, line))
        }
        DocumentFault::NoStream => {
            let line = reason_line(alloc, "there is no stream")?;
            Ok(InferOutcome::Refused(reason, line))
        }
        DocumentFault::Memory => Err(EngineFault::Memory),
    }
}
